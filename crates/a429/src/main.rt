//! The program `a429`: reads its words, opens what the command names, and ends with its status.
#![tactic(auto)]

ghost use Rattle.std.specs.Prelude.{◌≡◌, false, IfOk};
ghost use Rattle.a429_word.specs.Tally.{has_failed};

use a429_commands::{
    Claim, Command, Folder, IntoFolder, NewFile, PartFolder, PieceFolder, Rule, RunFault, Side,
    Span, command, read_whole, report, run_blocks, run_by_rule, run_cut, run_extract, run_forms,
    run_help, run_history, run_import, run_keep, run_labels, run_make, run_pack, run_picture,
    run_series, run_show, run_side, run_sink, run_survey, run_trace, run_units, run_upgrade,
    run_verify, run_version, run_why, run_word,
};
use a429_record::EntryReader;
use a429_view::UnitRows;
use a429_word::{Tally, Trouble};
use part_files::PartFiles;
use std::alloc::Global;
use std::io::{BufReader, BufWriter, ErrorKind, Read, Write};
use std::process::ExitCode;
use std::rt::{Env, Files};
use std::{env, fs, io};

mod part_files;

// How many bytes of a profile, of a recording or of a file to send are read at most.
const CAP: u64 = 67_108_864;

// How many bytes of a certificate are read at most.
const CERTIFICATE_CAP: u64 = 4_294_967_296;

// How many bytes of a certificate are asked for at once.
const CERTIFICATE_PIECE: usize = 65_536;

// What a claim names: a profile, which was read, and a recording and a certificate to read.
#[derive(Drop)]
struct Case<R: Read> {
    profile: Vec<u8>,
    rec: EntryReader<R>,
    cert: Tally<BufReader<R>>,
}

// What a command that writes a certificate is given: a profile, which was read, a recording to read, and a file for
// the certificate.
#[derive(Drop)]
struct Quest<'a, F: Files> {
    profile: Vec<u8>,
    rec: Tally<F::File>,
    cert: NewFile<'a, F>,
}

fn main(rt: HostRuntime) -> ExitCode {
    let status = match run(&rt) {
        Ok(status) => status,
        Err(fault) => report(&fault, &mut Tally::new(rt.stderr(), 0)),
    };
    ExitCode::from(status)
}

// Runs the command that the words ask for, and answers the exit status.
fn run(rt: &(impl Files + Env + Print + AllocGlobal + Clone + Drop)) -> Result<u8, RunFault> {
    let alloc = rt.alloc();
    let words = words_of(rt, alloc)?;
    let writer = BufWriter::new(alloc, io::writer(rt)).map_err(|_| RunFault::Memory)?;
    let out = Tally::new(writer, 0);
    answer(rt, alloc, command(alloc, words.as_slice())?, out)
}

// Answers a command. What waits to be written is flushed at its end.
fn answer<W: Write + Drop>(
    rt: &(impl Files + AllocGlobal + Clone + Drop),
    alloc: Global,
    command: Command<'_>,
    out: Tally<W>,
) -> Result<u8, RunFault> {
    let mut out = out;
    let status = match command {
        Command::Help => run_help(&mut out),
        Command::Version => run_version(&mut out),
        Command::Word(hex) => run_word(hex, &mut out),
        Command::Labels(profile) => labels(rt, alloc, profile, &mut out),
        Command::Show { profile, recording } => show(rt, alloc, profile, recording, &mut out),
        Command::Forms { profile, recording } => forms(rt, alloc, profile, recording, &mut out),
        Command::Survey { profile, recording } => survey(rt, alloc, profile, recording, &mut out),
        Command::Keep { profile, recording } => keep(rt, alloc, profile, recording, &mut out),
        Command::Cut {
            profile,
            recording,
            folder,
            most,
        } => cut(rt, alloc, profile, recording, folder, most, &mut out),
        Command::History(given) => history(rt, alloc, given, &mut out),
        Command::Side {
            profile,
            recording,
            side: wanted,
            new_rec,
        } => side(rt, alloc, profile, recording, wanted, new_rec, &mut out),
        Command::Import {
            map,
            export,
            new_rec,
        } => import(rt, alloc, map, export, new_rec, &mut out),
        Command::Trace { profile, recording } => trace(rt, alloc, profile, recording, &mut out),
        Command::Blocks { profile, recording } => blocks(rt, alloc, profile, recording, &mut out),
        Command::Sink { profile, recording } => sink(rt, alloc, profile, recording, &mut out),
        Command::Why { profile, recording } => why(rt, alloc, profile, recording, &mut out),
        Command::Make { profile, files } => make(rt, alloc, profile, files.as_slice(), &mut out),
        Command::Pack(recording) => pack(rt, alloc, recording, &mut out),
        Command::Check(claim) => find(rt, alloc, claim, Rule::Check, &mut out),
        Command::Decide(claim) => find(rt, alloc, claim, Rule::Decide, &mut out),
        Command::Verify(claim) => verify(rt, alloc, claim, &mut out),
        Command::Series { profile, folder } => series(rt, alloc, profile, folder, &mut out),
        Command::Units(claim) => return units(rt, alloc, claim, out),
        Command::Picture { claim, span } => picture(rt, alloc, claim, span, &mut out),
        Command::Extract { claim, folder } => extract(rt, alloc, claim, folder, &mut out),
        Command::Upgrade { cert, new_cert } => upgrade(rt, alloc, cert, new_cert, &mut out),
    };
    flushed(status, &mut out)
}

// The status of a command that has ended, once what waits to be written is flushed.
fn flushed<W: Write>(status: Result<u8, RunFault>, out: &mut Tally<W>) -> Result<u8, RunFault> {
    let status = status?;
    out.flush().map_err(|_| RunFault::Device)?;
    Ok(status)
}

fn labels<W: Write>(
    rt: &impl Files,
    alloc: Global,
    profile: &str,
    out: &mut Tally<W>,
) -> Result<u8, RunFault> {
    let profile = bytes_of(rt, alloc, profile)?;
    run_labels(alloc, profile.as_slice(), out)
}

fn pack<W: Write>(
    rt: &impl Files,
    alloc: Global,
    recording: &str,
    out: &mut Tally<W>,
) -> Result<u8, RunFault> {
    let mut rec = opened(rt, recording, CAP)?;
    run_pack(alloc, &mut rec, out)
}

fn show<W: Write>(
    rt: &impl Files,
    alloc: Global,
    profile: &str,
    recording: &str,
    out: &mut Tally<W>,
) -> Result<u8, RunFault> {
    let profile = bytes_of(rt, alloc, profile)?;
    let mut rec = opened(rt, recording, CAP)?;
    run_show(alloc, profile.as_slice(), &mut rec, out)
}

fn forms<W: Write>(
    rt: &impl Files,
    alloc: Global,
    profile: &str,
    recording: &str,
    out: &mut Tally<W>,
) -> Result<u8, RunFault> {
    let profile = bytes_of(rt, alloc, profile)?;
    let mut rec = opened(rt, recording, CAP)?;
    run_forms(alloc, profile.as_slice(), &mut rec, out)
}

fn survey<W: Write>(
    rt: &impl Files,
    alloc: Global,
    profile: &str,
    recording: &str,
    out: &mut Tally<W>,
) -> Result<u8, RunFault> {
    let profile = bytes_of(rt, alloc, profile)?;
    let mut rec = opened_whole(rt, alloc, recording)?;
    run_survey(alloc, profile.as_slice(), &mut rec, out)
}

fn keep<W: Write>(
    rt: &impl Files,
    alloc: Global,
    profile: &str,
    recording: &str,
    out: &mut Tally<W>,
) -> Result<u8, RunFault> {
    let profile = bytes_of(rt, alloc, profile)?;
    let mut rec = opened_whole(rt, alloc, recording)?;
    let status = run_keep(alloc, profile.as_slice(), &mut rec, out);
    written(status, out)
}

fn cut<W: Write>(
    rt: &(impl Files + AllocGlobal + Clone + Drop),
    alloc: Global,
    profile: &str,
    recording: &str,
    folder: &str,
    most: usize,
    out: &mut Tally<W>,
) -> Result<u8, RunFault> {
    let profile = bytes_of(rt, alloc, profile)?;
    let mut rec = opened_whole(rt, alloc, recording)?;
    let mut parts = PartFolder::open(rt, alloc, folder)?;
    let status = run_cut(alloc, profile.as_slice(), most, &mut rec, &mut parts, out);
    parts.settle(written(status, out))
}

fn history<W: Write>(
    rt: &(impl Files + AllocGlobal + Clone + Drop),
    alloc: Global,
    given: IntoFolder<'_>,
    out: &mut Tally<W>,
) -> Result<u8, RunFault> {
    let profile = bytes_of(rt, alloc, given.profile)?;
    let mut rec = opened_whole(rt, alloc, given.recording)?;
    let mut pieces = PieceFolder::open(rt, alloc, given.folder)?;
    let status = run_history(alloc, profile.as_slice(), &mut rec, &mut pieces, out);
    pieces.settle(flushed(status, out))
}

fn side<W: Write>(
    rt: &impl Files,
    alloc: Global,
    profile: &str,
    recording: &str,
    wanted: Side,
    new_rec: &str,
    out: &mut Tally<W>,
) -> Result<u8, RunFault> {
    let profile = bytes_of(rt, alloc, profile)?;
    let mut rec = opened_whole(rt, alloc, recording)?;
    let mut new_rec = emptied(rt, alloc, new_rec)?;
    let status = run_side(
        alloc,
        profile.as_slice(),
        wanted,
        &mut rec,
        &mut new_rec.out,
        out,
    );
    new_rec.settle(status)
}

fn import<W: Write>(
    rt: &impl Files,
    alloc: Global,
    map: &str,
    export: &str,
    new_rec: &str,
    out: &mut Tally<W>,
) -> Result<u8, RunFault> {
    let map = bytes_of(rt, alloc, map)?;
    let mut export = opened(rt, export, u64::MAX)?;
    let mut new_rec = emptied(rt, alloc, new_rec)?;
    let status = run_import(alloc, map.as_slice(), &mut export, &mut new_rec.out, out);
    new_rec.settle(status)
}

fn trace<W: Write>(
    rt: &impl Files,
    alloc: Global,
    profile: &str,
    recording: &str,
    out: &mut Tally<W>,
) -> Result<u8, RunFault> {
    let profile = bytes_of(rt, alloc, profile)?;
    let mut rec = opened_whole(rt, alloc, recording)?;
    let status = run_trace(alloc, profile.as_slice(), &mut rec, out);
    written(status, out)
}

fn blocks<W: Write>(
    rt: &impl Files,
    alloc: Global,
    profile: &str,
    recording: &str,
    out: &mut Tally<W>,
) -> Result<u8, RunFault> {
    let profile = bytes_of(rt, alloc, profile)?;
    let mut rec = opened_whole(rt, alloc, recording)?;
    let status = run_blocks(alloc, profile.as_slice(), &mut rec, out);
    written(status, out)
}

fn sink<W: Write>(
    rt: &impl Files,
    alloc: Global,
    profile: &str,
    recording: &str,
    out: &mut Tally<W>,
) -> Result<u8, RunFault> {
    let profile = bytes_of(rt, alloc, profile)?;
    let mut rec = opened_whole(rt, alloc, recording)?;
    run_sink(alloc, profile.as_slice(), &mut rec, out)
}

fn why<W: Write>(
    rt: &impl Files,
    alloc: Global,
    profile: &str,
    recording: &str,
    out: &mut Tally<W>,
) -> Result<u8, RunFault> {
    let profile = bytes_of(rt, alloc, profile)?;
    let mut rec = opened(rt, recording, CAP)?;
    run_why(alloc, profile.as_slice(), &mut rec, out)
}

// The answer of a command that writes as it reads: the lines before a fault are flushed too.
fn written<W: Write>(status: Result<u8, RunFault>, out: &mut Tally<W>) -> Result<u8, RunFault> {
    out.flush().map_err(|_| RunFault::Device)?;
    status
}

fn make<W: Write>(
    rt: &impl Files,
    alloc: Global,
    profile: &str,
    files: &[&str],
    out: &mut Tally<W>,
) -> Result<u8, RunFault> {
    let profile = bytes_of(rt, alloc, profile)?;
    let files = read_all(rt, alloc, files)?;
    run_make(alloc, profile.as_slice(), files.as_slice(), out)
}

// Finds a certificate, by this rule.
fn find<W: Write>(
    rt: &impl Files,
    alloc: Global,
    claim: Claim<'_>,
    rule: Rule,
    out: &mut Tally<W>,
) -> Result<u8, RunFault> {
    let Quest {
        profile,
        mut rec,
        mut cert,
    } = opened_quest(rt, alloc, claim)?;
    let status = run_by_rule(
        alloc,
        profile.as_slice(),
        &mut rec,
        &mut cert.out,
        out,
        rule,
    );
    cert.settle(status)
}

fn verify<W: Write>(
    rt: &impl Files,
    alloc: Global,
    claim: Claim<'_>,
    out: &mut Tally<W>,
) -> Result<u8, RunFault> {
    let mut case = opened_claim(rt, alloc, claim)?;
    run_verify(
        alloc,
        case.profile.as_slice(),
        &mut case.rec,
        &mut case.cert,
        out,
    )
}

fn series<W: Write>(
    rt: &impl Files,
    alloc: Global,
    profile: &str,
    folder: &str,
    out: &mut Tally<W>,
) -> Result<u8, RunFault> {
    let profile = bytes_of(rt, alloc, profile)?;
    let mut parts = PartFiles::new(rt, alloc, folder);
    let list = parts.list()?;
    run_series(alloc, profile.as_slice(), list.as_slice(), &mut parts, out)
}

// The rows have the output to themselves: what waits to be written is flushed here.
fn units<W: Write + Drop>(
    rt: &impl Files,
    alloc: Global,
    claim: Claim<'_>,
    out: Tally<W>,
) -> Result<u8, RunFault> {
    let mut case = opened_claim(rt, alloc, claim)?;
    let mut rows = UnitRows::new(alloc, out)?;
    let status = run_units(
        alloc,
        case.profile.as_slice(),
        &mut case.rec,
        &mut case.cert,
        &mut rows,
    );
    flushed(status, &mut rows.out)
}

fn extract<W: Write>(
    rt: &(impl Files + AllocGlobal + Clone + Drop),
    alloc: Global,
    claim: Claim<'_>,
    folder: &str,
    out: &mut Tally<W>,
) -> Result<u8, RunFault> {
    let mut case = opened_claim(rt, alloc, claim)?;
    let mut folder = Folder::open(rt, alloc, folder)?;
    run_extract(
        alloc,
        case.profile.as_slice(),
        &mut case.rec,
        &mut case.cert,
        &mut folder,
        out,
    )
}

fn picture<W: Write>(
    rt: &impl Files,
    alloc: Global,
    claim: Claim<'_>,
    span: Span,
    out: &mut Tally<W>,
) -> Result<u8, RunFault> {
    let mut case = opened_claim(rt, alloc, claim)?;
    run_picture(
        alloc,
        case.profile.as_slice(),
        &mut case.rec,
        &mut case.cert,
        span,
        out,
    )
}

fn upgrade<W: Write>(
    rt: &impl Files,
    alloc: Global,
    cert: &str,
    new_cert: &str,
    out: &mut Tally<W>,
) -> Result<u8, RunFault> {
    let mut cert = opened(rt, cert, CERTIFICATE_CAP)?;
    let mut new_cert = emptied(rt, alloc, new_cert)?;
    let status = run_upgrade(&mut cert, &mut new_cert.out, out);
    new_cert.settle(status)
}

// The bytes of each of these files.
fn read_all(rt: &impl Files, alloc: Global, paths: &[&str]) -> Result<Vec<Vec<u8>>, RunFault> {
    let mut files = Vec::new(alloc);
    for path in paths {
        let bytes = bytes_of(rt, alloc, path)?;
        if files.push(bytes).is_err() {
            return Err(RunFault::Memory);
        }
    }
    Ok(files)
}

// The words after the program's name. One that is no text is no word of any command.
fn words_of(rt: &(impl Env + AllocGlobal), alloc: Global) -> Result<Vec<String>, RunFault> {
    let args = env::args(rt).map_err(|error| match error.kind() {
        ErrorKind::InvalidData => RunFault::Usage,
        _ => RunFault::Memory,
    })?;
    Ok(args.skip(1).collect(alloc)?)
}

// The files of a command that writes a certificate, opened in this order.
fn opened_quest<'a, F: Files>(
    rt: &'a F,
    alloc: Global,
    claim: Claim<'_>,
) -> Result<Quest<'a, F>, RunFault> {
    Ok(Quest {
        profile: bytes_of(rt, alloc, claim.profile)?,
        rec: opened(rt, claim.recording, CAP)?,
        cert: emptied(rt, alloc, claim.certificate)?,
    })
}

// The files that a claim names, opened in this order.
fn opened_claim<F: Files>(
    rt: &F,
    alloc: Global,
    claim: Claim<'_>,
) -> Result<Case<F::File>, RunFault> {
    Ok(Case {
        profile: bytes_of(rt, alloc, claim.profile)?,
        rec: EntryReader::new(alloc, opened(rt, claim.recording, CAP)?),
        cert: opened_certificate(rt, alloc, claim.certificate)?,
    })
}

// A file to read. One that cannot be opened is reported as one that fails.
fn opened<F: Files>(rt: &F, path: &str, cap: u64) -> Result<Tally<F::File>, RunFault>
    ensures { IfOk result (λ file. has_failed file ≡ false) }
{
    let file = fs::open(rt, path).map_err(|_| RunFault::Device)?;
    Ok(Tally::new(file, cap))
}

// A recording of any length to read.
fn opened_whole<F: Files>(
    rt: &F,
    alloc: Global,
    path: &str,
) -> Result<EntryReader<F::File>, RunFault> {
    let rec = opened(rt, path, u64::MAX)?;
    Ok(EntryReader::of_most(alloc, rec, usize::MAX))
}

// A certificate to read, in pieces that are larger than its longest line.
fn opened_certificate<F: Files>(
    rt: &F,
    alloc: Global,
    path: &str,
) -> Result<Tally<BufReader<F::File>>, RunFault> {
    let file = fs::open(rt, path).map_err(|_| RunFault::Device)?;
    let reader = BufReader::with_capacity(alloc, CERTIFICATE_PIECE, file);
    Ok(Tally::new(reader.map_err(|_| RunFault::Memory)?, CERTIFICATE_CAP))
}

// A file to write, which is emptied first.
fn emptied<'a, F: Files>(rt: &'a F, alloc: Global, path: &str) -> Result<NewFile<'a, F>, RunFault> {
    NewFile::create_empty(rt, alloc, path).map_err(|trouble| match trouble {
        Trouble::Device => RunFault::Device,
        Trouble::OutOfMemory => RunFault::Memory,
    })
}

// The bytes of a file.
fn bytes_of(rt: &impl Files, alloc: Global, path: &str) -> Result<Vec<u8>, RunFault> {
    read_whole(alloc, &mut opened(rt, path, CAP)?)
}
