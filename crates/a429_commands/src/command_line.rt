//! Reads the words after `a429`.

ghost use Rattle.std.specs.Prelude.{◌≡◌, ◌↔◌, ◌≤◌, ◌⊎◌, IsTrue, IfOk, IfErr};
ghost use Rattle.a429_commands.specs.Names.{IsCertificateApart, KeepsInputs, MayWrite};

use crate::fault::RunFault;
use a429_record::MOST_ENTRIES;
use a429_side::Side;
use a429_view::Span;
use a429_word::Bus;
use clap::error::ErrorKind;
use clap::{Arg, ArgAction, ArgMatches, Command as Parser};
use commands::{Claim, Command, IntoFolder};
use std::alloc::{AllocError, Global};

pub mod commands;

// Each command, and the names of the words that it takes.
const COMMANDS: [(&str, &[&str]); 25] = [
    ("version", &[]),
    ("word", &["HEX"]),
    ("labels", &["PROFILE"]),
    ("pack", &["REC"]),
    ("show", &["PROFILE", "REC"]),
    ("forms", &["PROFILE", "REC"]),
    ("survey", &["PROFILE", "REC"]),
    ("keep", &["PROFILE", "REC"]),
    ("trace", &["PROFILE", "REC"]),
    ("blocks", &["PROFILE", "REC"]),
    ("sink", &["PROFILE", "REC"]),
    ("history", &["PROFILE", "REC", "DIR"]),
    ("cut", &["PROFILE", "REC", "DIR", "MOST"]),
    ("side", &["PROFILE", "REC", "LINE", "OUT", "ANSWER"]),
    ("import", &["MAP", "EXPORT", "OUT"]),
    ("check", &["PROFILE", "REC", "CERT"]),
    ("decide", &["PROFILE", "REC", "CERT"]),
    ("why", &["PROFILE", "REC"]),
    ("verify", &["PROFILE", "REC", "CERT"]),
    ("units", &["PROFILE", "REC", "CERT"]),
    ("extract", &["PROFILE", "REC", "CERT", "DIR"]),
    ("picture", &["PROFILE", "REC", "CERT", "FROM", "TO"]),
    ("upgrade", &["CERT", "OUT"]),
    ("series", &["PROFILE", "DIR"]),
    ("make", &["PROFILE", "FILE"]),
];

/// Reads the words after `a429`. `--help` or `-h` alone is a wish for help. The fault is `Memory` where memory was refused, and else
/// `Usage`: no command or an unknown one, too few or too many words, an option, or a name to write to that is empty or written like
/// the name of something to read.
pub fn command<'a>(alloc: Global, words: &'a [String]) -> Result<Command<'a>, RunFault>
    ensures apart { IfOk result KeepsInputs }
    ensures err { IfErr result (λ e. (e ≡ RunFault.Memory) ⊎ (e ≡ RunFault.Usage)) }
{
    if is_for_help(words) {
        return Ok(Command::Help);
    }
    match parser(alloc, words)?.try_get_matches_from(words) {
        Ok(matches) => command_of(alloc, &matches),
        Err(error) => Err(fault_of(error.kind())),
    }
}

// Whether these words ask for help, and for nothing else.
fn is_for_help(words: &[String]) -> bool {
    match words {
        [word] => matches!(word.as_str(), "--help" | "-h"),
        _ => false,
    }
}

// The command that the words name.
fn command_of<'a>(alloc: Global, matches: &ArgMatches<'a>) -> Result<Command<'a>, RunFault>
    ensures apart { IfOk result KeepsInputs }
    ensures err { IfErr result (λ e. (e ≡ RunFault.Memory) ⊎ (e ≡ RunFault.Usage)) }
{
    match matches.subcommand() {
        Some((name, given)) => of_name(alloc, name, given),
        None => Err(RunFault::Usage),
    }
}

// The command of this name.
fn of_name<'a>(alloc: Global, name: &str, given: &ArgMatches<'a>) -> Result<Command<'a>, RunFault>
    ensures apart { IfOk result KeepsInputs }
    ensures err { IfErr result (λ e. (e ≡ RunFault.Memory) ⊎ (e ≡ RunFault.Usage)) }
{
    match name {
        "version" => Ok(Command::Version),
        "word" => word_of(given),
        "labels" => labels_of(given),
        "pack" => pack_of(given),
        "upgrade" => upgrade_of(given),
        "series" => series_of(given),
        "make" => make_of(alloc, given),
        "cut" => cut_of(given),
        "side" => side_of(given),
        "import" => import_of(given),
        _ => of_recording(name, given),
    }
}

fn word_of<'a>(given: &ArgMatches<'a>) -> Result<Command<'a>, RunFault>
    ensures apart { IfOk result KeepsInputs }
    ensures err { IfErr result (λ e. e ≡ RunFault.Usage) }
{
    match given.get_str("HEX") {
        Some(hex) => Ok(Command::Word(hex)),
        None => Err(RunFault::Usage),
    }
}

fn labels_of<'a>(given: &ArgMatches<'a>) -> Result<Command<'a>, RunFault>
    ensures apart { IfOk result KeepsInputs }
    ensures err { IfErr result (λ e. e ≡ RunFault.Usage) }
{
    match given.get_str("PROFILE") {
        Some(profile) => Ok(Command::Labels(profile)),
        None => Err(RunFault::Usage),
    }
}

fn pack_of<'a>(given: &ArgMatches<'a>) -> Result<Command<'a>, RunFault>
    ensures apart { IfOk result KeepsInputs }
    ensures err { IfErr result (λ e. e ≡ RunFault.Usage) }
{
    match given.get_str("REC") {
        Some(recording) => Ok(Command::Pack(recording)),
        None => Err(RunFault::Usage),
    }
}

fn upgrade_of<'a>(given: &ArgMatches<'a>) -> Result<Command<'a>, RunFault>
    ensures apart { IfOk result KeepsInputs }
    ensures err { IfErr result (λ e. e ≡ RunFault.Usage) }
{
    match (given.get_str("CERT"), given.get_str("OUT")) {
        (Some(cert), Some(new_cert)) if may_write(new_cert, cert) => Ok(Command::Upgrade {
            cert,
            new_cert,
        }),
        _ => Err(RunFault::Usage),
    }
}

fn series_of<'a>(given: &ArgMatches<'a>) -> Result<Command<'a>, RunFault>
    ensures apart { IfOk result KeepsInputs }
    ensures err { IfErr result (λ e. e ≡ RunFault.Usage) }
{
    match (given.get_str("PROFILE"), given.get_str("DIR")) {
        (Some(profile), Some(folder)) => Ok(Command::Series { profile, folder }),
        _ => Err(RunFault::Usage),
    }
}

fn make_of<'a>(alloc: Global, given: &ArgMatches<'a>) -> Result<Command<'a>, RunFault>
    ensures apart { IfOk result KeepsInputs }
    ensures err { IfErr result (λ e. (e ≡ RunFault.Memory) ⊎ (e ≡ RunFault.Usage)) }
{
    match given.get_str("PROFILE") {
        Some(profile) => Ok(Command::Make {
            profile,
            files: all_of(alloc, given.get_strs("FILE"))?,
        }),
        None => Err(RunFault::Usage),
    }
}

// Why words are refused.
fn fault_of(kind: ErrorKind) -> RunFault
    ensures { (result ≡ RunFault.Memory) ⊎ (result ≡ RunFault.Usage) }
{
    match kind {
        ErrorKind::OutOfMemory => RunFault::Memory,
        _ => RunFault::Usage,
    }
}

// The commands that take a profile and a recording, and then more.
fn of_recording<'a>(name: &str, given: &ArgMatches<'a>) -> Result<Command<'a>, RunFault>
    ensures apart { IfOk result KeepsInputs }
    ensures err { IfErr result (λ e. e ≡ RunFault.Usage) }
{
    match (given.get_str("PROFILE"), given.get_str("REC")) {
        (Some(profile), Some(recording)) => of_both(name, given, profile, recording),
        _ => Err(RunFault::Usage),
    }
}

// The command of this name on a profile and a recording.
fn of_both<'a>(
    name: &str,
    given: &ArgMatches<'a>,
    profile: &'a str,
    recording: &'a str,
) -> Result<Command<'a>, RunFault>
    ensures apart { IfOk result KeepsInputs }
    ensures err { IfErr result (λ e. e ≡ RunFault.Usage) }
{
    match name {
        "show" => Ok(Command::Show { profile, recording }),
        "forms" => Ok(Command::Forms { profile, recording }),
        "survey" => Ok(Command::Survey { profile, recording }),
        "keep" => Ok(Command::Keep { profile, recording }),
        "trace" => Ok(Command::Trace { profile, recording }),
        "blocks" => Ok(Command::Blocks { profile, recording }),
        "sink" => Ok(Command::Sink { profile, recording }),
        "why" => Ok(Command::Why { profile, recording }),
        "history" => history_of(given, profile, recording),
        _ => match given.get_str("CERT") {
            Some(certificate) => of_claim(
                name,
                given,
                Claim {
                    profile,
                    recording,
                    certificate,
                },
            ),
            None => Err(RunFault::Usage),
        },
    }
}

// The command that puts a recording in pieces.
fn history_of<'a>(
    given: &ArgMatches<'a>,
    profile: &'a str,
    recording: &'a str,
) -> Result<Command<'a>, RunFault>
    ensures apart { IfOk result KeepsInputs }
    ensures err { IfErr result (λ e. e ≡ RunFault.Usage) }
{
    match given.get_str("DIR") {
        Some(folder) if may_write(folder, profile) && may_write(folder, recording) => {
            Ok(Command::History(IntoFolder {
                profile,
                recording,
                folder,
            }))
        }
        _ => Err(RunFault::Usage),
    }
}

// The command of this name on a certificate.
fn of_claim<'a>(
    name: &str,
    given: &ArgMatches<'a>,
    claim: Claim<'a>,
) -> Result<Command<'a>, RunFault>
    ensures apart { IfOk result KeepsInputs }
    ensures err { IfErr result (λ e. e ≡ RunFault.Usage) }
{
    match name {
        "check" if is_apart(&claim) => Ok(Command::Check(claim)),
        "decide" if is_apart(&claim) => Ok(Command::Decide(claim)),
        "verify" => Ok(Command::Verify(claim)),
        "units" => Ok(Command::Units(claim)),
        "extract" => extract_of(given, claim),
        "picture" => picture_of(given, claim),
        _ => Err(RunFault::Usage),
    }
}

fn extract_of<'a>(given: &ArgMatches<'a>, claim: Claim<'a>) -> Result<Command<'a>, RunFault>
    ensures apart { IfOk result KeepsInputs }
    ensures err { IfErr result (λ e. e ≡ RunFault.Usage) }
{
    match given.get_str("DIR") {
        Some(folder) if is_new(folder, &claim) => Ok(Command::Extract { claim, folder }),
        _ => Err(RunFault::Usage),
    }
}

fn picture_of<'a>(given: &ArgMatches<'a>, claim: Claim<'a>) -> Result<Command<'a>, RunFault>
    ensures apart { IfOk result KeepsInputs }
    ensures err { IfErr result (λ e. e ≡ RunFault.Usage) }
{
    match span_of(given) {
        Ok(span) => Ok(Command::Picture { claim, span }),
        Err(fault) => Err(fault),
    }
}

// The command that cuts a recording into parts.
fn cut_of<'a>(given: &ArgMatches<'a>) -> Result<Command<'a>, RunFault>
    ensures apart { IfOk result KeepsInputs }
    ensures err { IfErr result (λ e. e ≡ RunFault.Usage) }
{
    let words = (
        given.get_str("PROFILE"),
        given.get_str("REC"),
        given.get_str("DIR"),
    );
    let (Some(profile), Some(recording), Some(folder)) = words else {
        return Err(RunFault::Usage);
    };
    if !may_write(folder, profile) || !may_write(folder, recording) {
        return Err(RunFault::Usage);
    }
    Ok(Command::Cut {
        profile,
        recording,
        folder,
        most: most_of(given.get_str("MOST"))?,
    })
}

// The command that writes the words of one direction.
fn side_of<'a>(given: &ArgMatches<'a>) -> Result<Command<'a>, RunFault>
    ensures apart { IfOk result KeepsInputs }
    ensures err { IfErr result (λ e. e ≡ RunFault.Usage) }
{
    let words = (
        given.get_str("PROFILE"),
        given.get_str("REC"),
        given.get_str("OUT"),
    );
    let (Some(profile), Some(recording), Some(new_rec)) = words else {
        return Err(RunFault::Usage);
    };
    if !may_write(new_rec, profile) || !may_write(new_rec, recording) {
        return Err(RunFault::Usage);
    }
    Ok(Command::Side {
        profile,
        recording,
        side: Side {
            line: line_of(given.get_str("LINE"))?,
            answer: answer_of(given.get_str("ANSWER"))?,
        },
        new_rec,
    })
}

// The command that makes a recording of an export.
fn import_of<'a>(given: &ArgMatches<'a>) -> Result<Command<'a>, RunFault>
    ensures apart { IfOk result KeepsInputs }
    ensures err { IfErr result (λ e. e ≡ RunFault.Usage) }
{
    let words = (
        given.get_str("MAP"),
        given.get_str("EXPORT"),
        given.get_str("OUT"),
    );
    let (Some(map), Some(export), Some(new_rec)) = words else {
        return Err(RunFault::Usage);
    };
    if !may_write(new_rec, map) || !may_write(new_rec, export) {
        return Err(RunFault::Usage);
    }
    Ok(Command::Import {
        map,
        export,
        new_rec,
    })
}

// The line of this name.
fn line_of(name: Option<&str>) -> Result<Bus, RunFault>
    ensures err { IfErr result (λ e. e ≡ RunFault.Usage) }
{
    match name {
        Some("A") => Ok(Bus::A),
        Some("B") => Ok(Bus::B),
        _ => Err(RunFault::Usage),
    }
}

// The destination code that two hexadecimal digits write, and none where they are left out.
fn answer_of(text: Option<&str>) -> Result<Option<u8>, RunFault>
    ensures err { IfErr result (λ e. e ≡ RunFault.Usage) }
{
    let Some(text) = text else {
        return Ok(None);
    };
    if text.len() != 2 || text.starts_with('+') {
        return Err(RunFault::Usage);
    }
    match u8::from_str_radix(text, 16) {
        Ok(code) => Ok(Some(code)),
        Err(_) => Err(RunFault::Usage),
    }
}

// The most entries of a part: 1 to 1,000,000, in decimal digits, and 1,000,000 where it is left out.
fn most_of(text: Option<&str>) -> Result<usize, RunFault>
    ensures most { IfOk result (λ most. (1 ≤ most) × (most ≤ 1000000)) }
    ensures err { IfErr result (λ e. e ≡ RunFault.Usage) }
{
    let Some(text) = text else {
        return Ok(MOST_ENTRIES);
    };
    match text.parse() {
        Ok(most) if 1 <= most && most <= MOST_ENTRIES && !text.starts_with('+') => Ok(most),
        _ => Err(RunFault::Usage),
    }
}

// Whether the certificate, which is written, has a name, and not that of the profile or the recording.
fn is_apart(claim: &Claim<'_>) -> bool
    ensures { IsTrue result ↔ IsCertificateApart claim.now }
{
    may_write(claim.certificate, claim.profile) && may_write(claim.certificate, claim.recording)
}

// Whether a folder has a name, and not that of one of the files that are read.
fn is_new(folder: &str, claim: &Claim<'_>) -> bool
    ensures { IsTrue result ↔ (MayWrite folder.now claim.now.profile.now × MayWrite folder.now claim.now.recording.now × MayWrite folder.now claim.now.certificate.now) }
{
    may_write(folder, claim.profile)
        && may_write(folder, claim.recording)
        && may_write(folder, claim.certificate)
}

// Whether a name to write to is not empty, and not written like this one, which is read.
fn may_write(name: &str, read: &str) -> bool
    ensures { IsTrue result ↔ MayWrite name.now read.now }
{
    !name.is_empty() && name != read
}

// The span of the entries FROM to TO.
fn span_of(given: &ArgMatches<'_>) -> Result<Span, RunFault>
    ensures order { IfOk result (λ span. span.from ≤ span.to) }
    ensures err { IfErr result (λ e. e ≡ RunFault.Usage) }
{
    match (
        entry_number(given.get_str("FROM")),
        entry_number(given.get_str("TO")),
    ) {
        (Some(from), Some(to)) if from <= to => Ok(Span { from, to }),
        _ => Err(RunFault::Usage),
    }
}

// The number of an entry, in decimal digits.
fn entry_number(text: Option<&str>) -> Option<usize> {
    text?.parse().ok()
}

// The command that the words name, if there is one, and the words that it takes: to make all 25 would take half of a call's start.
fn parser<'a>(alloc: Global, given: &[String]) -> Result<Parser<'a>, AllocError> {
    let all = Parser::new(alloc, "a429")
        .no_binary_name(true)
        .subcommand_required(true);
    let mut all = Ok(all);
    'commands: for (name, words) in COMMANDS {
        if is_first(name, given) {
            all = with(all, with_words(alloc, name, words));
        }
    }
    all
}

// Whether this is the first of the words.
fn is_first(name: &str, words: &[String]) -> bool {
    match words {
        [first, ..] => first.as_str() == name,
        [] => false,
    }
}

// These commands and one more.
fn with<'a>(
    all: Result<Parser<'a>, AllocError>,
    command: Result<Parser<'a>, AllocError>,
) -> Result<Parser<'a>, AllocError> {
    all?.subcommand(command?)
}

// A command that takes these words.
fn with_words<'a>(
    alloc: Global,
    name: &'a str,
    words: &[&'a str],
) -> Result<Parser<'a>, AllocError> {
    let mut command = Ok(Parser::new(alloc, name));
    'words: for word in words {
        command = taking(command, word_of_name(alloc, word));
    }
    command
}

// A command that takes one word more.
fn taking<'a>(
    command: Result<Parser<'a>, AllocError>,
    word: Arg<'a>,
) -> Result<Parser<'a>, AllocError> {
    command?.arg(word)
}

// The word of this name: it comes once, but for MOST and ANSWER, which may be left out, and FILE, which may come any number of times.
fn word_of_name<'a>(alloc: Global, name: &'a str) -> Arg<'a> {
    match name {
        "MOST" | "ANSWER" => Arg::new(alloc, name).action(ArgAction::Set),
        "FILE" => Arg::new(alloc, name)
            .num_args(0..)
            .action(ArgAction::Append),
        _ => Arg::new(alloc, name).required(true).action(ArgAction::Set),
    }
}

// The words of a list, if there are any.
fn all_of<'a>(alloc: Global, given: Option<&[&'a str]>) -> Result<Vec<&'a str>, AllocError> {
    match given {
        Some(words) => Vec::from_slice(alloc, words),
        None => Ok(Vec::new(alloc)),
    }
}
