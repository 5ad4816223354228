//! A certificate's lines, one after the other, replayed over the entries of a recording.

ghost use Rattle.std.specs.Prelude.{◌≡◌, ◌≤◌, ◌⊎◌, ◌+◌, [], ◌∷◌, ◌++◌, true, Option, None, option_map, IfOk, IfErr, IfSome, IsSome, IsErrOf, OnOk, OnErr};
ghost use Rattle.a429_profile.specs.Profile.{IsProfile};
ghost use Rattle.a429_ldu.specs.Ldu.{IsLdu};
ghost use Rattle.a429_link.specs.declared.seen.Seen.{Seen};
ghost use Rattle.a429_link.specs.State.{start};
ghost use Rattle.a429_record.specs.declared.fault.ReadFault.TheVariants as read;
ghost use Rattle.a429_record.specs.Rows.{GivesNext, entries_in};
ghost use Rattle.a429_cert.specs.Likely.{SaysAlways};
ghost use Rattle.a429_cert.specs.Lines.{line_bytes};
ghost use Rattle.a429_cert.specs.Shelf.{IsUnchanged};
ghost use Rattle.a429_cert.specs.Version.{read_as};
ghost use Rattle.a429_cert.specs.Passing.{IsReady, PassesListed, uses_listed};
ghost use Rattle.a429_cert.specs.Explained.{seen_of};
ghost use Rattle.a429_cert.specs.Report.{listening, TriesSome, IsNextEntry, with_number};
ghost use Rattle.a429_cert.specs.Stream.{taking, IsFaultNext, TakesNext, ReplaysNext, EndsNext, TellsListed, HearsNext, IsNotTaken, IsUnreported, ReplaysLine, EndsReplay, HearsLine, WantsEntry, GivesFor, GivesAtFault};
ghost use Rattle.a429_cert.specs.Stream.{HandsFilesOut, PutsFiles, PutsFirstFiles, StopsAtLine, GoesOverLine, sizes};
ghost use Rattle.a429_cert.specs.Change.{change};

use crate::at::At;
use crate::entry::seen_in;
use crate::explained::Head;
use crate::fault::CertFault;
use crate::line::MovedLine;
use crate::lines::TextLine;
use crate::listed::Listed;
use crate::listener::Listener;
use crate::passing::{make_step, read_step};
use crate::shelf::Shelf;
use crate::stream_fault::{StreamFault, of_cert, of_read, of_trouble};
use crate::version::Version;
use a429_ldu::Ldu;
use a429_link::{FileBytes, Link, Step};
use a429_profile::Profile;
use a429_record::{Entry, EntryReader, ReadFault};
use std::alloc::Global;
use std::io::Read;

// How far a certificate is replayed over a recording.
#[derive(Drop)]
pub struct Replay<'a> {
    pub alloc: Global,
    pub profile: &'a Profile,
    pub version: Version,
    pub link: Link<'a>,
    // how many lines were handed out, and how many entries they use
    pub lines: usize,
    pub used: usize,
    // the number and the length of each file that was put
    pub files: Vec<(u8, u32)>,
}

impl<'a> Replay<'a> {
    /// A replay that has just read the first two lines, and no entry.
    #[inline(always)]
    pub(crate) fn start(alloc: Global, profile: &'a Profile, head: Head) -> Replay<'a>
        ensures sound { IsProfile profile.now }
        ensures profile { result.profile.now ≡ profile.now }
        ensures version { result.version ≡ head.version }
        ensures link { result.link ≡ record { profile = profile.now; state = start profile.now head.first } }
        ensures lines { result.lines ≡ 2 }
        ensures used { result.used ≡ 0 }
        ensures files { result.files.items ≡ [] }
    {
        Replay {
            alloc,
            profile,
            version: head.version,
            link: Link::start(alloc, profile, head.first),
            lines: 2,
            used: 0,
            files: Vec::new(alloc),
        }
    }

    // What a line says, as the version of the certificate reads it.
    #[inline(always)]
    fn read<'l>(&self, line: TextLine<'l>) -> Option<&'l [u8]>
        ensures { option_map (λ text. text.now) result ≡ read_as self.now.version (line_bytes line.entry) }
    {
        self.version.read(line)
    }
}

// An entry with its number.
pub fn numbered(number: usize, entry: Option<Entry>) -> Option<(usize, Entry)>
    ensures { result ≡ with_number number entry }
{
    Some((number, entry?))
}

// Takes the last line that was handed out, over the next entry, if its step uses one, reports it to a listener where it is
// accepted, and puts the files that the step delivers. Answers how many entries it uses, 0 or 1.
#[inline(always)]
pub fn replay_and_put<R: Read, S: Shelf, T: Listener>(
    replay: &mut Replay<'_>,
    line: TextLine<'_>,
    known: Option<MovedLine>,
    rec: &mut EntryReader<R>,
    shelf: &mut S,
    listener: &mut T,
) -> Result<usize, StreamFault>
    requires sound { IsProfile replay.old.profile.now }
    requires profile { replay.old.link.profile ≡ replay.old.profile.now }
    requires known { IfSome known (SaysAlways (line_bytes line)) }
    ensures ok { IfOk result (GoesOverLine S.files (listening T.hears listener.old listener.new)
        (taking replay.old (line_bytes line.entry) (change rec.old rec.new) (change shelf.old shelf.new)) replay.new) }
    ensures err { IfErr result (StopsAtLine S.files S.failed T.failed (change listener.old listener.new)
        (taking replay.old (line_bytes line.entry) (change rec.old rec.new) (change shelf.old shelf.new))) }
    ensures kept { replay.new ≡ record (replay.old) { link = replay.new.link; files = replay.new.files } }
    ensures profile { replay.new.link.profile ≡ replay.old.profile.now }
    ensures tried { TriesSome (listening T.tries listener.old listener.new) replay.old.profile.now }
{
    let used = match replay_and_report(replay, line, known, rec, listener) {
        Ok(used) => used,
        Err(refused) => return Err(refused),
    };
    match put_delivered(replay, shelf) {
        Ok(()) => Ok(used),
        Err(fault) => Err(fault),
    }
}

// Takes the last line that was handed out, over the next entry, if its step uses one, and reports it to a listener
// where it is accepted. Answers how many entries it uses, 0 or 1.
#[inline(always)]
pub fn replay_and_report<R: Read, T: Listener>(
    replay: &mut Replay<'_>,
    line: TextLine<'_>,
    known: Option<MovedLine>,
    rec: &mut EntryReader<R>,
    listener: &mut T,
) -> Result<usize, StreamFault>
    requires sound { IsProfile replay.old.profile.now }
    requires profile { replay.old.link.profile ≡ replay.old.profile.now }
    requires known { IfSome known (SaysAlways (line_bytes line)) }
    ensures passed { IfOk result (ReplaysLine (change replay.old replay.new) (line_bytes line.entry) (change rec.old.to_come rec.new.to_come)) }
    ensures heard { OnOk result (HearsLine (listening T.hears listener.old listener.new) replay.old (line_bytes line.entry) rec.old.to_come) }
    ensures ended { OnOk result (IsSome (line_bytes line.entry)) }
    ensures few { IfOk result (λ used. used ≤ 1) }
    ensures counts { IfOk result (λ used. rec.new.count ≡ rec.old.count + used) }
    ensures refused { IfErr result (EndsReplay replay.old (line_bytes line.entry) rec.old.to_come) }
    ensures given { IfErr result (λ f. GivesAtFault
        (WantsEntry replay.old.profile.now (read_as replay.old.version (line_bytes line.entry)) replay.old.link.state) f
        rec.old.count rec.new.count) }
    ensures unreported { IfErr result (IsUnreported listener.old listener.new) }
    ensures device { IsErrOf result StreamFault.Device → T.failed listener.new ≡ true }
    ensures read { IsErrOf result (StreamFault.Read read.Device) → rec.new.failed ≡ true }
    ensures kept { replay.new ≡ record (replay.old) { link = replay.new.link } }
    ensures profile { replay.new.link.profile ≡ replay.old.profile.now }
    ensures tried { TriesSome (listening T.tries listener.old listener.new) replay.old.profile.now }
{
    let text = replay.read(line);
    match read_step(
        replay.alloc,
        replay.profile,
        &replay.link,
        text,
        known,
        replay.lines,
    ) {
        Ok(listed) => step_and_report(replay, listed, rec, listener),
        Err(fault) => Err(of_cert(fault)),
    }
}

// Takes the step that the last line lists, with the next entry, if it uses one, and reports it to a listener. Answers
// how many entries it uses, 0 or 1.
#[inline(always)]
fn step_and_report<R: Read, T: Listener>(
    replay: &mut Replay<'_>,
    listed: Listed,
    rec: &mut EntryReader<R>,
    listener: &mut T,
) -> Result<usize, StreamFault>
    requires { IsReady replay.old.link.profile listed replay.old.link.state }
    ensures passed { IfOk result (ReplaysNext (change replay.old replay.new) listed (change rec.old.to_come rec.new.to_come)) }
    ensures heard { OnOk result (HearsNext (listening T.hears listener.old listener.new) replay.old listed rec.old.to_come) }
    ensures few { IfOk result (λ used. used ≤ 1) }
    ensures counts { IfOk result (λ used. rec.new.count ≡ rec.old.count + used) }
    ensures refused { IfErr result (EndsNext replay.old listed rec.old.to_come) }
    ensures given { IfErr result (λ f. GivesAtFault (uses_listed listed ≡ 1) f rec.old.count rec.new.count) }
    ensures unreported { IfErr result (IsUnreported listener.old listener.new) }
    ensures device { IsErrOf result StreamFault.Device → T.failed listener.new ≡ true }
    ensures read { IsErrOf result (StreamFault.Read read.Device) → rec.new.failed ≡ true }
    ensures kept { replay.new ≡ record (replay.old) { link = replay.new.link } }
    ensures profile { replay.new.link.profile ≡ replay.old.link.profile }
    ensures tried { TriesSome (listening T.tries listener.old listener.new) replay.old.profile.now }
{
    let next = match entry_for(rec, &listed) {
        Ok(next) => next,
        Err(fault) => return Err(of_read(fault)),
    };
    match listed {
        Listed::Load(unit) => load_and_report(replay, unit, listener),
        Listed::Moved(line) => move_and_report(replay, line, next, listener),
    }
}

// Loads the link data unit that the last line lists, where that may be, and reports it to a listener.
#[inline(never)]
fn load_and_report<T: Listener>(
    replay: &mut Replay<'_>,
    unit: Ldu,
    listener: &mut T,
) -> Result<usize, StreamFault>
    requires { IsLdu replay.old.link.profile unit }
    ensures passed { IfOk result (λ used. (next : Option Seen) → PassesListed replay.old.link.profile (Listed.Load unit) next
        (change replay.old.link.state replay.new.link.state) used) }
    ensures heard { OnOk result (TellsListed (listening T.hears listener.old listener.new) replay.old (Listed.Load unit) None) }
    ensures refused { IfErr result (λ f. (next : Option Seen) → IsNotTaken replay.old (Listed.Load unit) next f) }
    ensures unreported { IfErr result (IsUnreported listener.old listener.new) }
    ensures device { IsErrOf result StreamFault.Device → T.failed listener.new ≡ true }
    ensures kept { replay.new ≡ record (replay.old) { link = replay.new.link } }
    ensures profile { replay.new.link.profile ≡ replay.old.link.profile }
    ensures tried { TriesSome (listening T.tries listener.old listener.new) replay.old.profile.now }
{
    if !replay.link.may_load() {
        return Err(StreamFault::Cert(CertFault::NotAllowed(replay.lines)));
    }
    match listener.load(replay.profile, replay.link.number(), &unit) {
        Ok(()) => {}
        Err(trouble) => return Err(of_trouble(trouble)),
    }
    match replay.link.apply(Step::Load(unit)) {
        Ok(()) => Ok(0),
        Err(_) => unreachable!(),
    }
}

// Takes another step, which the last line lists, with the entry that was read for it, and reports it to a listener.
#[inline(always)]
fn move_and_report<T: Listener>(
    replay: &mut Replay<'_>,
    line: MovedLine,
    next: Option<Entry>,
    listener: &mut T,
) -> Result<usize, StreamFault>
    requires { IsReady replay.old.link.profile (Listed.Moved line) replay.old.link.state }
    ensures passed { IfOk result (PassesListed replay.old.link.profile (Listed.Moved line) (option_map seen_of next)
        (change replay.old.link.state replay.new.link.state)) }
    ensures heard { OnOk result (TellsListed (listening T.hears listener.old listener.new) replay.old (Listed.Moved line) next) }
    ensures refused { IfErr result (IsNotTaken replay.old (Listed.Moved line) (option_map seen_of next)) }
    ensures unreported { IfErr result (IsUnreported listener.old listener.new) }
    ensures device { IsErrOf result StreamFault.Device → T.failed listener.new ≡ true }
    ensures kept { replay.new ≡ record (replay.old) { link = replay.new.link } }
    ensures profile { replay.new.link.profile ≡ replay.old.link.profile }
    ensures tried { TriesSome (listening T.tries listener.old listener.new) replay.old.profile.now }
{
    let at = At {
        line: replay.lines,
        entry: replay.used,
        next: seen_in(&next),
    };
    let used = match make_step(&mut replay.link, Listed::Moved(line), at) {
        Ok(used) => used,
        Err(fault) => return Err(of_cert(fault)),
    };
    match listener.make(replay.profile, line.act, numbered(replay.used, next)) {
        Ok(()) => Ok(used),
        Err(trouble) => Err(of_trouble(trouble)),
    }
}

// Reads the next entry, where the step that a line lists uses one.
#[inline(always)]
fn entry_for<R: Read>(rec: &mut EntryReader<R>, listed: &Listed) -> Result<Option<Entry>, ReadFault>
    ensures taken { IfOk result (λ next. TakesNext (uses_listed listed.now) rec.old.to_come rec.new.to_come (option_map seen_of next)) }
    ensures entry { IfOk result (IsNextEntry (uses_listed listed.now) rec.old.to_come) }
    ensures given { IfOk result (λ next. GivesFor (uses_listed listed.now) next rec.old.count rec.new.count) }
    ensures fault { IfErr result (λ f. IsFaultNext (uses_listed listed.now) rec.old.to_come f) }
    ensures none { OnErr result (rec.new.count ≡ rec.old.count) }
    ensures device { IsErrOf result read.Device → rec.new.failed ≡ true }
{
    if listed.used() == 0 {
        return Ok(None);
    }
    read_entry(rec)
}

// Reads the next entry by a call of its own, since lines are read slower where the reading of an entry is part of their loop.
#[inline(never)]
fn read_entry<R: Read>(rec: &mut EntryReader<R>) -> Result<Option<Entry>, ReadFault>
    ensures gives { GivesNext rec.old.to_come rec.new.to_come result }
    ensures counts { rec.new.count ≡ rec.old.count + entries_in result }
    ensures device { IsErrOf result read.Device → rec.new.failed ≡ true }
{
    rec.next()
}

// Puts the files that the link has delivered since they were last taken. Most lines deliver none.
#[inline(always)]
pub fn put_delivered<S: Shelf>(replay: &mut Replay<'_>, shelf: &mut S) -> Result<(), StreamFault>
    ensures ok { OnOk result (PutsFiles S.files shelf.old shelf.new replay.old.files.items replay.old.link.state.sink.received.files) }
    ensures noted { OnOk result (replay.new.files.items ≡ replay.old.files.items ++ sizes replay.old.link.state.sink.received.files) }
    ensures err { OnErr result (PutsFirstFiles S.files shelf.old shelf.new replay.old.files.items replay.old.link.state.sink.received.files) }
    ensures device { IsErrOf result StreamFault.Device → S.failed shelf.new ≡ true }
    ensures fault { IfErr result (λ f. (f ≡ StreamFault.Device) ⊎ (f ≡ StreamFault.OutOfMemory)) }
    ensures kept { HandsFilesOut replay.old replay.new }
{
    if replay.link.delivered().is_empty() {
        return Ok(());
    }
    let files = replay.link.take_delivered();
    put_all(files.as_slice(), &mut replay.files, shelf)
}

// Puts files, one after the other.
fn put_all<S: Shelf>(
    files: &[FileBytes],
    notes: &mut Vec<(u8, u32)>,
    shelf: &mut S,
) -> Result<(), StreamFault>
    ensures ok { OnOk result (PutsFiles S.files shelf.old shelf.new notes.old.items files.now) }
    ensures noted { OnOk result (notes.new.items ≡ notes.old.items ++ sizes files.now) }
    ensures err { OnErr result (PutsFirstFiles S.files shelf.old shelf.new notes.old.items files.now) }
    ensures device { IsErrOf result StreamFault.Device → S.failed shelf.new ≡ true }
    ensures fault { IfErr result (λ f. (f ≡ StreamFault.Device) ⊎ (f ≡ StreamFault.OutOfMemory)) }
{
    for file in files {
        match put_file(notes, file, shelf) {
            Ok(()) => {}
            Err(fault) => return Err(fault),
        }
    }
    Ok(())
}

// Puts a file after those that were put, and notes its number and its length. A place or a length that
// 32 bits do not hold, which no recording has, would be reported as out of memory.
#[tactic(auto, using(crate::proofs::StreamFacts::gains_one))]
fn put_file<S: Shelf>(
    files: &mut Vec<(u8, u32)>,
    file: &FileBytes,
    shelf: &mut S,
) -> Result<(), StreamFault>
    ensures noted { OnOk result (files.new.items ≡ files.old.items ++ sizes (file.now ∷ [])) }
    ensures ok { OnOk result (PutsFiles S.files shelf.old shelf.new files.old.items (file.now ∷ [])) }
    ensures err { OnErr result (IsUnchanged (S.files shelf.old) (S.files shelf.new)) }
    ensures device { IsErrOf result StreamFault.Device → S.failed shelf.new ≡ true }
    ensures fault { IfErr result (λ f. (f ≡ StreamFault.Device) ⊎ (f ≡ StreamFault.OutOfMemory)) }
{
    let bytes = file.bytes.as_slice();
    let Some(index) = in_u32(files.len() + 1) else {
        return Err(StreamFault::OutOfMemory);
    };
    let Some(len) = in_u32(bytes.len()) else {
        return Err(StreamFault::OutOfMemory);
    };
    if files.push((file.number, len)).is_err() {
        return Err(StreamFault::OutOfMemory);
    }
    match shelf.put(index, file.number, bytes) {
        Ok(()) => Ok(()),
        Err(trouble) => Err(of_trouble(trouble)),
    }
}

// A number that 32 bits hold.
fn in_u32(number: usize) -> Option<u32>
    ensures { IfSome result (λ n. n ≡ number) }
{
    u32::try_from(number).ok()
}
