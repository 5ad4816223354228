//! A certificate, held against a recording, both read as a stream.

ghost use Rattle.std.specs.Prelude.{◌≡◌, ◌⊎◌, true, false, IfOk, IfErr, IsErrOf, OnOk};
ghost use Rattle.a429_record.specs.declared.fault.ReadFault.TheVariants as read;
ghost use Rattle.a429_word.specs.Tally.{has_failed};
ghost use Rattle.a429_cert.specs.StreamExplained.{comparison, SaysYes, SaysFilesOfRun, HearsRun, HearsBefore, Refuses};
ghost use Rattle.a429_cert.specs.BreakOff.{BreaksOff, readers, shelved};
ghost use Rattle.a429_cert.specs.Report.{listening, TriesSome};
ghost use Rattle.a429_cert.specs.Stream.{OneFailed};
ghost use Rattle.a429_cert.specs.Change.{change};

use crate::fault::OutOfMemory;
use crate::likely::WordLines;
use crate::line_reader::LineReader;
use crate::listener::{Listener, NoListener};
use crate::replay::Replay;
use crate::shelf::Shelf;
use crate::stream_end::none_left;
use crate::stream_fault::StreamFault;
use crate::stream_head::begin;
use crate::stream_next::take_next;
use a429_profile::Profile;
use a429_record::EntryReader;
use a429_word::Tally;
use std::alloc::Global;
use std::io::Read;

/// Holds a certificate against a recording, under a profile, both read as a stream. Where
/// it explains the recording, the files that cross are put on the shelf, in order, and the answer is their
/// numbers and lengths. Else the fault is the first one in the order of the lines, where a recording's comes
/// where its entry is wanted, and the files that the lines before it deliver are put. Where a device fails or
/// memory is refused, `place` says which line that is: the files of the lines before it are put, and no other.
pub fn verify_stream<R: Read, C: Read, S: Shelf>(
    alloc: Global,
    profile: &Profile,
    rec: &mut EntryReader<R>,
    cert: &mut Tally<C>,
    shelf: &mut S,
) -> Result<Vec<(u8, u32)>, StreamFault>
    ensures ok { IfOk result (SaysYes (comparison profile.now C.remaining cert.old rec.old) (change (S.files shelf.old) (S.files shelf.new))) }
    ensures some_run { IfOk result (SaysFilesOfRun (comparison profile.now C.remaining cert.old rec.old) (change (S.files shelf.old) (S.files shelf.new))) }
    ensures err { IfErr result (Refuses (comparison profile.now C.remaining cert.old rec.old) (change (S.files shelf.old) (S.files shelf.new))) }
    ensures place { IfErr result (BreaksOff profile.now (readers C.remaining cert.old cert.new rec.old rec.new)
        (shelved S.files S.failed shelf.old shelf.new) false) }
    ensures works { OnOk result (has_failed cert.new ≡ false) }
    ensures device { IsErrOf result StreamFault.Device → (has_failed cert.new ≡ true) ⊎ (S.failed shelf.new ≡ true) }
    ensures read { IsErrOf result (StreamFault.Read read.Device) → rec.new.failed ≡ true }
{
    replay_stream(alloc, profile, rec, cert, shelf, &mut NoListener)
}

/// The same, and each step is reported to a listener once its line is accepted. Where the answer is a yes, it has
/// heard the steps of the run by which the certificate explains the recording, each once and in order; where it
/// is a fault of the certificate or of the recording, those of the lines before the fault. Where it has not
/// taken a step, that is the fault, and the files of the lines before are put.
pub fn replay_stream<R: Read, C: Read, S: Shelf, T: Listener>(
    alloc: Global,
    profile: &Profile,
    rec: &mut EntryReader<R>,
    cert: &mut Tally<C>,
    shelf: &mut S,
    listener: &mut T,
) -> Result<Vec<(u8, u32)>, StreamFault>
    ensures ok { IfOk result (SaysYes (comparison profile.now C.remaining cert.old rec.old) (change (S.files shelf.old) (S.files shelf.new))) }
    ensures heard { OnOk result (HearsRun (listening T.hears listener.old listener.new) (comparison profile.now C.remaining cert.old rec.old)) }
    ensures err { IfErr result (Refuses (comparison profile.now C.remaining cert.old rec.old) (change (S.files shelf.old) (S.files shelf.new))) }
    ensures place { IfErr result (BreaksOff profile.now (readers C.remaining cert.old cert.new rec.old rec.new)
        (shelved S.files S.failed shelf.old shelf.new) (T.failed listener.new)) }
    ensures reports { IfErr result (HearsBefore (listening T.hears listener.old listener.new) (comparison profile.now C.remaining cert.old rec.old)) }
    ensures works { OnOk result (has_failed cert.new ≡ false) }
    ensures device { IsErrOf result StreamFault.Device → OneFailed (has_failed cert.new) (S.failed shelf.new) (T.failed listener.new) }
    ensures read { IsErrOf result (StreamFault.Read read.Device) → rec.new.failed ≡ true }
    ensures tried { TriesSome (listening T.tries listener.old listener.new) profile.now }
{
    // No line is empty of bytes, so that lines and entries are no more than the bytes that may come.
    let _most: u64 = cert.left();
    let words = match WordLines::new(alloc) {
        Ok(words) => words,
        Err(OutOfMemory) => return Err(StreamFault::OutOfMemory),
    };
    let mut lines = LineReader::new();
    let head = match begin(alloc, &mut lines, cert) {
        Ok(head) => head,
        Err(fault) => return Err(fault),
    };
    let mut replay = Replay::start(alloc, profile, head);
    'lines: loop {
        let found = match take_next(&mut replay, &words, &mut lines, cert, rec, shelf, listener) {
            Ok(found) => found,
            Err(fault) => return Err(fault),
        };
        if !found {
            break;
        }
    }
    match none_left(rec, replay.used) {
        Ok(()) => Ok(replay.files),
        Err(fault) => Err(fault),
    }
}
