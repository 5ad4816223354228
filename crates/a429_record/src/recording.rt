//! Recordings, read whole.

ghost use Rattle.std.specs.Prelude.{◌≡◌, ◌≢◌, ◌↔◌, true, IsErrOf, IfOk, IfErr, IfSome};
ghost use Rattle.a429_word.specs.Tally.{has_failed, unread};
ghost use Rattle.a429_record.specs.Recording.{stands_for, whole, IsRecordable};
ghost use Rattle.a429_record.specs.Fault.{IsFirstReadFault};
ghost use Rattle.a429_record.specs.Handed.{Loses, OfTaken, HasNoFault};

use crate::entry::{Entry, MOST_ENTRIES};
use crate::fault::ReadFault;
use crate::reading::Reading;
use a429_word::Tally;
use std::alloc::Global;
use std::io::Read;

/// Reads a recording in either format to its end. It returns all entries, at most 1,000,000, or the first fault:
/// `Device` exactly where `rec` has failed and the rows that it returned whole before have no fault, `OutOfMemory`
/// where memory was refused; never `Failed`.
pub fn read_entries<R: Read>(alloc: Global, rec: &mut Tally<R>) -> Result<Vec<Entry>, ReadFault>
    ensures ok { IfOk result (λ v. IfSome (unread R.remaining rec.old) (λ bytes. stands_for bytes ≡ whole v.items)) }
    ensures recordable { IfOk result (λ v. IsRecordable v.items) }
    ensures err { IfErr result (λ f. IfSome (unread R.remaining rec.old) (λ bytes. IsFirstReadFault f bytes)) }
    ensures device { IsErrOf result ReadFault.Device ↔ (has_failed rec.new ≡ true) }
    ensures before { IsErrOf result ReadFault.Device → Loses (OfTaken HasNoFault) (unread R.remaining rec.old) (unread R.remaining rec.new) }
    ensures no_failed { IfErr result (λ f. f ≢ ReadFault.Failed) }
{
    let mut reading = Reading::new(alloc, MOST_ENTRIES);
    let mut entries = Vec::new(alloc);
    'entries: loop {
        let Some(entry) = reading.next(rec)? else {
            return Ok(entries);
        };
        if entries.push(entry).is_err() {
            return Err(ReadFault::OutOfMemory);
        }
    }
}
