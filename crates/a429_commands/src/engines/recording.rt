//! Reads the bytes of a recording, as each command that takes one does.

ghost use Rattle.std.specs.Prelude.{◌≡◌, false, IfOk, IfErr, IfSome, OnOk};
ghost use Rattle.a429_word.specs.Tally.{has_failed, unread};
ghost use Rattle.a429_record.specs.Recording.{stands_for, whole, IsRecordable};
ghost use Rattle.a429_commands.specs.Recording.{IsReadFault};

use crate::engines::streaming::fault_of;
use crate::fault::RunFault;
use a429_record::{Entry, read_entries};
use a429_word::Tally;
use std::alloc::Global;
use std::io::Read;

/// The entries of a recording, all of them.
pub(crate) fn entries_of<R: Read>(alloc: Global, rec: &mut Tally<R>) -> Result<Vec<Entry>, RunFault>
    ensures ok { IfOk result (λ v. IfSome (unread R.remaining rec.old) (λ bytes. stands_for bytes ≡ whole v.items)) }
    ensures recordable { IfOk result (λ v. IsRecordable v.items) }
    ensures device { OnOk result (has_failed rec.new ≡ false) }
    ensures err { IfErr result (IsReadFault (unread R.remaining rec.old) (has_failed rec.new)) }
{
    match read_entries(alloc, rec) {
        Ok(entries) => Ok(entries),
        Err(fault) => Err(fault_of(fault)),
    }
}
