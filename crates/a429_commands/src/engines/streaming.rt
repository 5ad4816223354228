//! Reads a recording entry by entry, as the commands do that keep none of it.

ghost use Rattle.std.specs.Prelude.{◌≡◌, ◌+◌, ◌<◌, ◌^◌, [], false, None, Ok, IfOk, IfErr, IfSome};
ghost use Rattle.a429_record.specs.Rows.{GivesNext};
ghost use Rattle.a429_commands.specs.Streaming.{AreAllBefore, IsNextFault, reported};

use crate::fault::RunFault;
use a429_record::{Entry, EntryReader, ReadFault};
use a429_word::Failing;
use std::io::Read;

/// The next entry, or none at the recording's end.
#[inline(always)]
pub(crate) fn next_entry<R: Read>(rec: &mut EntryReader<R>) -> Result<Option<Entry>, RunFault>
    ensures gives { IfOk result (λ o. GivesNext rec.old.to_come rec.new.to_come (Ok o)) }
    ensures counts { IfOk result (λ o. IfSome o (λ _. (rec.new.count ≡ rec.old.count + 1) × (rec.new.count < 2 ^ 64))) }
    ensures room { IfOk result (λ o. IfSome o (λ _. rec.new.room < rec.old.room)) }
    ensures works { IfOk result (λ o. o ≡ None → rec.new.failed ≡ false) }
    ensures err { IfErr result (IsNextFault rec.old.to_come rec.new.failed) }
    ensures same { IfErr result (λ _. rec.new.count ≡ rec.old.count) }
    ensures none_before { IfErr result (λ e. AreAllBefore e rec.old.to_come []) }
{
    match rec.next() {
        Ok(Some(entry)) => Ok(Some(entry)),
        Ok(None) if rec.failed() => Err(RunFault::Device),
        Ok(None) => Ok(None),
        Err(fault) => Err(fault_of(fault)),
    }
}

/// How a command reports why no more entries are read.
pub(crate) fn fault_of(fault: ReadFault) -> RunFault
    ensures { result ≡ reported fault }
{
    match fault {
        ReadFault::Device => RunFault::Device,
        ReadFault::OutOfMemory => RunFault::Memory,
        fault => RunFault::Read(fault),
    }
}
