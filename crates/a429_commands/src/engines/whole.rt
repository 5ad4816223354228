//! The bytes of a reader, all of them.

ghost use Rattle.std.specs.Prelude.{◌≡◌, false, IfOk, IfErr, IfSome, OnOk};
ghost use Rattle.a429_word.specs.Tally.{has_failed, unread};
ghost use Rattle.a429_commands.specs.Whole.{IsWholeFault};

use crate::fault::RunFault;
use a429_word::{Failing, Tally};
use std::alloc::Global;
use std::io::Read;

/// Reads to the end. The fault is `Device` exactly where the reader has failed, and else `Memory`.
pub fn read_whole<R: Read>(alloc: Global, reader: &mut Tally<R>) -> Result<Vec<u8>, RunFault>
    ensures bytes { IfOk result (λ v. IfSome (unread R.remaining reader.old) (λ bytes. v.items ≡ bytes)) }
    ensures device { OnOk result (has_failed reader.new ≡ false) }
    ensures err { IfErr result (IsWholeFault (has_failed reader.new)) }
{
    let mut bytes = Vec::new(alloc);
    let read = reader.read_to_end(&mut bytes);
    if reader.failed() {
        return Err(RunFault::Device);
    }
    match read {
        Ok(_) => Ok(bytes),
        // A read that fails while the reader has not failed was refused memory.
        Err(_) => Err(RunFault::Memory),
    }
}
