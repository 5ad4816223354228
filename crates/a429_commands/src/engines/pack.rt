//! `a429 pack REC`: a recording, written in binary.

ghost use Rattle.a429_commands.specs.Ends.{Ends, heard};
ghost use Rattle.a429_commands.specs.Output.{output};
ghost use Rattle.a429_commands.specs.Pack.{of_pack};

use crate::engines::recording::entries_of;
use crate::fault::RunFault;
use a429_record::write_binary;
use a429_word::Tally;
use std::alloc::Global;
use std::io::{Read, Write};

/// Writes the entries of a recording, in whichever form it is, as a binary one, and answers status 0. The
/// recording is read to its end first: nothing is written where it has a fault, or its reader fails.
pub fn run_pack<R: Read, W: Write>(
    alloc: Global,
    rec: &mut Tally<R>,
    out: &mut Tally<W>,
) -> Result<u8, RunFault>
    ensures { Ends (output W.contents out.old out.new) (of_pack (heard R.remaining rec.old rec.new)) result }
{
    let entries = entries_of(alloc, rec)?;
    write_binary(out, entries.as_slice())?;
    Ok(0)
}
