//! `a429 verify PROFILE REC CERT`: whether a certificate explains a recording.

ghost use Rattle.std.specs.Prelude.{◌≡◌, ◌||◌, true};
ghost use Rattle.a429_word.specs.Tally.{has_failed};
ghost use Rattle.a429_commands.specs.Ends.{Ends};
ghost use Rattle.a429_commands.specs.Output.{output};
ghost use Rattle.a429_commands.specs.Verdict.{input, no_shelf, of_verdict};

use crate::engines::extract::run_extract;
use crate::fault::RunFault;
use a429_cert::NoShelf;
use a429_record::EntryReader;
use a429_word::Tally;
use std::alloc::Global;
use std::io::{Read, Write};

/// Writes the verdict on a certificate, and answers its status: 0 where it explains the recording, so
/// that each run that records the same words delivers the files that are listed, and 2 where it is
/// refused. `profile` is the bytes of its text. Recording and certificate are read as a stream, so that
/// the fault that is met first is reported.
pub fn run_verify<R: Read, C: Read, W: Write>(
    alloc: Global,
    profile: &[u8],
    rec: &mut EntryReader<R>,
    cert: &mut Tally<C>,
    out: &mut Tally<W>,
) -> Result<u8, RunFault>
    ensures { Ends (output W.contents out.old out.new) (of_verdict (input profile.now C.remaining cert.old rec.old) no_shelf
        ((rec.new.failed || has_failed cert.new) ≡ true)) result }
{
    run_extract(alloc, profile, rec, cert, &mut NoShelf, out)
}
