//! `a429 extract PROFILE REC CERT DIR`: the files that crossed.

ghost use Rattle.std.specs.Prelude.{◌≡◌, ◌||◌, true, false, IfErr};
ghost use Rattle.a429_word.specs.Tally.{has_failed};
ghost use Rattle.a429_cert.specs.BreakOff.{readers, shelved};
ghost use Rattle.a429_commands.specs.Ends.{Ends};
ghost use Rattle.a429_commands.specs.Extract.{progress, Leaves};
ghost use Rattle.a429_commands.specs.Output.{output};
ghost use Rattle.a429_commands.specs.Verdict.{input, of_verdict};

use crate::engines::text::write_at_once;
use crate::engines::verdict::judge;
use crate::fault::RunFault;
use a429_cert::{NoListener, Shelf};
use a429_record::EntryReader;
use a429_word::Tally;
use std::alloc::Global;
use std::io::{Read, Write};

/// Puts each file of a certificate on a shelf once the lines before it are accepted, and writes the
/// verdict at the end, as `run_verify` does. Where the status is 0 they are the files that crossed. Else
/// those that were put stay, and say nothing: they are what the lines before the fault deliver.
pub fn run_extract<R: Read, C: Read, S: Shelf, W: Write>(
    alloc: Global,
    profile: &[u8],
    rec: &mut EntryReader<R>,
    cert: &mut Tally<C>,
    shelf: &mut S,
    out: &mut Tally<W>,
) -> Result<u8, RunFault>
    ensures ends { Ends (output W.contents out.old out.new) (of_verdict (input profile.now C.remaining cert.old rec.old) (shelved S.files S.failed shelf.old shelf.new)
        ((S.failed shelf.new || (rec.new.failed || has_failed cert.new)) ≡ true)) result }
    ensures files { IfErr result (Leaves profile.now
        (progress (readers C.remaining cert.old cert.new rec.old rec.new) (shelved S.files S.failed shelf.old shelf.new) false)
        ((S.failed shelf.new || (rec.new.failed || has_failed cert.new)) ≡ true)) }
{
    write_at_once(
        judge(alloc, profile, rec, cert, shelf, &mut NoListener),
        out,
    )
}
