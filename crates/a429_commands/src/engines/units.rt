//! `a429 units PROFILE REC CERT`: the link data units that a certificate loads, a row for each.

ghost use Rattle.std.specs.Prelude.{◌≡◌, ◌||◌, true, false, IfOk, IfErr, OnOk, OnErr};
ghost use Rattle.a429_word.specs.Tally.{has_failed};
ghost use Rattle.a429_commands.specs.Ends.{Ends};
ghost use Rattle.a429_commands.specs.Output.{output};
ghost use Rattle.a429_commands.specs.Verdict.{input};
ghost use Rattle.a429_commands.specs.Units.{of_units, AreFresh, EndsInPart, EndsUnits, LeavesUnits};

use crate::engines::verdict::{Judged, judge, write_answer};
use crate::fault::RunFault;
use a429_cert::NoShelf;
use a429_record::EntryReader;
use a429_view::UnitRows;
use a429_word::Tally;
use std::alloc::Global;
use std::io::{Read, Write};

/// Writes the rows of the link data units that a certificate loads, in order, after a line with the names of
/// the columns, and answers its status: 0 where it explains the recording, and 2 where it is refused. `profile`
/// is the bytes of its text. Recording and certificate are read as a stream, and a row goes out once its unit
/// has ended: where the certificate is refused, the names of the columns, once a unit was loaded, and the rows of
/// the units that ended in the lines before the fault are written, and the verdict after them. Where the recording has a
/// fault, first ones of such rows may be written; the others are lost with the page on which they wait.
pub fn run_units<R: Read, C: Read, W: Write>(
    alloc: Global,
    profile: &[u8],
    rec: &mut EntryReader<R>,
    certificate: &mut Tally<C>,
    rows: &mut UnitRows<W>,
) -> Result<u8, RunFault>
    requires { AreFresh rows.old }
    ensures ends { Ends (output W.contents rows.old.out rows.new.out) (of_units (input profile.now C.remaining certificate.old rec.old)
        ((has_failed rows.new.out || (rec.new.failed || has_failed certificate.new)) ≡ true)) result }
    ensures waits { IfErr result (LeavesUnits W.contents rows.old rows.new (input profile.now C.remaining certificate.old rec.old)) }
{
    let judged = judge(alloc, profile, rec, certificate, &mut NoShelf, rows)?;
    let status = end_rows(rows, &judged);
    drop(judged);
    status
}

// Ends the rows of a certificate that was judged, writes the no of one that is refused, and answers the status.
fn end_rows<W: Write>(rows: &mut UnitRows<W>, judged: &Judged) -> Result<u8, RunFault>
    ensures ended { IfOk result (EndsUnits W.contents rows.old rows.new judged.now.answer) }
    ensures works { OnOk result (has_failed rows.new.out ≡ false) }
    ensures err { IfErr result (λ e. (e ≡ RunFault.Device) × (has_failed rows.new.out ≡ true)) }
    ensures part { OnErr result (EndsInPart W.contents rows.old rows.new judged.now.answer) }
{
    match &judged.answer {
        Ok(_) => {
            rows.finish()?;
            Ok(0)
        }
        Err(_) => {
            rows.put_waiting()?;
            Ok(write_answer(&mut rows.out, &judged.answer)?)
        }
    }
}
