//! `a429 blocks PROFILE REC`: the attempts of a recording, a row for each.

ghost use Rattle.std.specs.Prelude.{◌≡◌, [], false, IfErr, IfOk};
ghost use Rattle.a429_word.specs.Sheet.{sheet_failed, SaysSome};
ghost use Rattle.a429_view.specs.Blocks.{IsBlocks};
ghost use Rattle.a429_parts.specs.Keeping.{taken};
ghost use Rattle.a429_commands.specs.Blocks.{AreSomeRows, AreRowsBefore, ShowsAttempts, begun_on};
ghost use Rattle.a429_commands.specs.Ends.{Ends, by_answer, of_stream};
ghost use Rattle.a429_commands.specs.Output.{output};
ghost use Rattle.a429_commands.specs.Streaming.{IsLinesFault};

use crate::engines::relay::{Relay, write_while_reading};
use crate::engines::streaming::next_entry;
use crate::fault::RunFault;
use a429_profile::Profile;
use a429_record::EntryReader;
use a429_view::{Blocks, TraceStop};
use a429_word::{Sheet, Tally};
use std::alloc::Global;
use std::io::{Read, Write};

/// Writes a row for each attempt to send a block: a request, with what was recorded up to the next one. With status 0 these are
/// all attempts of the recording; with status 1, those up to the first word that no run records after those before it, which is
/// the last that is read, and a row that names it (ARINC 429 Part 3; the layout is the profile's). `profile` is the bytes of its
/// text. The recording is read entry by entry. Kept are one row, and the bytes of the file that is not whole. Where the recording
/// has a fault, or the reader fails, the rows of the attempts that ended before it are written.
pub fn run_blocks<R: Read, W: Write>(
    alloc: Global,
    profile: &[u8],
    rec: &mut EntryReader<R>,
    out: &mut Tally<W>,
) -> Result<u8, RunFault>
    ensures { Ends (output W.contents out.old out.new) (of_stream profile.now (taken rec.old rec.new) rec.new.failed ShowsAttempts AreRowsBefore AreSomeRows) result }
{
    write_while_reading(alloc, &Blocking { alloc }, profile, rec, out)
}

// The rows of the entries that come.
#[derive(Drop)]
struct Blocking {
    alloc: Global,
}

impl Relay for Blocking {
    ghost says = { ShowsAttempts };

    ghost stops = { AreRowsBefore };

    ghost begins = { AreSomeRows };

    fn put<R: Read, W: Write>(
        &self,
        profile: &Profile,
        rec: &mut EntryReader<R>,
        sheet: &mut Sheet<'_, W>,
    ) -> Result<u8, RunFault> {
        let mut blocks = Blocks::begin(self.alloc, sheet);
        put_rows(self.alloc, sheet, profile, rec, &mut blocks)
    }
}

// The same after the names of the columns, by blocks that have no entry yet.
fn put_rows<R: Read, W: Write>(
    alloc: Global,
    sheet: &mut Sheet<'_, W>,
    profile: &Profile,
    rec: &mut EntryReader<R>,
    blocks: &mut Blocks,
) -> Result<u8, RunFault>
    requires { IsBlocks profile.now blocks.old [] }
    ensures text { SaysSome W.contents sheet.old sheet.new (begun_on profile.now (by_answer (ShowsAttempts profile.now (taken rec.old rec.new)) (AreRowsBefore profile.now (taken rec.old rec.new)) result)) }
    ensures err { IfErr result (IsLinesFault rec.old.to_come rec.new.failed (sheet_failed sheet.new)) }
    ensures device { IfOk result (λ status. status ≡ 0 → rec.new.failed ≡ false) }
{
    'entries: loop {
        if sheet.failed() {
            return Err(RunFault::Device);
        }
        match next_entry(rec) {
            Ok(Some(entry)) => match blocks.put_entry(alloc, sheet, profile, &entry) {
                Ok(()) => {}
                Err(TraceStop::OutOfMemory) => return Err(RunFault::Memory),
                Err(TraceStop::Refused(_)) => return Ok(1),
            },
            Ok(None) => {
                blocks.put_last(sheet);
                return Ok(0);
            }
            Err(fault) => return Err(fault),
        }
    }
}
