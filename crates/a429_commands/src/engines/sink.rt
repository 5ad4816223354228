//! `a429 sink PROFILE REC`: what a recording says of its sink, whatever its source and the line did.

ghost use Rattle.std.specs.Prelude.{◌≡◌};
ghost use Rattle.a429_parts.specs.Keeping.{taken};
ghost use Rattle.a429_commands.specs.Ends.{Ends, of_stream};
ghost use Rattle.a429_commands.specs.Output.{output};
ghost use Rattle.a429_commands.specs.Sink.{JudgesAny, JudgesNoSink, JudgesSink, sink_status};

use crate::engines::relay::{Relay, write_while_reading};
use crate::engines::streaming::fault_of;
use crate::fault::RunFault;
use a429_profile::Profile;
use a429_record::EntryReader;
use a429_sink::{SinkVerdict, judge_sink};
use a429_view::put_sink;
use a429_word::{Sheet, Tally};
use std::alloc::Global;
use std::io::{Read, Write};

/// Judges the sink of a recording by itself, whatever its source sent and the line did to its words: with status 0, the files that the
/// sink has, which are the same in each run of a sink that records these words; with status 1, the first answer that no sink sends
/// which keeps the rules, which is the last entry that is read (ARINC 429 Part 3; the layout is the profile's). `profile` is the bytes of
/// its text. The recording is read entry by entry, and the lines are written at its end. Kept are the number and the length of
/// each file that has crossed, 16 bytes, and the bytes of the one that is not whole.
pub fn run_sink<R: Read, W: Write>(
    alloc: Global,
    profile: &[u8],
    rec: &mut EntryReader<R>,
    out: &mut Tally<W>,
) -> Result<u8, RunFault>
    ensures { Ends (output W.contents out.old out.new) (of_stream profile.now (taken rec.old rec.new) rec.new.failed JudgesSink JudgesNoSink JudgesAny) result }
{
    write_while_reading(alloc, &Judging { alloc }, profile, rec, out)
}

// The verdict on the sink.
#[derive(Drop)]
struct Judging {
    alloc: Global,
}

impl Relay for Judging {
    ghost says = { JudgesSink };

    ghost stops = { JudgesNoSink };

    ghost begins = { JudgesAny };

    fn put<R: Read, W: Write>(
        &self,
        profile: &Profile,
        rec: &mut EntryReader<R>,
        sheet: &mut Sheet<'_, W>,
    ) -> Result<u8, RunFault> {
        match judge_sink(self.alloc, profile, rec) {
            Ok(verdict) => {
                put_sink(sheet, &verdict);
                Ok(status_of(&verdict))
            }
            Err(fault) => Err(fault_of(fault)),
        }
    }
}

// The status of a verdict.
fn status_of(verdict: &SinkVerdict) -> u8
    ensures { result ≡ sink_status verdict.now }
{
    match verdict {
        SinkVerdict::Yes(_) => 0,
        SinkVerdict::No(_) => 1,
    }
}
