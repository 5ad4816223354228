//! `a429 trace PROFILE REC`: what a recording implies of its sink, word after word.

ghost use Rattle.std.specs.Prelude.{◌≡◌, [], false, IfErr, IfOk, flat_map};
ghost use Rattle.a429_word.specs.Sheet.{Says, sheet_failed, SaysSome};
ghost use Rattle.a429_view.specs.Trace.{IsTrace};
ghost use Rattle.a429_parts.specs.Keeping.{taken};
ghost use Rattle.a429_commands.specs.Ends.{Ends, by_answer, of_stream};
ghost use Rattle.a429_commands.specs.Output.{output};
ghost use Rattle.a429_commands.specs.Streaming.{IsLinesFault};
ghost use Rattle.a429_commands.specs.Trace.{AreSomeLines, IsCut, Traces, only_text, size_line};

use crate::engines::check::put_impossible;
use crate::engines::relay::{Relay, write_while_reading};
use crate::engines::streaming::next_entry;
use crate::fault::RunFault;
use a429_explain::reason_of;
use a429_link::Crossing;
use a429_profile::Profile;
use a429_record::EntryReader;
use a429_view::{Trace, TraceStop, put_file};
use a429_word::{Sheet, Tally};
use std::alloc::Global;
use std::io::{Read, Write};

/// Writes what a recording implies of its sink, whatever its source did: a line for each word with the transfer's label
/// of its bus. Then, with status 0, the files that every run delivers which records these words; or, with status 1, the
/// first word that no run records after those before it, which is the last that is read (ARINC 429 Part 3; the layout is
/// the profile's). `profile` is the bytes of its text. The recording is read entry by entry. Kept are the number and the
/// length of each file that has crossed, 16 bytes, and the bytes of the one that is not whole. Where the recording has a
/// fault, or the reader fails, the lines of the entries before it are written; out of memory, the last entry may have no line.
pub fn run_trace<R: Read, W: Write>(
    alloc: Global,
    profile: &[u8],
    rec: &mut EntryReader<R>,
    out: &mut Tally<W>,
) -> Result<u8, RunFault>
    ensures { Ends (output W.contents out.old out.new) (of_stream profile.now (taken rec.old rec.new) rec.new.failed Traces IsCut AreSomeLines) result }
{
    write_while_reading(alloc, &Tracing { alloc }, profile, rec, out)
}

// The lines of the entries that come, and how they end.
#[derive(Drop)]
struct Tracing {
    alloc: Global,
}

impl Relay for Tracing {
    ghost says = { Traces };

    ghost stops = { IsCut };

    ghost begins = { AreSomeLines };

    fn put<R: Read, W: Write>(
        &self,
        profile: &Profile,
        rec: &mut EntryReader<R>,
        sheet: &mut Sheet<'_, W>,
    ) -> Result<u8, RunFault> {
        let mut trace = Trace::new(self.alloc);
        put_steps(self.alloc, sheet, profile, rec, &mut trace)
    }
}

// The same by a trace that has no entry yet.
fn put_steps<R: Read, W: Write>(
    alloc: Global,
    sheet: &mut Sheet<'_, W>,
    profile: &Profile,
    rec: &mut EntryReader<R>,
    trace: &mut Trace,
) -> Result<u8, RunFault>
    requires { IsTrace profile.now trace.old [] }
    ensures text { SaysSome W.contents sheet.old sheet.new (by_answer (Traces profile.now (taken rec.old rec.new)) (IsCut profile.now (taken rec.old rec.new)) result) }
    ensures err { IfErr result (IsLinesFault rec.old.to_come rec.new.failed (sheet_failed sheet.new)) }
    ensures device { IfOk result (λ status. status ≡ 0 → rec.new.failed ≡ false) }
{
    'entries: loop {
        if sheet.failed() {
            return Err(RunFault::Device);
        }
        let number = trace.entries();
        match next_entry(rec) {
            Ok(Some(entry)) => match trace.put_entry(alloc, sheet, profile, &entry) {
                Ok(()) => {}
                Err(TraceStop::OutOfMemory) => return Err(RunFault::Memory),
                Err(TraceStop::Refused(sight)) => {
                    put_impossible(sheet, number, reason_of(sight.form()));
                    return Ok(1);
                }
            },
            Ok(None) => {
                put_only(sheet, trace.files());
                return Ok(0);
            }
            Err(fault) => return Err(fault),
        }
    }
}

// How many files every run delivers that records these words, a line for each, and the premise.
fn put_only<W: Write>(sheet: &mut Sheet<'_, W>, files: &[Crossing])
    ensures { Says W.contents sheet.old sheet.new (only_text files.now) }
{
    sheet.put(b"ONLY files ");
    sheet.put_number(files.len() as u64);
    sheet.put(b"\n");
    put_sizes(sheet, files);
    sheet.put(b"if there is such a transfer, which decide finds out; if there is none, see sink\n");
}

fn put_sizes<W: Write>(sheet: &mut Sheet<'_, W>, files: &[Crossing])
    ensures { Says W.contents sheet.old sheet.new (flat_map size_line files.now) }
{
    for file in files {
        put_file(sheet, file.number, file.bytes as u64);
    }
}
