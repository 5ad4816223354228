//! What a recording says of its sink by itself. More of them are on the page `scripts/cases/sink.md`.

use crate::calls::sample;
use a429_profile::Profile;
use a429_record::{EntryReader, ReadFault};
use a429_sink::judge_sink;
use a429_view::put_sink;
use a429_word::{Page, Sheet, Tally};
use std::alloc::Global;
use std::io::{Read, Write};

/// Writes what a recording of any length says of its sink.
fn judge<R: Read + Drop, W: Write>(
    alloc: Global,
    profile: &Profile,
    rec: Tally<R>,
    out: &mut Tally<W>,
) -> Result<(), ReadFault> {
    let mut page = Page::new(alloc).map_err(|_| ReadFault::OutOfMemory)?;
    let mut sheet = Sheet::new(out, &mut page);
    let mut reader = EntryReader::of_most(alloc, rec, usize::MAX);
    let verdict = judge_sink(alloc, profile, &mut reader)?;
    put_sink(&mut sheet, &verdict);
    sheet.finish().map_err(|_| ReadFault::Device)
}

// A file of one byte, whose first block was refused since a word of it was damaged, and what is said of its sink.
const RECORDING: &str = "time,bus,word
0,A,41410323
0,B,C24103A3
0,A,60010123
0,A,92004123
0,A,71A3F523
0,B,460000A3
0,A,41410323
0,B,C24103A3
0,A,60010123
0,A,12004123
0,A,71A3F523
0,B,450101A3
";

const SAID: &str = "SINK YES files 1\nfile 1 1\n";

// Whether this is said of a recording.
fn says(alloc: Global, profile: &Profile, recording: &str, wanted: &str) -> bool {
    let mut said = Vec::new(alloc);
    let mut out = Tally::new(&mut said, 0);
    let rec = Tally::new(recording.as_bytes(), u64::MAX);
    let judged = judge(alloc, profile, rec, &mut out).is_ok();
    judged && said.as_slice() == wanted.as_bytes()
}

#[test]
fn a_sink_by_itself(rt: HostRuntime) {
    let profile = sample(&rt);
    assert!(rt; says(rt.alloc(), &profile, RECORDING, SAID));
}
