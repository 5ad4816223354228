//! What of a recording its transfer needs, by the sample profile.

use crate::agreement::none_differs;
use crate::calls::sample;
use a429_parts::put_kept;
use a429_profile::Profile;
use a429_record::{EntryReader, ReadFault};
use a429_word::{Page, Sheet, Tally};
use std::alloc::Global;
use std::io::{Read, Write};
use std::test::Fail;

/// Writes a recording of any length without the entries that its transfer does not need.
fn keep<R: Read + Drop, W: Write>(
    alloc: Global,
    profile: &Profile,
    rec: Tally<R>,
    out: &mut Tally<W>,
) -> Result<(), ReadFault> {
    let mut page = Page::new(alloc).map_err(|_| ReadFault::OutOfMemory)?;
    let mut sheet = Sheet::new(out, &mut page);
    let mut reader = EntryReader::of_most(alloc, rec, usize::MAX);
    let kept = put_kept(profile, &mut reader, &mut sheet);
    sheet.finish().map_err(|_| ReadFault::Device)?;
    kept
}

// A recording, and what is kept of it: damaged and ignored words with the transfer's label of their bus, and no other word.
const KEPT: (&str, &str) = (
    "time,bus,word
0,A,41410323
1,B,C24103A3
2,A,92004123
3,A,E13880C1
4,B,41410323
5,A,50000023
",
    "time,bus,word
0,A,41410323
1,B,C24103A3
2,A,92004123
5,A,50000023
",
);

const EMPTY: (&str, &str) = ("time,bus,word\n", "time,bus,word\n");

// Whether this is kept of a recording.
fn keeps(alloc: Global, profile: &Profile, recording: &str, text: &str) -> bool {
    let mut written = Vec::new(alloc);
    let rec = Tally::new(recording.as_bytes(), u64::MAX);
    let mut out = Tally::new(&mut written, 0);
    let kept = keep(alloc, profile, rec, &mut out);
    kept.is_ok() && written.as_slice() == text.as_bytes()
}

// The first recording of which another text is kept.
fn first_that_differs(alloc: Global, profile: &Profile) -> Option<&'static str> {
    for (recording, text) in [KEPT, EMPTY] {
        if !keeps(alloc, profile, recording, text) {
            return Some(recording);
        }
    }
    None
}

#[test]
fn what_is_kept(rt: HostRuntime) -> Result<(), Fail> {
    let profile = sample(&rt);
    none_differs(first_that_differs(rt.alloc(), &profile))
}
