//! The words of one direction, by the sample profile.

use crate::agreement::none_differs;
use crate::calls::sample;
use a429_profile::Profile;
use a429_record::{EntryReader, ReadFault};
use a429_side::{Counts, Side, put_counts, put_side};
use a429_word::{Bus, Page, Sheet, Tally};
use std::alloc::Global;
use std::io::{Read, Write};
use std::test::Fail;

/// Writes the words of the direction whose files travel on line B, and says what became of the entries.
fn files_on_b<R: Read + Drop, W: Write>(
    alloc: Global,
    profile: &Profile,
    rec: Tally<R>,
    out: &mut Tally<W>,
) -> Result<Counts, ReadFault> {
    let mut page = Page::new(alloc).map_err(|_| ReadFault::OutOfMemory)?;
    let mut sheet = Sheet::new(out, &mut page);
    let mut reader = EntryReader::of_most(alloc, rec, usize::MAX);
    let counts = put_side(profile, ON_B, &mut reader, &mut sheet);
    sheet.finish().map_err(|_| ReadFault::Device)?;
    counts
}

const ON_B: Side = Side {
    line: Bus::B,
    answer: None,
};

// A recording: a request of this direction and its clear answer, a clear answer and a request of the other one, a damaged word, a
// request to another destination and its start word.
const RECORDING: &str = "time,bus,word
0,B,41410323
1,A,C24103A3
2,B,42410323
3,A,C14203A3
4,A,414203A3
5,B,41500323
6,B,60010123
";

// What is written of it, and what is said of the entries.
const WRITTEN: &str = "time,bus,word
0,A,41410323
1,B,C24103A3
4,B,414203A3
";

const COUNTED: &str = "entries 7
kept 3
other direction 2
no direction 0
destination 50 requests 1 words 2
";

// The text of counts.
fn text_of(alloc: Global, counts: &Counts, text: &mut Vec<u8>) -> bool {
    let Ok(mut page) = Page::new(alloc) else {
        return false;
    };
    let mut out = Tally::new(text, 0);
    let mut sheet = Sheet::new(&mut out, &mut page);
    put_counts(&mut sheet, ON_B, counts);
    sheet.finish().is_ok()
}

// The first of what is written and what is said that differs.
fn first_that_differs(alloc: Global, profile: &Profile) -> Option<&'static str> {
    let (mut written, mut said) = (Vec::new(alloc), Vec::new(alloc));
    let rec = Tally::new(RECORDING.as_bytes(), u64::MAX);
    let mut out = Tally::new(&mut written, 0);
    let counts = files_on_b(alloc, profile, rec, &mut out);
    let Ok(counts) = counts else {
        return Some(RECORDING);
    };
    if written.as_slice() != WRITTEN.as_bytes() {
        return Some(WRITTEN);
    }
    if text_of(alloc, &counts, &mut said) && said.as_slice() == COUNTED.as_bytes() {
        None
    } else {
        Some(COUNTED)
    }
}

#[test]
fn words_of_one_direction(rt: HostRuntime) -> Result<(), Fail> {
    let profile = sample(&rt);
    none_differs(first_that_differs(rt.alloc(), &profile))
}
