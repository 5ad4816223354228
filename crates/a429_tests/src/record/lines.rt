//! The lines that a reader of entries gives with them.

use crate::agreement::none_differs;
use a429_record::{EntryLine, EntryReader};
use a429_word::{Page, Sheet, Tally};
use std::alloc::Global;
use std::test::Fail;

// Rows after the first, each with what is given of its line, and its line.
const ROWS: [(&str, bool, &str); 9] = [
    ("10,A,41410323\n", true, "10,A,41410323\n"),
    ("10,A,41410323\n", true, "10,A,41410323\n"),
    ("010,A,41410323\n", false, "10,A,41410323\n"),
    ("11,B,c24103a3\n", false, "11,B,C24103A3\n"),
    ("12,B,C24103A3\r\n", false, "12,B,C24103A3\n"),
    ("\"13\",B,C24103A3\n", false, "13,B,C24103A3\n"),
    (
        "1700000000000014,B,C24103A3\n",
        true,
        "1700000000000014,B,C24103A3\n",
    ),
    (
        "18446744073709551615,A,0000AAFF\n",
        false,
        "18446744073709551615,A,0000AAFF\n",
    ),
    // at the end of a recording the line feed may be missing
    (
        "18446744073709551615,A,0000AAFF",
        false,
        "18446744073709551615,A,0000AAFF\n",
    ),
];

// Whether the line of the second entry is given where that is wanted, and is this line.
fn is_given(alloc: Global, row: &str, is_known: bool, wanted: &str) -> Option<bool> {
    let text = format!(in alloc; "time,bus,word\n0,A,41410323\n{row}").ok()?;
    let rec = Tally::new(text.as_bytes(), u64::MAX);
    let mut reader = EntryReader::new(alloc, rec);
    let mut line = EntryLine::new();
    reader.next_line(&mut line).ok()?;
    let is_first_known = !line.is_empty();
    let entry = reader.next_line(&mut line).ok()??;
    let is_as_wanted = !is_first_known && line.is_empty() != is_known;
    line.complete(entry);
    Some(is_as_wanted && line.len() == wanted.len() && is_text(alloc, &line, wanted.as_bytes())?)
}

// Whether a line is put on a sheet, and appended to a list, as this text.
fn is_text(alloc: Global, line: &EntryLine, wanted: &[u8]) -> Option<bool> {
    let mut list = Vec::new(alloc);
    line.append_to(&mut list).ok()?;
    let mut written = Vec::new(alloc);
    let mut page = Page::new(alloc).ok()?;
    let mut out = Tally::new(&mut written, 0);
    let mut sheet = Sheet::new(&mut out, &mut page);
    line.put(&mut sheet);
    let is_finished = sheet.finish().is_ok();
    Some(is_finished && list.as_slice() == wanted && written.as_slice() == wanted)
}

// The first row of which that is not so.
fn first_given_otherwise(alloc: Global) -> Option<&'static str> {
    for (row, is_known, wanted) in ROWS {
        if is_given(alloc, row, is_known, wanted) != Some(true) {
            return Some(row);
        }
    }
    None
}

#[test]
fn lines_of_rows(rt: HostRuntime) -> Result<(), Fail> {
    none_differs(first_given_otherwise(rt.alloc()))
}
