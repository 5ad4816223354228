//! Exports with known answers: the recording up to the end or up to a fault, and the counts or the fault. More of them are on the page
//! `scripts/cases/import.md`, for the built program.

use crate::agreement::none_differs;
use a429_import::{Import, ImportFault, Map, put_counts, put_import, put_places, read_map};
use a429_word::{Page, Sheet, Tally};
use std::alloc::{AllocError, Global};
use std::io::Write;
use std::test::Fail;

/// Writes the recording that an export is by a map, and says what became of its lines.
fn import<W: Write>(
    alloc: Global,
    map: &Map,
    export: &[u8],
    out: &mut Tally<W>,
) -> Result<Import, ImportFault> {
    let mut page = Page::new(alloc).map_err(|_| ImportFault::OutOfMemory)?;
    let mut sheet = Sheet::new(out, &mut page);
    let mut export = Tally::new(export, u64::MAX);
    let counts = put_import(alloc, map, &mut export, &mut sheet);
    sheet.finish().map_err(|_| ImportFault::Device)?;
    counts
}

// An export by a map: the rows that are written after the header, and the counts, or the fault, that are printed.
struct Case {
    what: &'static str,
    map: &'static str,
    export: &'static str,
    rows: &'static str,
    printed: &'static str,
}

const EXPORTS: &[Case] = &[Case {
    what: "a counter that wraps below by more than half",
    map: "rows = {separator = \",\", header = true}
time = {column = \"time\", form = \"integer\", wraps_at = 1000}
channel = {column = \"bus\", a = [\"A\"], b = [\"B\"]}
word = {bit_32 = \"parity\"}
part = [{column = \"word\", base = 16, low = 1, bits = 32}]
",
    export: "time,bus,word\n501,A,41410323\n0,B,C24103A3\n",
    rows: "501,A,41410323\n1000,B,C24103A3\n",
    printed: "wrap 1 line 3\nentries 2\non A 1\non B 1\nlines 3\nlines up to the header 1\nwraps undone 1\n",
}];

// What is printed: the counts, or the fault.
fn printed(
    alloc: Global,
    map: &Map,
    counts: Result<Import, ImportFault>,
) -> Result<Vec<u8>, AllocError> {
    let mut text = Vec::new(alloc);
    match counts {
        Ok(import) => {
            let mut page = Page::new(alloc)?;
            let mut out = Tally::new(&mut text, 0);
            let mut sheet = Sheet::new(&mut out, &mut page);
            put_places(&mut sheet, import.places.as_slice());
            put_counts(&mut sheet, map.turning, &import.counts);
            if sheet.finish().is_err() {
                return Err(AllocError);
            }
        }
        Err(fault) => {
            let fault = format!(in alloc; "{fault}")?;
            text.extend_from_slice(fault.as_bytes())?;
        }
    }
    Ok(text)
}

// Whether a case gives what it says.
fn gives(alloc: Global, case: &Case) -> Result<bool, AllocError> {
    let Ok(map) = read_map(alloc, case.map) else {
        return Ok(false);
    };
    let mut written = Vec::new(alloc);
    let counts = import(
        alloc,
        &map,
        case.export.as_bytes(),
        &mut Tally::new(&mut written, 0),
    );
    let said = printed(alloc, &map, counts)?;
    let Some(rows) = written
        .as_slice()
        .strip_prefix(b"time,bus,word\n".as_slice())
    else {
        return Ok(false);
    };
    Ok(rows == case.rows.as_bytes() && said.as_slice() == case.printed.as_bytes())
}

// What differs first from what its case says.
fn first_other(alloc: Global, cases: &[Case]) -> Option<&'static str> {
    let differs = cases.iter().find(|case| gives(alloc, case) != Ok(true));
    differs.map(|case| case.what)
}

#[test]
fn exports_and_their_recordings(rt: HostRuntime) -> Result<(), Fail> {
    none_differs(first_other(rt.alloc(), EXPORTS))
}
