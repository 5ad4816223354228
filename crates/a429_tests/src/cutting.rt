//! Into which parts a recording is cut, in memory. More of them are on the page `scripts/cases/cut.md`.

use crate::calls::sample;
use a429_parts::{MemoryParts, Parts, put_parts};
use a429_profile::Profile;
use a429_record::{EntryReader, ReadFault};
use a429_word::{Page, Sheet, Tally};
use std::alloc::Global;

// Files 254 and 255, of one byte each.
const TWO_FILES: &str = "time,bus,word
0,A,41410323
1,B,C24103A3
2,A,60FE0123
3,A,12004123
4,A,71A3F523
5,B,45FE01A3
6,A,41410323
7,B,C24103A3
8,A,E0FF0123
9,A,12004123
10,A,71A3F523
11,B,C5FF01A3
";

const LIST: &str = "part 1 entries 6 from 0\npart 2 entries 6 from 6\n";

// The texts of the two parts, one after the other, each with its header.
const TEXTS: &str = "time,bus,word
0,A,41410323
1,B,C24103A3
2,A,60FE0123
3,A,12004123
4,A,71A3F523
5,B,45FE01A3
time,bus,word
6,A,41410323
7,B,C24103A3
8,A,E0FF0123
9,A,12004123
10,A,71A3F523
11,B,C5FF01A3
";

// The list of the parts of at most so many entries that are put, or the fault.
fn cut(
    alloc: Global,
    profile: &Profile,
    most: usize,
    parts: &mut MemoryParts,
) -> Result<Vec<u8>, ReadFault> {
    let mut written = Vec::new(alloc);
    let mut page = Page::new(alloc).map_err(|_| ReadFault::OutOfMemory)?;
    let mut out = Tally::new(&mut written, 0);
    let mut sheet = Sheet::new(&mut out, &mut page);
    let rec = Tally::new(TWO_FILES.as_bytes(), u64::MAX);
    let mut rec = EntryReader::of_most(alloc, rec, usize::MAX);
    put_parts(alloc, profile, most, &mut rec, parts, &mut sheet)
}

// Whether the recording is cut into the two parts, and the list of them is put, too.
fn is_cut_in_two(alloc: Global, profile: &Profile) -> bool {
    let mut parts = MemoryParts::new(alloc);
    match cut(alloc, profile, 6, &mut parts) {
        Ok(list) => {
            parts.put_list(&list) == Ok(())
                && parts.list() == Some(LIST.as_bytes())
                && are_texts(alloc, &parts)
        }
        Err(_) => false,
    }
}

// Whether the parts have their texts.
fn are_texts(alloc: Global, parts: &MemoryParts) -> bool {
    let mut written = Vec::new(alloc);
    let mut out = Tally::new(&mut written, 0);
    for part in parts.parts() {
        if part.rows().write(alloc, &mut out).is_err() {
            return false;
        }
    }
    written.as_slice() == TEXTS.as_bytes()
}

// Whether no place to cut is near enough.
fn is_not_cut(alloc: Global, profile: &Profile) -> bool {
    let mut parts = MemoryParts::new(alloc);
    cut(alloc, profile, 5, &mut parts) == Err(ReadFault::TooMany) && parts.parts().is_empty()
}

#[test]
fn parts_in_memory(rt: HostRuntime) {
    let profile = sample(&rt);
    assert!(rt; is_cut_in_two(rt.alloc(), &profile));
    assert!(rt; is_not_cut(rt.alloc(), &profile));
}
