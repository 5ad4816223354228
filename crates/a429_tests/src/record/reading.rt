//! Readers that fail, give a text in pieces or do not end. What a text stands for is tested on the built program, by the page
//! `scripts/cases/rows.md`.

use crate::agreement::none_differs;
use crate::record::count;
use crate::sample::{Endless, Shaky};
use a429_record::ReadFault;
use a429_word::{Failing, Tally};
use std::alloc::Global;
use std::test::Fail;

#[test]
fn a_million_and_one_entries(rt: HostRuntime) {
    let rows = Endless {
        next: b"time,bus,word\n",
        again: b"0,A,41410323\n",
    };
    let mut rec = Tally::new(rows, 67_108_864);
    assert!(rt; count(rt.alloc(), &mut rec) == Err(ReadFault::TooMany));
    assert!(rt; !rec.failed());
}

// Whether a text that begins so and then has digits without end is read up to the limit on its bytes.
fn is_endless(alloc: Global, begins: &[u8]) -> bool {
    let digits = Endless {
        next: begins,
        again: b"99999999",
    };
    let mut rec = Tally::new(digits, 100_000);
    count(alloc, &mut rec) == Err(ReadFault::Device) && rec.failed()
}

// The first beginning of which that is not so.
fn first_that_ends(alloc: Global) -> Option<&'static str> {
    for begins in ["", "time,bus,word\n", "time,bus,word\n\""] {
        if !is_endless(alloc, begins.as_bytes()) {
            return Some(begins);
        }
    }
    None
}

// A row, and a field, that do not end: the limit on the bytes is met first.
#[test]
fn endless_lines(rt: HostRuntime) -> Result<(), Fail> {
    none_differs(first_that_ends(rt.alloc()))
}

// What a reading of a text answers under a cap, and whether the reader has failed then.
fn count_under(alloc: Global, text: &[u8], cap: u64) -> (Result<usize, ReadFault>, bool) {
    let mut rec = Tally::new(text, cap);
    let answer = count(alloc, &mut rec);
    (answer, rec.failed())
}

#[test]
fn exactly_the_cap_is_a_failure(rt: HostRuntime) {
    let text = b"time,bus,word\n7,A,C1410223\n";
    assert!(rt; count_under(rt.alloc(), text, 27) == (Err(ReadFault::Device), true));
    assert!(rt; count_under(rt.alloc(), text, 28) == (Ok(1), false));
}

// What a reading answers of a text in pieces of one byte whose reader fails at a call, whether it has
// failed then, and what a second reading answers.
fn shaken(
    alloc: Global,
    fails_at: u32,
) -> (Result<usize, ReadFault>, bool, Result<usize, ReadFault>) {
    let text = b"time,bus,word\n7,A,C1410223\n8,C,C1410223\n";
    let mut rec = Tally::new(Shaky::new(text, fails_at), 1000);
    let first = count(alloc, &mut rec);
    let failed = rec.failed();
    (first, failed, count(alloc, &mut rec))
}

// Whether a failure at a call is met where it comes first: the bad row has its line feed as byte 40.
fn is_met(alloc: Global, fails_at: u32) -> bool {
    let device = Err(ReadFault::Device);
    let (first, failed, second) = shaken(alloc, fails_at);
    if 0 < fails_at && fails_at <= 40 {
        failed && first == device && second == device
    } else {
        !failed && first == Err(ReadFault::Row(1))
    }
}

// The first call for which that is not so.
fn first_not_met(alloc: Global) -> Option<u32> {
    for fails_at in 0..44 {
        if !is_met(alloc, fails_at) {
            return Some(fails_at);
        }
    }
    None
}

#[test]
fn pieces_and_failures(rt: HostRuntime) -> Result<(), Fail> {
    none_differs(first_not_met(rt.alloc()))
}
