//! Fractions and the texts that a reader expects of them.

use crate::agreement::none_differs;
use a429_word::{Device, Failing, Fixed, Tally};
use std::alloc::Global;
use std::io::Write;
use std::test::Fail;

// What a write of a fraction of at most 24 decimals answers.
fn write<W: Write>(number: i128, decimals: u8, out: &mut Tally<W>) -> Result<(), Device> {
    if decimals > 24 {
        return Err(Device);
    }
    Fixed { number, decimals }.write_text(out)
}

// Whether a fraction is written as this text.
fn is_written(alloc: Global, number: i128, decimals: u8, text: &str) -> bool {
    let mut bytes = Vec::new(alloc);
    let answer = write(number, decimals, &mut Tally::new(&mut bytes, 0));
    answer == Ok(()) && bytes.as_slice() == text.as_bytes()
}

const FRACTIONS: [(i128, u8, &str); 16] = [
    (0, 6, "0"),
    (0, 0, "0"),
    (-5, 1, "-0.5"),
    (1200, 2, "12"),
    (-1200, 3, "-1.2"),
    (12345, 2, "123.45"),
    (10, 0, "10"),
    (100, 2, "1"),
    (1, 24, "0.000000000000000000000001"),
    // The least step of 180 degrees in 18 bits, and -1000 feet in 17 bits of 131072 feet.
    (686_645_507_812_500, 18, "0.0006866455078125"),
    (-100_000_000_000_000_000_000, 17, "-1000"),
    (1_000_000_000_000_000_000_000_000, 24, "1"),
    (i128::MIN, 0, "-170141183460469231731687303715884105728"),
    (i128::MAX, 0, "170141183460469231731687303715884105727"),
    (i128::MIN, 24, "-170141183460469.231731687303715884105728"),
    (i128::MAX, 24, "170141183460469.231731687303715884105727"),
];

// The text of the first of them that is written in another way.
fn first_that_differs(alloc: Global) -> Option<&'static str> {
    for (number, decimals, text) in FRACTIONS {
        if !is_written(alloc, number, decimals, text) {
            return Some(text);
        }
    }
    None
}

#[test]
fn fractions_in_decimal(rt: HostRuntime) -> Result<(), Fail> {
    none_differs(first_that_differs(rt.alloc()))
}

// What two writes of -0.5 into the first three bytes answer, and whether the writer has failed between
// them.
fn writes_in_three_bytes(page: &mut [u8; 4]) -> (Result<(), Device>, bool, Result<(), Device>) {
    let mut out = Tally::new(&mut page[..3], 0);
    let first = write(-5, 1, &mut out);
    let failed = out.failed();
    (first, failed, write(-5, 1, &mut out))
}

#[test]
fn a_writer_that_fails_leaves_a_prefix(rt: HostRuntime) {
    let mut page = *b"????";
    let answers = writes_in_three_bytes(&mut page);
    assert!(rt; answers == (Err(Device), true, Err(Device)));
    assert!(rt; page == *b"-0.?");
}
