//! BCD words worked out by hand from the standard's layout.

use crate::agreement::none_differs;
use a429_word::{BadDigit, Word};
use std::test::Fail;

// The number in the first 1 to 5 digits of a word, or the place of the first digit above 9.
fn digits(number: u32, count: u8) -> Option<Result<u32, u8>> {
    if !(1..=5).contains(&count) {
        return None;
    }
    match Word::from_u32(number).bcd_digits(count) {
        Ok(value) => Some(Ok(value)),
        Err(BadDigit(place)) => Some(Err(place)),
    }
}

const READ: [(u32, u8, Result<u32, u8>); 10] = [
    // Label 201: the digits 1, 2, 3, 4, 5; the third group 10; minus zero.
    (0x048d_1481, 5, Ok(12345)),
    (0x04a9_1481, 5, Err(3)),
    (0xe000_0081, 5, Ok(0)),
    (0xffff_ffff, 5, Err(2)),
    (0x0000_2800, 5, Err(5)),
    (0x048d_1481, 2, Ok(12)),
    (0x04a9_1481, 2, Ok(12)),
    (0x1e7f_fc00, 2, Ok(79)),
    (0x04a9_1481, 3, Err(3)),
    (0xffff_ffff, 1, Ok(7)),
];

// The first of them with other digits, and how many are read.
fn first_with_other_digits() -> Option<(u32, u8)> {
    for (number, count, wanted) in READ {
        if digits(number, count) != Some(wanted) {
            return Some((number, count));
        }
    }
    None
}

#[test]
fn digits_of_known_words() -> Result<(), Fail> {
    none_differs(first_with_other_digits())
}

// The first word that its digits do not make.
fn first_not_made_of_its_digits() -> Option<u32> {
    let cases = [
        (0, 5, 12345, 0x048d_1481),
        (1, 5, 12345, 0xa48d_1481),
        (3, 5, 0, 0xe000_0081),
        (0, 5, 79999, 0x1e66_6481),
        (0, 2, 12, 0x8480_0081),
        (0, 1, 7, 0x1c00_0081),
    ];
    for (ssm, count, value, number) in cases {
        let word = Word::bcd_word(0o201, 0, ssm, count, value);
        if word.to_u32() != number {
            return Some(number);
        }
    }
    None
}

#[test]
fn words_of_known_digits() -> Result<(), Fail> {
    none_differs(first_not_made_of_its_digits())
}
