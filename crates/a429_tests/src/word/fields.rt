//! Words worked out by hand from the standard's layout.

use crate::agreement::none_differs;
use a429_word::{Bus, Word, octal};
use std::test::Fail;

// A word's number, label, SDI, data field and SSM, and whether its parity is odd.
fn fields(number: u32) -> (u32, u8, u8, u32, u8, bool) {
    let word = Word::from_u32(number);
    let parity_ok = word.parity_ok();
    (
        word.to_u32(),
        word.label(),
        word.sdi(),
        word.field(),
        word.ssm(),
        parity_ok,
    )
}

const FIELDS: [(u32, u8, u8, u32, u8, bool); 5] = [
    // An altitude in normal operation, and the same with bit 32 turned.
    (0xe138_80c1, 0o203, 0, 0x4e20, 3, true),
    (0x6138_80c1, 0o203, 0, 0x4e20, 3, false),
    // A discrete word, whose SDI is 2.
    (0x8000_0a1d, 0o270, 2, 2, 0, true),
    // A distance: bits 31 and 30 are 0 and 1.
    (0xa48d_1481, 0o201, 0, 0x1_2345, 1, true),
    (0, 0, 0, 0, 0, false),
];

// The first of them with other fields.
fn first_with_other_fields() -> Option<u32> {
    for word in FIELDS {
        if fields(word.0) != word {
            return Some(word.0);
        }
    }
    None
}

#[test]
fn fields_of_known_words() -> Result<(), Fail> {
    none_differs(first_with_other_fields())
}

// The first bit of a word that is not 1 at the ends and 0 between them.
fn first_other_bit(word: Word) -> Option<u8> {
    for n in 1..33 {
        if word.bit(n) != (n == 1 || n == 32) {
            return Some(n);
        }
    }
    None
}

#[test]
fn bits_are_numbered_from_1() -> Result<(), Fail> {
    none_differs(first_other_bit(Word::from_u32(0x8000_0001)))
}

// The raw number of a word with 1 to 18 significant bits.
fn raw(number: u32, bits: u8) -> Option<i32> {
    match bits {
        1..=18 => Some(Word::from_u32(number).bnr_raw(bits)),
        _ => None,
    }
}

const RAW_READ: [(u32, u8, i32); 10] = [
    (0xe138_80c1, 18, 20000),
    (0x6000_0433, 18, 1),
    (0x7000_0033, 18, -262_144),
    (0x6fff_fc33, 18, 262_143),
    (0, 18, 0),
    (0xe138_80c1, 17, 10000),
    (0x7fe0_c0c1, 17, -1000),
    (0xf000_00c1, 17, -131_072),
    (0x1000_0000, 1, -2),
    (0x0800_0000, 1, 1),
];

// The first of them with another raw number.
fn first_with_another_raw() -> Option<u32> {
    for (number, bits, wanted) in RAW_READ {
        if raw(number, bits) != Some(wanted) {
            return Some(number);
        }
    }
    None
}

#[test]
fn raw_numbers() -> Result<(), Fail> {
    none_differs(first_with_another_raw())
}

// The first word that its raw number does not make.
fn first_not_made_of_its_raw() -> Option<u32> {
    let cases = [
        (0o203, 3, 18, 20000, 0xe138_80c1),
        (0o203, 3, 17, 10000, 0xe138_80c1),
        (0o203, 3, 17, -1000, 0x7fe0_c0c1),
        (0o203, 3, 17, -131_072, 0xf000_00c1),
        (0o314, 3, 18, 1, 0x6000_0433),
        (0o314, 3, 18, -262_144, 0x7000_0033),
        (0, 0, 1, -2, 0x1000_0000),
        (0, 0, 1, 1, 0x0800_0000),
    ];
    for (label, ssm, bits, raw, number) in cases {
        let word = Word::bnr_word(label, 0, ssm, bits, raw);
        if word.to_u32() != number {
            return Some(number);
        }
    }
    None
}

#[test]
fn words_of_known_raw_numbers() -> Result<(), Fail> {
    none_differs(first_not_made_of_its_raw())
}

// The first word that its parts do not make.
fn first_not_made_of_its_parts() -> Option<u32> {
    let cases = [
        (0o203, 0, 20000, 3, 0xe138_80c1),
        (0o304, 3, 0x5040, 2, 0x4141_0323),
        (0o270, 1, 2, 0, 0x8000_091d),
        (0, 0, 0, 0, 0x8000_0000),
        (0o377, 3, 0x7_ffff, 3, 0x7fff_ffff),
    ];
    for (label, sdi, field, ssm, number) in cases {
        let word = Word::with_parity(label, sdi, field, ssm);
        if word.to_u32() != number {
            return Some(number);
        }
    }
    None
}

#[test]
fn words_of_their_parts() -> Result<(), Fail> {
    none_differs(first_not_made_of_its_parts())
}

// The number of the word that a text writes.
fn read_hex(text: &[u8]) -> Option<u32> {
    let word = Word::parse_hex(text)?;
    Some(word.to_u32())
}

// The first number that is written in another way.
fn first_written_otherwise() -> Option<u32> {
    for (number, text) in [(0xe138_80c1, *b"E13880C1"), (0x0000_9aaf, *b"00009AAF")] {
        if Word::from_u32(number).hex() != text {
            return Some(number);
        }
    }
    None
}

const TEXTS: [(&str, u32); 3] = [
    ("E13880C1", 0xe138_80c1),
    ("e13880c1", 0xe138_80c1),
    ("00000000", 0),
];

// The first text that is read as another word.
fn first_read_otherwise() -> Option<&'static str> {
    for (text, number) in TEXTS {
        if read_hex(text.as_bytes()) != Some(number) {
            return Some(text);
        }
    }
    None
}

#[test]
fn hexadecimal_written() -> Result<(), Fail> {
    none_differs(first_written_otherwise())
}

#[test]
fn hexadecimal_read() -> Result<(), Fail> {
    none_differs(first_read_otherwise())
}

// Texts, and the words whose digits they are as they are written.
const WRITTEN: [(&str, Option<u32>); 8] = [
    ("E13880C1", Some(0xe138_80c1)),
    ("00009AAF", Some(0x0000_9aaf)),
    ("e13880c1", None),
    ("00009AAf", None),
    ("E13880C", None),
    ("E13880C10", None),
    ("E13880G1", None),
    ("", None),
];

// The first of them of which that is not so.
fn first_not_as_written() -> Option<&'static str> {
    for (text, number) in WRITTEN {
        if Word::parse_upper_hex(text.as_bytes()).map(Word::to_u32) != number {
            return Some(text);
        }
    }
    None
}

#[test]
fn hexadecimal_as_it_is_written() -> Result<(), Fail> {
    none_differs(first_not_as_written())
}

const NO_WORDS: [&str; 9] = [
    "",
    "E13880C",
    "E13880C10",
    "E13880G1",
    "+13880C1",
    " 13880C1",
    "0xE13880",
    "E13880C\n",
    "\u{ff21}880C1",
];

// The first of them that is read as a word.
fn first_that_is_read() -> Option<&'static str> {
    for text in NO_WORDS {
        if read_hex(text.as_bytes()).is_some() {
            return Some(text);
        }
    }
    None
}

#[test]
fn texts_that_are_no_words() -> Result<(), Fail> {
    none_differs(first_that_is_read())
}

// The first label that is written in another way.
fn first_label_written_otherwise() -> Option<u8> {
    for (label, text) in [
        (0, *b"000"),
        (0o203, *b"203"),
        (0o377, *b"377"),
        (8, *b"010"),
    ] {
        if octal(label) != text {
            return Some(label);
        }
    }
    None
}

#[test]
fn labels_in_octal() -> Result<(), Fail> {
    none_differs(first_label_written_otherwise())
}

#[test]
fn the_two_buses_differ(rt: HostRuntime) {
    assert!(rt; Bus::A != Bus::B);
}
