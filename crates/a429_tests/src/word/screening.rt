//! Many words screened at once are answered as each of them is alone.

use crate::agreement::none_differs;
use a429_word::{BAD_PARITY, OTHER_LABEL, THIS_LABEL, Word, screen};
use std::test::Fail;

const LONGEST: usize = 70;

// What is answered for a word by itself.
fn alone(number: u32, label: u8) -> u8 {
    let word = Word::from_u32(number);
    if !word.parity_ok() {
        BAD_PARITY
    } else if word.label() == label {
        THIS_LABEL
    } else {
        OTHER_LABEL
    }
}

// Whether each of these words, of which there are at most 70, is answered as it is by itself.
fn are_answered(words: &[u32], label: u8) -> bool {
    let mut answers = [9; LONGEST];
    if words.len() > LONGEST {
        return false;
    }
    screen(words, label, &mut answers[..words.len()]);
    for i in 0..words.len() {
        if answers[i] != alone(words[i], label) {
            return false;
        }
    }
    true
}

// Words of which each third has the label 203, and whose parity is now odd, now even.
fn some_words() -> [u32; LONGEST] {
    let mut words = [0; LONGEST];
    let mut number = 0_u32;
    for i in 0..LONGEST {
        number = number.wrapping_mul(1_664_525).wrapping_add(1_013_904_223);
        words[i] = if i % 3 == 0 {
            number & 0xffff_ff00 | 0xc1
        } else {
            number
        };
    }
    words
}

// The first length of some words at which one of them is answered in another way.
fn first_length_that_differs(words: &[u32; LONGEST]) -> Option<usize> {
    for length in 0..=LONGEST {
        if !are_answered(&words[..length], 0o203) {
            return Some(length);
        }
    }
    None
}

#[test]
fn words_of_each_number() -> Result<(), Fail> {
    none_differs(first_length_that_differs(&some_words()))
}

#[test]
fn known_words(rt: HostRuntime) {
    let mut answers = [9; 4];
    let words = [0xe138_80c1, 0xffe0_c0c1, 0x4141_0323, 0x6001_0123];
    screen(&words, 0o203, &mut answers);
    assert!(rt; answers == [1, 0, 2, 2]);
}
