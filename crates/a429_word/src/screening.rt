//! Parity and label of many words at once.

ghost use Rattle.std.specs.Prelude.{◌≡◌, ◌≤◌, ◌<◌, ◌+◌, ◌/◌, ◌%◌, ◌^◌, length, map, take, bit_xor};
ghost use Rattle.std.specs.Simd.Lanes.{chunk};
ghost use Rattle.a429_word.specs.Word.{count_of_ones};
ghost use Rattle.a429_word.specs.Screening.{screened};

use crate::word::Word;
use std::simd::prelude::*;

/// What `screen` returns for a word of even parity, whose label is not looked at.
pub const BAD_PARITY: u8 = 0;

/// What `screen` returns for a word of odd parity with the label that is looked for.
pub const THIS_LABEL: u8 = 1;

/// What `screen` returns for a word of odd parity with another label.
pub const OTHER_LABEL: u8 = 2;

// How many words are looked at together.
const LANES: usize = 8;

/// Writes for each word, at its place of `out`, whether its parity is odd and, if so, whether it has this label
/// (ARINC 429 Part 1): `BAD_PARITY`, `THIS_LABEL` or `OTHER_LABEL`. `out` is as long as `words`.
pub fn screen(words: &[u32], label: u8, out: &mut [u8])
    requires { length words.now ≡ length out.old }
    ensures { out.new ≡ map (screened label) words.now }
{
    let done = screen_vectors(words, label, out);
    for i in done..words.len() {
        out[i] = answer_for(Word::from_u32(words[i]), label);
    }
}

// Screens the words that fill whole vectors, from the first on, and returns how many those are.
fn screen_vectors(words: &[u32], label: u8, out: &mut [u8]) -> usize
    requires { length words.now ≡ length out.old }
    ensures within { result ≤ length words.now }
    ensures length { length out.new ≡ length out.old }
    ensures answers { take result out.new ≡ map (screened label) (take result words.now) }
{
    let mut at = 0;
    while words.len() - at >= LANES {
        answers_at(words, at, label).copy_to_slice(&mut out[at..]);
        at += LANES;
    }
    at
}

fn answer_for(word: Word, label: u8) -> u8
    ensures { result ≡ screened label word }
{
    if !word.parity_ok() {
        BAD_PARITY
    } else if word.label() == label {
        THIS_LABEL
    } else {
        OTHER_LABEL
    }
}

// The results for the words of one vector, from a place on.
fn answers_at(words: &[u32], at: usize, label: u8) -> u8x8
    requires { at + LANES ≤ length words.now }
    ensures { result ≡ map (screened label) (chunk at 8 words.now) }
{
    answers(u32x8::from_slice(&words[at..]), label).cast()
}

fn answers(words: u32x8, label: u8) -> u32x8
    requires { length words ≡ 8 }
    ensures { result ≡ map (screened label) words }
{
    let labels = words & u32x8::splat(0xff);
    let has_label = labels.simd_eq(u32x8::splat(u32::from(label.reverse_bits())));
    let by_label = has_label.select(u32x8::splat(1), u32x8::splat(2));
    let is_odd = parities(words).simd_eq(u32x8::splat(1));
    is_odd.select(by_label, u32x8::splat(0))
}

// 1 for each word of odd parity, else 0.
fn parities(words: u32x8) -> u32x8
    requires { length words ≡ 8 }
    ensures { result ≡ map (λ w. count_of_ones w % 2) words }
{
    let halves = fold(words, 16);
    let bytes = fold(halves, 8);
    let nibbles = fold(bytes, 4);
    let pairs = fold(nibbles, 2);
    fold(pairs, 1) & u32x8::splat(1)
}

// Folds the upper bits of each number onto its lower ones.
fn fold(numbers: u32x8, by: u32) -> u32x8
    requires lanes { length numbers ≡ 8 }
    requires by { by < 32 }
    ensures { result ≡ map (λ n. bit_xor n (n / 2 ^ by)) numbers }
{
    numbers ^ (numbers >> u32x8::splat(by))
}
