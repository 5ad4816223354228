//! The data words of bytes.

ghost use Rattle.std.specs.Prelude.{◌≡◌, ◌≤◌, ◌<◌, ◌+◌, ◌*◌, ◌^◌, ◌++◌, min, IfOk, OnOk, length, take, drop, slice_index};
ghost use Rattle.a429_profile.specs.declared.codes.Codes.{Codes};
ghost use Rattle.a429_ldu.specs.Semis.{semis_of_bytes};
ghost use Rattle.a429_ldu.specs.Form.{with_parity_bit};
ghost use Rattle.a429_ldu.specs.Filling.{full_frame, data_words};
ghost use Rattle.a429_ldu.specs.Ldu.{most_unit_bytes};

use crate::forms::Form;
use crate::forms::writing::word_of;
use crate::semis::Semis;
use a429_profile::Profile;
use a429_word::Word;
use std::alloc::{AllocError, Global};

/// The data words of bytes: full words, and then at most one partial word.
pub(crate) fn data_words(
    alloc: Global,
    profile: &Profile,
    bytes: &[u8],
) -> Result<Vec<Word>, AllocError>
    requires { length bytes.now ≤ most_unit_bytes }
    ensures { IfOk result (λ words. words.items ≡ data_words profile.now.codes bytes.now) }
{
    let frame = full_frame(profile);
    let mut words = Vec::with_capacity(alloc, (2 * bytes.len()).div_ceil(5))?;
    let mut rest = bytes;
    while let [first, second, third, fourth, fifth, later @ ..] = rest {
        let [low, high] = two_words(frame, [*first, *second, *third, *fourth, *fifth]);
        words.push(low)?;
        words.push(high)?;
        rest = later;
    }
    add_words(&mut words, profile, rest)?;
    Ok(words)
}

// The bits of a full data word other than its semi-octets and its parity bit.
fn full_frame(profile: &Profile) -> u32
    ensures value { result ≡ full_frame profile.now.codes }
    ensures room { result < 7 * 2 ^ 28 + 2 ^ 8 }
{
    let codes = profile.codes();
    u32::from(codes.to_sink.reverse_bits()) + (u32::from(codes.full) << 28)
}

// The two full data words of five bytes.
fn two_words(frame: u32, bytes: [u8; 5]) -> [Word; 2]
    requires { frame < 7 * 2 ^ 28 + 2 ^ 8 }
    ensures { (codes : Codes) → frame ≡ full_frame codes → result ≡ data_words codes bytes }
{
    let [first, second, third, fourth, fifth] = bytes;
    let low = u32::from(first)
        + (u32::from(second) << 8)
        + (u32::from(third) << 16)
        + (u32::from(fourth) << 24);
    [
        full_word(frame, low % (1 << 20)),
        full_word(frame, (low >> 20) + (u32::from(fifth) << 12)),
    ]
}

// The full data word with these semi-octets, the first of them in the lowest bits.
fn full_word(frame: u32, semis: u32) -> Word
    requires frame { frame < 7 * 2 ^ 28 + 2 ^ 8 }
    requires semis { semis < 2 ^ 20 }
    ensures { result ≡ with_parity_bit (frame + semis * 2 ^ 8) }
{
    Word::with_odd_parity(frame + (semis << 8))
}

// Adds the data words of bytes: full ones, and then at most one partial one.
fn add_words(words: &mut Vec<Word>, profile: &Profile, bytes: &[u8]) -> Result<(), AllocError>
    requires { length bytes.now ≤ most_unit_bytes }
    ensures { OnOk result (words.new.items ≡ words.old.items ++ data_words profile.now.codes bytes.now) }
{
    let mut at = 0;
    while at < 2 * bytes.len() {
        words.push(word_of(profile, &Form::Part(semis_at(bytes, at))))?;
        at += 5;
    }
    Ok(())
}

// The semi-octets from a place on, at most five.
fn semis_at(bytes: &[u8], at: usize) -> Semis
    requires within { at < 2 * length bytes.now }
    requires most { length bytes.now ≤ most_unit_bytes }
    ensures { result ≡ take 5 (drop at (semis_of_bytes bytes.now)) }
{
    let digits = [
        digit_at(bytes, at),
        digit_at(bytes, at + 1),
        digit_at(bytes, at + 2),
        digit_at(bytes, at + 3),
        digit_at(bytes, at + 4),
    ];
    Semis::kept(digits, at_most_five(2 * bytes.len() - at))
}

fn at_most_five(left: usize) -> u8
    ensures { result ≡ min 5 left }
{
    if left < 5 { left as u8 } else { 5 }
}

// The semi-octet at a place; 0 after the last.
fn digit_at(bytes: &[u8], at: usize) -> u8
    ensures value { result ≡ slice_index (semis_of_bytes bytes.now) at }
    ensures small { result < 16 }
{
    match bytes.get(at / 2) {
        Some(byte) => { if at % 2 == 0 { byte % 16 } else { byte / 16 } }
        None => 0,
    }
}
