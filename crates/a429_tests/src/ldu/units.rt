//! Bytes, check words and link data units.

ghost use Rattle.std.specs.Prelude.{◌≤◌, length};

use crate::agreement::none_differs;
use crate::calls::sample;
use crate::sample::{EOT, PART, RTS, SOT};
use a429_ldu::{CutFault, Ldu, LduFault, block_bytes, bytes_of, check_word, check_word_by, cut};
use a429_profile::{Check, CheckTables, Profile};
use a429_word::Word;
use std::alloc::{AllocError, Global};
use std::test::Fail;

// Whether check words that are made so give this one, bit by bit and by tables.
fn give(alloc: Global, rule: Check, wanted: u16) -> Result<bool, AllocError> {
    let tables = CheckTables::new(alloc, rule)?;
    Ok(check_word(&rule, b"123456789") == wanted && check_word_by(&tables, b"123456789") == wanted)
}

const LOW_FIRST: Check = Check {
    poly: 0x1021,
    init: 0xFFFF,
    xor: 0xFFFF,
    low_first: true,
    compare: true,
};

const HIGH_FIRST: Check = Check {
    poly: 0x1021,
    init: 0xFFFF,
    xor: 0,
    low_first: false,
    compare: true,
};

#[test]
fn known_check_words(rt: HostRuntime) {
    assert!(rt; give(rt.alloc(), LOW_FIRST, 0x906E) == Ok(true));
    assert!(rt; give(rt.alloc(), HIGH_FIRST, 0x29B1) == Ok(true));
}

// Whether these bytes are made, or none.
fn are_same(made: Option<&[u8]>, bytes: Option<&[u8]>) -> bool {
    made == bytes
}

// Whether words carry these bytes; `None` stands for words that carry none.
fn carry(alloc: Global, profile: &Profile, words: &[Word], bytes: Option<&[u8]>) -> bool {
    match bytes_of(alloc, profile, words) {
        Ok(Some(made)) => are_same(Some(made.as_slice()), bytes),
        Ok(None) => bytes.is_none(),
        Err(_) => false,
    }
}

// The same without memory.
fn carry_in_block(profile: &Profile, words: &[Word], bytes: Option<&[u8]>) -> bool
    requires { length words.now ≤ 253 }
{
    match block_bytes(profile, words) {
        Some(made) => are_same(Some(made.as_slice()), bytes),
        None => bytes.is_none(),
    }
}

// The same, in both ways.
fn carry_both(alloc: Global, profile: &Profile, words: &[Word], bytes: Option<&[u8]>) -> bool
    requires { length words.now ≤ 253 }
{
    carry(alloc, profile, words, bytes) && carry_in_block(profile, words, bytes)
}

// What first does not hold of the bytes that words carry.
fn first_carried_otherwise(alloc: Global, profile: &Profile) -> Option<&'static str> {
    let both = [Word::from_u32(0x0342_4123), Word::from_u32(0x9100_0423)];
    if !carry_both(alloc, profile, &both, Some(b"ABC".as_slice())) {
        return Some("two words");
    }
    if !carry_both(alloc, profile, &[Word::from_u32(0x9100_0123)], None) {
        return Some("an odd number of semi-octets");
    }
    if !carry_both(alloc, profile, &[], None) {
        return Some("no words");
    }
    let mixed = [Word::from_u32(PART), Word::from_u32(RTS)];
    if !carry_both(alloc, profile, &mixed, None) {
        return Some("a request among data words");
    }
    None
}

#[test]
fn bytes_of_data_words(rt: HostRuntime) -> Result<(), Fail> {
    let profile = sample(&rt);
    none_differs(first_carried_otherwise(rt.alloc(), &profile))
}

// The link data unit of these words with a GFI of 0 and flags of 1.
fn unit_of(alloc: Global, profile: &Profile, check: u16, words: &[Word]) -> Result<Ldu, LduFault> {
    Ldu::new(alloc, profile, 0, 1, check, words)
}

// Whether a unit has a GFI of 0, flags of 1, and a block of so many words.
fn is_last(unit: &Ldu, count: u8) -> bool {
    unit.gfi() == 0 && unit.flags() == 1 && unit.count() == count
}

// Whether a word of a unit's block is this one, as unit 1 of file 1.
fn has_word(profile: &Profile, unit: &Ldu, place: u8, number: u32) -> bool {
    place < unit.count() && unit.word(profile, place, 1, 1).to_u32() == number
}

// Whether the block of a unit has these words, as unit 1 of file 1.
fn is_block(profile: &Profile, unit: &Ldu, numbers: [u32; 3]) -> bool {
    has_word(profile, unit, 0, numbers[0])
        && has_word(profile, unit, 1, numbers[1])
        && has_word(profile, unit, 2, numbers[2])
}

// Whether the unit of one word is that word, with this check word and this block.
fn is_unit(alloc: Global, profile: &Profile, number: u32, check: u16, numbers: [u32; 3]) -> bool {
    let words = [Word::from_u32(number)];
    match unit_of(alloc, profile, check, &words) {
        Ok(unit) => {
            is_last(&unit, 3)
                && unit.check() == check
                && unit.words() == words.as_slice()
                && is_block(profile, &unit, numbers)
        }
        Err(_) => false,
    }
}

// Whether there is no link data unit of these words for this reason.
fn is_refused(
    alloc: Global,
    profile: &Profile,
    check: u16,
    words: &[Word],
    wanted: LduFault,
) -> bool {
    match unit_of(alloc, profile, check, words) {
        Ok(_) => false,
        Err(fault) => fault == wanted,
    }
}

// What first does not hold of link data units of given words.
fn first_made_otherwise(alloc: Global, profile: &Profile) -> Option<&'static str> {
    if !is_unit(alloc, profile, PART, 0xA3F5, [SOT, PART, EOT]) {
        return Some("a link data unit and its block");
    }
    if !is_refused(
        alloc,
        profile,
        0xA3F4,
        &[Word::from_u32(PART)],
        LduFault::CheckWrong,
    ) {
        return Some("another check word");
    }
    if !is_refused(
        alloc,
        profile,
        0xA3F5,
        &[Word::from_u32(0x9100_0123)],
        LduFault::NotBytes,
    ) {
        return Some("an odd number of semi-octets");
    }
    if !is_refused(alloc, profile, 0xA3F5, &[], LduFault::Count) {
        return Some("no words");
    }
    None
}

#[test]
fn link_data_units_of_words(rt: HostRuntime) -> Result<(), Fail> {
    let profile = sample(&rt);
    none_differs(first_made_otherwise(rt.alloc(), &profile))
}

// The link data units of a file, each of at most so many words.
fn units_of(
    alloc: Global,
    profile: &Profile,
    bytes: &[u8],
    max_words: u8,
) -> Result<Vec<Ldu>, CutFault>
    requires { 3 ≤ max_words }
{
    cut(alloc, profile, bytes, max_words)
}

// The same, of so many bytes 0, of which there are at most 632.
fn units_of_zeros(
    alloc: Global,
    profile: &Profile,
    count: usize,
    max_words: u8,
) -> Result<Vec<Ldu>, CutFault>
    requires { 3 ≤ max_words }
{
    units_of(alloc, profile, &[0; 632][..count.min(632)], max_words)
}

// The link data unit of a file, where it is one.
fn only(units: Result<Vec<Ldu>, CutFault>) -> Option<Ldu> {
    let mut units = units.ok()?;
    if units.len() == 1 { units.pop() } else { None }
}

// Whether a file is one link data unit, the last, of these two words.
fn are_its_words(unit: Option<Ldu>, first: u32, second: u32) -> bool {
    let words = [Word::from_u32(first), Word::from_u32(second)];
    match unit {
        Some(unit) => is_last(&unit, 4) && unit.words() == words.as_slice(),
        None => false,
    }
}

// Whether words are all this one.
fn are_all(words: &[Word], number: u32) -> bool {
    for word in words {
        if word.to_u32() != number {
            return false;
        }
    }
    true
}

// Whether a unit has 255 words in its block: 252 full ones of zeros, and a partial one of four zeros.
fn is_longest(unit: Option<Ldu>) -> bool {
    let Some(unit) = unit else {
        return false;
    };
    let Some((last, full)) = unit.words().split_last() else {
        return false;
    };
    unit.count() == 255
        && full.len() == 252
        && are_all(full, 0x0000_0023)
        && last.to_u32() == 0x1400_0023
}

// Whether one of the units has these flags.
fn has_flags(units: &[Ldu], place: usize, flags: u8) -> bool {
    match units.get(place) {
        Some(unit) => unit.flags() == flags,
        None => false,
    }
}

// Whether these are so many units, of which the last alone ends its file.
fn is_ended_by_last(units: &[Ldu], count: usize) -> bool {
    units.len() == count
        && has_flags(units, 0, 0)
        && has_flags(units, count.wrapping_sub(2), 0)
        && has_flags(units, count.wrapping_sub(1), 1)
}

// Whether a file of so many zeros is of so many units at three words.
fn is_of(alloc: Global, profile: &Profile, zeros: usize, count: usize) -> bool {
    match units_of_zeros(alloc, profile, zeros, 3) {
        Ok(units) => is_ended_by_last(&units, count),
        Err(_) => false,
    }
}

// Whether a file of zeros is not cut for this reason.
fn is_not_cut(
    alloc: Global,
    profile: &Profile,
    count: usize,
    max_words: u8,
    wanted: CutFault,
) -> bool
    requires { 3 ≤ max_words }
{
    match units_of_zeros(alloc, profile, count, max_words) {
        Ok(_) => false,
        Err(fault) => fault == wanted,
    }
}

// What first does not hold of the link data units of files.
fn first_cut_otherwise(alloc: Global, profile: &Profile) -> Option<&'static str> {
    if !are_its_words(
        only(units_of(alloc, profile, b"ABC", 255)),
        0x0342_4123,
        0x9100_0423,
    ) {
        return Some("a short file is one link data unit");
    }
    if !is_longest(only(units_of_zeros(alloc, profile, 632, 255))) {
        return Some("the longest link data unit");
    }
    if !is_of(alloc, profile, 510, 255) {
        return Some("the longest file at three words");
    }
    if !is_not_cut(alloc, profile, 0, 255, CutFault::Empty) {
        return Some("no bytes");
    }
    if !is_not_cut(alloc, profile, 511, 3, CutFault::TooLong) {
        return Some("a byte more than the longest file at three words");
    }
    None
}

#[test]
fn files_are_cut(rt: HostRuntime) -> Result<(), Fail> {
    let profile = sample(&rt);
    none_differs(first_cut_otherwise(rt.alloc(), &profile))
}
