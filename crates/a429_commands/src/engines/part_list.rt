//! The list of a recording's parts, read: how many entries each of them has.

ghost use Rattle.std.specs.Prelude.{◌≡◌, ◌≢◌, ◌↔◌, ◌≤◌, ◌<◌, ◌^◌, ◌++◌, ℕ, List, length, take, drop, get_or, IsTrue, Ok, None, IfOk, IfSome};
ghost use Rattle.std.specs.Char.{digit_value};
ghost use Rattle.std.specs.Option.{MatchOption};
ghost use Rattle.std.specs.Fmt.{decimal};
ghost use Rattle.std.specs.Str.Parse.{digits_value, AllDigits};
ghost use Rattle.a429_record.specs.Recording.{most_entries};
ghost use Rattle.a429_commands.specs.PartList.{part_line, ArePartSizes, BeginsWithNoDigit, ListsParts};

use a429_cert::OutOfMemory;
use a429_record::MOST_ENTRIES;
use std::alloc::Global;

// So many digits fit 64 bits, whatever they are.
const MOST_DIGITS: usize = 19;

// The least number of twenty digits.
const TOO_LONG: u64 = 10_000_000_000_000_000_000;

/// How many entries each part has, where a text is a list of parts as `cut` writes it; none where it is no such list.
pub fn read_parts(alloc: Global, text: &[u8]) -> Result<Option<Vec<u64>>, OutOfMemory>
    ensures some { IfOk result (λ o. IfSome o (λ v. ListsParts text.now v.items)) }
    ensures none { result ≡ Ok None → (counts : List ℕ) → ListsParts text.now counts → ⊥ }
{
    let mut counts = Vec::new(alloc);
    let mut rest = text;
    let mut number: u64 = 1;
    let mut from: u64 = 0;
    'lines: while !rest.is_empty() {
        let Some((count, after)) = part_at(rest, number, from) else {
            return Ok(None);
        };
        if counts.push(count).is_err() {
            return Err(OutOfMemory);
        }
        number += 1;
        from += count;
        if from >= TOO_LONG {
            return Ok(None);
        }
        rest = after;
    }
    if are_sizes(counts.as_slice()) {
        Ok(Some(counts))
    } else {
        Ok(None)
    }
}

// Whether the parts of a recording may have so many entries.
fn are_sizes(counts: &[u64]) -> bool
    ensures { IsTrue result ↔ ArePartSizes counts.now }
{
    match counts {
        [] => false,
        [0] => true,
        _ => counts.iter().all(|n| is_size(*n)),
    }
}

// Whether one of several parts may have so many entries.
fn is_size(count: u64) -> bool
    ensures { IsTrue result ↔ ((1 ≤ count) × (count ≤ most_entries)) }
{
    1 <= count && count <= MOST_ENTRIES as u64
}

// How many entries the part of this number has, after so many entries, where a text begins with its line; and what comes
// after the line.
fn part_at(text: &[u8], number: u64, from: u64) -> Option<(u64, &[u8])>
    requires number { number < 10 ^ 19 }
    requires from { from < 10 ^ 19 }
    ensures some { IfSome result (λ x. (text.now ≡ part_line number from x.0 ++ x.1.now) × (x.0 ≤ most_entries)) }
    ensures none { result ≡ None → (n : ℕ) (rest : List ℕ) → n ≤ most_entries → text.now ≡ part_line number from n ++ rest → ⊥ }
{
    let Some(after_part) = after_number(text, b"part ", number) else {
        return None;
    };
    let Some((count, after_count)) = number_after(after_part, b" entries ") else {
        return None;
    };
    if count > MOST_ENTRIES as u64 {
        return None;
    }
    let Some(after_from) = after_number(after_count, b" from ", from) else {
        return None;
    };
    match after(after_from, b"\n") {
        Some(rest) => Some((count, rest)),
        None => None,
    }
}

// What comes after a word and this number, where a text begins with them.
fn after_number<'a>(text: &'a [u8], word: &[u8], number: u64) -> Option<&'a [u8]>
    requires { number < 10 ^ 19 }
    ensures some { IfSome result (λ rest. text.now ≡ word.now ++ (decimal number ++ rest.now)) }
    ensures none { result ≡ None → (rest : List ℕ) → BeginsWithNoDigit rest → text.now ≡ word.now ++ (decimal number ++ rest) → ⊥ }
{
    match number_after(text, word) {
        Some((found, rest)) if found == number => Some(rest),
        _ => None,
    }
}

// The number after a word, where a text begins with the word; and what comes after the number.
fn number_after<'a>(text: &'a [u8], word: &[u8]) -> Option<(u64, &'a [u8])>
    ensures some { IfSome result (λ x. (text.now ≡ word.now ++ (decimal x.0 ++ x.1.now)) × (x.0 < 10 ^ 19) × BeginsWithNoDigit x.1.now) }
    ensures none { result ≡ None → (n : ℕ) (rest : List ℕ) → n < 10 ^ 19 → BeginsWithNoDigit rest → text.now ≡ word.now ++ (decimal n ++ rest) → ⊥ }
{
    match after(text, word) {
        Some(rest) => number_at(rest),
        None => None,
    }
}

// What comes after a word, where a text begins with it.
fn after<'a>(text: &'a [u8], word: &[u8]) -> Option<&'a [u8]>
    ensures { MatchOption result ((rest : List ℕ) → text.now ≢ word.now ++ rest) (λ rest. text.now ≡ word.now ++ rest.now) }
{
    text.strip_prefix(word)
}

// The number that a text begins with, without leading zeros; and what comes after it.
fn number_at(text: &[u8]) -> Option<(u64, &[u8])>
    ensures some { IfSome result (λ x. (text.now ≡ decimal x.0 ++ x.1.now) × (x.0 < 10 ^ 19) × BeginsWithNoDigit x.1.now) }
    ensures none { result ≡ None → (n : ℕ) (rest : List ℕ) → n < 10 ^ 19 → BeginsWithNoDigit rest → text.now ≡ decimal n ++ rest → ⊥ }
{
    let (digits, rest) = text.split_at(digits_in(text));
    if is_number(digits) {
        Some((value_of(digits), rest))
    } else {
        None
    }
}

// How many digits a text begins with.
fn digits_in(text: &[u8]) -> usize
    ensures inside { result ≤ length text.now }
    ensures digits { AllDigits 10 (take result text.now) }
    ensures ends { BeginsWithNoDigit (drop result text.now) }
{
    let mut len = 0;
    'digits: while len < text.len() {
        if !is_digit(text[len]) {
            return len;
        }
        len += 1;
    }
    len
}

// Whether digits are a number that has at most 19 of them, without leading zeros.
fn is_number(digits: &[u8]) -> bool
    ensures { IsTrue result ↔ ((0 < length digits.now) × (length digits.now ≤ 19) × (get_or digits.now 0 0 ≡ 48 → length digits.now ≡ 1)) }
{
    match digits {
        [] => false,
        [b'0', _, ..] => false,
        _ => digits.len() <= MOST_DIGITS,
    }
}

// The number that digits write.
fn value_of(digits: &[u8]) -> u64
    requires digits { AllDigits 10 digits.now }
    requires few { length digits.now ≤ 19 }
    ensures value { result ≡ digits_value 10 digits.now }
    ensures small { result < 10 ^ 19 }
{
    let mut number: u64 = 0;
    let mut len = 0;
    'digits: while len < digits.len() {
        number = number * 10 + digit_of(digits[len]);
        len += 1;
    }
    number
}

// The number of a decimal digit.
fn digit_of(byte: u8) -> u64
    requires { digit_value byte < 10 }
    ensures { result ≡ digit_value byte }
{
    u64::from(byte - b'0')
}

// Whether a byte is a decimal digit.
fn is_digit(byte: u8) -> bool
    ensures { IsTrue result ↔ (digit_value byte < 10) }
{
    byte.is_ascii_digit()
}
