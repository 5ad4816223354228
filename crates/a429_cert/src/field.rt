//! The fields of a line, and the numbers in them.

ghost use Rattle.std.specs.Prelude.{◌≡◌, ◌<◌, ◌≤◌, ◌^◌, length, IfSome, option_map};
ghost use Rattle.std.specs.List.{list_all};
ghost use Rattle.a429_cert.specs.Field.{last_decimal_in, decimal_in, with_next_digit, decimal_digit_in, hex_in, hex_digits_in, hex_digit_in, is_not_lower, with_rest, after_space};

use a429_word::Word;

/// What comes after a space.
#[inline(always)]
pub fn after_space(text: &[u8]) -> Option<&[u8]>
    ensures { option_map (λ x. x.now) result ≡ after_space text.now }
{
    match text {
        [b' ', field @ ..] => Some(field),
        _ => None,
    }
}

// The value of a hexadecimal digit, a letter in upper case.
fn hex_digit_of(byte: u8) -> Option<u32>
    ensures { result ≡ hex_digit_in byte }
{
    match byte {
        b'0'..=b'9' => Some(u32::from(byte - b'0')),
        b'A'..=b'F' => Some(u32::from(byte - b'A') + 10),
        _ => None,
    }
}

// The number that at most eight hexadecimal digits write.
fn hex_digits_of(text: &[u8]) -> Option<u32>
    requires { length text.now ≤ 8 }
    ensures value { result ≡ hex_digits_in text.now }
    ensures small { IfSome result (λ n. n < 16 ^ length text.now) }
{
    let mut number = 0;
    for byte in text {
        let Some(digit) = hex_digit_of(*byte) else {
            return None;
        };
        number = number * 16 + digit;
    }
    Some(number)
}

// Whether no letter is in lower case.
#[inline(always)]
fn has_no_lower(text: &[u8]) -> bool
    ensures { result ≡ list_all is_not_lower text.now }
{
    text.iter().all(|byte| !byte.is_ascii_lowercase())
}

// The word that eight hexadecimal digits write.
#[inline(always)]
fn hex_word_of(digits: &[u8]) -> Option<Word>
    requires { length digits.now ≡ 8 }
    ensures { result ≡ hex_digits_in digits.now }
{
    if has_no_lower(digits) {
        Word::parse_hex(digits)
    } else {
        None
    }
}

// The word that eight hexadecimal digits write, and what comes after them.
#[inline(always)]
#[tactic(auto, unfolding(crate::specs::Field::hex_in))]
fn word_of(text: &[u8]) -> Option<(Word, &[u8])>
    ensures { option_map (λ x. (x.0, x.1.now)) result ≡ hex_in 8 text.now }
{
    if text.len() < 8 {
        return None;
    }
    let (digits, rest) = text.split_at(8);
    let word = hex_word_of(digits)?;
    Some((word, rest))
}

// A hexadecimal number of so many digits, at most eight, and what comes after it.
#[tactic(auto, unfolding(crate::specs::Field::hex_in))]
fn hex_of(text: &[u8], count: usize) -> Option<(u32, &[u8])>
    requires { count ≤ 8 }
    ensures value { option_map (λ x. (x.0, x.1.now)) result ≡ hex_in count text.now }
    ensures small { IfSome result (λ x. x.0 < 16 ^ count) }
{
    if text.len() < count {
        return None;
    }
    let (digits, rest) = text.split_at(count);
    let number = hex_digits_of(digits)?;
    Some((number, rest))
}

// A decimal digit, and what comes after it.
#[inline(always)]
#[tactic(auto, unfolding(crate::specs::Field::decimal_digit_in))]
fn decimal_digit_of(text: &[u8]) -> Option<(u8, &[u8])>
    ensures { option_map (λ x. (x.0, x.1.now)) result ≡ decimal_digit_in text.now }
{
    match text {
        [byte @ b'0'..=b'9', rest @ ..] => Some((*byte - b'0', rest)),
        _ => None,
    }
}

// A number up to 255 with the digit that comes after it, if there is one, and what comes after that.
#[inline(always)]
#[tactic(auto, unfolding(crate::specs::Field::with_next_digit))]
fn with_next_digit(number: u8, text: &[u8]) -> Option<(u8, &[u8])>
    ensures { option_map (λ x. (x.0, x.1.now)) result ≡ with_next_digit (number, text.now) }
{
    let Some((digit, rest)) = decimal_digit_of(text) else {
        return Some((number, text));
    };
    let longer = u16::from(number) * 10 + u16::from(digit);
    if longer <= 255 {
        Some((longer as u8, rest))
    } else {
        None
    }
}

/// A decimal number up to 255, without leading zeros, and what comes after it.
#[inline(always)]
#[tactic(auto, unfolding(crate::specs::Field::decimal_in))]
pub fn decimal_of(text: &[u8]) -> Option<(u8, &[u8])>
    ensures { option_map (λ x. (x.0, x.1.now)) result ≡ decimal_in text.now }
{
    let (first, rest) = decimal_digit_of(text)?;
    if first == 0 {
        return Some((first, rest));
    }
    let (second, rest) = with_next_digit(first, rest)?;
    with_next_digit(second, rest)
}

/// The decimal number in the next field, and what comes after it.
#[inline(always)]
pub fn decimal_at(text: &[u8]) -> Option<(u8, &[u8])>
    ensures { option_map (λ x. (x.0, x.1.now)) result ≡ with_rest decimal_in text.now }
{
    decimal_of(after_space(text)?)
}

/// The decimal number in the next field, where nothing comes after it.
#[inline(always)]
#[tactic(auto, unfolding(crate::specs::Field::last_decimal_in))]
pub fn last_decimal_at(text: &[u8]) -> Option<u8>
    ensures { result ≡ last_decimal_in text.now }
{
    let (number, rest) = decimal_at(text)?;
    if rest.is_empty() { Some(number) } else { None }
}

/// The hexadecimal number of so many digits in the next field, and what comes after it.
pub fn hex_at(text: &[u8], count: usize) -> Option<(u32, &[u8])>
    requires { count ≤ 8 }
    ensures value { option_map (λ x. (x.0, x.1.now)) result ≡ with_rest (hex_in count) text.now }
    ensures small { IfSome result (λ x. x.0 < 16 ^ count) }
{
    hex_of(after_space(text)?, count)
}

/// The word whose eight hexadecimal digits are the next field, and what comes after it.
#[inline(always)]
pub fn word_at(text: &[u8]) -> Option<(Word, &[u8])>
    ensures { option_map (λ x. (x.0, x.1.now)) result ≡ with_rest (hex_in 8) text.now }
{
    word_of(after_space(text)?)
}
