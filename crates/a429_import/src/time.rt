//! Times as they are written: digits and what they count, or a clock's.

ghost use Rattle.std.specs.Prelude.{◌≡◌, ◌≤◌, ◌<◌, ◌+◌, ◌*◌, ◌^◌, ◌==◌, ◌&&◌, ◌||◌, length, not, nat_le, nat_lt};
ghost use Rattle.std.specs.List.{list_any};
ghost use Rattle.std.specs.Char.{digit_value};
ghost use Rattle.std.specs.Str.Parse.{digits_value, digits_value_after, AllDigits};
ghost use Rattle.a429_record.specs.Row.{all_digits};
ghost use Rattle.a429_import.specs.Time.{nanoseconds, counted, are_time_digits, AreFewDigits, whole_time, time_with_part};
ghost use Rattle.a429_import.specs.TimeForm.{time_in};

use crate::clock_time::ClockForm;
use crate::piece::end_of;

/// What a number of an export's time counts (profile).
#[derive(Clone, Copy, Debug)]
pub enum Unit {
    Second,
    Millisecond,
    Microsecond,
    Nanosecond,
}

/// How an export's time is written (profile).
#[derive(Clone, Copy, Debug)]
pub enum TimeForm {
    /// Digits alone.
    Integer,
    /// Digits, and perhaps this point and more digits.
    Decimal(u8),
    /// A time of day, perhaps with a date.
    Clock(ClockForm),
}

/// A time as it was read.
#[derive(Clone, Copy, Debug)]
pub struct Reading {
    /// In microseconds, rounded down.
    pub micros: u128,
    /// Whether something was cut off.
    pub is_cut: bool,
}

// The most digits that a number has before its point, and after it.
const MOST_DIGITS: usize = 30;

/// The time of a text of this form. A number counts these units; it is `None` where it has a sign, an exponent or anything else that is
/// no digit, or where it has none or more than 30 digits before the point or after it.
pub fn read_time(form: TimeForm, unit: Unit, text: &[u8]) -> Option<Reading>
    ensures { result ≡ time_in form unit text.now }
{
    match form {
        TimeForm::Integer => whole_time(unit, text),
        TimeForm::Decimal(point) => match end_of(text, point) {
            Some(end) => time_with_part(unit, &text[..end], &text[end + 1..]),
            None => whole_time(unit, text),
        },
        TimeForm::Clock(form) => form.time(text),
    }
}

#[tactic(auto, using(crate::proofs::TimeFacts::time_digits, crate::proofs::TimeFacts::no_digits))]
pub(crate) fn whole_time(unit: Unit, text: &[u8]) -> Option<Reading>
    ensures { result ≡ whole_time unit text.now }
{
    if are_time_digits(text) {
        Some(unit.time(text, &[]))
    } else {
        None
    }
}

#[tactic(auto, using(crate::proofs::TimeFacts::time_digits))]
pub(crate) fn time_with_part(unit: Unit, whole: &[u8], part: &[u8]) -> Option<Reading>
    ensures { result ≡ time_with_part unit whole.now part.now }
{
    if are_time_digits(whole) && are_time_digits(part) {
        Some(unit.time(whole, part))
    } else {
        None
    }
}

// Whether a text is 1 to 30 digits.
fn are_time_digits(text: &[u8]) -> bool
    ensures { result ≡ are_time_digits text.now }
{
    1 <= text.len() && text.len() <= MOST_DIGITS && are_digits(text)
}

pub(crate) fn are_digits(text: &[u8]) -> bool
    ensures { result ≡ all_digits 10 text.now }
{
    text.iter().all(|byte| is_digit(*byte))
}

fn is_digit(byte: u8) -> bool
    ensures { result ≡ nat_lt (digit_value byte) 10 }
{
    byte.is_ascii_digit()
}

impl Unit {
    // The time of a number of these units.
    fn time(self, whole: &[u8], part: &[u8]) -> Reading
        requires whole { AreFewDigits whole.now }
        requires part { AreFewDigits part.now }
        ensures { result ≡ counted (nanoseconds self) whole.now part.now }
    {
        match self {
            Unit::Second => kept_to(6, whole, part),
            Unit::Millisecond => kept_to(3, whole, part),
            Unit::Microsecond => kept_to(0, whole, part),
            Unit::Nanosecond => thousandth(whole, part),
        }
    }
}

// The time of a number of which so many digits after the point are kept, 0 to 6.
fn kept_to(places: usize, whole: &[u8], part: &[u8]) -> Reading
    requires places { places ≤ 6 }
    requires whole { AreFewDigits whole.now }
    requires part { AreFewDigits part.now }
    ensures { result ≡ counted (10 ^ places * 1000) whole.now part.now }
{
    let kept = part.len().min(places);
    let number = number_after(number_after(0, whole), &part[..kept]);
    Reading {
        micros: number * power_of_ten(places - kept),
        is_cut: is_above_zero(&part[kept..]),
    }
}

// The time of a number of nanoseconds.
fn thousandth(whole: &[u8], part: &[u8]) -> Reading
    requires whole { AreFewDigits whole.now }
    requires part { AreFewDigits part.now }
    ensures { result ≡ counted 1 whole.now part.now }
{
    let number = number_after(0, whole);
    Reading {
        micros: number / 1000,
        is_cut: number % 1000 != 0 || is_above_zero(part),
    }
}

// The number that digits write which follow those of another.
pub(crate) fn number_after(before: u128, digits: &[u8]) -> u128
    requires digits { AllDigits 10 digits.now }
    requires room { (before + 1) * 10 ^ length digits.now ≤ 10 ^ 36 }
    ensures value { result ≡ digits_value_after 10 before digits.now }
    ensures below { result < (before + 1) * 10 ^ length digits.now }
{
    if is_short(before, digits.len()) {
        u128::from(short_number_after(before as u64, digits))
    } else {
        long_number_after(before, digits)
    }
}

// Whether 64 bits have room for a number with so many more digits.
fn is_short(before: u128, count: usize) -> bool
    ensures { result ≡ ((before == 0 && nat_le count 19) || (nat_lt before 10000000000000 && nat_le count 6)) }
{
    before == 0 && count <= 19 || before < 10_000_000_000_000 && count <= 6
}

fn short_number_after(before: u64, digits: &[u8]) -> u64
    requires digits { AllDigits 10 digits.now }
    requires room { (before + 1) * 10 ^ length digits.now ≤ 10 ^ 19 }
    ensures value { result ≡ digits_value_after 10 before digits.now }
    ensures below { result < (before + 1) * 10 ^ length digits.now }
{
    let mut number = before;
    'digits: for byte in digits {
        number = number * 10 + u64::from(digit_of(*byte));
    }
    number
}

fn long_number_after(before: u128, digits: &[u8]) -> u128
    requires digits { AllDigits 10 digits.now }
    requires room { (before + 1) * 10 ^ length digits.now ≤ 10 ^ 36 }
    ensures value { result ≡ digits_value_after 10 before digits.now }
    ensures below { result < (before + 1) * 10 ^ length digits.now }
{
    let mut number = before;
    'digits: for byte in digits {
        number = number * 10 + u128::from(digit_of(*byte));
    }
    number
}

// The number of a decimal digit.
fn digit_of(byte: u8) -> u8
    requires { digit_value byte < 10 }
    ensures { result ≡ digit_value byte }
{
    byte - b'0'
}

// Whether the number that digits write is not 0.
#[tactic(auto, using(crate::proofs::TimeFacts::above_zero))]
fn is_above_zero(digits: &[u8]) -> bool
    requires { AllDigits 10 digits.now }
    ensures { result ≡ not (digits_value 10 digits.now == 0) }
{
    has_other_than_zero(digits)
}

fn has_other_than_zero(digits: &[u8]) -> bool
    ensures { result ≡ list_any (λ b. not (b == 48)) digits.now }
{
    digits.iter().any(|byte| *byte != b'0')
}

// A power of ten, up to the sixth.
fn power_of_ten(exponent: usize) -> u128
    requires { exponent ≤ 6 }
    ensures { result ≡ 10 ^ exponent }
{
    match exponent {
        0 => 1,
        1 => 10,
        2 => 100,
        3 => 1000,
        4 => 10_000,
        5 => 100_000,
        _ => 1_000_000,
    }
}
