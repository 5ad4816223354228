//! A short text that is put together from its end, without taking memory.

ghost use Rattle.std.specs.Prelude.{◌≡◌, ◌+◌, ◌/◌, ◌%◌, ◌^◌, ◌<◌, ◌≤◌, [], ◌∷◌, ◌++◌, length};
ghost use Rattle.std.specs.Fmt.{decimal};
ghost use Rattle.a429_word.specs.Digits.{numeral};
ghost use Rattle.a429_word.specs.Fixed.{sign_text, with_point};

use crate::fixed::division::{over_power_of_ten, power_of_ten};
use itoa::write_digits;
use std::marker::Model;

// More than a sign, the 39 digits of the largest number, a point and 24 decimals.
const ROOM: usize = 72;

/// The bytes from `start` on.
#[derive(Drop)]
pub struct Text {
    bytes: [u8; ROOM],
    start: usize,
}

impl Model for Text {
    ghost use Rattle.std.specs.Prelude.{List, ℕ, drop, ◌≤◌};

    ghost Value = { List ℕ };

    ghost view = { λ t. drop t.start t.bytes };

    ghost invariant = { λ t. t.start ≤ 72 };
}

impl Text {
    /// A text of no bytes.
    pub fn new() -> Text
        ensures { result ≡ [] }
    {
        Text {
            bytes: [0; ROOM],
            start: ROOM,
        }
    }

    /// The whole text.
    pub fn as_slice(&self) -> &[u8]
        ensures { result.now ≡ self.now }
    {
        &self.bytes[self.start..]
    }

    /// Puts the last `count` decimal digits of a number in front, and returns the number without them.
    pub fn push_decimals(&mut self, number: u128, count: u8) -> u128
        requires { length self.old + count < 72 }
        ensures text { self.new ≡ numeral 10 count number ++ self.old }
        ensures len { length self.new ≡ length self.old + count }
        ensures rest { result ≡ number / 10 ^ count }
    {
        let mut rest = number;
        let mut left = count;
        while left > 18 {
            rest = self.push_digits(rest, 18);
            left -= 18;
        }
        self.push_digits(rest, left)
    }

    // The same of at most 18 digits, which 64 bits hold: so one division is enough for all of them.
    #[inline(always)]
    fn push_digits(&mut self, number: u128, count: u8) -> u128
        requires few { count ≤ 18 }
        requires room { length self.old + count < 72 }
        ensures text { self.new ≡ numeral 10 count number ++ self.old }
        ensures len { length self.new ≡ length self.old + count }
        ensures rest { result ≡ number / 10 ^ count }
    {
        if count == 0 {
            return number;
        }
        // A 1 before the digits keeps the zeros that they may begin with. The text starts after it.
        let one = power_of_ten(count);
        let (whole, decimals) = over_power_of_ten(number, count);
        self.start = write_digits(one + decimals, &mut self.bytes, self.start) + 1;
        whole
    }

    /// Puts a point in front, unless the text is empty.
    pub fn push_point(&mut self)
        requires { length self.old < 72 }
        ensures { self.new ≡ with_point self.old }
    {
        if self.start < ROOM {
            self.push_front(b'.');
        }
    }

    /// Puts the number in front, in as few digits as it needs.
    pub fn push_whole(&mut self, number: u128)
        requires { length self.old ≤ 32 }
        ensures text { self.new ≡ decimal number ++ self.old }
        ensures len { length self.new ≤ length self.old + 39 }
    {
        let mut rest = number;
        while rest > u128::from(u64::MAX) {
            rest = self.push_last_digit(rest);
        }
        self.start = write_digits(rest as u64, &mut self.bytes, self.start);
    }

    /// Puts a minus sign in front, where there is to be one.
    pub fn push_sign(&mut self, is_negative: bool)
        requires { length self.old < 72 }
        ensures { self.new ≡ sign_text is_negative ++ self.old }
    {
        if is_negative {
            self.push_front(b'-');
        }
    }

    // Puts the last decimal digit of a number in front, and returns the number without it.
    #[inline(always)]
    fn push_last_digit(&mut self, number: u128) -> u128
        requires { length self.old < 72 }
        ensures text { self.new ≡ (48 + number % 10) ∷ self.old }
        ensures rest { result ≡ number / 10 }
    {
        let (rest, digit) = over_power_of_ten(number, 1);
        self.push_front(b'0' + digit as u8);
        rest
    }

    fn push_front(&mut self, byte: u8)
        requires { length self.old < 72 }
        ensures { self.new ≡ byte ∷ self.old }
    {
        self.start -= 1;
        self.bytes[self.start] = byte;
    }
}
