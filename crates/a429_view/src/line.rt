//! A line that is put together before it is put on a sheet, without taking memory.

ghost use Rattle.std.specs.Prelude.{◌≡◌, ◌≤◌, ◌<◌, ◌-◌, ◌++◌, [], ◌∷◌, length, take};
ghost use Rattle.std.specs.Fmt.{decimal};
ghost use Rattle.a429_word.specs.Digits.{numeral};
ghost use Rattle.a429_word.specs.Sheet.{Says};
ghost use Rattle.a429_view.specs.Line.{Adds, Fits};

use a429_word::{Sheet, Word};
use itoa::write_digits;
use std::io::Write;
use std::marker::Model;

// More bytes than the longest line of a trace has.
const ROOM: usize = 192;

// The most bytes of a line that `put_short` adds.
const SHORT: usize = 24;

// The most bytes of a line that `put_on` puts.
const FEW: usize = 32;

/// The first `len` bytes.
#[derive(Drop)]
pub(crate) struct Line {
    bytes: [u8; ROOM],
    len: usize,
}

impl Model for Line {
    ghost use Rattle.std.specs.Prelude.{List, ℕ, take, ◌≤◌};

    ghost Value = { List ℕ };

    ghost view = { λ l. take l.len l.bytes };

    ghost invariant = { λ l. l.len ≤ 192 };
}

impl Line {
    /// A line of no bytes.
    pub(crate) fn new() -> Line
        ensures { result ≡ [] }
    {
        Line {
            bytes: [0; ROOM],
            len: 0,
        }
    }

    /// Drops all bytes.
    #[inline(always)]
    pub(crate) fn clear(&mut self)
        ensures { self.new ≡ [] }
    {
        self.len = 0;
    }

    /// The whole line.
    pub(crate) fn as_slice(&self) -> &[u8]
        ensures { result.now ≡ self.now }
    {
        &self.bytes[..self.len]
    }

    /// Adds bytes.
    #[inline(always)]
    pub(crate) fn put(&mut self, bytes: &[u8])
        requires { Fits self.old (length bytes.now) }
        ensures { Adds self.old self.new (length bytes.now) bytes.now }
    {
        let end = self.len + bytes.len();
        self.bytes[self.len..end].copy_from_slice(bytes);
        self.len = end;
    }

    /// Adds a line of at most 24 bytes. All 24 are copied, so that a few take as long as one.
    #[inline(always)]
    pub(crate) fn put_short(&mut self, line: &Line)
        requires short { length line.now ≤ 24 }
        requires room { Fits self.old 24 }
        ensures { Adds self.old self.new 24 line.now }
    {
        self.put_first(&line.bytes[..SHORT], line.len);
    }

    /// Puts a line of at most 32 bytes on a sheet.
    #[inline(always)]
    pub(crate) fn put_on<W: Write>(&self, sheet: &mut Sheet<'_, W>)
        requires { length self.now ≤ 32 }
        ensures { Says W.contents sheet.old sheet.new self.now }
    {
        sheet.put_first(&self.bytes[..FEW], self.len);
    }

    /// Puts this byte in the place of the last one.
    #[inline(always)]
    pub(crate) fn set_last(&mut self, byte: u8)
        requires { 0 < length self.old }
        ensures { self.new ≡ take (length self.old - 1) self.old ++ byte ∷ [] }
    {
        self.len -= 1;
        self.put(&[byte]);
    }

    /// Adds a number, in decimal.
    #[inline(always)]
    pub(crate) fn put_number(&mut self, number: u64)
        requires { Fits self.old 20 }
        ensures { Adds self.old self.new 20 (decimal number) }
    {
        let end = self.len + digit_count(number);
        write_digits(number, &mut self.bytes, end);
        self.len = end;
    }

    /// Adds a number of eight bits, in decimal.
    #[inline(always)]
    pub(crate) fn put_byte(&mut self, number: u8)
        requires { Fits self.old 3 }
        ensures { Adds self.old self.new 3 (decimal number) }
    {
        if number < 10 {
            self.put(&[b'0' + number]);
        } else if number < 100 {
            self.put(&[b'0' + number / 10, b'0' + number % 10]);
        } else if number < 200 {
            let rest = number - 100;
            self.put(&[b'1', b'0' + rest / 10, b'0' + rest % 10]);
        } else {
            let rest = number - 200;
            self.put(&[b'2', b'0' + rest / 10, b'0' + rest % 10]);
        }
    }

    /// Adds a count, in decimal. Most counts have eight bits.
    #[inline(always)]
    pub(crate) fn put_count(&mut self, count: usize)
        requires { Fits self.old 20 }
        ensures { Adds self.old self.new 20 (decimal count) }
    {
        if count < 256 {
            self.put_byte(count as u8);
        } else {
            self.put_number(count as u64);
        }
    }

    /// Adds sixteen bits in four hexadecimal digits.
    #[inline(always)]
    pub(crate) fn put_hex(&mut self, bits: u16)
        requires { Fits self.old 4 }
        ensures { Adds self.old self.new 4 (numeral 16 4 bits) }
    {
        let hex = Word::from_u32(u32::from(bits)).hex();
        self.put(&hex[4..]);
    }

    // Adds the first of these bytes. All of them are copied, so that a few take as long as one.
    #[inline(always)]
    fn put_first(&mut self, bytes: &[u8], count: usize)
        requires count { count ≤ length bytes.now }
        requires room { Fits self.old (length bytes.now) }
        ensures { Adds self.old self.new count (take count bytes.now) }
    {
        let end = self.len + bytes.len();
        self.bytes[self.len..end].copy_from_slice(bytes);
        self.len += count;
    }
}

// How many decimal digits a number has.
#[inline(always)]
fn digit_count(number: u64) -> usize
    ensures { result ≡ length (decimal number) }
{
    if number < 100_000_000 {
        short_digit_count(number)
    } else if number < 10_000_000_000_000_000 {
        short_digit_count(number / 100_000_000) + 8
    } else {
        short_digit_count(number / 10_000_000_000_000_000) + 16
    }
}

// The same of a number of at most eight digits.
#[inline(always)]
fn short_digit_count(number: u64) -> usize
    requires { number < 100000000 }
    ensures value { result ≡ length (decimal number) }
    ensures most { result ≤ 8 }
{
    if number < 10_000 {
        shortest_digit_count(number)
    } else {
        shortest_digit_count(number / 10_000) + 4
    }
}

// The same of a number of at most four digits.
#[inline(always)]
fn shortest_digit_count(number: u64) -> usize
    requires { number < 10000 }
    ensures value { result ≡ length (decimal number) }
    ensures most { result ≤ 4 }
{
    if number < 10 {
        1
    } else if number < 100 {
        2
    } else if number < 1000 {
        3
    } else {
        4
    }
}
