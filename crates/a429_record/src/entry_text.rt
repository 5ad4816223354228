//! The text of entries, put one after the other.

ghost use Rattle.std.specs.Prelude.{◌≡◌, ◌<◌, ◌/◌, ◌%◌, ◌+◌, ◌^◌, ◌++◌, ◌∷◌, []};
ghost use Rattle.a429_word.specs.Sheet.{Says};
ghost use Rattle.a429_word.specs.Digits.{hex_text};
ghost use Rattle.a429_word.specs.Bus.{bus_text};
ghost use Rattle.a429_record.specs.Writing.{line_text, entry_text};

use crate::entry::Entry;
use crate::entry_line::EntryLine;
use a429_word::{Bus, Sheet, Word};
use itoa::write_digits;
use std::io::Write;
use std::marker::Model;

/// How many digits the longest time has.
pub const LONGEST_TIME: usize = 20;

// How many of them all but the last four are.
const UPPER: usize = LONGEST_TIME - 4;

/// How many bytes the longest entry has, with one byte after it.
pub const LONGEST: usize = LONGEST_TIME + 12;

// Each number below 100 as two digits.
const DECIMAL_PAIRS: [u8; 200] =
    *b"00010203040506070809101112131415161718192021222324252627282930313233343536373839404142434445464748495051525354555657585960616263646566676869707172737475767778798081828384858687888990919293949596979899";

// One more than four digits write.
const ABOVE_FOUR: u64 = 10_000;

/// Puts the text of entries. The digits of the last time are kept, so that of the next time only the last four are
/// written where the others are the same: in microseconds, as a bus sends words, they mostly are.
#[derive(Drop)]
pub struct EntryText {
    // the digits but the last four, which end at `UPPER`, with room for 32 bytes from the first digit on
    bytes: [u8; LONGEST_TIME + 32],
    // where the digits begin
    start: usize,
    // the number that they write
    upper: u64,
}

impl Model for EntryText {
    ghost use Rattle.std.specs.Prelude.{◌≡◌, ◌<◌, ◌≤◌, ℕ, take, drop};
    ghost use Rattle.std.specs.Fmt.{decimal};

    ghost Value = { ℕ };

    ghost view = { λ t. t.upper };

    ghost invariant = { λ t. (0 < t.upper) × (t.start ≤ 16) × (drop t.start (take 16 t.bytes) ≡ decimal t.upper) };
}

impl EntryText {
    /// None was put yet: the digits that it keeps are those of a time of 10,000 microseconds. What is put next does not
    /// depend on them.
    pub fn new() -> EntryText
        ensures { result ≡ 1 }
    {
        let mut bytes = [0; LONGEST_TIME + 32];
        let start = write_digits(1, &mut bytes, UPPER);
        EntryText {
            bytes,
            start,
            upper: 1,
        }
    }

    /// Puts the line of an entry.
    #[inline(always)]
    pub fn put_line<W: Write>(&mut self, sheet: &mut Sheet<'_, W>, entry: Entry)
        ensures { Says W.contents sheet.old sheet.new (line_text entry) }
    {
        self.put_parts(sheet, entry, b',', b'\n');
    }

    /// Puts the time, the bus and the word of an entry, with one byte between them and one after them.
    #[inline(always)]
    pub fn put_parts<W: Write>(
        &mut self,
        sheet: &mut Sheet<'_, W>,
        entry: Entry,
        between: u8,
        after: u8,
    )
        ensures { Says W.contents sheet.old sheet.new (entry_text between after entry) }
    {
        let upper = entry.time / ABOVE_FOUR;
        if upper != self.upper {
            if upper == 0 {
                put_whole(sheet, entry, between, after);
                return;
            }
            self.set_upper(upper);
        }
        self.put_after_upper(sheet, entry, between, after);
    }

    // Keeps other digits.
    #[inline(never)]
    fn set_upper(&mut self, upper: u64)
        requires some { 0 < upper }
        requires most { upper < 10 ^ 16 }
        ensures { self.new ≡ upper }
    {
        self.start = write_digits(upper, &mut self.bytes, UPPER);
        self.upper = upper;
    }

    // Puts an entry, whose time has the digits that are kept, and four more.
    #[inline(always)]
    fn put_after_upper<W: Write>(
        &mut self,
        sheet: &mut Sheet<'_, W>,
        entry: Entry,
        between: u8,
        after: u8,
    )
        requires { self.old ≡ entry.time / ABOVE_FOUR }
        ensures { Says W.contents sheet.old sheet.new (entry_text between after entry) }
    {
        let four = four_digits((entry.time % ABOVE_FOUR) as u32);
        let fields = bus_and_word(entry.bus, entry.word, between, after);
        self.bytes[UPPER..LONGEST_TIME].copy_from_slice(&four);
        self.bytes[LONGEST_TIME..LONGEST].copy_from_slice(&fields);
        sheet.put_first(
            &self.bytes[self.start..self.start + 32],
            LONGEST - self.start,
        );
    }
}

// Puts an entry at any time.
#[cold]
#[inline(never)]
fn put_whole<W: Write>(sheet: &mut Sheet<'_, W>, entry: Entry, between: u8, after: u8)
    ensures { Says W.contents sheet.old sheet.new (entry_text between after entry) }
{
    EntryLine::of(entry, between, after).put(sheet);
}

// A number below 10,000 in four digits.
#[inline(always)]
fn four_digits(number: u32) -> [u8; 4]
    requires { number < ABOVE_FOUR }
    ensures { result ≡ (48 + number / 100 / 10) ∷ (48 + number / 100 % 10) ∷ (48 + number % 100 / 10) ∷ (48 + number % 100 % 10) ∷ [] }
{
    let (upper, lower) = (two_digits(number / 100), two_digits(number % 100));
    [upper[0], upper[1], lower[0], lower[1]]
}

// A number below 100 in two digits.
#[inline(always)]
fn two_digits(number: u32) -> [u8; 2]
    requires { number < 100 }
    ensures { result ≡ (48 + number / 10) ∷ (48 + number % 10) ∷ [] }
{
    let from = number as usize * 2;
    [DECIMAL_PAIRS[from], DECIMAL_PAIRS[from + 1]]
}

/// A bus and a word, one byte before each and one after them.
#[inline(always)]
pub fn bus_and_word(bus: Bus, word: Word, before: u8, following: u8) -> [u8; 12]
    ensures { result ≡ before ∷ (bus_text bus ++ (before ∷ (hex_text word ++ following ∷ []))) }
{
    let letter = bus.letter().as_bytes()[0];
    let hex = word.hex();
    [
        before, letter, before, hex[0], hex[1], hex[2], hex[3], hex[4], hex[5], hex[6], hex[7],
        following,
    ]
}
