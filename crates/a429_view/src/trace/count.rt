//! The number of an entry, with its digits.

ghost use Rattle.std.specs.Prelude.{◌≡◌, ◌≤◌, ◌+◌, ◌-◌, ◌^◌, min, length};
ghost use Rattle.std.specs.Fmt.{decimal};

use crate::line::Line;
use std::marker::Model;

/// How many entries there are so far, which is the number of the next. Its digits are kept, so that the next number
/// differs from it in the last digit alone, mostly.
#[derive(Drop)]
pub(crate) struct EntryCount {
    count: usize,
    digits: Line,
    // the last digit
    last: u8,
}

impl Model for EntryCount {
    ghost use Rattle.std.specs.Prelude.{◌≡◌, ◌%◌, ℕ};
    ghost use Rattle.std.specs.Fmt.{decimal};

    ghost Value = { ℕ };

    ghost view = { λ c. c.count };

    ghost invariant = { λ c. (c.digits ≡ decimal c.count) × (c.last ≡ c.count % 10) };
}

impl EntryCount {
    /// No entry.
    pub(crate) fn new() -> EntryCount
        ensures { result ≡ 0 }
    {
        EntryCount {
            count: 0,
            digits: digits_of(0),
            last: 0,
        }
    }

    /// The count.
    pub(crate) fn count(&self) -> usize
        ensures { result ≡ self.now }
    {
        self.count
    }

    /// Its decimal digits.
    #[inline(always)]
    pub(crate) fn digits(&self) -> &Line
        ensures digits { result.now ≡ decimal self.now }
        ensures most { length result.now ≤ 20 }
    {
        // It has 64 bits, so that there are at most 20 digits.
        let _count: usize = self.count;
        &self.digits
    }

    /// One more entry. The greatest count stays as it is.
    #[inline(always)]
    pub(crate) fn add_one(&mut self)
        ensures { self.new ≡ min (self.old + 1) (2 ^ 64 - 1) }
    {
        if self.count == usize::MAX {
            return;
        }
        self.count += 1;
        if self.last == 9 {
            self.last = 0;
            write_over(&mut self.digits, self.count);
        } else {
            self.last += 1;
            self.digits.set_last(b'0' + self.last);
        }
    }
}

// The decimal digits of a number.
fn digits_of(number: usize) -> Line
    ensures { result ≡ decimal number }
{
    let mut digits = Line::new();
    digits.put_number(number as u64);
    digits
}

// Puts the digits of a number in the place of others.
#[inline(never)]
fn write_over(digits: &mut Line, number: usize)
    ensures { digits.new ≡ decimal number }
{
    digits.clear();
    digits.put_number(number as u64);
}
