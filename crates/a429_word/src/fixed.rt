//! Fractions, and how they are written.

ghost use Rattle.std.specs.Prelude.{◌≡◌, ◌≢◌, ◌↔◌, ◌⊎◌, ◌+◌, ◌*◌, ◌-◌, ◌/◌, ◌%◌, ◌^◌, ◌≤◌, ◌++◌, [], true, IsErr, OnOk, OnErr, pos, ◌*ℤ◌};
ghost use Rattle.a429_word.specs.Tally.{left_of, has_failed, Puts, PutsFront};
ghost use Rattle.a429_word.specs.Fixed.{SpellsFraction, SpelledSo};
ghost use Rattle.a429_word.specs.Sheet.{Says};

mod division;
mod text;

use crate::fixed::division::{power_of_five, without_fives};
use crate::fixed::text::Text;
use crate::sheet::Sheet;
use crate::tally::{Device, Tally};
use std::io::Write;

/// The fraction `number / 10^decimals` (profile). It may be used where decimals is at most 24.
#[derive(Clone, Copy, Debug, PartialEq, Eq)]
pub struct Fixed {
    /// The number over the power of ten.
    pub number: i128,
    /// How many decimals the number has, 0 to 24.
    pub decimals: u8,
}

impl Fixed {
    /// The fraction `number / (2^halvings * 10^decimals)` (profile). Over a power of two is the same as
    /// times that power of five, with as many more decimals.
    pub fn over_power_of_two(number: i64, halvings: u8, decimals: u8) -> Fixed
        requires { halvings + decimals ≤ 24 }
        ensures value { result.number *ℤ pos (2 ^ halvings * 10 ^ decimals) ≡ number *ℤ pos (10 ^ result.decimals) }
        ensures decimals { result.decimals ≡ halvings + decimals }
    {
        Fixed {
            number: i128::from(number) * i128::from(power_of_five(halvings)),
            decimals: halvings + decimals,
        }
    }

    /// Writes the fraction in decimal digits (profile): a minus sign where the number is below zero, the
    /// whole part without leading zeros, then a point and the decimals without trailing zeros, and no
    /// point where none remain. After `Device` a prefix of this text has been written.
    pub fn write_text<W: Write>(&self, out: &mut Tally<W>) -> Result<(), Device>
        requires { self.now.decimals ≤ 24 }
        ensures ok { OnOk result (SpelledSo self.now (λ text. Puts W.contents out.old out.new text)) }
        ensures err { OnErr result (SpelledSo self.now (λ text. PutsFront W.contents out.old out.new text)) }
        ensures left { left_of out.new ≡ left_of out.old }
        ensures device { IsErr result ↔ (has_failed out.new ≡ true) }
        ensures stays { has_failed out.old ≡ true → out.new ≡ out.old }
    {
        let mut text = Text::new();
        self.put_into(&mut text);
        out.put(text.as_slice())
    }

    /// Adds the same text to a sheet of output.
    pub fn put_on<W: Write>(&self, sheet: &mut Sheet<'_, W>)
        requires { self.now.decimals ≤ 24 }
        ensures { SpelledSo self.now (λ text. Says W.contents sheet.old sheet.new text) }
    {
        let mut text = Text::new();
        self.put_into(&mut text);
        sheet.put(text.as_slice());
    }

    // Puts the text together from its end.
    fn put_into(&self, text: &mut Text)
        requires decimals { self.now.decimals ≤ 24 }
        requires empty { text.old ≡ [] }
        ensures { SpellsFraction text.new self.now.number self.now.decimals }
    {
        let (number, decimals) = shortest(self.number.unsigned_abs(), self.decimals);
        let whole = text.push_decimals(number, decimals);
        text.push_point();
        text.push_whole(whole);
        text.push_sign(self.number < 0);
    }
}

// The same fraction without trailing zeros. Each is a factor of 2 and one of 5: the twos are counted,
// and as many fives divided out at once where there are so many.
fn shortest(number: u128, decimals: u8) -> (u128, u8)
    requires { decimals ≤ 24 }
    ensures fewer { result.1 ≤ decimals }
    ensures value { number ≡ result.0 * 10 ^ (decimals - result.1) }
    ensures ends { (result.1 ≡ 0) ⊎ (result.0 % 10 ≢ 0) }
{
    let twos = twos_of(number, decimals);
    match without_fives(number >> twos, twos) {
        Some(rest) => (rest, decimals - twos),
        None => shortened(number, decimals),
    }
}

// How many factors of 2 a number has, or `most` where it has more.
fn twos_of(number: u128, most: u8) -> u8
    requires { most ≤ 24 }
    ensures within { result ≤ most }
    ensures factors { number % 2 ^ result ≡ 0 }
    ensures all { (result ≡ most) ⊎ (number / 2 ^ result % 2 ≡ 1) }
{
    let zeros = number.trailing_zeros();
    if zeros < u32::from(most) {
        zeros as u8
    } else {
        most
    }
}

// The same fraction without trailing zeros, dropped one by one.
fn shortened(number: u128, decimals: u8) -> (u128, u8)
    ensures fewer { result.1 ≤ decimals }
    ensures value { number ≡ result.0 * 10 ^ (decimals - result.1) }
    ensures ends { (result.1 ≡ 0) ⊎ (result.0 % 10 ≢ 0) }
{
    let mut rest = number;
    let mut left = decimals;
    while left > 0 && rest % 10 == 0 {
        rest /= 10;
        left -= 1;
    }
    (rest, left)
}
