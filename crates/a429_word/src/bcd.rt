//! The BCD value of a word, as a number of decimal digits.

ghost use Rattle.std.specs.Prelude.{ℕ, ◌≡◌, ◌≤◌, ◌<◌, ◌-◌, ◌*◌, ◌/◌, ◌%◌, ◌^◌, IfOk, IfErr};
ghost use Rattle.a429_word.specs.Word.{label_of, sdi_of, ssm_of, number_at, HasOddParity};
ghost use Rattle.a429_word.specs.Bcd.{digit_of, decimal_of, AreDecimal, IsFirstBad};

use crate::word::Word;

/// The place of the first digit above 9 (profile), from 2 to 5: digit 1, the most significant, has three
/// bits and is never above 9.
#[derive(Clone, Copy, Debug, PartialEq, Eq)]
pub struct BadDigit(pub u8);

impl Word {
    /// The number that the first k digits of a BCD word write (ARINC 429 Part 1), k from 1 to 5 (profile).
    /// The most significant digit has bits 29 to 27, each further one the four bits below. If one of them
    /// is above 9, the error is the place of the first such digit (profile).
    pub fn bcd_digits(self, k: u8) -> Result<u32, BadDigit>
        requires least { 1 ≤ k }
        requires most { k ≤ 5 }
        ensures ok { IfOk result (λ n. AreDecimal self k × (n ≡ decimal_of self k)) }
        ensures err { IfErr result (λ e. IsFirstBad self k e.0) }
    {
        let mut value = 0;
        for before in 0..k {
            let digit = self.bcd_digit(before + 1);
            if digit > 9 {
                return Err(BadDigit(before + 1));
            }
            value = value * 10 + digit;
        }
        Ok(value)
    }

    /// The BCD word with this number in its first k digits, k from 1 to 5 (profile), below `8 * 10^(k-1)`,
    /// since the first digit has three bits (Part 1). SDI and SSM are 0 to 3. The other digits are 0 (profile).
    pub fn bcd_word(label: u8, sdi: u8, ssm: u8, k: u8, value: u32) -> Word
        requires sdi { sdi ≤ 3 }
        requires ssm { ssm ≤ 3 }
        requires least { 1 ≤ k }
        requires most { k ≤ 5 }
        requires value { value < 8 * 10 ^ (k - 1) }
        ensures label { label_of result ≡ label }
        ensures sdi { sdi_of result ≡ sdi }
        ensures digits { AreDecimal result k }
        ensures value { decimal_of result k ≡ value }
        ensures unused { number_at result 11 (20 - 4 * k) ≡ 0 }
        ensures ssm { ssm_of result ≡ ssm }
        ensures parity { HasOddParity result }
    {
        Word::with_parity(label, sdi, packed_digits(k, value) << (20 - 4 * k), ssm)
    }

    // The digit at a place, from 1.
    fn bcd_digit(self, place: u8) -> u32
        requires first { 1 ≤ place }
        requires last { place ≤ 5 }
        ensures { result ≡ digit_of self place }
    {
        let mask = if place == 1 { 7 } else { 15 };
        self.to_u32() >> (30 - 4 * place) & mask
    }
}

// The last digits of a number, four bits each.
fn packed_digits(count: u8, value: u32) -> u32
    requires { count ≤ 5 }
    ensures within { result < 16 ^ count }
    ensures digits { (j : ℕ) → j < count → result / 16 ^ j % 16 ≡ value / 10 ^ j % 10 }
{
    let mut packed = 0;
    let mut rest = value;
    for place in 0..count {
        packed += rest % 10 << (4 * place);
        rest /= 10;
    }
    packed
}
