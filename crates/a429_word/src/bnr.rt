//! The BNR value of a word, as a raw number.

ghost use Rattle.std.specs.Prelude.{◌≡◌, ◌≤◌, ◌<◌, ◌-◌, ◌*◌, ◌/◌, ◌%◌, ◌^◌, pos, neg_ℤ, ◌-ℤ◌, ◌≤ℤ◌, ◌<ℤ◌};
ghost use Rattle.a429_word.specs.Word.{label_of, sdi_of, ssm_of, number_at, HasOddParity};
ghost use Rattle.a429_word.specs.Bnr.{raw_of};

use crate::word::Word;

impl Word {
    /// The raw number of a BNR word (ARINC 429 Part 1) with s significant bits, s from 1 to 18 (profile): two's
    /// complement in the s + 1 bits from bit 29, the sign, down to bit `29-s`, and so from `-2^s` to `2^s - 1`.
    pub fn bnr_raw(self, s: u8) -> i32
        requires least { 1 ≤ s }
        requires most { s ≤ 18 }
        ensures { result ≡ raw_of self s }
    {
        let data = (self.to_u32() >> (28 - s) & ((1 << s) - 1)).cast_signed();
        if self.bit(29) { data - (1 << s) } else { data }
    }

    /// The BNR word (Part 1) with s significant bits, s from 1 to 18 (profile), and this raw number, from
    /// `-2^s` to `2^s - 1`. SDI and SSM are 0 to 3. The bits of the data field below bit `29-s` are 0
    /// (profile).
    pub fn bnr_word(label: u8, sdi: u8, ssm: u8, s: u8, raw: i32) -> Word
        requires sdi { sdi ≤ 3 }
        requires ssm { ssm ≤ 3 }
        requires least { 1 ≤ s }
        requires most { s ≤ 18 }
        requires low { neg_ℤ (pos (2 ^ s)) ≤ℤ raw }
        requires high { raw <ℤ pos (2 ^ s) }
        ensures label { label_of result ≡ label }
        ensures sdi { sdi_of result ≡ sdi }
        ensures raw { raw_of result s ≡ raw }
        ensures unused { number_at result 11 (18 - s) ≡ 0 }
        ensures ssm { ssm_of result ≡ ssm }
        ensures parity { HasOddParity result }
    {
        Word::with_parity(label, sdi, twos_complement(s, raw) << (18 - s), ssm)
    }
}

// A raw number in s + 1 bits, of which the highest is the sign.
fn twos_complement(s: u8, raw: i32) -> u32
    requires least { 1 ≤ s }
    requires most { s ≤ 18 }
    requires low { neg_ℤ (pos (2 ^ s)) ≤ℤ raw }
    requires high { raw <ℤ pos (2 ^ s) }
    ensures within { result < 2 * 2 ^ s }
    ensures value { raw ≡ pos (result % 2 ^ s) -ℤ pos (2 ^ s * (result / 2 ^ s)) }
{
    if raw < 0 {
        (raw + (2 << s)).cast_unsigned()
    } else {
        raw.cast_unsigned()
    }
}
