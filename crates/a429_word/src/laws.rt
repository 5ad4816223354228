//! Laws of the definitions that the contracts of this crate cite.

ghost use Rattle.std.specs.Prelude.{◌≡◌, ℕ, ◌≤◌, ◌<◌, ◌+◌, ◌-◌, ◌*◌, ◌/◌, ◌%◌, ◌^◌, Option, Some, Result, Ok, List, ℤ, pos, neg_ℤ, ◌-ℤ◌, ◌≤ℤ◌, ◌<ℤ◌};
ghost use Rattle.a429_word.specs.Word.{number_of_bits, bit, number_at, AreBits, HasOddParity, SameFields, SameParts};
ghost use Rattle.a429_word.specs.declared.bcd.BadDigit.{BadDigit};
ghost use Rattle.a429_word.specs.Bnr.{raw_of, SameBnrFields};
ghost use Rattle.a429_word.specs.Bcd.{digit_of, decimal_of, AreDecimal, ReadsBcd};
ghost use Rattle.a429_word.specs.Digits.{hex_text, ReadsHex};
ghost use Rattle.a429_word.specs.Fixed.{SpellsFraction};

/// A word's number is the sum of its bits, bit i counting `2^(i-1)`.
pub fn number_is_the_sum_of_its_bits()
    ensures { (w : ℕ) → w < 2 ^ 32 → number_of_bits (bit w) ≡ w }
{}

/// Any 32 bits are the bits of the word that has their number.
pub fn any_bits_make_a_word()
    ensures within { (bits : ℕ → ℕ) → AreBits bits → number_of_bits bits < 2 ^ 32 }
    ensures bits { (bits : ℕ → ℕ) → AreBits bits → (i : ℕ) → 1 ≤ i → i ≤ 32 → bit (number_of_bits bits) i ≡ bits i }
{}

/// Label, SDI, data field, SSM and parity bit are all that there is in a word.
pub fn parts_make_the_word()
    ensures { (v w : ℕ) → v < 2 ^ 32 → w < 2 ^ 32 → SameParts v w → v ≡ w }
{}

/// No two words of odd parity have the same label, SDI, data field and SSM.
pub fn fields_make_the_good_word()
    ensures { (v w : ℕ) → v < 2 ^ 32 → w < 2 ^ 32 → HasOddParity v → HasOddParity w → SameFields v w → v ≡ w }
{}

/// What `Word::hex` writes of a word, `Word::parse_hex` reads as that word.
pub fn hex_is_read_back()
    ensures { (w : ℕ) (read : Option ℕ) → w < 2 ^ 32 → ReadsHex (hex_text w) read → read ≡ Some w }
{}

/// The raw number of a word is two's complement in s + 1 bits: the number of the bits from bit `29-s` up
/// to bit 29, less `2^(s+1)` where bit 29 is 1. It is one that `Word::bnr_word` takes, from `-2^s` to
/// `2^s - 1`, and no two words of odd parity have the same label, SDI, SSM, raw number and other bits of
/// the data field. So if a word has odd parity and the bits of its data field below bit `29-s` are 0,
/// `Word::bnr_word` makes that word again from its label, its SDI, its SSM and what `Word::bnr_raw` returns.
/// The other way needs no law: clause `raw` of `Word::bnr_word` and the contract of `Word::bnr_raw` both say
/// `raw_of`.
pub fn bnr_is_read_back()
    ensures bits { (w s : ℕ) → 1 ≤ s → s ≤ 18 → raw_of w s ≡ pos (number_at w (29 - s) (s + 1)) -ℤ pos (2 ^ (s + 1) * bit w 29) }
    ensures within { (w s : ℕ) → 1 ≤ s → s ≤ 18 → (neg_ℤ (pos (2 ^ s)) ≤ℤ raw_of w s) × (raw_of w s <ℤ pos (2 ^ s)) }
    ensures one { (v w s : ℕ) → v < 2 ^ 32 → w < 2 ^ 32 → 1 ≤ s → s ≤ 18 → HasOddParity v → HasOddParity w → SameBnrFields v w s → v ≡ w }
{}

/// The decimal digits of the number that the first k digits of a word write are these digits. A word that
/// has a number there, as `Word::bcd_word` promises, is one of which `Word::bcd_digits` returns that number
/// and no bad digit.
pub fn bcd_is_read_back()
    ensures digits { (w k i : ℕ) → AreDecimal w k → 1 ≤ i → i ≤ k → decimal_of w k / 10 ^ (k - i) % 10 ≡ digit_of w i }
    ensures within { (w k : ℕ) → AreDecimal w k → decimal_of w k < 10 ^ k }
    ensures read { (w k n : ℕ) (read : Result ℕ BadDigit) → AreDecimal w k → decimal_of w k ≡ n → ReadsBcd w k read → read ≡ Ok n }
{}

/// A fraction has one spelling.
pub fn a_fraction_has_one_spelling()
    ensures { (v w : List ℕ) (number : ℤ) (decimals : ℕ) → SpellsFraction v number decimals → SpellsFraction w number decimals → v ≡ w }
{}
