//! Words in hexadecimal digits, and labels in octal ones.

ghost use Rattle.std.specs.Prelude.{◌≡◌, ◌<◌, ◌≤◌, ◌^◌, ◌*◌, ◌/◌, ◌%◌, ◌∷◌, [], ◌↔◌, true, ℕ, IfSome, IfNone};
ghost use Rattle.std.specs.Char.{digit_value};
ghost use Rattle.std.specs.Fmt.{digit_glyph};
ghost use Rattle.std.specs.Str.Parse.{digits_value, AllDigits};
ghost use Rattle.a429_word.specs.Digits.{hex_text, octal_text, IsHexWord, AreUpper, ReadsHex};
ghost use Rattle.a429_word.specs.declared.digits.Letters.TheVariants.{Upper};

use crate::word::Word;

// The letters that are hexadecimal digits, besides 0 to 9.
#[derive(Clone, Copy)]
enum Letters {
    // A to F and a to f.
    Either,
    // A to F alone.
    Upper,
}

const HEX_DIGITS: [u8; 16] = *b"0123456789ABCDEF";

// Each byte as two hexadecimal digits.
const HEX_PAIRS: [u8; 512] =
    *b"000102030405060708090A0B0C0D0E0F101112131415161718191A1B1C1D1E1F202122232425262728292A2B2C2D2E2F303132333435363738393A3B3C3D3E3F404142434445464748494A4B4C4D4E4F505152535455565758595A5B5C5D5E5F606162636465666768696A6B6C6D6E6F707172737475767778797A7B7C7D7E7F808182838485868788898A8B8C8D8E8F909192939495969798999A9B9C9D9E9FA0A1A2A3A4A5A6A7A8A9AAABACADAEAFB0B1B2B3B4B5B6B7B8B9BABBBCBDBEBFC0C1C2C3C4C5C6C7C8C9CACBCCCDCECFD0D1D2D3D4D5D6D7D8D9DADBDCDDDEDFE0E1E2E3E4E5E6E7E8E9EAEBECEDEEEFF0F1F2F3F4F5F6F7F8F9FAFBFCFDFEFF";

// The value of a byte that is no hexadecimal digit: above any number of four digits.
const NONE: u32 = 65536;

// The value of each byte as a hexadecimal digit of either case, and `NONE` of a byte that is none.
const HEX_VALUES: [u32; 256] = [
    NONE, NONE, NONE, NONE, NONE, NONE, NONE, NONE, NONE, NONE, NONE, NONE, NONE, NONE, NONE, NONE,
    NONE, NONE, NONE, NONE, NONE, NONE, NONE, NONE, NONE, NONE, NONE, NONE, NONE, NONE, NONE, NONE,
    NONE, NONE, NONE, NONE, NONE, NONE, NONE, NONE, NONE, NONE, NONE, NONE, NONE, NONE, NONE, NONE,
    0, 1, 2, 3, 4, 5, 6, 7, 8, 9, NONE, NONE, NONE, NONE, NONE, NONE, NONE, 10, 11, 12, 13, 14, 15,
    NONE, NONE, NONE, NONE, NONE, NONE, NONE, NONE, NONE, NONE, NONE, NONE, NONE, NONE, NONE, NONE,
    NONE, NONE, NONE, NONE, NONE, NONE, NONE, NONE, NONE, NONE, 10, 11, 12, 13, 14, 15, NONE, NONE,
    NONE, NONE, NONE, NONE, NONE, NONE, NONE, NONE, NONE, NONE, NONE, NONE, NONE, NONE, NONE, NONE,
    NONE, NONE, NONE, NONE, NONE, NONE, NONE, NONE, NONE, NONE, NONE, NONE, NONE, NONE, NONE, NONE,
    NONE, NONE, NONE, NONE, NONE, NONE, NONE, NONE, NONE, NONE, NONE, NONE, NONE, NONE, NONE, NONE,
    NONE, NONE, NONE, NONE, NONE, NONE, NONE, NONE, NONE, NONE, NONE, NONE, NONE, NONE, NONE, NONE,
    NONE, NONE, NONE, NONE, NONE, NONE, NONE, NONE, NONE, NONE, NONE, NONE, NONE, NONE, NONE, NONE,
    NONE, NONE, NONE, NONE, NONE, NONE, NONE, NONE, NONE, NONE, NONE, NONE, NONE, NONE, NONE, NONE,
    NONE, NONE, NONE, NONE, NONE, NONE, NONE, NONE, NONE, NONE, NONE, NONE, NONE, NONE, NONE, NONE,
    NONE, NONE, NONE, NONE, NONE, NONE, NONE, NONE, NONE, NONE, NONE, NONE, NONE, NONE, NONE, NONE,
    NONE, NONE, NONE, NONE, NONE, NONE, NONE, NONE, NONE, NONE, NONE, NONE, NONE, NONE, NONE, NONE,
    NONE, NONE, NONE, NONE, NONE, NONE, NONE,
];

// The same of digits in upper case alone. It is a table of its own, since a test of the case takes longer.
const UPPER_HEX_VALUES: [u32; 256] = [
    NONE, NONE, NONE, NONE, NONE, NONE, NONE, NONE, NONE, NONE, NONE, NONE, NONE, NONE, NONE, NONE,
    NONE, NONE, NONE, NONE, NONE, NONE, NONE, NONE, NONE, NONE, NONE, NONE, NONE, NONE, NONE, NONE,
    NONE, NONE, NONE, NONE, NONE, NONE, NONE, NONE, NONE, NONE, NONE, NONE, NONE, NONE, NONE, NONE,
    0, 1, 2, 3, 4, 5, 6, 7, 8, 9, NONE, NONE, NONE, NONE, NONE, NONE, NONE, 10, 11, 12, 13, 14, 15,
    NONE, NONE, NONE, NONE, NONE, NONE, NONE, NONE, NONE, NONE, NONE, NONE, NONE, NONE, NONE, NONE,
    NONE, NONE, NONE, NONE, NONE, NONE, NONE, NONE, NONE, NONE, NONE, NONE, NONE, NONE, NONE, NONE,
    NONE, NONE, NONE, NONE, NONE, NONE, NONE, NONE, NONE, NONE, NONE, NONE, NONE, NONE, NONE, NONE,
    NONE, NONE, NONE, NONE, NONE, NONE, NONE, NONE, NONE, NONE, NONE, NONE, NONE, NONE, NONE, NONE,
    NONE, NONE, NONE, NONE, NONE, NONE, NONE, NONE, NONE, NONE, NONE, NONE, NONE, NONE, NONE, NONE,
    NONE, NONE, NONE, NONE, NONE, NONE, NONE, NONE, NONE, NONE, NONE, NONE, NONE, NONE, NONE, NONE,
    NONE, NONE, NONE, NONE, NONE, NONE, NONE, NONE, NONE, NONE, NONE, NONE, NONE, NONE, NONE, NONE,
    NONE, NONE, NONE, NONE, NONE, NONE, NONE, NONE, NONE, NONE, NONE, NONE, NONE, NONE, NONE, NONE,
    NONE, NONE, NONE, NONE, NONE, NONE, NONE, NONE, NONE, NONE, NONE, NONE, NONE, NONE, NONE, NONE,
    NONE, NONE, NONE, NONE, NONE, NONE, NONE, NONE, NONE, NONE, NONE, NONE, NONE, NONE, NONE, NONE,
    NONE, NONE, NONE, NONE, NONE, NONE, NONE, NONE, NONE, NONE, NONE, NONE, NONE, NONE, NONE, NONE,
    NONE, NONE, NONE, NONE, NONE, NONE, NONE, NONE, NONE,
];

impl Word {
    /// The word that eight hexadecimal digits of either case write; `None` for any other text (profile).
    #[inline(always)]
    pub fn parse_hex(text: &[u8]) -> Option<Word>
        ensures { ReadsHex text.now result }
    {
        Word::parse(Letters::Either, text)
    }

    /// The word whose digits these are, as `hex` writes them; `None` for any other text (profile).
    #[inline(always)]
    #[tactic(auto, using(crate::proofs::DigitsFacts::upper_hex))]
    pub fn parse_upper_hex(text: &[u8]) -> Option<Word>
        ensures some { IfSome result (λ w. text.now ≡ hex_text w) }
        ensures none { IfNone result ((w : ℕ) → w < 2 ^ 32 → text.now ≡ hex_text w → ⊥) }
    {
        Word::parse(Letters::Upper, text)
    }

    // The word that eight hexadecimal digits with these letters write; `None` for any other text.
    #[inline(always)]
    fn parse(letters: Letters, text: &[u8]) -> Option<Word>
        ensures some { IfSome result (λ w. IsHexWord text.now × (letters ≡ Upper → AreUpper text.now) × (w ≡ digits_value 16 text.now)) }
        ensures none { IfNone result (¬ (IsHexWord text.now × (letters ≡ Upper → AreUpper text.now))) }
    {
        if text.len() != 8 {
            return None;
        }
        let upper = number_of_four(letters, text[0], text[1], text[2], text[3]);
        let lower = number_of_four(letters, text[4], text[5], text[6], text[7]);
        if upper >= NONE || lower >= NONE {
            return None;
        }
        Some(Word::from_u32(upper * 65536 + lower))
    }

    /// The word's number as eight hexadecimal digits in upper case (profile).
    pub fn hex(self) -> [u8; 8]
        ensures { result ≡ hex_text self }
    {
        let (a, b) = (self.hex_pair(3), self.hex_pair(2));
        let (c, d) = (self.hex_pair(1), self.hex_pair(0));
        [a[0], a[1], b[0], b[1], c[0], c[1], d[0], d[1]]
    }

    // The two digits that count 16^(2 place + 1) and 16^(2 place).
    #[inline(always)]
    fn hex_pair(self, place: u8) -> [u8; 2]
        requires { place < 4 }
        ensures { result ≡ digit_glyph true (self / 2 ^ (8 * place) / 16 % 16) ∷ digit_glyph true (self / 2 ^ (8 * place) % 16) ∷ [] }
    {
        let from = (self.to_u32() >> (8 * place) & 255) as usize * 2;
        [HEX_PAIRS[from], HEX_PAIRS[from + 1]]
    }
}

/// A number below 16 as a hexadecimal digit in upper case.
#[inline]
pub fn hex_digit(number: u8) -> u8
    requires { number < 16 }
    ensures { result ≡ digit_glyph true number }
{
    HEX_DIGITS[usize::from(number)]
}

// The number that four hexadecimal digits with these letters write, and `NONE` or more where one of them
// is none. So the digits are tested and counted at once.
#[inline(always)]
fn number_of_four(letters: Letters, a: u8, b: u8, c: u8, d: u8) -> u32
    ensures digits { result < NONE ↔ AllDigits 16 (a ∷ b ∷ c ∷ d ∷ []) × (letters ≡ Upper → AreUpper (a ∷ b ∷ c ∷ d ∷ [])) }
    ensures value { result < NONE → result ≡ digits_value 16 (a ∷ b ∷ c ∷ d ∷ []) }
{
    let upper = hex_value(letters, a) * 16 + hex_value(letters, b);
    let lower = hex_value(letters, c) * 16 + hex_value(letters, d);
    upper * 256 + lower
}

// The value of a byte as a hexadecimal digit with these letters, and `NONE` where it is none.
#[inline(always)]
fn hex_value(letters: Letters, byte: u8) -> u32
    ensures digit { result < NONE ↔ (digit_value byte < 16) × (letters ≡ Upper → byte ≤ 70) }
    ensures value { result < NONE → result ≡ digit_value byte }
    ensures most { result ≤ NONE }
{
    match letters {
        Letters::Either => HEX_VALUES[usize::from(byte)],
        Letters::Upper => UPPER_HEX_VALUES[usize::from(byte)],
    }
}

/// A label as it is written (Part 1): three octal digits, 000 to 377.
pub fn octal(label: u8) -> [u8; 3]
    ensures { result ≡ octal_text label }
{
    [
        b'0' + (label >> 6 & 7),
        b'0' + (label >> 3 & 7),
        b'0' + (label & 7),
    ]
}
