//! The numbers in a transfer word.

ghost use Rattle.std.specs.Prelude.{◌≡◌, ◌≤◌, ◌<◌, ◌^◌};
ghost use Rattle.a429_word.specs.Word.{label_of, HasOddParity};
ghost use Rattle.a429_ldu.specs.Form.{fields_of, fields_in};

use a429_word::Word;

/// The numbers in a transfer word, beside its label and its parity bit (profile).
#[derive(Clone, Copy)]
pub(crate) struct Parts {
    /// The type, bits 29 to 31.
    pub kind: u8,
    /// Bits 25 to 28.
    pub upper: u8,
    /// Bits 17 to 24.
    pub middle: u8,
    /// Bits 9 to 16.
    pub lower: u8,
}

/// The numbers in this word.
pub(crate) fn parts_of(word: Word) -> Parts
    ensures fields { fields_of word ≡ fields_in result }
    ensures upper { result.upper ≤ 15 }
    ensures word { word < 2 ^ 32 }
{
    let number = word.to_u32();
    Parts {
        kind: (number >> 28 & 7) as u8,
        upper: (number >> 24 & 15) as u8,
        middle: (number >> 16 & 255) as u8,
        lower: (number >> 8 & 255) as u8,
    }
}

/// The word with this label, these numbers and odd parity.
pub(crate) fn word_with(label: u8, parts: Parts) -> Word
    requires kind { parts.kind ≤ 7 }
    requires upper { parts.upper ≤ 15 }
    ensures label { label_of result ≡ label }
    ensures fields { fields_of result ≡ fields_in parts }
    ensures parity { HasOddParity result }
    ensures word { result < 2 ^ 32 }
{
    let field = u32::from(parts.kind & 1) << 18
        | u32::from(parts.upper) << 14
        | u32::from(parts.middle) << 6
        | u32::from(parts.lower >> 2);
    Word::with_parity(label, parts.lower & 3, field, parts.kind >> 1)
}
