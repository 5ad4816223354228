//! The numbers in a word that say to which direction and to which destination it belongs.

ghost use Rattle.std.specs.Prelude.{◌≡◌};
ghost use Rattle.a429_word.specs.Word.{number_at};

use a429_word::Word;

/// The type, bits 29 to 31.
#[inline(always)]
#[tactic(auto, using(crate::proofs::FieldsFacts::numbers))]
pub(crate) fn kind_of(word: Word) -> u8
    ensures { result ≡ number_at word 29 3 }
{
    (word.to_u32() >> 28 & 7) as u8
}

/// The code, bits 25 to 28.
#[inline(always)]
#[tactic(auto, using(crate::proofs::FieldsFacts::numbers))]
pub(crate) fn code_of(word: Word) -> u8
    ensures { result ≡ number_at word 25 4 }
{
    (word.to_u32() >> 24 & 15) as u8
}

/// The destination code of a request or a clear answer, bits 17 to 24.
#[inline(always)]
#[tactic(auto, using(crate::proofs::FieldsFacts::numbers))]
pub(crate) fn destination_of(word: Word) -> u8
    ensures { result ≡ number_at word 17 8 }
{
    (word.to_u32() >> 16 & 255) as u8
}
