//! Parts of words: what a column says of some bits.

ghost use Rattle.std.specs.Prelude.{◌≡◌};
ghost use Rattle.a429_import.specs.Part.{IsSoundPart, part_in};

use crate::base::Base;
use crate::bits::Bits;
use crate::column::Column;
use crate::piece::{Piece, cut_out, without_prefix};
use a429_profile::Text;

/// A part of a word: some bits, whose number a column has in digits (profile).
#[derive(Drop)]
pub struct Part {
    /// The column that has it.
    pub column: Column,
    /// The base of its digits.
    pub base: Base,
    /// The bits that it is.
    pub bits: Bits,
    /// What comes before the digits, as `0x`.
    pub prefix: Text,
    /// Which piece of the field has it; `None` where all of the field is read.
    pub piece: Option<Piece>,
}

impl Part {
    /// The bits of a word that a field of the column has, all others being 0; `None` where the field lacks the piece
    /// or the prefix, is no number of the base, or has more bits.
    pub fn read(&self, field: &[u8]) -> Option<u32>
        requires { IsSoundPart self.now }
        ensures { result ≡ part_in self.now field.now }
    {
        let text = cut_out(self.piece, field)?;
        let digits = without_prefix(text, self.prefix.as_str().as_bytes())?;
        let number = self.base.number(digits, self.bits.count)?;
        Some(self.bits.place(number))
    }
}
