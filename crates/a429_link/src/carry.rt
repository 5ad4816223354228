//! A data word of a block that is sent, and taken at once.

use a429_word::Word;

/// The next word of a source's block, and its place there, counted from 0.
#[derive(Clone, Copy, Debug)]
pub struct NextWord {
    pub place: u8,
    pub word: Word,
}
