//! A recorded word.

use a429_word::{Bus, Word};

/// A word and the bus that it was recorded on.
#[derive(Clone, Copy, Debug, PartialEq, Eq)]
pub struct Seen {
    pub bus: Bus,
    pub word: Word,
}
