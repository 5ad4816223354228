//! An entry of a recording.

use a429_word::{Bus, Word};

/// How many entries a recording may have (profile).
pub const MOST_ENTRIES: usize = 1_000_000;

/// A recorded word (profile).
#[derive(Clone, Copy, Debug, PartialEq, Eq)]
pub struct Entry {
    /// When it was recorded, in microseconds.
    pub time: u64,
    /// The bus that it was on.
    pub bus: Bus,
    /// The word, whatever its parity.
    pub word: Word,
}
