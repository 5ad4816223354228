//! Why a block is not good.

/// Why a sink answers a block with a negative answer: the first of these that holds (ARINC 429 Part 3; which blocks are in
/// sequence: profile).
#[derive(Clone, Copy, Debug)]
pub enum Why {
    /// No start word was taken.
    NoStart,
    /// The block has so many data words, and so many were asked for.
    OtherCount { words: usize, asked: u8 },
    /// Its semi-octets, so many, are odd in number or fewer than two.
    HalfBytes(usize),
    /// The check word of its bytes is this one, and the end word has another.
    OtherCheck(u16),
    /// It comes neither again nor in sequence.
    OutOfSequence,
}
