//! Why a sink by itself does not take a word.

/// Why a sink by itself does not take a word.
#[derive(Clone, Copy, Debug)]
pub enum SinkFault {
    /// No sink that keeps the rules sends this word after those before it.
    Refused,
    OutOfMemory,
}
