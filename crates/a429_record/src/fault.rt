//! Why a recording was not read.

use thiserror::Error;

/// Why a recording was not read (profile). Places count entries from 0. On standard error the program writes the text
/// of a fault after `recording: `; `device` and `memory` alone are whole lines.
#[derive(Clone, Copy, Debug, PartialEq, Eq, Drop, Error)]
pub enum ReadFault {
    /// The first row of a text is not the header.
    #[error("header")]
    Header,
    /// The row at this entry's place is no entry.
    #[error("row {0}")]
    Row(usize),
    /// The entry at this place has a time below the one before.
    #[error("time back {0}")]
    TimeBack(usize),
    /// A row, or the first byte of one, comes after the last entry that is allowed: 1,000,000 are, or the limit
    /// of an `EntryReader`.
    #[error("too many")]
    TooMany,
    /// The reader has failed.
    #[error("device")]
    Device,
    /// Memory was refused.
    #[error("memory")]
    OutOfMemory,
    /// A call before this one returned a fault. Only an `EntryReader` returns this.
    #[error("failed")]
    Failed,
}
