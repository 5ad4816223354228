//! What is wrong with a map, and with an export.

use crate::key::Key;
use thiserror::Error;

/// The first thing wrong with a map (profile): the document, then its keys in their order, then the parts of the word, then
/// texts that are given twice. On standard error the program writes the text of a fault after `map: `; `memory` alone is the
/// whole line.
#[derive(Clone, Copy, Debug, PartialEq, Eq, Error)]
pub enum MapFault {
    /// The text is no TOML document.
    #[error("not toml")]
    NotToml,
    /// The key is not there, or its section is not.
    #[error("missing {0}")]
    Missing(Key),
    /// The value at the key is of another kind, or its section is no table.
    #[error("wrong kind {0}")]
    WrongKind(Key),
    /// The value lies outside the key's range.
    #[error("out of range {0}")]
    OutOfRange(Key),
    /// This bit is in two parts.
    #[error("bit clash {0}")]
    BitClash(u8),
    /// This bit is in none.
    #[error("bit missing {0}")]
    BitMissing(u8),
    /// A status is given twice.
    #[error("text twice error")]
    StatusTwice,
    /// A channel's name is given twice.
    #[error("text twice channel")]
    ChannelTwice,
    /// Memory was refused.
    #[error("memory")]
    OutOfMemory,
}

/// The first thing wrong with an export (profile). Lines are counted from 1. On standard error the program writes the text of a
/// fault after `export: `.
#[derive(Clone, Copy, Debug, PartialEq, Eq, Error)]
pub enum ExportFault {
    /// No row has all columns.
    #[error("header")]
    Header,
    /// The row has too few fields.
    #[error("line {0} fields")]
    Fields(u64),
    /// Its channel is in no list.
    #[error("line {0} channel")]
    Channel(u64),
    /// Its time is none of the form, or above 18446744073709551615.
    #[error("line {0} time")]
    Time(u64),
    /// Its status is in no list.
    #[error("line {0} error")]
    Status(u64),
    /// This part, from 0, is no number of its base, lacks its prefix or its piece, or has more bits.
    #[error("line {0} part {1}")]
    Part(u64, usize),
    /// Its time is below that of an entry before it.
    #[error("line {0} time back")]
    TimeBack(u64),
}

/// Why an export was not imported to its end. The text of a fault is the program's line.
#[derive(Clone, Copy, Debug, PartialEq, Eq, Error)]
pub enum ImportFault {
    /// Something is wrong with the export.
    #[error("export: {0}")]
    Export(ExportFault),
    /// Its reader has failed.
    #[error("device")]
    Device,
    /// Memory was refused.
    #[error("memory")]
    OutOfMemory,
}
