//! What is wrong with a profile.

use crate::key::{Key, SectionKey};
use thiserror::Error;

/// The first thing wrong with a profile (profile): the document, then its keys in their order, then clashes. On
/// standard error the program writes the text of a fault after `profile: `; `memory` alone is the whole line.
#[derive(Clone, Copy, Debug, PartialEq, Eq, Error)]
pub enum ProfileFault {
    /// The text is no TOML document.
    #[error("not toml")]
    NotToml,
    /// The key is not there, or its section is not.
    #[error("missing {0}")]
    Missing(Key),
    /// The value at the key is of another kind, or its section is no table.
    #[error("wrong kind {0}")]
    WrongKind(Key),
    /// The value lies outside the key's range.
    #[error("out of range {0}")]
    OutOfRange(Key),
    /// Two entries of this label are for the same words, or the label is an address label of the
    /// transfer.
    #[error("label clash {0:03o}")]
    LabelClash(u8),
    /// A number is given twice: at the first key earlier, at the second again. Both are one key where its list names
    /// the number twice.
    #[error("code clash {0} {1}")]
    CodeClash(SectionKey, SectionKey),
    /// Two flags of an entry of this label have this bit.
    #[error("bit clash {0:03o} {1}")]
    BitClash(u8, u8),
    /// Memory was refused.
    #[error("memory")]
    OutOfMemory,
}
