//! Why a line was not read or not written, and why a certificate is refused.

use std::alloc::{AllocError, AllocFailed};

/// Memory was refused.
#[derive(Clone, Copy, Debug, PartialEq, Eq)]
pub struct OutOfMemory;

impl From<AllocError> for OutOfMemory {
    fn from(_: AllocError) -> OutOfMemory {
        OutOfMemory
    }
}

impl<T: Drop> From<AllocFailed<T>> for OutOfMemory {
    fn from(_: AllocFailed<T>) -> OutOfMemory {
        OutOfMemory
    }
}

/// Why a certificate is refused. Lines are counted from 1, entries from 0.
#[derive(Clone, Copy, Debug, PartialEq, Eq)]
pub enum CertFault {
    /// The first line names no version, or is not there.
    Version,
    /// This line does not end, spells no line, is none that may come there, or is not there.
    Line(usize),
    /// No step of this line's name may be made there; of a load, its link data unit is none of the profile's, or none may be
    /// loaded.
    NotAllowed(usize),
    /// The step of this line may be made, and leads to another state than the line writes.
    StateDiffers(usize),
    /// A step of this line's name may be made, but not with the next entry, or none is left.
    WordDiffers { line: usize, entry: usize },
    /// This entry is the first that no line uses.
    Unfinished(usize),
    /// Memory was refused.
    OutOfMemory,
}
