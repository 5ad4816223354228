//! What is refused.

use a429_ldu::CutFault;

/// Why a step is refused.
#[derive(Clone, Copy, Debug, PartialEq, Eq)]
pub enum StepFault {
    /// There is no step of this name here.
    NotAllowed,
    /// There is one, but not with this bus and word.
    WordDiffers,
    /// There is no memory.
    OutOfMemory,
}

/// Why there is no run.
#[derive(Clone, Copy, Debug, PartialEq, Eq)]
pub enum CleanFault {
    /// The file at this place, from 0, is the first that can not be cut, being `Empty` or `TooLong`.
    Cut(usize, CutFault),
    /// Memory was refused.
    OutOfMemory,
}
