//! Why there is no link data unit.

/// Why words make no link data unit (profile), in the order in which it is tested.
#[derive(Clone, Copy, Debug, PartialEq, Eq)]
pub enum LduFault {
    /// There are no words, or more than 253.
    Count,
    /// The words are not all data words of bus A, or their semi-octets are odd in number.
    NotBytes,
    /// The profile compares check words, and this is not that of the bytes.
    CheckWrong,
    /// Memory was refused.
    OutOfMemory,
}

/// Why a file cannot be cut into link data units (profile), in the order in which it is tested.
#[derive(Clone, Copy, Debug, PartialEq, Eq)]
pub enum CutFault {
    /// The file has no bytes.
    Empty,
    /// The file needs more than 255 link data units.
    TooLong,
    /// Memory was refused.
    OutOfMemory,
}
