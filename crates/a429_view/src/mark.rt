//! What a picture shows of the steps of a transfer.

use a429_cert::Act;
use a429_link::UnitNumber;
use a429_record::Entry;

/// Which steps a picture shows: those at which one of the entries `from` to `to` comes next, counted from 0
/// (profile).
#[derive(Clone, Copy, Debug)]
pub struct Span {
    pub from: usize,
    pub to: usize,
}

/// A step that records an entry.
#[derive(Clone, Copy, Debug)]
pub struct Recorded {
    /// `Sent`, `Answered` or `FreeSeen`.
    pub act: Act,
    /// The number of the entry, counted from 0.
    pub number: usize,
    pub entry: Entry,
    /// The number of the file that crosses with it, if one does.
    pub crosses: Option<u8>,
}

/// A row of a picture, which is for a step.
#[derive(Clone, Copy, Debug)]
pub enum Mark {
    /// The link data unit of this number is loaded at the source.
    Load(UnitNumber),
    /// A step that records nothing.
    Unseen(Act),
    /// A step that records an entry.
    Seen(Recorded),
}
