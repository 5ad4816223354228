//! The place in a certificate and in a recording.

use a429_link::Seen;

/// The line of a certificate and the entry of a recording that come next.
#[derive(Clone, Copy)]
pub struct At {
    /// The line's number, counted from 1.
    pub line: usize,
    /// The entry's number, counted from 0.
    pub entry: usize,
    /// What was recorded in it, if it is there.
    pub next: Option<Seen>,
}
