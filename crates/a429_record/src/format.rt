//! The two formats of a recording.

/// The format of a recording, which its first eight bytes choose (profile).
#[derive(Clone, Copy)]
pub enum Format {
    /// Lines: a header, and one for each entry.
    Text,
    /// Eight bytes, and thirteen for each entry.
    Binary,
}
