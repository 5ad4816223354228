//! The numbers of an answer.

ghost use Rattle.std.specs.Prelude.{◌≡◌};
ghost use Rattle.a429_c.specs.Buffers.{nothing};

/// What a call has found: 0 where there is nothing of the kind.
#[repr(C)]
#[derive(Clone, Copy, Debug, PartialEq, Eq)]
pub struct Found {
    /// The entry that is named, counted from 0.
    pub entry: usize,
    /// The line of a certificate that is named, counted from 1.
    pub line: usize,
    /// How many files cross.
    pub files: usize,
    /// How many bytes they have together.
    pub bytes: usize,
    /// How many bytes the text has.
    pub text: usize,
    /// Why, as a number of `a429.h`.
    pub reason: u32,
}

/// A file that crosses. Its bytes come after those of the files before it.
#[repr(C)]
#[derive(Clone, Copy, Debug, PartialEq, Eq)]
pub struct FileSize {
    /// How many bytes it has.
    pub length: usize,
    /// Its number, 0 to 255.
    pub number: u8,
}

impl Found {
    /// Nothing is found yet.
    pub fn nothing() -> Found
        ensures { result ≡ nothing }
    {
        Found {
            entry: 0,
            line: 0,
            files: 0,
            bytes: 0,
            text: 0,
            reason: 0,
        }
    }
}
