//! Why a call has no answer.

ghost use Rattle.std.specs.Prelude.{◌≡◌, ◌<◌};
ghost use Rattle.a429_c.specs.declared.fault.Fault.TheVariants as fault;

use crate::buffers::put_bytes;
use crate::found::Found;
use a429_ldu::CutFault;
use a429_profile::ProfileFault;
use a429_record::ReadFault;
use std::alloc::{AllocError, AllocFailed, Global};
use thiserror::Error;

/// Why a call has no answer. Its text is the line that the program writes to standard error.
#[derive(Clone, Copy, Debug, PartialEq, Eq, Error)]
pub enum Fault {
    /// The profile has this fault, its first one.
    #[error("profile: {0}")]
    Profile(ProfileFault),
    /// The recording has this fault, its first one; `TooMany` also where one would be made of more than 1,000,000 entries.
    #[error("recording: {0}")]
    Recording(ReadFault),
    /// The file at this place, from 0, can not be cut into link data units: it is `Empty` or `TooLong`.
    #[error("file {}: {}", .0.saturating_add(1), cut_text(.1))]
    Cut(usize, CutFault),
    /// The lengths of the files are not those of parts of the bytes that were given.
    #[error("files: lengths")]
    Lengths,
    /// Memory was refused.
    #[error("memory")]
    Memory,
}

// What the line of a file that can not be cut says of it.
fn cut_text(fault: &CutFault) -> &'static str {
    match fault {
        CutFault::Empty => "empty",
        CutFault::TooLong => "too long",
        CutFault::OutOfMemory => "memory",
    }
}

impl From<AllocError> for Fault {
    ghost use Rattle.std.specs.Prelude.{◌≡◌};

    ghost from_gives = { λ _ e. e ≡ fault.Memory };

    fn from(_: AllocError) -> Fault {
        Fault::Memory
    }
}

impl<T: Drop> From<AllocFailed<T>> for Fault {
    fn from(_: AllocFailed<T>) -> Fault {
        Fault::Memory
    }
}

impl Fault {
    /// The status that it is answered with: 3 for input that is refused, 4 for out of memory.
    pub fn status(self) -> u8
        ensures { 2 < result }
    {
        match self {
            Fault::Profile(_) | Fault::Recording(_) | Fault::Cut(..) | Fault::Lengths => 3,
            Fault::Memory => 4,
        }
    }
}

/// Answers with a fault: its text where it is one of the input, and its status.
pub fn answer_fault(alloc: Global, fault: Fault, text: &mut [u8], found: &mut Found) -> u8
    ensures { 2 < result }
{
    *found = Found::nothing();
    match fault {
        Fault::Memory => fault.status(),
        _ => put_text_of(alloc, fault, text, found),
    }
}

// Puts the text of a fault, if memory suffices for it. The status of what is answered.
fn put_text_of(alloc: Global, fault: Fault, text: &mut [u8], found: &mut Found) -> u8
    ensures { 2 < result }
{
    match format!(in alloc; "{fault}") {
        Ok(line) => {
            found.text = put_bytes(line.as_bytes(), text);
            fault.status()
        }
        Err(_) => Fault::Memory.status(),
    }
}
