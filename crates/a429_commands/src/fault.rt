//! Why a command has no answer, how it is reported, and the exit status.

ghost use Rattle.std.specs.Prelude.{◌≡◌};
ghost use Rattle.a429_commands.specs.Fault.{status_of};
ghost use Rattle.a429_commands.specs.declared.fault.RunFault.TheVariants as fault;

use a429_import::{ExportFault, MapFault};
use a429_ldu::CutFault;
use a429_profile::ProfileFault;
use a429_record::ReadFault;
use a429_word::{Device, Tally};
use std::alloc::AllocError;
use std::io::Write;
use thiserror::Error;

/// Why a command gave no answer. Its text is the line that is written to standard error.
#[derive(Clone, Copy, Debug, PartialEq, Eq, Error)]
pub enum RunFault {
    /// The word is not eight hexadecimal digits.
    #[error("bad word")]
    BadWord,
    /// The profile has this fault, its first one.
    #[error("profile: {0}")]
    Profile(ProfileFault),
    /// The recording has this fault, its first one; `TooMany` also where `make` would write more than 1,000,000 entries.
    #[error("recording: {0}")]
    Read(ReadFault),
    /// The file at this place, from 0, can not be cut into link data units: it is `Empty` or `TooLong`.
    #[error("file {}: {}", .0.saturating_add(1), cut_text(.1))]
    Cut(usize, CutFault),
    /// The map has this fault, its first one.
    #[error("map: {0}")]
    Map(MapFault),
    /// The export has this fault, its first one.
    #[error("export: {0}")]
    Export(ExportFault),
    /// The span of a picture has more than 2,000 steps.
    #[error("picture: too long")]
    TooLong,
    /// No place to cut a recording is near enough: more entries wait than a part may have.
    #[error("cut: no place is near enough")]
    NoPlace,
    /// The folder to write to has files of an earlier call, which would be taken for new ones.
    #[error("folder: has old files")]
    OldFiles,
    /// A reader or a writer failed, or a file could not be opened.
    #[error("device")]
    Device,
    /// Memory was refused.
    #[error("memory")]
    Memory,
    /// The words name no command, or are not those that the command takes.
    #[error("usage")]
    Usage,
}

// What the line of a file that can not be cut says of it.
fn cut_text(fault: &CutFault) -> &'static str {
    match fault {
        CutFault::Empty => "empty",
        CutFault::TooLong => "too long",
        CutFault::OutOfMemory => "memory",
    }
}

impl From<Device> for RunFault {
    ghost from_gives = { λ _ e. e ≡ fault.Device };

    fn from(_: Device) -> RunFault {
        RunFault::Device
    }
}

impl From<AllocError> for RunFault {
    ghost from_gives = { λ _ e. e ≡ fault.Memory };

    fn from(_: AllocError) -> RunFault {
        RunFault::Memory
    }
}

impl RunFault {
    /// The exit status that it ends the program with: 3 for input that is refused, 4 for a device or
    /// out of memory, 5 for wrong usage.
    pub fn status(self) -> u8
        ensures { result ≡ status_of self }
    {
        match self {
            RunFault::BadWord
            | RunFault::Profile(_)
            | RunFault::Read(_)
            | RunFault::Cut(..)
            | RunFault::Map(_)
            | RunFault::Export(_)
            | RunFault::TooLong
            | RunFault::NoPlace
            | RunFault::OldFiles => 3,
            RunFault::Device | RunFault::Memory => 4,
            RunFault::Usage => 5,
        }
    }
}

/// Writes the fault's line to `err`, and answers its exit status, whatever the writer answered.
pub fn report<W: Write>(fault: &RunFault, err: &mut Tally<W>) -> u8
    ensures { result ≡ status_of fault.now }
{
    // Where standard error fails too, only the status is left to report the fault.
    let _ = writeln!(err, "{fault}");
    fault.status()
}
