//! What is found of a certificate, and the numbers of its first fault.

ghost use Rattle.std.specs.Prelude.{◌≡◌};
ghost use Rattle.a429_c.specs.Refusal.{number_of_fault, line_of, entry_of};

use a429_cert::{CertFault, Verified};

/// What is found of a certificate.
#[derive(Drop)]
pub enum Held {
    /// It explains the recording, and these files cross.
    Explained(Verified),
    /// This is its first fault.
    Refused(CertFault),
}

/// The number of a fault.
pub fn number_of_fault(fault: CertFault) -> u32
    ensures { result ≡ number_of_fault fault }
{
    match fault {
        CertFault::Version => 21,
        CertFault::Line(_) => 22,
        CertFault::NotAllowed(_) => 23,
        CertFault::StateDiffers(_) => 24,
        CertFault::WordDiffers { .. } => 25,
        CertFault::Unfinished(_) => 26,
        CertFault::OutOfMemory => 0,
    }
}

/// The line that a fault names; 0 where it names none.
pub fn line_of(fault: CertFault) -> usize
    ensures { result ≡ line_of fault }
{
    match fault {
        CertFault::Line(line)
        | CertFault::NotAllowed(line)
        | CertFault::StateDiffers(line)
        | CertFault::WordDiffers { line, .. } => line,
        CertFault::Version | CertFault::Unfinished(_) | CertFault::OutOfMemory => 0,
    }
}

/// The entry that a fault names; 0 where it names none.
pub fn entry_of(fault: CertFault) -> usize
    ensures { result ≡ entry_of fault }
{
    match fault {
        CertFault::WordDiffers { entry, .. } | CertFault::Unfinished(entry) => entry,
        _ => 0,
    }
}
