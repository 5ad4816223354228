//! Why a certificate that is read as a stream, or its recording, is refused.

ghost use Rattle.std.specs.Prelude.{◌≡◌};
ghost use Rattle.a429_cert.specs.Stream.{of_cert, of_read, of_trouble};

use crate::fault::CertFault;
use a429_record::ReadFault;
use a429_word::Trouble;

/// Why a certificate and a recording that are read as a stream are refused.
#[derive(Clone, Copy, Debug, PartialEq, Eq)]
pub enum StreamFault {
    /// The certificate's first fault. Lines are counted from 1, entries from 0.
    Cert(CertFault),
    /// The recording's fault, at the place of the first entry that is wanted of it; a reader that has failed is `Read(Device)`.
    Read(ReadFault),
    /// The certificate's reader, the shelf or the listener has failed.
    Device,
    /// Memory was refused.
    OutOfMemory,
}

/// The fault of a stream for one of its certificate.
pub fn of_cert(fault: CertFault) -> StreamFault
    ensures { result ≡ of_cert fault }
{
    match fault {
        CertFault::OutOfMemory => StreamFault::OutOfMemory,
        _ => StreamFault::Cert(fault),
    }
}

/// The fault of a stream for one of its recording.
pub fn of_read(fault: ReadFault) -> StreamFault
    ensures { result ≡ of_read fault }
{
    match fault {
        ReadFault::OutOfMemory => StreamFault::OutOfMemory,
        _ => StreamFault::Read(fault),
    }
}

/// The fault of a stream whose shelf or listener has not taken something.
pub fn of_trouble(trouble: Trouble) -> StreamFault
    ensures { result ≡ of_trouble trouble }
{
    match trouble {
        Trouble::Device => StreamFault::Device,
        Trouble::OutOfMemory => StreamFault::OutOfMemory,
    }
}
