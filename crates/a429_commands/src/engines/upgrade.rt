//! `a429 upgrade CERT OUT`: a certificate, written as one of version 2.

ghost use Rattle.std.specs.Prelude.{◌≡◌, ◌⊎◌, ◌<◌, ◌↔◌, ◌++◌, length, true, false, IsErr, IfOk, OnOk, OnErr};
ghost use Rattle.a429_word.specs.Tally.{has_failed, unread, Puts, PutsFront};
ghost use Rattle.a429_commands.specs.Ends.{EndsWithFile};
ghost use Rattle.a429_commands.specs.Output.{output};
ghost use Rattle.a429_commands.specs.Upgrade.{of_upgrade, OfUnread, TakesVersion, is_version_line, version_two_line};

use crate::fault::RunFault;
use a429_word::{Device, Failing, Tally};
use std::io::{Read, Write};

// How many bytes are copied at a time.
const ROOM: usize = 262_144;

/// Writes a certificate to `new_cert` as one of version 2, says so on `out`, and answers status 0: its first line
/// is that of version 2, and all other bytes are as they were. Where its first line is that of neither version, or
/// has no line feed, `out` says so, nothing is written to `new_cert`, and the status is 2. Nothing else of the
/// certificate is judged, and no memory is taken. The one fault is `Device`, where a prefix of the new certificate
/// may have been written.
pub fn run_upgrade<R: Read, C: Write, W: Write>(
    cert: &mut Tally<R>,
    new_cert: &mut Tally<C>,
    out: &mut Tally<W>,
) -> Result<u8, RunFault>
    ensures { EndsWithFile (output C.contents new_cert.old new_cert.new) (output W.contents out.old out.new) (of_upgrade (unread R.remaining cert.old) (has_failed cert.new)) result }
{
    let found = take_version(cert)?;
    if found {
        put_version_two(cert, new_cert)?;
        out.put(b"UPGRADED\n")?;
        Ok(0)
    } else {
        out.put(b"NO version\n")?;
        Ok(2)
    }
}

// Reads as many bytes as the first line has, and answers whether they are that of a version.
fn take_version<R: Read>(cert: &mut Tally<R>) -> Result<bool, Device>
    ensures taken { IfOk result (TakesVersion (unread R.remaining cert.old) (unread R.remaining cert.new)) }
    ensures device { IsErr result ↔ (has_failed cert.new ≡ true) }
{
    let mut line = [0; 16];
    match cert.read_exact(&mut line) {
        Ok(()) => Ok(is_version(&line)),
        Err(_) if cert.failed() => Err(Device),
        Err(_) => Ok(false),
    }
}

// Whether this is the first line of a certificate of version 1 or 2.
fn is_version(line: &[u8]) -> bool
    ensures { result ≡ is_version_line line.now }
{
    line == b"arinc429-cert 1\n".as_slice() || line == b"arinc429-cert 2\n".as_slice()
}

// Writes the first line of version 2, and after it what is still to come of a certificate.
fn put_version_two<R: Read, C: Write>(
    cert: &mut Tally<R>,
    new_cert: &mut Tally<C>,
) -> Result<(), Device>
    ensures ok { OnOk result (OfUnread R.remaining cert.old (λ xs. Puts C.contents new_cert.old new_cert.new (version_two_line ++ xs))) }
    ensures err { OnErr result (OfUnread R.remaining cert.old (λ xs. PutsFront C.contents new_cert.old new_cert.new (version_two_line ++ xs))) }
    ensures works { OnOk result ((has_failed cert.new ≡ false) × (has_failed new_cert.new ≡ false)) }
    ensures device { IsErr result → (has_failed new_cert.new ≡ true) ⊎ (has_failed cert.new ≡ true) }
{
    new_cert.put(b"arinc429-cert 2\n")?;
    copy(cert, new_cert, &mut [0; ROOM])
}

// Copies what is still to come, by a buffer.
fn copy<R: Read, C: Write>(
    cert: &mut Tally<R>,
    new_cert: &mut Tally<C>,
    buffer: &mut [u8],
) -> Result<(), Device>
    requires room { 0 < length buffer.old }
    requires works { has_failed new_cert.old ≡ false }
    ensures ok { OnOk result (OfUnread R.remaining cert.old (Puts C.contents new_cert.old new_cert.new)) }
    ensures err { OnErr result (OfUnread R.remaining cert.old (PutsFront C.contents new_cert.old new_cert.new)) }
    ensures works { OnOk result ((has_failed cert.new ≡ false) × (has_failed new_cert.new ≡ false)) }
    ensures device { IsErr result → (has_failed new_cert.new ≡ true) ⊎ (has_failed cert.new ≡ true) }
{
    'pieces: loop {
        let n = cert.pull(buffer)?;
        if n == 0 {
            return Ok(());
        }
        new_cert.put(&buffer[..n])?;
    }
}
