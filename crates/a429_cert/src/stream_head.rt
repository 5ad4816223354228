//! The first two lines of a certificate that is read as a stream.

ghost use Rattle.std.specs.Prelude.{◌≡◌, ◌+◌, ◌≤◌, true, IfOk, IfErr, IsErrOf, OnOk};
ghost use Rattle.a429_word.specs.Tally.{has_failed, unread};
ghost use Rattle.a429_cert.specs.declared.line.CertLine.TheVariants.{First};
ghost use Rattle.a429_cert.specs.Line.{spelling};
ghost use Rattle.a429_cert.specs.Version.{version_line};
ghost use Rattle.a429_cert.specs.LineReader.{to_come, room_left};
ghost use Rattle.a429_cert.specs.Fault.{IsFaultOfHead};
ghost use Rattle.a429_cert.specs.StreamHead.{TakesLine, ReadsAtMost, TakesHead, RefusesHead, IsNoVersion, GivesNoFirst};

use crate::explained::{Head, first_of};
use crate::fault::CertFault;
use crate::line_reader::LineReader;
use crate::stream_fault::{StreamFault, of_cert};
use crate::version::Version;
use a429_word::Tally;
use std::alloc::Global;
use std::io::Read;

/// What the two lines say that begin a certificate.
pub fn begin<R: Read>(
    alloc: Global,
    lines: &mut LineReader,
    cert: &mut Tally<R>,
) -> Result<Head, StreamFault>
    ensures ok { IfOk result (TakesHead (to_come R.remaining lines.old cert.old) (to_come R.remaining lines.new cert.new)) }
    ensures room { OnOk result (room_left lines.new cert.new + 2 ≤ room_left lines.old cert.old) }
    ensures err { IfErr result (RefusesHead IsFaultOfHead (to_come R.remaining lines.old cert.old)) }
    ensures read { IfErr result (ReadsAtMost 2 (to_come R.remaining lines.old cert.old) (unread R.remaining cert.new)) }
    ensures device { IsErrOf result StreamFault.Device → has_failed cert.new ≡ true }
{
    let version = match take_version(lines, cert) {
        Ok(version) => version,
        Err(fault) => return Err(fault),
    };
    match take_first(alloc, lines, cert) {
        Ok(first) => Ok(Head { version, first }),
        Err(fault) => Err(fault),
    }
}

// The version of a certificate, which the next line names.
fn take_version<R: Read>(
    lines: &mut LineReader,
    cert: &mut Tally<R>,
) -> Result<Version, StreamFault>
    ensures ok { IfOk result (λ v. TakesLine (to_come R.remaining lines.old cert.old) (to_come R.remaining lines.new cert.new) (version_line v)) }
    ensures room { OnOk result (room_left lines.new cert.new + 1 ≤ room_left lines.old cert.old) }
    ensures err { IfErr result (RefusesHead IsNoVersion (to_come R.remaining lines.old cert.old)) }
    ensures read { IfErr result (ReadsAtMost 1 (to_come R.remaining lines.old cert.old) (unread R.remaining cert.new)) }
    ensures device { IsErrOf result StreamFault.Device → has_failed cert.new ≡ true }
{
    let Ok(found) = lines.next_line(cert) else {
        return Err(StreamFault::Device);
    };
    let named = if found {
        Version::of(Some(lines.line()))
    } else {
        None
    };
    named.ok_or(StreamFault::Cert(CertFault::Version))
}

// The number of the first file, which the next line has.
fn take_first<R: Read>(
    alloc: Global,
    lines: &mut LineReader,
    cert: &mut Tally<R>,
) -> Result<u8, StreamFault>
    ensures ok { IfOk result (λ first. TakesLine (to_come R.remaining lines.old cert.old) (to_come R.remaining lines.new cert.new) (spelling (First first))) }
    ensures room { OnOk result (room_left lines.new cert.new + 1 ≤ room_left lines.old cert.old) }
    ensures err { IfErr result (RefusesHead GivesNoFirst (to_come R.remaining lines.old cert.old)) }
    ensures read { IfErr result (ReadsAtMost 1 (to_come R.remaining lines.old cert.old) (unread R.remaining cert.new)) }
    ensures device { IsErrOf result StreamFault.Device → has_failed cert.new ≡ true }
{
    let Ok(found) = lines.next_line(cert) else {
        return Err(StreamFault::Device);
    };
    if !found {
        return Err(StreamFault::Cert(CertFault::Line(2)));
    }
    match first_of(alloc, Some(lines.line())) {
        Ok(first) => Ok(first),
        Err(fault) => Err(of_cert(fault)),
    }
}
