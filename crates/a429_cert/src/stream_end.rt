//! What comes after the last line of a certificate that is read as a stream.

ghost use Rattle.std.specs.Prelude.{◌≡◌, ◌≢◌, true, Option, None, Ok, Err, IfErr, IsErrOf, OnOk};
ghost use Rattle.a429_record.specs.declared.fault.ReadFault.TheVariants as read;
ghost use Rattle.a429_record.specs.Rows.{GivesNext};
ghost use Rattle.a429_cert.specs.StreamEnd.{EndsLate, GivesNone};

use crate::fault::CertFault;
use crate::stream_fault::{StreamFault, of_read};
use a429_record::EntryReader;
use std::io::Read;

/// Asks for the entry after those that the lines use, of which there are so many: none may come.
pub fn none_left<R: Read>(rec: &mut EntryReader<R>, used: usize) -> Result<(), StreamFault>
    ensures ok { OnOk result (GivesNext rec.old.to_come rec.new.to_come (Ok None)) }
    ensures err { IfErr result (EndsLate used rec.old.to_come rec.new.to_come) }
    ensures given { IfErr result (λ f. GivesNone f rec.old.count rec.new.count) }
    ensures device { result ≢ Err StreamFault.Device }
    ensures read { IsErrOf result (StreamFault.Read read.Device) → rec.new.failed ≡ true }
{
    match rec.next() {
        Ok(None) => Ok(()),
        Ok(Some(_)) => Err(StreamFault::Cert(CertFault::Unfinished(used))),
        Err(fault) => Err(of_read(fault)),
    }
}
