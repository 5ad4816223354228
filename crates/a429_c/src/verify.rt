//! `a429_verify`: whether a certificate explains a recording.

ghost use Rattle.std.specs.Prelude.{◌≡◌, ◌≤◌, List, IfOk};
ghost use Rattle.a429_c.specs.Refusal.{Finds, FindsUnder, ReportsHeld, ReportsFiles, ReportsFault};
ghost use Rattle.a429_c.specs.declared.refusal.Held.{Held};

use crate::buffers::{joined, put_bytes, put_sizes};
use crate::fault::{Fault, answer_fault};
use crate::found::{FileSize, Found};
use crate::input::{entries_of, profile_of};
use crate::refusal::{Held, entry_of, line_of, number_of_fault};
use a429_cert::{CertFault, verify};
use a429_link::FileBytes;
use a429_profile::Profile;
use std::alloc::Global;

/// Holds a certificate against a recording: 0 where it explains it, 2 where it is refused; 3 where the profile or the recording has
/// a fault, 4 where memory was refused. `files` and `bytes` get the files that cross, and `text` the line of a fault; each is left
/// as it is where it has too little room.
#[unsafe(no_mangle)]
pub extern "C" fn a429_verify(
    alloc: Global,
    profile: &[u8],
    recording: &[u8],
    certificate: &[u8],
    files: &mut [FileSize],
    bytes: &mut [u8],
    text: &mut [u8],
    found: &mut Found,
) -> u8
    ensures verdict { result ≤ 2 → (h : Held) × Finds profile.now recording.now certificate.now h
        × ReportsHeld h result (record { files = files.new; bytes = bytes.new; text = text.new; found = found.new }) }
{
    match held(alloc, profile, recording, certificate) {
        Ok(held) => answer_held(alloc, &held, files, bytes, text, found),
        Err(fault) => answer_fault(alloc, fault, text, found),
    }
}

// What is found of the bytes of a certificate, by those of a profile and of a recording.
fn held(alloc: Global, profile: &[u8], recording: &[u8], certificate: &[u8]) -> Result<Held, Fault>
    ensures { IfOk result (Finds profile.now recording.now certificate.now) }
{
    let profile = profile_of(alloc, profile)?;
    let held = held_under(alloc, &profile, recording, certificate);
    drop(profile);
    held
}

// The same under a profile that was read.
fn held_under(
    alloc: Global,
    profile: &Profile,
    recording: &[u8],
    certificate: &[u8],
) -> Result<Held, Fault>
    ensures { IfOk result (FindsUnder profile.now recording.now certificate.now) }
{
    let entries = entries_of(alloc, recording)?;
    match verify(alloc, profile, entries.as_slice(), certificate) {
        Ok(files) => Ok(Held::Explained(files)),
        Err(CertFault::OutOfMemory) => Err(Fault::Memory),
        Err(fault) => Ok(Held::Refused(fault)),
    }
}

// Answers with what was found.
fn answer_held(
    alloc: Global,
    held: &Held,
    files: &mut [FileSize],
    bytes: &mut [u8],
    text: &mut [u8],
    found: &mut Found,
) -> u8
    ensures { result ≤ 2 → ReportsHeld held.now result (record { files = files.new; bytes = bytes.new; text = text.new; found = found.new }) }
{
    match held {
        Held::Explained(crossed) => answer_files(alloc, crossed.files(), files, bytes, text, found),
        Held::Refused(fault) => answer_refusal(*fault, found),
    }
}

// Answers with the files of a certificate that explains the recording.
fn answer_files(
    alloc: Global,
    crossed: &[FileBytes],
    files: &mut [FileSize],
    bytes: &mut [u8],
    text: &mut [u8],
    found: &mut Found,
) -> u8
    ensures { result ≤ 2 → (result ≡ 0) × ReportsFiles crossed.now (record { files = files.new; bytes = bytes.new; text = text.new; found = found.new }) }
{
    match joined(alloc, crossed) {
        Ok(joined) => {
            *found = Found::nothing();
            found.files = put_sizes(crossed, files);
            found.bytes = put_bytes(joined.as_slice(), bytes);
            0
        }
        Err(fault) => answer_fault(alloc, fault, text, found),
    }
}

// Answers with the fault of a certificate.
fn answer_refusal(fault: CertFault, found: &mut Found) -> u8
    ensures status { result ≡ 2 }
    ensures numbers { ReportsFault fault found.new }
{
    *found = Found {
        entry: entry_of(fault),
        line: line_of(fault),
        reason: number_of_fault(fault),
        ..Found::nothing()
    };
    2
}
