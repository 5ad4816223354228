//! `a429_decide`: whether files crossed, and which.

ghost use Rattle.std.specs.Prelude.{◌≡◌, ◌≤◌, IfOk};
ghost use Rattle.a429_explain.specs.declared.verdict.Verdict.{Verdict};
ghost use Rattle.a429_c.specs.Buffers.{bytes_of};
ghost use Rattle.a429_c.specs.Verdict.{IsVerdictOn, IsVerdictUnder, Reports, files_of, certificate_of};

use crate::buffers::{joined, put_bytes, put_sizes};
use crate::fault::{Fault, answer_fault};
use crate::found::{FileSize, Found};
use crate::input::{entries_of, profile_of};
use crate::verdict::{certificate_text, entry_named, files_told, reason_told, status_told};
use a429_explain::Verdict;
use a429_profile::Profile;
use a429_record::Entry;
use a429_search::decide;
use std::alloc::Global;

/// Finds the verdict on a recording: 0 explained, 1 impossible, 2 unexplained; 3 where the profile or the recording has a fault,
/// 4 where memory was refused. `files` and `bytes` get the files that cross, and `text` the certificate of a yes, or the line of a
/// fault; each is left as it is where it has too little room.
#[unsafe(no_mangle)]
pub extern "C" fn a429_decide(
    alloc: Global,
    profile: &[u8],
    recording: &[u8],
    files: &mut [FileSize],
    bytes: &mut [u8],
    text: &mut [u8],
    found: &mut Found,
) -> u8
    ensures verdict { result ≤ 2 → (v : Verdict) × IsVerdictOn profile.now recording.now v
        × Reports v result (record { files = files.new; bytes = bytes.new; text = text.new; found = found.new }) }
{
    match judged(alloc, profile, recording) {
        Ok(verdict) => answer_verdict(alloc, &verdict, files, bytes, text, found),
        Err(fault) => answer_fault(alloc, fault, text, found),
    }
}

// The verdict on the bytes of a recording, by the bytes of a profile.
fn judged(alloc: Global, profile: &[u8], recording: &[u8]) -> Result<Verdict, Fault>
    ensures { IfOk result (IsVerdictOn profile.now recording.now) }
{
    let profile = profile_of(alloc, profile)?;
    let verdict = judged_under(alloc, &profile, recording);
    drop(profile);
    verdict
}

// The same under a profile that was read.
fn judged_under(alloc: Global, profile: &Profile, recording: &[u8]) -> Result<Verdict, Fault>
    ensures { IfOk result (IsVerdictUnder profile.now recording.now) }
{
    let entries = entries_of(alloc, recording)?;
    match decide(alloc, profile, entries.as_slice()) {
        Ok(decision) => Ok(decision.verdict),
        Err(_) => Err(Fault::Memory),
    }
}

// What of a verdict takes memory: the bytes of its files, and its certificate.
#[derive(Drop)]
struct Spelled {
    bytes: Vec<u8>,
    certificate: Vec<u8>,
}

fn spell_out(alloc: Global, verdict: &Verdict) -> Result<Spelled, Fault>
    ensures bytes { IfOk result (λ s. s.bytes.items ≡ bytes_of (files_of verdict.now)) }
    ensures certificate { IfOk result (λ s. s.certificate.items ≡ certificate_of verdict.now) }
{
    let bytes = joined(alloc, files_told(verdict))?;
    let certificate = certificate_text(alloc, verdict)?;
    Ok(Spelled { bytes, certificate })
}

// Answers with a verdict.
fn answer_verdict(
    alloc: Global,
    verdict: &Verdict,
    files: &mut [FileSize],
    bytes: &mut [u8],
    text: &mut [u8],
    found: &mut Found,
) -> u8
    ensures { result ≤ 2 → Reports verdict.now result (record { files = files.new; bytes = bytes.new; text = text.new; found = found.new }) }
{
    match spell_out(alloc, verdict) {
        Ok(spelled) => {
            *found = Found {
                entry: entry_named(verdict),
                line: 0,
                files: put_sizes(files_told(verdict), files),
                bytes: put_bytes(spelled.bytes.as_slice(), bytes),
                text: put_bytes(spelled.certificate.as_slice(), text),
                reason: reason_told(verdict),
            };
            status_told(verdict)
        }
        Err(fault) => answer_fault(alloc, fault, text, found),
    }
}
