//! Certificates, held against recordings.

ghost use Rattle.std.specs.Prelude.{◌≡◌, ◌++◌, ◌+◌, ◌≤◌, length, ℕ, Some, IfOk, IfErr, OnOk, option_and_then, option_map};
ghost use Rattle.a429_link.specs.Link.{handed_out};
ghost use Rattle.a429_cert.specs.declared.line.CertLine.TheVariants.{First};
ghost use Rattle.a429_cert.specs.Line.{spelling};
ghost use Rattle.a429_cert.specs.Lines.{line_bytes};
ghost use Rattle.a429_cert.specs.Explained.{items_of, IsExplained, AreInSomeRun, AreDeliveredInEveryRun, IncludeSettledOfEveryRun};
ghost use Rattle.a429_cert.specs.Fault.{file_in, Begins, IsNoFirst, IsFaultOfHead, IsFirstCertFault, UnlessMemory};

use crate::at::At;
use crate::entry::seen_at;
use crate::fault::{CertFault, OutOfMemory};
use crate::line::CertLine;
use crate::lines::{Lines, TextLine};
use crate::passing::replay_line;
use crate::reading::read_line;
use crate::verified::Verified;
use crate::version::Version;
use a429_link::{FileBytes, Link};
use a429_profile::Profile;
use a429_record::Entry;
use std::alloc::Global;

/// Holds a certificate against the entries of a recording, under a profile. Where it
/// explains them by a run of source and sink, the answer is the files that this run delivers, and each
/// other run that records the same words delivers the same: some of those that its source offered, among them all that
/// the source takes as acknowledged. Else the fault is the first one in the order of the lines.
pub fn verify(
    alloc: Global,
    profile: &Profile,
    entries: &[Entry],
    certificate: &[u8],
) -> Result<Verified, CertFault>
    ensures ok { IfOk result (λ files. IsExplained profile.now certificate.now (items_of entries.now) files) }
    ensures some_run { IfOk result (λ files. AreInSomeRun profile.now (items_of entries.now) files) }
    ensures every_run { IfOk result (λ files. AreDeliveredInEveryRun profile.now (items_of entries.now) files) }
    ensures settled { IfOk result (λ files. IncludeSettledOfEveryRun profile.now (items_of entries.now) files) }
    ensures err { IfErr result (UnlessMemory (IsFirstCertFault profile.now certificate.now (items_of entries.now))) }
{
    let mut lines = Lines::new(certificate);
    let head = match begin(alloc, &mut lines) {
        Ok(head) => head,
        Err(fault) => return Err(fault),
    };
    let mut link = Link::start(alloc, profile, head.first);
    let mut files = Vec::new(alloc);
    let mut used = 0;
    let mut n = 3;
    while let Some(line) = lines.next_line() {
        let at = At {
            line: n,
            entry: used,
            next: seen_at(entries, used),
        };
        match replay_line(alloc, profile, &mut link, head.version.read(line), at) {
            Ok(count) => used += count,
            Err(fault) => return Err(fault),
        }
        match take_files(&mut link, &mut files) {
            Ok(()) => {}
            Err(_) => return Err(CertFault::OutOfMemory),
        }
        n += 1;
    }
    match all_used(used, entries) {
        Ok(()) => Ok(Verified::new(files)),
        Err(fault) => Err(fault),
    }
}

// Refuses a certificate whose lines use so many of the entries, where that is not all of them.
fn all_used(used: usize, entries: &[Entry]) -> Result<(), CertFault>
    ensures ok { OnOk result (length entries.now ≤ used) }
    ensures err { IfErr result (λ f. (f ≡ CertFault.Unfinished used) × (used + 1 ≤ length entries.now)) }
{
    if used < entries.len() {
        return Err(CertFault::Unfinished(used));
    }
    Ok(())
}

// Takes the files out of a link that it has delivered, and puts them after those that were taken.
fn take_files(link: &mut Link<'_>, files: &mut Vec<FileBytes>) -> Result<(), OutOfMemory>
    ensures taken { OnOk result (files.new.items ≡ files.old.items ++ link.old.state.sink.received.files) }
    ensures rest { OnOk result (link.new ≡ record (link.old) { state = handed_out link.old.state }) }
{
    if link.delivered().is_empty() {
        return Ok(());
    }
    let mut delivered = link.take_delivered();
    files.append(&mut delivered)?;
    Ok(())
}

/// What the two lines say that begin a certificate.
#[derive(Clone, Copy)]
pub struct Head {
    /// Its version.
    pub version: Version,
    /// The number of the first file.
    pub first: u8,
}

// What the two lines say that begin a certificate.
fn begin(alloc: Global, lines: &mut Lines<'_>) -> Result<Head, CertFault>
    ensures ok { IfOk result (λ head. Begins lines.old head lines.new) }
    ensures err { IfErr result (UnlessMemory (IsFaultOfHead lines.old)) }
{
    let Some(version) = Version::of(lines.next_line()) else {
        return Err(CertFault::Version);
    };
    match first_of(alloc, lines.next_line()) {
        Ok(first) => Ok(Head { version, first }),
        Err(fault) => Err(fault),
    }
}

/// The number of the first file, which the second line of a certificate has.
pub fn first_of(alloc: Global, line: Option<TextLine<'_>>) -> Result<u8, CertFault>
    ensures ok { IfOk result (λ first. option_map line_bytes line.entry ≡ Some (Some (spelling (First first)))) }
    ensures err { IfErr result (UnlessMemory (IsNoFirst (option_map line_bytes line.entry))) }
{
    let Some(TextLine::Ended(text)) = line else {
        return Err(CertFault::Line(2));
    };
    match read_line(alloc, text) {
        Ok(line) => file_of(line).ok_or(CertFault::Line(2)),
        Err(_) => Err(CertFault::OutOfMemory),
    }
}

// The number of the first file, where a line has it.
fn file_of(line: Option<CertLine>) -> Option<u8>
    ensures { result ≡ option_and_then file_in line }
{
    match line? {
        CertLine::First(file) => Some(file),
        _ => None,
    }
}
