//! Changed certificates of the transfer of one byte, held against its recording.

use crate::agreement::none_differs;
use crate::calls::{debug, sample};
use crate::sample::{ACK, CERTIFICATE, CTS, EOT, PART, RTS, SOT};
use a429_cert::{Verified, verify};
use a429_profile::Profile;
use a429_record::Entry;
use a429_word::{Bus, Word};
use std::alloc::{AllocError, Global};
use std::test::Fail;

// How many files a certificate lends, and what it gives away: file 1, with the byte 41, 65 in decimal.
const ONE_FILE: &str = "(1, [FileBytes { number: 1, bytes: Bytes { bytes: [65] } }])";

fn entry(time: u64, bus: Bus, word: u32) -> Entry {
    Entry {
        time,
        bus,
        word: Word::from_u32(word),
    }
}

// The recording of a file of the byte 41, with this request.
fn recording(request: u32) -> [Entry; 6] {
    [
        entry(0, Bus::A, request),
        entry(1000, Bus::B, CTS),
        entry(2000, Bus::A, SOT),
        entry(3000, Bus::A, PART),
        entry(4000, Bus::A, EOT),
        entry(5000, Bus::B, ACK),
    ]
}

// Appends the certificate's lines from one on and before another, both counted from 0.
fn push_lines(text: &mut String, start: usize, end: usize) -> Result<(), AllocError> {
    for (number, line) in CERTIFICATE.lines().enumerate() {
        if start <= number && number < end {
            text.push_str(line)?;
            text.push('\n')?;
        }
    }
    Ok(())
}

// The certificate with this text in the place of its lines from one on and before another.
fn changed(alloc: Global, start: usize, end: usize, text: &str) -> Result<String, AllocError> {
    let mut certificate = String::new(alloc);
    push_lines(&mut certificate, 0, start)?;
    certificate.push_str(text)?;
    push_lines(&mut certificate, end, 15)?;
    Ok(certificate)
}

// How many files are lent, and which are given away.
fn files_of(alloc: Global, verified: Verified) -> Result<String, AllocError> {
    let count = verified.files().len();
    debug(alloc, &(count, verified.into_files()))
}

// What is said of a certificate, held against these entries: its files, or its fault.
fn judged(
    alloc: Global,
    profile: &Profile,
    entries: &[Entry],
    certificate: &[u8],
) -> Result<String, AllocError> {
    match verify(alloc, profile, entries, certificate) {
        Ok(verified) => files_of(alloc, verified),
        Err(fault) => debug(alloc, &fault),
    }
}

// A certificate with a text in the place of its lines from one on and before another, held against the first
// entries of the recording with a request.
#[derive(Clone, Copy)]
struct Case<'a> {
    request: u32,
    count: usize,
    start: usize,
    end: usize,
    text: &'a str,
}

// Whether this is said of a case.
fn is_said(alloc: Global, profile: &Profile, case: Case<'_>, wanted: &str) -> bool {
    let entries = recording(case.request);
    let Ok(certificate) = changed(alloc, case.start, case.end, case.text) else {
        return false;
    };
    let first = &entries[..case.count.min(6)];
    match judged(alloc, profile, first, certificate.as_bytes()) {
        Ok(found) => found.as_str() == wanted,
        Err(_) => false,
    }
}

// The request, how many entries, the lines, the text in their place, and what is wanted.
const CHANGED: [(u32, usize, usize, usize, &str, &str); 18] = [
    // They explain the recording.
    (RTS, 6, 15, 15, "", ONE_FILE),
    (RTS, 6, 14, 15, "", ONE_FILE),
    (RTS, 6, 3, 3, "l C Q 0 0\nt I Q 0 0\n", ONE_FILE),
    // The first two lines.
    (RTS, 6, 0, 15, "", "Version"),
    (
        RTS,
        6,
        0,
        15,
        "arinc429-cert 3\nfirst 1\nL 0 1 A3F5 12004123\n",
        "Version",
    ),
    (RTS, 6, 1, 15, "", "Line(2)"),
    (RTS, 6, 2, 15, "first 1\n", "Line(3)"),
    // Lines that are no step.
    (RTS, 6, 3, 4, "a  C Q 1 0\n", "Line(4)"),
    (RTS, 6, 14, 15, "g I Q 0 0", "Line(15)"),
    (
        RTS,
        6,
        2,
        15,
        "L 0 1 A3F4 12004123\na C Q 1 0\n",
        "NotAllowed(3)",
    ),
    (RTS, 6, 3, 15, "b C G 0 1\n", "NotAllowed(4)"),
    (RTS, 6, 4, 15, "t I Q 0 0\n", "NotAllowed(5)"),
    // Lines that differ.
    (RTS, 6, 3, 15, "a S0 Q 1 0\n", "StateDiffers(4)"),
    (
        RTS,
        6,
        3,
        15,
        "n I Q 0 0\n",
        "WordDiffers { line: 4, entry: 0 }",
    ),
    (RTS, 6, 13, 15, "", "Unfinished(5)"),
    (
        RTS,
        6,
        15,
        15,
        "n I Q 0 0\n",
        "WordDiffers { line: 16, entry: 6 }",
    ),
    // Nothing is recorded, and another request.
    (RTS, 0, 0, 15, "arinc429-cert 1\nfirst 0\n", "(0, [])"),
    (
        0x4141_FF23,
        6,
        15,
        15,
        "",
        "WordDiffers { line: 4, entry: 0 }",
    ),
];

// What is wanted of the first of them of which something else is said.
fn first_that_differs(alloc: Global, profile: &Profile) -> Option<&'static str> {
    for (request, count, start, end, text, wanted) in CHANGED {
        let case = Case {
            request,
            count,
            start,
            end,
            text,
        };
        if !is_said(alloc, profile, case, wanted) {
            return Some(wanted);
        }
    }
    None
}

#[test]
fn changed_certificates(rt: HostRuntime) -> Result<(), Fail> {
    let profile = sample(&rt);
    none_differs(first_that_differs(rt.alloc(), &profile))
}
