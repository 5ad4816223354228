//! The callers that the pages of the crates show.

ghost use Rattle.std.specs.Prelude.{IfSome};
ghost use Rattle.a429_ldu.specs.Ldu.{IsLdu};

use crate::calls::{certificate_of, entries_of, sample};
use crate::recordings::seen;
use crate::sample::{ACK, CERTIFICATE, PART, PROFILE, RECORDING, RTS, SOT};
use a429_cert::{CertFault, CertLine, OutOfMemory, read_line, verify, write_line};
use a429_import::{Base, Bits};
use a429_ldu::{CutFault, Ldu, cut};
use a429_link::{ImpliedSink, Link, Seen, Step, StepFault};
use a429_profile::{Profile, ProfileFault, read_profile};
use a429_record::{Entry, ReadFault, read_entries};
use a429_sink::sink_allows;
use a429_word::{Bus, Device, Page, Sheet, Tally, Word, octal};
use std::alloc::{AllocError, Global};
use std::io::{Read, Write};

/// The source loads a link data unit, and its request is recorded and taken.
fn asks(alloc: Global, profile: &Profile, unit: Ldu, request: Seen) -> Result<(), StepFault>
    requires { IsLdu profile.now unit }
{
    let mut link = Link::start(alloc, profile, 1);
    link.apply(Step::Load(unit))?;
    link.apply(Step::Sent(request))?;
    link.apply(Step::SinkTakes)
}

// The link data unit of the byte 41, the last of its file.
fn unit_of_a_byte(alloc: Global, profile: &Profile) -> Option<Ldu>
    ensures { IfSome result (λ u. IsLdu profile.now u) }
{
    Ldu::new(alloc, profile, 0, 1, 0xA3F5, &[Word::from_u32(PART)]).ok()
}

// Whether it asks so for this byte.
fn asks_for_a_byte(alloc: Global, profile: &Profile, request: u32) -> bool {
    match unit_of_a_byte(alloc, profile) {
        Some(unit) => asks(alloc, profile, unit, seen(Bus::A, request)) == Ok(()),
        None => false,
    }
}

#[test]
fn a_request(rt: HostRuntime) {
    let profile = sample(&rt);
    assert!(rt; asks_for_a_byte(rt.alloc(), &profile, RTS));
    assert!(rt; !asks_for_a_byte(rt.alloc(), &profile, PART));
}

/// Whether a sink that keeps the rules may send this word first of all.
fn may_begin(alloc: Global, profile: &Profile, word: Word) -> bool {
    let bus = Bus::B;
    sink_allows(&ImpliedSink::new(alloc), profile, Seen { bus, word })
}

#[test]
fn a_sink_begins_with_no_answer(rt: HostRuntime) {
    let profile = sample(&rt);
    assert!(rt; may_begin(rt.alloc(), &profile, Word::from_u32(RTS)));
    assert!(rt; !may_begin(rt.alloc(), &profile, Word::from_u32(ACK)));
}

/// Appends the line of another first file, where the line gives the first file.
fn renumber(alloc: Global, line: &[u8], file: u8, out: &mut Vec<u8>) -> Result<bool, OutOfMemory> {
    match read_line(alloc, line)? {
        Some(CertLine::First(_)) => {
            write_line(&CertLine::First(file), out)?;
            Ok(true)
        }
        _ => Ok(false),
    }
}

#[test]
fn another_first_file(rt: HostRuntime) {
    let mut out = Vec::new(rt.alloc());
    let first = renumber(rt.alloc(), b"first 1", 2, &mut out);
    let other = renumber(rt.alloc(), b"l I Q 0 0", 2, &mut out);
    assert!(rt; (first, other) == (Ok(true), Ok(false)));
    assert!(rt; out.as_slice() == b"first 2".as_slice());
}

/// How many files have crossed in a recording that a certificate explains.
fn crossed(
    alloc: Global,
    profile: &Profile,
    entries: &[Entry],
    text: &[u8],
) -> Result<usize, CertFault> {
    let verified = verify(alloc, profile, entries, text)?;
    Ok(verified.files().len())
}

// How many files crossed in the sample recording by its certificate.
fn crossed_in_sample(alloc: Global, profile: &Profile) -> Option<usize> {
    let entries = entries_of(alloc, RECORDING)?;
    crossed(alloc, profile, &entries, CERTIFICATE.as_bytes()).ok()
}

#[test]
fn one_file_has_crossed(rt: HostRuntime) {
    let profile = sample(&rt);
    assert!(rt; crossed_in_sample(rt.alloc(), &profile) == Some(1));
}

#[test]
fn certificate_in_memory(rt: HostRuntime) {
    let profile = sample(&rt);
    let text = certificate_of(rt.alloc(), &profile, RECORDING).expect(&rt, "a certificate");
    assert!(rt; text.as_slice() == CERTIFICATE.as_bytes());
}

/// Writes a word and its label.
fn write_label<W: Write>(word: Word, out: &mut Tally<W>) -> Result<(), Device> {
    out.put(&word.hex())?;
    out.put(b" ")?;
    out.put(&octal(word.label()))?;
    out.put(b"\n")
}

#[test]
fn a_word_and_its_label(rt: HostRuntime) {
    let mut text = Vec::new(rt.alloc());
    let written = write_label(Word::from_u32(0xE138_80C1), &mut Tally::new(&mut text, 0));
    assert!(rt; written.is_ok());
    assert!(rt; text.as_slice() == b"E13880C1 203\n".as_slice());
}

/// The word whose bits 1 to 8 have this label, in three octal digits.
fn with_label(digits: &[u8]) -> Option<u32> {
    let label = Bits {
        low: 1,
        count: 8,
        reversed: true,
    };
    let number = Base::Octal.number(digits, label.count)?;
    Some(label.place(number))
}

#[test]
fn a_label_of_octal_digits(rt: HostRuntime) {
    assert!(rt; with_label(b"304") == Some(0x23));
}

/// Writes words, a line for each, by an empty page.
fn write_words<W: Write>(mut page: Page, words: &[Word], out: &mut Tally<W>) -> Result<(), Device> {
    let mut sheet = Sheet::new(out, &mut page);
    for word in words {
        sheet.put(&word.hex());
        sheet.put(b"\n");
    }
    sheet.finish()
}

// Whether two words are written so.
fn are_written(alloc: Global) -> Result<bool, AllocError> {
    let mut text = Vec::new(alloc);
    let words = [Word::from_u32(0xE138_80C1), Word::from_u32(1)];
    let written = write_words(Page::new(alloc)?, &words, &mut Tally::new(&mut text, 0));
    Ok(written.is_ok() && text.as_slice() == b"E13880C1\n00000001\n".as_slice())
}

#[test]
fn words_on_a_sheet(rt: HostRuntime) {
    assert!(rt; are_written(rt.alloc()) == Ok(true));
}

/// How many words a recording has.
fn count_words<R: Read>(alloc: Global, rec: &mut Tally<R>) -> Result<usize, ReadFault> {
    Ok(read_entries(alloc, rec)?.len())
}

#[test]
fn the_words_of_a_recording(rt: HostRuntime) {
    let mut rec = Tally::new(RECORDING.as_bytes(), 1_000);
    assert!(rt; count_words(rt.alloc(), &mut rec) == Ok(6));
}

/// Whether the profile's text says this unit of the words of this label and SDI.
fn has_unit(
    alloc: Global,
    text: &str,
    label: u8,
    sdi: u8,
    unit: &str,
) -> Result<bool, ProfileFault> {
    let profile = read_profile(alloc, text)?;
    match profile.entry(label, sdi) {
        Some(entry) => Ok(entry.unit.as_str() == unit),
        None => Ok(false),
    }
}

/// The start word of a file's first block.
fn first_word(
    alloc: Global,
    profile: &Profile,
    file: u8,
    bytes: &[u8],
) -> Result<Option<Word>, CutFault> {
    let units = cut(alloc, profile, bytes, 255)?;
    match units.first() {
        Some(unit) => Ok(Some(unit.word(profile, 0, file, profile.codes().first_ldu))),
        None => Ok(None),
    }
}

// The start word of file 1 with the byte 41 alone, under the sample profile.
fn first_of_sample(alloc: Global, profile: &Profile) -> Option<u32> {
    match first_word(alloc, profile, 1, b"A") {
        Ok(Some(word)) => Some(word.to_u32()),
        _ => None,
    }
}

#[test]
fn a_unit_and_a_start_word(rt: HostRuntime) {
    assert!(rt; has_unit(rt.alloc(), PROFILE, 0o203, 0, "ft") == Ok(true));
    let profile = sample(&rt);
    assert!(rt; first_of_sample(rt.alloc(), &profile) == Some(SOT));
}
