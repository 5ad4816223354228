//! A certificate of two files, held against their recording, both read as streams, also over devices that fail.

use crate::agreement::none_differs;
use crate::calls::{certificate_of, sample};
use crate::cert::shelf::{Frail, noted};
use crate::recordings::recorded;
use crate::sample::{Shaky, with};
use a429_cert::{Shelf, StreamFault, verify_stream};
use a429_profile::Profile;
use a429_record::{EntryReader, ReadFault};
use a429_word::Tally;
use std::alloc::Global;
use std::io::Read;
use std::test::Fail;

// Files 255 and 0, each of the byte 41.
const WORDS: &str = "RTS CTS E0FF0123 PART EOT C5FF01A3 RTS CTS E0000123 PART EOT C50001A3";

// How many bytes of a text are read at most.
const MOST: u64 = 1_000;

// The answer of a stream.
type Answer = Result<Vec<(u8, u32)>, StreamFault>;

// What a stream answers, and whether the reader of its recording has a fault then, so that it answers nothing else,
// twice.
fn streamed<R: Read + Drop, C: Read + Drop, S: Shelf>(
    alloc: Global,
    profile: &Profile,
    rec: R,
    cert: C,
    shelf: &mut S,
) -> (Answer, bool) {
    let mut rec = EntryReader::new(alloc, Tally::new(rec, MOST));
    let mut cert = Tally::new(cert, MOST);
    let answer = verify_stream(alloc, profile, &mut rec, &mut cert, shelf);
    let failed = rec.next() == Err(ReadFault::Failed) && rec.next() == Err(ReadFault::Failed);
    (answer, failed)
}

// What is given to a stream: the sample profile, the recording of two files, the same with its last word cut off, and the
// certificate of the whole.
#[derive(Clone, Copy)]
struct Given<'a> {
    profile: &'a Profile,
    recording: &'a str,
    cut: &'a str,
    certificate: &'a [u8],
}

// At which call the readers of the recording and of the certificate, and the shelf fail; 0 for none.
type Calls = (u32, u32, u32);

// What a stream over a recording answers, with the certificate of the whole, whether the reader of the recording has a
// fault then, and the shelf.
fn stream_over(
    alloc: Global,
    given: Given<'_>,
    recording: &str,
    fails_at: Calls,
) -> (Answer, bool, Frail) {
    let rec = Shaky::new(recording.as_bytes(), fails_at.0);
    let cert = Shaky::new(given.certificate, fails_at.1);
    let mut shelf = Frail::new(alloc, fails_at.2);
    let (answer, failed) = streamed(alloc, given.profile, rec, cert, &mut shelf);
    (answer, failed, shelf)
}

// File 255, and no other, was put.
fn has_first_alone(shelf: &Frail) -> bool {
    match shelf.files() {
        [file] => noted(file, b"A") == Some((1, 255)),
        _ => false,
    }
}

// Both files were put.
fn has_both(shelf: &Frail) -> bool {
    match shelf.files() {
        [first, second] => {
            noted(first, b"A") == Some((1, 255)) && noted(second, b"A") == Some((2, 0))
        }
        _ => false,
    }
}

// The answer lists both files.
fn is_yes(answer: &Answer) -> bool {
    matches!(answer, Ok(sizes) if sizes.as_slice() == [(255, 1), (0, 1)].as_slice())
}

// Whether a stream over all puts both files and lists them.
fn puts_both(alloc: Global, given: Given<'_>) -> bool {
    let (answer, failed, shelf) = stream_over(alloc, given, given.recording, (0, 0, 0));
    is_yes(&answer) && !failed && has_both(&shelf)
}

// Whether the file before a fault stays where the last word is cut off.
fn puts_first_alone(alloc: Global, given: Given<'_>) -> bool {
    let (answer, failed, shelf) = stream_over(alloc, given, given.cut, (0, 0, 0));
    let is_fault = matches!(answer, Err(StreamFault::Read(ReadFault::Row(11))));
    is_fault && failed && has_first_alone(&shelf)
}

// The shelf that a stream leaves whose shelf fails at this put, where that is reported as a device that fails.
fn left_at_put(alloc: Global, given: Given<'_>, put: u32) -> Option<Frail> {
    let (answer, _, shelf) = stream_over(alloc, given, given.recording, (0, 0, put));
    match answer {
        Err(StreamFault::Device) => Some(shelf),
        _ => None,
    }
}

// Whether a shelf that fails at the first put has no file then.
fn leaves_none(alloc: Global, given: Given<'_>) -> bool {
    matches!(left_at_put(alloc, given, 1), Some(shelf) if shelf.files().is_empty())
}

// Whether one that fails at the second has file 255 alone.
fn leaves_first(alloc: Global, given: Given<'_>) -> bool {
    matches!(left_at_put(alloc, given, 2), Some(shelf) if has_first_alone(&shelf))
}

// What a stream answers whose reader of the recording, or else of the certificate, fails at a call.
fn answer_at_call(alloc: Global, given: Given<'_>, is_recording: bool, call: u32) -> Answer {
    let fails_at = if is_recording {
        (call, 0, 0)
    } else {
        (0, call, 0)
    };
    let (answer, _, _) = stream_over(alloc, given, given.recording, fails_at);
    answer
}

// How many runs end in a failure of the recording's reader, or else of the certificate's, one call later each, until
// one does not fail; 0 where one of them is reported as another fault.
fn failing_runs(alloc: Global, given: Given<'_>, is_recording: bool) -> u32 {
    for call in 1..1_000 {
        match answer_at_call(alloc, given, is_recording, call) {
            Ok(_) => return call - 1,
            Err(StreamFault::Read(ReadFault::Device)) if is_recording => {}
            Err(StreamFault::Device) if !is_recording => {}
            Err(_) => return 0,
        }
    }
    0
}

// Whether runs fail so often as a text has bytes, and once more: a reader is called once for each byte and for the end.
fn is_each_call(runs: u32, text: &[u8]) -> bool {
    runs as usize == text.len() + 1
}

// What first does not hold.
fn first_that_fails(alloc: Global, given: Given<'_>) -> Option<&'static str> {
    if !puts_both(alloc, given) {
        return Some("two files are put in order");
    }
    if !puts_first_alone(alloc, given) {
        return Some("a file before a fault stays");
    }
    if !leaves_none(alloc, given) {
        return Some("a shelf that fails at the first put");
    }
    if !leaves_first(alloc, given) {
        return Some("a shelf that fails at the second put");
    }
    if !is_each_call(failing_runs(alloc, given, true), given.recording.as_bytes()) {
        return Some("the recording's reader fails at each call");
    }
    if !is_each_call(failing_runs(alloc, given, false), given.certificate) {
        return Some("the certificate's reader fails at each call");
    }
    None
}

// The same of a recording, which the checker explains.
fn first_that_fails_over(
    alloc: Global,
    profile: &Profile,
    recording: &str,
    cut: &str,
) -> Option<&'static str> {
    match certificate_of(alloc, profile, recording) {
        Some(text) => first_that_fails(
            alloc,
            Given {
                profile,
                recording,
                cut,
                certificate: text.as_slice(),
            },
        ),
        None => Some("no certificate"),
    }
}

#[test]
fn two_files_as_streams(rt: HostRuntime) -> Result<(), Fail> {
    let recording = recorded(rt.alloc(), WORDS)?;
    let cut = with(rt.alloc(), recording.as_str(), "C50001A3 -> C5000")?;
    let profile = sample(&rt);
    none_differs(first_that_fails_over(rt.alloc(), &profile, recording.as_str(), cut.as_str()))
}
