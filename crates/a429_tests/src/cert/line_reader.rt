//! The lines of a certificate that is read as a stream.

use a429_cert::{LineReader, TextLine};
use a429_word::{Device, Failing, Tally};

// The line that was handed out, if it ends.
fn ended(lines: &LineReader) -> Option<&[u8]> {
    match lines.line() {
        TextLine::Ended(text) => Some(text),
        TextLine::Unended => None,
    }
}

// Passes over so many lines of a text. Whether this is the next one, none where it does not end.
fn is_line_after(lines: usize, text: &[u8], wanted: Option<&[u8]>) -> bool {
    let mut cert = Tally::new(text, 10);
    let mut reader = LineReader::new();
    for _ in 0..lines {
        if reader.next_line(&mut cert) != Ok(true) {
            return false;
        }
    }
    reader.next_line(&mut cert) == Ok(true) && ended(&reader) == wanted
}

#[test]
fn lines_one_after_the_other(rt: HostRuntime) {
    let text = b"ab\n\nc".as_slice();
    assert!(rt; is_line_after(0, text, Some(b"ab")));
    assert!(rt; is_line_after(1, text, Some(b"")));
    assert!(rt; is_line_after(2, text, None));
}

// What two calls answer, one after the other, and whether the reader of a text of at most so many bytes has failed then.
fn two_answers(text: &[u8], cap: u64) -> ([Result<bool, Device>; 2], bool) {
    let mut cert = Tally::new(text, cap);
    let mut lines = LineReader::new();
    let first = lines.next_line(&mut cert);
    let second = lines.next_line(&mut cert);
    ([first, second], cert.failed())
}

#[test]
fn text_that_ends(rt: HostRuntime) {
    assert!(rt; two_answers(b"a\n", 10).0 == [Ok(true), Ok(false)]);
}

#[test]
fn reader_that_fails(rt: HostRuntime) {
    assert!(rt; two_answers(b"a\nb\n", 3) == ([Ok(true), Err(Device)], true));
}

// The length of a line of so many bytes, where it is handed out whole.
fn whole_len(count: usize) -> Option<usize> {
    let mut bytes = [b'x'; 3000];
    *bytes.get_mut(count)? = b'\n';
    let mut cert = Tally::new(bytes.as_slice(), 4000);
    let mut lines = LineReader::new();
    if lines.next_line(&mut cert) != Ok(true) {
        return None;
    }
    Some(ended(&lines)?.len())
}

#[test]
fn longest_line(rt: HostRuntime) {
    assert!(rt; whole_len(2287) == Some(2287));
    assert!(rt; whole_len(2288) == None);
}
