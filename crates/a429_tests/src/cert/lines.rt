//! Lines of certificates, and texts that are no line.

use crate::agreement::none_differs;
use crate::calls::debug;
use crate::sample::CERTIFICATE;
use a429_cert::{CertLine, LoadLine, OutOfMemory, Words, read_line, write_line};
use a429_word::Word;
use std::alloc::Global;
use std::test::Fail;

// The ends of the ranges.
const ENDS: &str = "\
first 0
first 255
l S254 B254 255 255
t I N 100 9
x I Q 0 0
L F F 0000 00000000 FFFFFFFF";

const NO_LINES: &str = "\
first 01
first 256
first 99999999999999999999
first +1
t I Q 256 0
k S255 Q 0 0
k S1 B0 0 0
k S1 B255 0 0
k S Q 0 0
k S01 Q 0 0
First 1
y I Q 0 0
a  C Q 1 0
a C Q 1
a C Q 1 0 0
a c Q 1 0
a C C 1 0
L 0 1 A3F5 1200412a
L 0 1 a3F5 12004123
L 0 1 A3F5 1200412
L 00 1 A3F5 12004123";

// Texts that are empty, or end in a byte that is no part of a line.
const BAD_ENDS: &str = "|\0|first 1\0|first 1 |first 1\n|L 0 1 A3F5 12004123 ";

// None for a text that is read as no line; else whether the line is written as this text again.
fn is_written_again(alloc: Global, text: &str) -> Result<Option<bool>, OutOfMemory> {
    let Some(line) = read_line(alloc, text.as_bytes())? else {
        return Ok(None);
    };
    let mut written = Vec::new(alloc);
    write_line(&line, &mut written)?;
    Ok(Some(written.as_slice() == text.as_bytes()))
}

// The same of the text of a link data unit of so many words.
fn is_load_written_again(alloc: Global, count: usize) -> Result<Option<bool>, OutOfMemory> {
    let mut text = String::from_str(alloc, "L 0 1 A3F5")?;
    for _ in 0..count {
        text.push_str(" 12004123")?;
    }
    is_written_again(alloc, text.as_str())
}

// Whether a text is read as a line, and written again.
fn is_line(alloc: Global, text: &str) -> bool {
    matches!(is_written_again(alloc, text), Ok(Some(true)))
}

// Whether a text is read as no line.
fn is_no_line(alloc: Global, text: &str) -> bool {
    matches!(is_written_again(alloc, text), Ok(None))
}

// How many lines a text has, where each of them is read as a line, and written again.
fn count_lines(alloc: Global, text: &str) -> Option<usize> {
    let mut count = 0usize;
    for line in text.lines() {
        if !is_line(alloc, line) {
            return None;
        }
        count = count.saturating_add(1);
    }
    Some(count)
}

#[test]
fn certificate_of_one_byte(rt: HostRuntime) {
    let lines = CERTIFICATE.strip_prefix("arinc429-cert 1\n");
    assert!(rt; matches!(lines, Some(lines) if count_lines(rt.alloc(), lines) == Some(14)));
}

#[test]
fn ends_of_the_ranges(rt: HostRuntime) {
    assert!(rt; count_lines(rt.alloc(), ENDS) == Some(6));
}

// The first count of words of which a load line is read otherwise: 1 to 253 make a line.
fn first_count_read_otherwise(alloc: Global) -> Option<usize> {
    for (count, wanted) in [(0, None), (253, Some(true)), (254, None)] {
        if is_load_written_again(alloc, count) != Ok(wanted) {
            return Some(count);
        }
    }
    None
}

#[test]
fn loads_of_many_words(rt: HostRuntime) -> Result<(), Fail> {
    none_differs(first_count_read_otherwise(rt.alloc()))
}

// How many texts these are, with this between them, where none of them is read as a line.
fn count_no_lines(alloc: Global, texts: &str, between: &str) -> Option<usize> {
    let mut count = 0usize;
    for text in texts.split(between) {
        if !is_no_line(alloc, text) {
            return None;
        }
        count = count.saturating_add(1);
    }
    Some(count)
}

#[test]
fn texts_that_are_no_line(rt: HostRuntime) {
    assert!(rt; count_no_lines(rt.alloc(), NO_LINES, "\n") == Some(21));
}

#[test]
fn bytes_that_end_no_line(rt: HostRuntime) {
    assert!(rt; count_no_lines(rt.alloc(), BAD_ENDS, "|") == Some(6));
}

// The line of a text.
fn line_of(alloc: Global, text: &str) -> Option<CertLine> {
    read_line(alloc, text.as_bytes()).ok()?
}

// Whether a text is read as this line.
fn reads(alloc: Global, text: &str, wanted: &str) -> Result<bool, Fail> {
    let line = line_of(alloc, text).ok_or("no line")?;
    Ok(debug(alloc, &line)?.as_str() == wanted)
}

#[test]
fn values_of_lines(rt: HostRuntime) -> Result<(), Fail> {
    assert!(rt; reads(rt.alloc(), "first 12", "First(12)")?);
    let step = "Moved(MovedLine { act: SinkTakes, states: \
        States { source: Sending(1), sink: OwesClear, to_sink: 2, to_source: 3 } })";
    assert!(rt; reads(rt.alloc(), "k S1 c 2 3", step)?);
    Ok(())
}

// Whether these are the numbers of a load of one word, this one, also once its words are given away.
fn is_load(line: CertLine, numbers: (u8, u8, u16), number: u32) -> bool {
    let CertLine::Load(
        LoadLine {
            gfi,
            flags,
            check,
            words,
        },
    ) = line
    else {
        return false;
    };
    let word = [Word::from_u32(number)];
    let is_same = (gfi, flags, check) == numbers && words.as_slice() == word.as_slice();
    let given = Words::new(words.into_vec());
    is_same && given.as_slice().len() == 1
}

#[test]
fn words_of_a_load(rt: HostRuntime) -> Result<(), Fail> {
    let line = line_of(rt.alloc(), "L 2 1 A3F5 12004123").ok_or("a line")?;
    assert!(rt; is_load(line, (2, 1, 0xA3F5), 0x1200_4123));
    Ok(())
}
