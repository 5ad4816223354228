//! What no clause says of a tally: when the one underneath answers an error.

use crate::sample::{Narrow, Shaky};
use a429_word::{Failing, Tally};
use std::io::{ErrorKind, Read, Write};

// Whether a tally over a shaky reader has failed, and whether it still reads: by `pull`, by `read`
// and by `read_exact`.
fn still_reads(tally: &mut Tally<&mut Shaky<'_>>) -> (bool, [bool; 3]) {
    let failed = tally.failed();
    let pulls = tally.pull(&mut [0]).is_ok();
    let reads = tally.read(&mut []).is_ok();
    (failed, [pulls, reads, tally.read_exact(&mut []).is_ok()])
}

// The kind of error that reading to the end meets.
fn fault(tally: &mut Tally<&mut Shaky<'_>>, all: &mut Vec<u8>) -> Option<ErrorKind> {
    match tally.read_to_end(all) {
        Ok(_) => None,
        Err(error) => Some(error.kind()),
    }
}

// What a tally over a reader that is interrupted answers: whether a fault of another kind, and then whether it still reads.
fn answers_to_interruption(shaky: &mut Shaky<'_>, all: &mut Vec<u8>) -> (bool, bool, [bool; 3]) {
    let mut tally = Tally::new(shaky, 100);
    let kind = fault(&mut tally, all);
    let (failed, reads) = still_reads(&mut tally);
    (
        kind.is_some() && kind != Some(ErrorKind::Interrupted),
        failed,
        reads,
    )
}

#[test]
fn interrupted_in_mid_stream_is_a_failure(rt: HostRuntime) {
    let mut shaky = Shaky::new(b"abcd", 3);
    let mut all = Vec::new(rt.alloc());
    let answers = answers_to_interruption(&mut shaky, &mut all);
    // A failed tally leaves its reader alone.
    assert!(rt; answers == (true, true, [false; 3]) && shaky.calls == 3);
    assert!(rt; all.as_slice() == b"ab".as_slice());
}

// What three reads of up to four bytes answer, `None` for a failure, and after each whether the
// tally has failed.
fn pulls(text: &[u8], cap: u64) -> [(Option<usize>, bool); 3] {
    let mut tally = Tally::new(text, cap);
    let mut four = [0; 4];
    let mut answers = [(None, false); 3];
    for answer in &mut answers {
        let pulled = tally.pull(&mut four).ok();
        *answer = (pulled, tally.failed());
    }
    answers
}

#[test]
fn a_read_past_the_cap_is_a_failure(rt: HostRuntime) {
    let failure = (None, true);
    let past = [(Some(3), false), failure, failure];
    assert!(rt; pulls(b"abcd", 3) == past);
    // The end of exactly `cap` bytes is seen by a read past them alone, and that read is a failure.
    let exact = [(Some(4), false), failure, failure];
    assert!(rt; pulls(b"abcd", 4) == exact);
    let below = [(Some(4), false), (Some(0), false), (Some(0), false)];
    assert!(rt; pulls(b"abcd", 5) == below);
}

// Reads four bytes and then four more: whether each is there, what the first are, and whether the
// tally has failed.
fn exact_reads(text: &[u8]) -> (bool, [u8; 4], bool, bool) {
    let mut tally = Tally::new(text, 100);
    let mut four = [0; 4];
    let first = tally.read_exact(&mut four).is_ok();
    let bytes = four;
    let second = tally.read_exact(&mut four).is_ok();
    (first, bytes, second, tally.failed())
}

#[test]
fn an_end_that_comes_too_early_is_no_failure(rt: HostRuntime) {
    assert!(rt; exact_reads(b"abcdef") == (true, *b"abcd", false, false));
}

// Whether a put and a write of these bytes work, and whether the tally has failed then.
fn puts_and_writes(tally: &mut Tally<&mut Narrow>, bytes: &[u8]) -> (bool, bool, bool) {
    let puts = tally.put(bytes).is_ok();
    let writes = tally.write(bytes).is_ok();
    (puts, writes, tally.failed())
}

// What a tally answers over a writer that takes nothing: to no bytes, to one and to none again; and to a write of none.
fn answers_over_nothing(inner: &mut Narrow) -> ([(bool, bool, bool); 3], bool) {
    let mut tally = Tally::new(inner, 0);
    let first = puts_and_writes(&mut tally, b"");
    let one = puts_and_writes(&mut tally, b"a");
    let last = puts_and_writes(&mut tally, b"");
    ([first, one, last], tally.write_all(b"").is_ok())
}

// Nothing is asked of the writer for no bytes, and a write of none may take none.
#[test]
fn a_writer_that_takes_nothing_is_a_failure(rt: HostRuntime) {
    let mut inner = Narrow::new(rt.alloc(), 0, None);
    let fails = (false, false, true);
    assert!(rt; answers_over_nothing(&mut inner) == ([(true, true, false), fails, fails], false));
}

// The kind of error that a write of one byte meets.
fn write_fault(tally: &mut Tally<&mut Narrow>) -> Option<ErrorKind> {
    match tally.write(b"f") {
        Ok(_) => None,
        Err(error) => Some(error.kind()),
    }
}

// What a tally over a writer that fails answers: whether a put of five bytes works, whether it has failed then, what a
// write meets, and whether a flush works. Once failed, each call fails.
fn answers_to_failure(inner: &mut Narrow) -> (bool, bool, Option<ErrorKind>, bool) {
    let mut tally = Tally::new(inner, 0);
    let puts = tally.put(b"abcde").is_ok();
    let failed = tally.failed();
    let fault = write_fault(&mut tally);
    (puts, failed, fault, tally.flush().is_ok())
}

#[test]
fn a_writer_that_fails_leaves_a_prefix(rt: HostRuntime) {
    let mut inner = Narrow::new(rt.alloc(), 3, Some(ErrorKind::Interrupted));
    let answers = answers_to_failure(&mut inner);
    assert!(rt; answers == (false, true, Some(ErrorKind::Other), false));
    assert!(rt; inner.taken.as_slice() == b"abc".as_slice());
}

// Whether a put, a write and a flush work over a writer, and whether the tally has failed then.
fn passes_on(inner: &mut Narrow) -> [bool; 4] {
    let mut tally = Tally::new(inner, 0);
    let puts = tally.put(b"abc").is_ok();
    let writes = tally.write_all(b"de").is_ok();
    let flushes = tally.flush().is_ok();
    [puts, writes, flushes, tally.failed()]
}

#[test]
fn writes_and_flushes_pass_on(rt: HostRuntime) {
    let mut inner = Narrow::new(rt.alloc(), 10, None);
    assert!(rt; passes_on(&mut inner) == [true, true, true, false]);
    inner.flushes = false;
    assert!(rt; passes_on(&mut inner) == [true, true, false, true]);
    assert!(rt; inner.taken.as_slice() == b"abcdeabcde".as_slice());
}
