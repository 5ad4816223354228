//! Recordings read entry by entry: after the end there is none, after a fault comes `Failed`.

use crate::agreement::none_differs;
use crate::record::{Answer, entry, failed, five_answers};
use a429_record::{EntryReader, ReadFault};
use a429_word::{Bus, Failing, Tally};
use std::alloc::Global;
use std::io;
use std::io::Read;
use std::test::Fail;

const TWO_ENTRIES: &[u8] = b"time,bus,word\n0,A,41410323\n1000,B,C24103A3\n";

// Gives at most so many of its bytes at a time.
#[derive(Drop)]
struct Pieces<'a> {
    bytes: &'a [u8],
    most: usize,
}

impl Read for Pieces<'_> {
    fn read(&mut self, buf: &mut [u8]) -> io::Result<usize> {
        let len = self.most.min(buf.len());
        self.bytes.read(&mut buf[..len])
    }
}

// The two entries.
fn both() -> [Answer; 2] {
    [
        (Ok(Some(entry(0, Bus::A, 0x4141_0323))), false),
        (Ok(Some(entry(1000, Bus::B, 0xC241_03A3))), false),
    ]
}

// The two entries, and then no more.
fn all() -> [Answer; 5] {
    let [first, second] = both();
    [
        first,
        second,
        (Ok(None), false),
        (Ok(None), false),
        (Ok(None), false),
    ]
}

// Whether the two entries are read from pieces of this size.
fn are_read_in_pieces(alloc: Global, most: usize) -> bool {
    let pieces = Pieces {
        bytes: TWO_ENTRIES,
        most,
    };
    five_answers(alloc, Tally::new(pieces, 1000)) == all()
}

// The first size for which that is not so.
fn first_size_that_differs(alloc: Global) -> Option<usize> {
    for most in 1..44 {
        if !are_read_in_pieces(alloc, most) {
            return Some(most);
        }
    }
    None
}

#[test]
fn pieces_of_every_size(rt: HostRuntime) -> Result<(), Fail> {
    none_differs(first_size_that_differs(rt.alloc()))
}

// What four calls of a reader of at most so many entries answer.
fn answers_within(alloc: Global, text: &[u8], most: usize) -> [Answer; 4] {
    let mut reader = EntryReader::of_most(alloc, Tally::new(text, 1000), most);
    let mut answers = [(Ok(None), false); 4];
    for answer in &mut answers {
        let next = reader.next();
        *answer = (next, reader.failed());
    }
    answers
}

// One entry too many.
fn too_many() -> Answer {
    (Err(ReadFault::TooMany), false)
}

#[test]
fn limits_of_its_own(rt: HostRuntime) {
    let none = answers_within(rt.alloc(), TWO_ENTRIES, 0);
    assert!(rt; none == [too_many(), failed(false), failed(false), failed(false)]);
    let [first, second] = both();
    let one = answers_within(rt.alloc(), TWO_ENTRIES, 1);
    assert!(rt; one[0] == first && one[1] == too_many() && one[2] == failed(false));
    for most in [2, usize::MAX] {
        let two = answers_within(rt.alloc(), TWO_ENTRIES, most);
        assert!(rt; two[0] == first && two[1] == second && two[2] == (Ok(None), false));
    }
}

const WITH_A_FAULT: [(&str, ReadFault); 3] = [
    ("0,A,41410323\n", ReadFault::Header),
    (
        "time,bus,word\n0,A,4141032\n1000,B,C24103A3\n",
        ReadFault::Row(0),
    ),
    (
        "time,bus,word\n0,C,41410323\n1000,B,C24103A3\n",
        ReadFault::Row(0),
    ),
];

// A fault of the text, and then `Failed`.
fn faulty(fault: ReadFault) -> [Answer; 5] {
    [
        (Err(fault), false),
        failed(false),
        failed(false),
        failed(false),
        failed(false),
    ]
}

// Whether a text is answered with this fault, and then with `Failed`.
fn is_faulty(alloc: Global, text: &[u8], fault: ReadFault) -> bool {
    five_answers(alloc, Tally::new(text, 1000)) == faulty(fault)
}

// The first of them for which that is not so.
fn first_without_its_fault(alloc: Global) -> Option<&'static str> {
    for (text, fault) in WITH_A_FAULT {
        if !is_faulty(alloc, text.as_bytes(), fault) {
            return Some(text);
        }
    }
    None
}

#[test]
fn failed_after_a_fault(rt: HostRuntime) -> Result<(), Fail> {
    none_differs(first_without_its_fault(rt.alloc()))
}

// The two entries, a device that fails, and then `Failed`.
fn cut_off() -> [Answer; 5] {
    let [first, second] = both();
    let device = (Err(ReadFault::Device), true);
    [first, second, device, failed(true), failed(true)]
}

#[test]
fn failed_after_a_device(rt: HostRuntime) {
    assert!(rt; five_answers(rt.alloc(), Tally::new(TWO_ENTRIES, 43)) == cut_off());
}
