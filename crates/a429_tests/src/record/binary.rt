//! Binary recordings, read and written: values from outside, cuts at each byte, and devices that fail.

ghost use Rattle.a429_record.specs.Recording.{IsRecordable};

use crate::agreement::none_differs;
use crate::record::{Answer, count, count_in, entry, failed, five_answers, stands_for};
use crate::sample::{ACK, CTS, EOT, Endless, Narrow, PART, RTS, SOT, Shaky};
use a429_record::{Entry, ReadFault, write_binary};
use a429_word::{Bus, Device, Tally};
use std::alloc::{AllocError, Global};
use std::io::{ErrorKind, Write};
use std::test::Fail;

// The transfer of a file of one byte: eight bytes, and thirteen for each of its six entries.
const PACKED: &[u8] = b"A429REC1\
\x00\x00\x00\x00\x00\x00\x00\x00\x41\x41\x41\x03\x23\
\x00\x00\x00\x00\x00\x00\x03\xE8\x42\xC2\x41\x03\xA3\
\x00\x00\x00\x00\x00\x00\x07\xD0\x41\x60\x01\x01\x23\
\x00\x00\x00\x00\x00\x00\x0B\xB8\x41\x12\x00\x41\x23\
\x00\x00\x00\x00\x00\x00\x0F\xA0\x41\x71\xA3\xF5\x23\
\x00\x00\x00\x00\x00\x00\x13\x88\x42\x45\x01\x01\xA3";

// The packed recording with other bytes from a place on.
fn with_bytes(alloc: Global, place: usize, bytes: &[u8]) -> Result<Vec<u8>, AllocError> {
    let mut changed = PACKED.to_vec(alloc)?;
    for (old, new) in changed.iter_mut().skip(place).zip(bytes) {
        *old = *new;
    }
    Ok(changed)
}

// How many entries it then has, or its fault.
fn count_with(alloc: Global, place: usize, bytes: &[u8]) -> Result<usize, ReadFault> {
    match with_bytes(alloc, place, bytes) {
        Ok(changed) => count_in(alloc, &changed),
        Err(_) => Err(ReadFault::OutOfMemory),
    }
}

// What a writer answers to a binary recording of these entries.
fn pack<W: Write>(out: &mut Tally<W>, entries: &[Entry]) -> Result<(), Device>
    requires { IsRecordable entries.now }
{
    write_binary(out, entries)
}

// Whether these bytes are written of entries.
fn is_packed(alloc: Global, entries: &[Entry], wanted: &[u8]) -> bool
    requires { IsRecordable entries.now }
{
    let mut bytes = Vec::new(alloc);
    let answer = pack(&mut Tally::new(&mut bytes, 0), entries);
    answer == Ok(()) && bytes.as_slice() == wanted
}

#[test]
fn a_file_of_one_byte(rt: HostRuntime) {
    let entries = [
        entry(0, Bus::A, RTS),
        entry(1000, Bus::B, CTS),
        entry(2000, Bus::A, SOT),
        entry(3000, Bus::A, PART),
        entry(4000, Bus::A, EOT),
        entry(5000, Bus::B, ACK),
    ];
    assert!(rt; PACKED.len() == 86);
    assert!(rt; is_packed(rt.alloc(), &entries, PACKED));
    assert!(rt; stands_for(rt.alloc(), PACKED, &entries));
    assert!(rt; is_packed(rt.alloc(), &[], b"A429REC1"));
}

// What is answered to so many bytes of the packed recording: the first eight are its header, and each entry has thirteen.
fn answer_to(len: usize) -> Result<usize, ReadFault> {
    if len < 8 {
        return Err(ReadFault::Header);
    }
    let whole = (len - 8) / 13;
    if (len - 8) % 13 == 0 {
        Ok(whole)
    } else {
        Err(ReadFault::Row(whole))
    }
}

// The first length that is answered in another way.
fn first_length_that_differs(alloc: Global) -> Option<usize> {
    for len in 0..=PACKED.len() {
        if count_in(alloc, &PACKED[..len]) != answer_to(len) {
            return Some(len);
        }
    }
    None
}

#[test]
fn cut_at_each_byte(rt: HostRuntime) -> Result<(), Fail> {
    none_differs(first_length_that_differs(rt.alloc()))
}

const CHANGED: [(usize, &[u8], ReadFault); 7] = [
    (16, b"\x43", ReadFault::Row(0)),
    (16, b"\x61", ReadFault::Row(0)),
    (81, b"\x00", ReadFault::Row(5)),
    (14, b"\x07\xD0", ReadFault::TimeBack(1)),
    (8, b"\x01", ReadFault::TimeBack(1)),
    (7, b"2", ReadFault::Header),
    (0, b"a", ReadFault::Header),
];

// The place of the first change with another fault, and the fault that it should have.
fn first_other_fault(alloc: Global) -> Option<(usize, ReadFault)> {
    for (place, bytes, fault) in CHANGED {
        if count_with(alloc, place, bytes) != Err(fault) {
            return Some((place, fault));
        }
    }
    None
}

#[test]
fn changed_bytes(rt: HostRuntime) -> Result<(), Fail> {
    none_differs(first_other_fault(rt.alloc()))
}

// What is answered where the reader fails at a call.
fn count_shaken(alloc: Global, fails_at: u32) -> Result<usize, ReadFault> {
    let mut rec = Tally::new(Shaky::new(PACKED, fails_at), 1000);
    count(alloc, &mut rec)
}

// The first call at which the reader fails unseen: the recording takes 87 calls.
fn first_call_unseen(alloc: Global) -> Option<u32> {
    for call in 1..100 {
        if count_shaken(alloc, call) != Err(ReadFault::Device) {
            return Some(call);
        }
    }
    None
}

#[test]
fn readers_that_fail_at_each_call(rt: HostRuntime) {
    assert_eq!(rt; first_call_unseen(rt.alloc()), Some(88));
    assert!(rt; count_shaken(rt.alloc(), 88) == Ok(6));
}

// What a reader answers that fails after these bytes.
fn fails_after(alloc: Global, bytes: &[u8]) -> Result<usize, ReadFault> {
    count(alloc, &mut Tally::new(bytes, bytes.len() as u64))
}

const BEFORE_FAILURE: [(&[u8], ReadFault); 5] = [
    (b"A429REC1\0\0\0\0\0\0\0\0CABCD", ReadFault::Row(0)),
    (b"A429REC1\0\0\0\0\0\0\0\0CABC", ReadFault::Device),
    (b"A429REC1", ReadFault::Device),
    (b"A429", ReadFault::Device),
    (b"A4\n", ReadFault::Header),
];

// The length of the first of them with another fault.
fn first_other_fault_before_failure(alloc: Global) -> Option<usize> {
    for (bytes, fault) in BEFORE_FAILURE {
        if fails_after(alloc, bytes) != Err(fault) {
            return Some(bytes.len());
        }
    }
    None
}

#[test]
fn a_fault_before_the_reader_fails(rt: HostRuntime) -> Result<(), Fail> {
    none_differs(first_other_fault_before_failure(rt.alloc()))
}

#[test]
fn a_million_and_one_pieces(rt: HostRuntime) {
    let pieces = Endless {
        next: b"A429REC1",
        again: b"\0\0\0\0\0\0\0\0A\x41\x41\x03\x23",
    };
    let mut rec = Tally::new(pieces, 67_108_864);
    assert!(rt; count(rt.alloc(), &mut rec) == Err(ReadFault::TooMany));
}

// The first two entries, and then the fault of a piece that is cut off.
fn two_and_a_fault() -> [Answer; 5] {
    [
        (Ok(Some(entry(0, Bus::A, RTS))), false),
        (Ok(Some(entry(1000, Bus::B, CTS))), false),
        (Err(ReadFault::Row(2)), false),
        failed(false),
        failed(false),
    ]
}

#[test]
fn entry_by_entry(rt: HostRuntime) {
    let answers = five_answers(rt.alloc(), Tally::new(&PACKED[..40], 1000));
    assert!(rt; answers == two_and_a_fault());
}

// What a writer of so many bytes answers to a binary recording of one entry.
fn pack_within(alloc: Global, room: usize) -> Result<(), Device> {
    pack(
        &mut Tally::new(Narrow::new(alloc, room, Some(ErrorKind::Other)), 0),
        &[entry(7, Bus::A, RTS)],
    )
}

// The first room in which that recording, of 21 bytes, is written without a failure.
fn first_room_that_is_enough(alloc: Global) -> Option<usize> {
    for room in 0..30 {
        if pack_within(alloc, room) != Err(Device) {
            return Some(room);
        }
    }
    None
}

#[test]
fn writers_that_fail(rt: HostRuntime) {
    assert_eq!(rt; first_room_that_is_enough(rt.alloc()), Some(21));
    assert!(rt; pack_within(rt.alloc(), 21) == Ok(()));
}
