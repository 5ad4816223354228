//! The text that is written, and writers that fail.

ghost use Rattle.a429_record.specs.Recording.{IsRecordable};

use crate::agreement::none_differs;
use crate::record::{entry, stands_for};
use crate::sample::{CTS, EOT, Narrow, PART, RTS, SOT};
use a429_record::{Entry, WriteFault, read_entries, write_entries, write_lines};
use a429_word::{Bus, Failing, Tally};
use std::alloc::Global;
use std::io::{ErrorKind, Write};
use std::test::Fail;

// What a writer answers to a recording of these entries.
fn write<W: Write>(alloc: Global, out: &mut Tally<W>, entries: &[Entry]) -> Result<(), WriteFault>
    requires { IsRecordable entries.now }
{
    write_entries(alloc, out, entries)
}

// Whether this text is written of entries.
fn is_written(alloc: Global, entries: &[Entry], wanted: &[u8]) -> bool
    requires { IsRecordable entries.now }
{
    let mut text = Vec::new(alloc);
    let answer = write(alloc, &mut Tally::new(&mut text, 0), entries);
    answer == Ok(()) && text.as_slice() == wanted
}

// Whether a text is written of the entries that are read in it.
fn is_written_again(alloc: Global, text: &[u8]) -> bool {
    match read_entries(alloc, &mut Tally::new(text, 1000)) {
        Ok(entries) => is_written(alloc, &entries, text),
        Err(_) => false,
    }
}

#[test]
fn a_file_of_one_byte(rt: HostRuntime) {
    let entries = [
        entry(0, Bus::A, RTS),
        entry(1000, Bus::B, CTS),
        entry(2000, Bus::A, SOT),
        entry(3000, Bus::A, PART),
        entry(4000, Bus::A, EOT),
        entry(18_446_744_073_709_551_615, Bus::B, 0x0000_00aF),
    ];
    let wanted: &[u8] =
        b"time,bus,word\n0,A,41410323\n1000,B,C24103A3\n2000,A,60010123\n3000,A,12004123\n4000,A,71A3F523\n18446744073709551615,B,000000AF\n";
    assert!(rt; is_written(rt.alloc(), &entries, wanted));
    assert!(rt; stands_for(rt.alloc(), wanted, &entries));
    assert!(rt; is_written_again(rt.alloc(), wanted));
}

#[test]
fn no_entries(rt: HostRuntime) {
    assert!(rt; is_written(rt.alloc(), &[], b"time,bus,word\n"));
}

#[test]
fn lines_between_entries(rt: HostRuntime) {
    let mut text = Vec::new(rt.alloc());
    let before = [entry(0, Bus::A, RTS)];
    let after = [entry(2000, Bus::A, SOT), entry(3000, Bus::A, PART)];
    let mut out = Tally::new(&mut text, 0);
    let answer = write_lines(rt.alloc(), &mut out, &before, b"1000,B,C24103A3\n", &after);
    let wanted: &[u8] =
        b"time,bus,word\n0,A,41410323\n1000,B,C24103A3\n2000,A,60010123\n3000,A,12004123\n";
    assert!(rt; answer == Ok(()));
    assert!(rt; text.as_slice() == wanted);
}

// What a writer of so many bytes answers to a recording of one entry, whether it has failed then, and
// what it answers to a recording of none.
fn written_in(
    alloc: Global,
    room: usize,
) -> (Result<(), WriteFault>, bool, Result<(), WriteFault>) {
    let narrow = Narrow::new(alloc, room, Some(ErrorKind::Interrupted));
    let mut out = Tally::new(narrow, 0);
    let first = write(alloc, &mut out, &[entry(0, Bus::A, RTS)]);
    let failed = out.failed();
    (first, failed, write(alloc, &mut out, &[]))
}

// Whether a writer of so many bytes fails where the recording of one entry, which has 27, is longer.
fn fails_in_time(alloc: Global, room: usize) -> bool {
    let failure = Err(WriteFault::Device);
    let answers = written_in(alloc, room);
    if room < 27 {
        answers == (failure, true, failure)
    } else {
        answers.0 == Ok(())
    }
}

// The first room for which that is not so.
fn first_room_that_differs(alloc: Global) -> Option<usize> {
    for room in [0, 13, 14, 26, 27, 29] {
        if !fails_in_time(alloc, room) {
            return Some(room);
        }
    }
    None
}

#[test]
fn writers_that_fail(rt: HostRuntime) -> Result<(), Fail> {
    none_differs(first_room_that_differs(rt.alloc()))
}
