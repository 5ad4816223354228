//! Pieces on a sheet come out in their order, also where the page has no room for them, and a failure is remembered.

use a429_word::{Page, Sheet, Tally};
use std::alloc::{AllocError, Global};
use std::io::Write;

// Puts a text, a number, a piece as long as the page and another text on a sheet, and answers whether all was written.
fn put_pieces(alloc: Global, out: &mut Tally<&mut Vec<u8>>) -> Result<bool, AllocError> {
    let mut page = Page::new(alloc)?;
    let mut sheet = Sheet::new(out, &mut page);
    sheet.put(b"time ");
    sheet.put_number(18_446_744_073_709_551_615);
    sheet.put(&[b'x'; 65_536]);
    sheet.put(b"behind");
    Ok(sheet.finish().is_ok())
}

// Whether they are what was written.
fn are_pieces(written: &[u8]) -> bool {
    written.len() == 5 + 20 + 65_536 + 6
        && written.starts_with(b"time 18446744073709551615xxx")
        && written.ends_with(b"xxxbehind")
}

#[test]
fn pieces_come_out_in_their_order(rt: HostRuntime) {
    let mut written = Vec::new(rt.alloc());
    let is_put = put_pieces(rt.alloc(), &mut Tally::new(&mut written, 0));
    assert!(rt; is_put == Ok(true) && are_pieces(written.as_slice()));
}

// Puts the first byte of 32 so many times, twice as many as the page has room for, and answers whether all was written.
fn put_first_bytes(alloc: Global, out: &mut Tally<&mut Vec<u8>>) -> Result<bool, AllocError> {
    let mut page = Page::new(alloc)?;
    let mut sheet = Sheet::new(out, &mut page);
    for _ in 0..131_072 {
        sheet.put_first(b"0123456789abcdefghijklmnopqrstuv", 1);
    }
    sheet.put_first(b"0123456789abcdefghijklmnopqrstuv", 32);
    sheet.put_first(b"0123456789abcdefghijklmnopqrstuv", 0);
    Ok(sheet.finish().is_ok())
}

// Whether they are what was written.
fn are_first_bytes(written: &[u8]) -> bool {
    written.len() == 131_072 + 32
        && written.starts_with(b"00000000")
        && written.ends_with(b"000000000123456789abcdefghijklmnopqrstuv")
}

#[test]
fn the_first_of_32_bytes_come_out(rt: HostRuntime) {
    let mut written = Vec::new(rt.alloc());
    let is_put = put_first_bytes(rt.alloc(), &mut Tally::new(&mut written, 0));
    assert!(rt; is_put == Ok(true) && are_first_bytes(written.as_slice()));
}

// What a sheet of three bytes answers over room for two: whether it has failed as they are put, whether it is written
// at two attempts, and whether it has failed then.
fn answers_over_two_bytes(alloc: Global) -> Result<[bool; 4], AllocError> {
    let mut room = [0; 2];
    let mut out = Tally::new(room.as_mut_slice(), 0);
    let mut page = Page::new(alloc)?;
    let mut sheet = Sheet::new(&mut out, &mut page);
    sheet.put(b"abc");
    let has_failed = sheet.failed();
    let is_written = sheet.finish().is_ok();
    sheet.put(b"d");
    let is_written_again = sheet.finish().is_ok();
    Ok([has_failed, is_written, is_written_again, sheet.failed()])
}

#[test]
fn a_failure_is_remembered(rt: HostRuntime) {
    assert!(rt; answers_over_two_bytes(rt.alloc()) == Ok([false, false, false, true]));
}
