//! Files that are put on a shelf.

ghost use Rattle.std.specs.Prelude.{Some};

use a429_cert::{MemoryShelf, NoShelf, PutFile, Shelf, ShelfFault};
use a429_word::Failing;
use std::alloc::Global;

/// A shelf over one in memory that fails at one put, counted from 1, and from then on.
#[derive(Drop)]
pub(crate) struct Frail {
    shelf: MemoryShelf,
    puts: u32,
    fails_at: u32,
    is_failed: bool,
}

impl Frail {
    /// One without files; it does not fail at a put 0.
    pub(crate) fn new(alloc: Global, fails_at: u32) -> Frail {
        Frail {
            shelf: MemoryShelf::new(alloc),
            puts: 0,
            fails_at,
            is_failed: false,
        }
    }

    /// The files that were put, lent.
    pub(crate) fn files(&self) -> &[PutFile] {
        self.shelf.files()
    }
}

impl Failing for Frail {
    ghost failed = { λ s. s.is_failed };

    fn failed(&self) -> bool {
        self.is_failed
    }
}

impl Shelf for Frail {
    ghost files = { λ s. Some s.shelf };

    fn put(&mut self, index: u32, number: u8, bytes: &[u8]) -> Result<(), ShelfFault> {
        self.puts = self.puts.saturating_add(1);
        self.is_failed |= self.puts == self.fails_at;
        if self.is_failed {
            return Err(ShelfFault::Device);
        }
        match self.shelf.put(index, number, bytes) {
            Ok(()) => Ok(()),
            Err(_) => Err(ShelfFault::OutOfMemory),
        }
    }
}

/// What is noted of a file's place and number, where these are its bytes.
pub(super) fn noted(file: &PutFile, bytes: &[u8]) -> Option<(u32, u8)> {
    if file.file.bytes.as_slice() != bytes {
        return None;
    }
    Some((file.index, file.file.number))
}

// Whether file 255 of the byte 41 and an empty file 0 are put on a shelf.
fn takes_two(shelf: &mut MemoryShelf) -> bool {
    shelf.put(1, 255, b"A") == Ok(()) && shelf.put(2, 0, b"") == Ok(()) && !shelf.failed()
}

// Whether these are they.
fn are_the_two(files: &[PutFile]) -> bool {
    match files {
        [first, second] => noted(first, b"A") == Some((1, 255))
            && noted(second, b"") == Some((2, 0)),
        _ => false,
    }
}

#[test]
fn files_are_kept_in_order(rt: HostRuntime) {
    let mut shelf = MemoryShelf::new(rt.alloc());
    assert!(rt; takes_two(&mut shelf));
    assert!(rt; are_the_two(shelf.files()));
}

#[test]
fn files_are_dropped(rt: HostRuntime) {
    let mut shelf = NoShelf;
    assert!(rt; shelf.put(1, 255, b"A") == Ok(()));
    assert!(rt; !shelf.failed());
}
