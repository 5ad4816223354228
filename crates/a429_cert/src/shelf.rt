//! Where the files of a certificate are put, one after the other.

ghost use Rattle.std.specs.Prelude.{◌≡◌, [], List, Option, Some, None, IsErrOf, IsOk, OnOk, OnErr, true, false};
ghost use Rattle.a429_cert.specs.Shelf.{Gains, IsUnchanged};
ghost use Rattle.a429_cert.specs.declared.shelf.PutFile.{PutFile};

use a429_link::{Bytes, FileBytes};
use a429_word::{Failing, Trouble};
use std::alloc::Global;
use std::marker::Model;

/// Why a shelf has not taken a file.
pub type ShelfFault = Trouble;

/// A file that was put.
#[derive(Debug, Drop)]
pub struct PutFile {
    /// Its place among the files of its certificate, from 1.
    pub index: u32,
    pub file: FileBytes,
}

/// What takes the files of a certificate. Contracts see it as the list of those that were put, where it
/// makes them known.
pub trait Shelf: Failing {
    ghost files: { Self → Option (List PutFile) };

    /// Puts a file: its place among the files of its certificate, from 1, its number, and its bytes. A
    /// file that is refused is not there.
    fn put(&mut self, index: u32, number: u8, bytes: &[u8]) -> Result<(), Trouble>
        ensures ok { OnOk result (Gains (files self.old) (files self.new) index number bytes.now) }
        ensures err { OnErr result (IsUnchanged (files self.old) (files self.new)) }
        ensures works { OnOk result (Self.failed self.new ≡ false) }
        ensures device { IsErrOf result Trouble.Device → Self.failed self.new ≡ true }
        ensures stays { Self.failed self.old ≡ true → Self.failed self.new ≡ true };
}

/// A shelf that keeps the files in memory, and makes them known.
#[derive(Drop)]
pub struct MemoryShelf {
    alloc: Global,
    files: Vec<PutFile>,
}

impl Model for MemoryShelf {
    ghost use Rattle.std.specs.Prelude.{List};
    ghost use Rattle.a429_cert.specs.declared.shelf.PutFile.{PutFile};

    ghost Value = { List PutFile };

    ghost view = { λ s. s.files.items };
}

impl MemoryShelf {
    /// A shelf without files.
    pub fn new(alloc: Global) -> MemoryShelf
        ensures { result ≡ [] }
    {
        MemoryShelf {
            alloc,
            files: Vec::new(alloc),
        }
    }

    /// The files that were put, lent.
    pub fn files(&self) -> &[PutFile]
        ensures { result.now ≡ self.now }
    {
        self.files.as_slice()
    }
}

impl Failing for MemoryShelf {
    ghost failed = { λ s. false };

    fn failed(&self) -> bool {
        false
    }
}

impl Shelf for MemoryShelf {
    ghost files = { λ s. Some s };

    fn put(&mut self, index: u32, number: u8, bytes: &[u8]) -> Result<(), Trouble> {
        let mut kept = Vec::new(self.alloc);
        if kept.extend_from_slice(bytes).is_err() {
            return Err(Trouble::OutOfMemory);
        }
        let bytes = Bytes::new(kept);
        let file = FileBytes { number, bytes };
        if self.files.push(PutFile { index, file }).is_err() {
            return Err(Trouble::OutOfMemory);
        }
        Ok(())
    }
}

/// A shelf that takes every file, and keeps none.
#[derive(Drop)]
pub struct NoShelf;

impl Failing for NoShelf {
    ghost failed = { λ s. false };

    fn failed(&self) -> bool {
        false
    }
}

impl Shelf for NoShelf {
    ghost files = { λ s. None };

    fn put(&mut self, _: u32, _: u8, _: &[u8]) -> Result<(), Trouble>
        ensures taken { IsOk result }
    {
        Ok(())
    }
}
