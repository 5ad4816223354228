//! Where the pieces of a recording are put.

ghost use Rattle.std.specs.Prelude.{◌≡◌, [], List, Option, Some, IsErrOf, OnOk, map, true, false};
ghost use Rattle.a429_sink.specs.MemoryPieces.{piece_in};
ghost use Rattle.a429_sink.specs.Pieces.{Becomes, PutPieces, ended, with_more};

use a429_link::FileBytes;
use a429_record::Entry;
use a429_word::{Failing, Trouble};
use std::alloc::Global;
use std::marker::Model;
use std::mem;

/// What takes the pieces of a recording, one after the other. Contracts see those that were put, and what was put of the one under way,
/// where it makes them known.
pub trait Pieces: Failing {
    ghost known: { Self → Option PutPieces };

    /// Puts more entries of the piece under way, and more files that are sure of it.
    fn put(&mut self, entries: &[Entry], files: Vec<FileBytes>) -> Result<(), Trouble>
        ensures ok { OnOk result (Becomes (known self.old) (known self.new) (with_more entries.now files.items)) }
        ensures device { IsErrOf result Trouble.Device → Self.failed self.new ≡ true }
        ensures works { OnOk result (Self.failed self.new ≡ false) };

    /// Ends the piece under way. The next one begins.
    fn end(&mut self) -> Result<(), Trouble>
        ensures ok { OnOk result (Becomes (known self.old) (known self.new) ended) }
        ensures device { IsErrOf result Trouble.Device → Self.failed self.new ≡ true }
        ensures works { OnOk result (Self.failed self.new ≡ false) };
}

/// A piece that was put.
#[derive(Drop)]
pub struct Piece {
    pub entries: Vec<Entry>,
    /// The files that are sure of it, in order.
    pub files: Vec<FileBytes>,
}

/// Keeps pieces in memory, and makes them known.
#[derive(Drop)]
pub struct MemoryPieces {
    alloc: Global,
    pieces: Vec<Piece>,
    entries: Vec<Entry>,
    files: Vec<FileBytes>,
}

impl Model for MemoryPieces {
    ghost use Rattle.std.specs.Prelude.{map};
    ghost use Rattle.a429_sink.specs.MemoryPieces.{piece_in};
    ghost use Rattle.a429_sink.specs.Pieces.{PutPieces};

    ghost Value = { PutPieces };

    ghost view = { λ s. record { pieces = map piece_in s.pieces.items; entries = s.entries.items; files = s.files.items } };
}

impl MemoryPieces {
    /// Without pieces.
    pub fn new(alloc: Global) -> MemoryPieces
        ensures { result ≡ record { pieces = []; entries = []; files = [] } }
    {
        MemoryPieces {
            alloc,
            pieces: Vec::new(alloc),
            entries: Vec::new(alloc),
            files: Vec::new(alloc),
        }
    }

    /// The pieces that were put, lent.
    pub fn pieces(&self) -> &[Piece]
        ensures { map piece_in result.now ≡ self.now.pieces }
    {
        self.pieces.as_slice()
    }
}

impl Failing for MemoryPieces {
    ghost failed = { λ s. false };

    fn failed(&self) -> bool {
        false
    }
}

impl Pieces for MemoryPieces {
    ghost known = { λ s. Some s };

    fn put(&mut self, entries: &[Entry], files: Vec<FileBytes>) -> Result<(), Trouble> {
        let mut files = files;
        if self.entries.extend_from_slice(entries).is_err() {
            return Err(Trouble::OutOfMemory);
        }
        if self.files.append(&mut files).is_err() {
            return Err(Trouble::OutOfMemory);
        }
        Ok(())
    }

    fn end(&mut self) -> Result<(), Trouble> {
        let entries = mem::replace(&mut self.entries, Vec::new(self.alloc));
        let files = mem::replace(&mut self.files, Vec::new(self.alloc));
        let piece = Piece { entries, files };
        if self.pieces.push(piece).is_err() {
            return Err(Trouble::OutOfMemory);
        }
        Ok(())
    }
}
