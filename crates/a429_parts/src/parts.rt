//! Where the parts of a recording are put, and in the end their list.

ghost use Rattle.std.specs.Prelude.{◌≡◌, [], List, Option, Some, None, IfSome, IsErrOf, OnOk, OnErr, map, true, false};
ghost use Rattle.a429_parts.specs.MemoryParts.{part_in};
ghost use Rattle.a429_parts.specs.Parts.{GainsList, GainsPart, IsSame, PutParts};

use crate::waiting::{Rows, Waiting};
use a429_word::{Failing, Trouble};
use std::alloc::Global;
use std::marker::Model;

/// What takes the parts of a recording. Contracts see the parts that were put and the list, where it makes them
/// known.
pub trait Parts: Failing {
    ghost known: { Self → Option PutParts };

    /// Puts a part: its number, from 1, and its entries. A part that is refused is not there.
    fn put(&mut self, number: usize, rows: &Rows<'_>) -> Result<(), Trouble>
        ensures ok { OnOk result (GainsPart (known self.old) (known self.new) number rows.now) }
        ensures err { OnErr result (IsSame (known self.old) (known self.new)) }
        ensures device { IsErrOf result Trouble.Device → Self.failed self.new ≡ true }
        ensures works { OnOk result (Self.failed self.new ≡ false) };

    /// Puts the list of the parts, once all are there. A list that is refused is not there.
    fn put_list(&mut self, text: &[u8]) -> Result<(), Trouble>
        ensures ok { OnOk result (GainsList (known self.old) (known self.new) text.now) }
        ensures err { OnErr result (IsSame (known self.old) (known self.new)) }
        ensures device { IsErrOf result Trouble.Device → Self.failed self.new ≡ true }
        ensures works { OnOk result (Self.failed self.new ≡ false) };
}

/// A part that was put.
#[derive(Drop)]
pub struct Part {
    /// Its number, from 1.
    pub number: usize,
    rows: Waiting,
}

impl Part {
    /// Its entries, lent.
    pub fn rows(&self) -> Rows<'_>
        ensures { result ≡ (part_in self.now).entries }
    {
        self.rows.first(self.rows.len())
    }
}

/// Keeps parts in memory, and makes them known.
#[derive(Drop)]
pub struct MemoryParts {
    alloc: Global,
    parts: Vec<Part>,
    list: Option<Vec<u8>>,
}

impl Model for MemoryParts {
    ghost use Rattle.std.specs.Prelude.{map, option_map};
    ghost use Rattle.a429_parts.specs.Parts.{PutParts};
    ghost use Rattle.a429_parts.specs.MemoryParts.{bytes_in, part_in};

    ghost Value = { PutParts };

    ghost view = { λ s. record { parts = map part_in s.parts.items; list = option_map bytes_in s.list } };
}

impl MemoryParts {
    /// Without parts and list.
    pub fn new(alloc: Global) -> MemoryParts
        ensures { result ≡ record { parts = []; list = None } }
    {
        MemoryParts {
            alloc,
            parts: Vec::new(alloc),
            list: None,
        }
    }

    /// The parts that were put, lent.
    pub fn parts(&self) -> &[Part]
        ensures { map part_in result.now ≡ self.now.parts }
    {
        self.parts.as_slice()
    }

    /// The list, if it was put, lent.
    pub fn list(&self) -> Option<&[u8]>
        ensures some { IfSome result (λ text. self.now.list ≡ Some text.now) }
        ensures none { result ≡ None → self.now.list ≡ None }
    {
        match &self.list {
            Some(text) => Some(text.as_slice()),
            None => None,
        }
    }
}

impl Failing for MemoryParts {
    ghost failed = { λ s. false };

    fn failed(&self) -> bool {
        false
    }
}

impl Parts for MemoryParts {
    ghost known = { λ s. Some s };

    fn put(&mut self, number: usize, rows: &Rows<'_>) -> Result<(), Trouble> {
        let Ok(rows) = Waiting::copy_of(self.alloc, rows) else {
            return Err(Trouble::OutOfMemory);
        };
        if self.parts.push(Part { number, rows }).is_err() {
            return Err(Trouble::OutOfMemory);
        }
        Ok(())
    }

    fn put_list(&mut self, text: &[u8]) -> Result<(), Trouble> {
        let mut kept = Vec::new(self.alloc);
        if kept.extend_from_slice(text).is_err() {
            return Err(Trouble::OutOfMemory);
        }
        self.list = Some(kept);
        Ok(())
    }
}
