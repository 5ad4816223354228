//! How check words are made, with tables for it.

ghost use Rattle.std.specs.Prelude.{◌≡◌, ◌≤◌, IfOk, fold, replicate};
ghost use Rattle.a429_profile.specs.CheckTables.{turned, fed_down, after_zeros, AreTables};

use crate::codes::Check;
use std::alloc::{AllocError, Global};
use std::marker::Model;

// A table has an entry for each byte.
const BYTES: usize = 256;

// As many tables as bytes are taken at a time.
const TABLES: usize = 8;

/// How check words are made, and eight tables of 256 entries, which are made once, so that a check word takes eight
/// bytes at a time.
#[derive(Drop)]
pub struct CheckTables {
    pub(crate) rule: Check,
    entries: Vec<u16>,
}

impl Model for CheckTables {
    ghost use Rattle.a429_profile.specs.declared.codes.Check.{Check};
    ghost use Rattle.a429_profile.specs.CheckTables.{turned, AreTables};

    ghost Value = { Check };

    ghost view = { λ c. c.rule };

    ghost invariant = { λ c. AreTables (turned c.rule.poly) c.entries.items };
}

impl CheckTables {
    /// The tables for check words that are made so. The error is out of memory.
    pub fn new(alloc: Global, rule: Check) -> Result<CheckTables, AllocError>
        ensures { IfOk result (λ c. c ≡ rule) }
    {
        let entries = entries_of(alloc, rule.poly.reverse_bits())?;
        Ok(CheckTables { rule, entries })
    }

    /// How a check word is made.
    pub fn rule(&self) -> Check
        ensures { result ≡ self.now }
    {
        self.rule
    }

    /// The register after so many bytes 0, 1 to 8, if it begins as this byte. Its bits are in reverse order.
    #[inline(always)]
    pub fn after_zeros(&self, count: usize, byte: u8) -> u16
        requires some { 1 ≤ count }
        requires most { count ≤ 8 }
        ensures { result ≡ after_zeros (turned self.now.poly) count byte }
    {
        self.entries[BYTES * (count - 1) + usize::from(byte)]
    }
}

// The entries of the tables, each made of the one before it in its column.
fn entries_of(alloc: Global, poly: u16) -> Result<Vec<u16>, AllocError>
    ensures { IfOk result (λ entries. AreTables poly entries.items) }
{
    let mut entries = Vec::with_capacity(alloc, TABLES * BYTES)?;
    for at in 0..TABLES * BYTES {
        let before = if at < BYTES {
            at as u16
        } else {
            entries[at - BYTES]
        };
        entries.push(after_zero_byte(poly, before))?;
    }
    Ok(entries)
}

/// The register after a byte 0. Its bits, and those of the polynomial, are in reverse order.
pub fn after_zero_byte(poly: u16, register: u16) -> u16
    ensures { result ≡ fold (fed_down poly) register (replicate 8 0) }
{
    let halfway = after_four(poly, register);
    after_four(poly, halfway)
}

// The register after four bits 0.
fn after_four(poly: u16, register: u16) -> u16
    ensures { result ≡ fold (fed_down poly) register (replicate 4 0) }
{
    let first = after_bit(poly, register);
    let second = after_bit(poly, first);
    let third = after_bit(poly, second);
    after_bit(poly, third)
}

// The register after one bit 0.
fn after_bit(poly: u16, register: u16) -> u16
    ensures { result ≡ fed_down poly register 0 }
{
    let moved = register >> 1;
    if register & 1 == 1 {
        moved ^ poly
    } else {
        moved
    }
}
