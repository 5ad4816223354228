//! The parts of a word together: read from the array `part`, table by table.

ghost use Rattle.std.specs.Prelude.{◌≡◌, ◌≤◌, ◌&&◌, [], IfOk, map, not, length, nat_le, true, All};
ghost use Rattle.std.specs.List.{list_all};
ghost use Rattle.toml.specs.View.{view, table_view};
ghost use Rattle.a429_profile.specs.Value.{is_table};
ghost use Rattle.a429_profile.specs.Labels.{table_of};
ghost use Rattle.a429_import.specs.Bits.{AreInWord};
ghost use Rattle.a429_import.specs.Fault.{GivesInMemory};
ghost use Rattle.a429_import.specs.Part.{IsSoundPart};
ghost use Rattle.a429_import.specs.PartTable.{part_in_table, table_fault};
ghost use Rattle.a429_import.specs.Parts.{has_bit, is_in_part, first_bit, clash_fault, missing_fault, next_fault, tables_fault, parts_fault, parts_of};

use crate::bits::Bits;
use crate::fault::MapFault;
use crate::key::Key;
use crate::part::Part;
use crate::part_table::read_part;
use crate::value::{at, elements};
use std::alloc::Global;
use std::marker::Model;
use toml::{Table, Value};

/// The parts of a word, each of which can be read.
#[derive(Drop)]
pub struct Parts {
    parts: Vec<Part>,
}

impl Model for Parts {
    ghost use Rattle.std.specs.Prelude.{List, All};
    ghost use Rattle.a429_import.specs.declared.part.Part.{Part as APart};
    ghost use Rattle.a429_import.specs.Part.{IsSoundPart};

    ghost Value = { List APart };

    ghost view = { λ p. p.parts.items };

    ghost invariant = { λ p. All IsSoundPart p.parts.items };
}

impl Parts {
    /// The parts, in the order of the map.
    pub fn as_slice(&self) -> &[Part]
        ensures parts { result.now ≡ self.now }
        ensures sound { All IsSoundPart self.now }
    {
        self.parts.as_slice()
    }

    /// The first bit, of those from 1 to `most`, that is in no part.
    pub(crate) fn missing(&self, most: u8) -> Option<MapFault>
        requires { most ≤ 32 }
        ensures { result ≡ missing_fault self.now most }
    {
        first_missing(self.as_slice(), most).map(MapFault::BitMissing)
    }
}

fn first_missing(parts: &[Part], most: u8) -> Option<u8>
    requires sound { All IsSoundPart parts.now }
    requires most { most ≤ 32 }
    ensures { result ≡ first_bit (λ n. not (is_in_part parts.now n)) 1 most }
{
    for bit in 1..most + 1 {
        if !is_in_part(parts, bit) {
            return Some(bit);
        }
    }
    None
}

// Whether one of some parts has this bit.
fn is_in_part(parts: &[Part], bit: u8) -> bool
    requires { All IsSoundPart parts.now }
    ensures { result ≡ is_in_part parts.now bit }
{
    for part in parts {
        if has_bit(part.bits, bit) {
            return true;
        }
    }
    false
}

fn has_bit(bits: Bits, bit: u8) -> bool
    requires { AreInWord bits }
    ensures { result ≡ has_bit bits bit }
{
    bits.low <= bit && bit < bits.low + bits.count
}

// The first bit of a part that an earlier one has.
fn first_clash(earlier: &[Part], part: &Part) -> Option<u8>
    requires earlier { All IsSoundPart earlier.now }
    requires part { IsSoundPart part.now }
    ensures { result ≡ first_bit (is_in_part earlier.now) part.now.bits.low part.now.bits.count }
{
    let bits = part.bits;
    for bit in bits.low..bits.low + bits.count {
        if is_in_part(earlier, bit) {
            return Some(bit);
        }
    }
    None
}

/// The parts that the array `part` describes.
pub(crate) fn read_parts(alloc: Global, doc: &Table, header: bool) -> Result<Parts, MapFault>
    ensures { GivesInMemory (parts_of header (table_view doc.now)) (parts_fault header (table_view doc.now)) result }
{
    let Some(value) = at(doc, "part") else {
        return Err(MapFault::Missing(Key::Parts));
    };
    let Some(values) = elements(value) else {
        return Err(MapFault::WrongKind(Key::Parts));
    };
    if !are_tables(values) {
        return Err(MapFault::WrongKind(Key::Parts));
    }
    read_tables(alloc, values, header)
}

fn are_tables(values: &[Value]) -> bool
    ensures { result ≡ (list_all (λ v. is_table (view v)) values.now && nat_le 1 (length values.now)) }
{
    all_tables(values) && 1 <= values.len()
}

fn all_tables(values: &[Value]) -> bool
    ensures { result ≡ list_all (λ v. is_table (view v)) values.now }
{
    values.iter().all(|value| value.is_table())
}

// The parts that tables describe, in their order.
fn read_tables(alloc: Global, values: &[Value], header: bool) -> Result<Parts, MapFault>
    requires { list_all (λ v. is_table (view v)) values.now ≡ true }
    ensures { GivesInMemory (map (λ v. part_in_table header (table_of (view v))) values.now) (tables_fault header 0 [] (map view values.now)) result }
{
    let mut parts = Vec::new(alloc);
    for (position, value) in values.iter().enumerate() {
        let part = read_next(alloc, value, header, position, parts.as_slice())?;
        match parts.push(part) {
            Ok(()) => {}
            Err(_) => return Err(MapFault::OutOfMemory),
        }
    }
    Ok(Parts { parts })
}

// The part that a table describes, after those before it.
fn read_next(
    alloc: Global,
    value: &Value,
    header: bool,
    position: usize,
    earlier: &[Part],
) -> Result<Part, MapFault>
    requires table { is_table (view value.now) ≡ true }
    requires earlier { All IsSoundPart earlier.now }
    ensures sound { IfOk result (λ p. IsSoundPart p) }
    ensures gives { GivesInMemory (part_in_table header (table_of (view value.now))) (next_fault header position earlier.now (view value.now)) result }
{
    let part = read_table(alloc, value, header, position)?;
    match first_clash(earlier, &part) {
        Some(bit) => Err(MapFault::BitClash(bit)),
        None => Ok(part),
    }
}

fn read_table(alloc: Global, value: &Value, header: bool, position: usize) -> Result<Part, MapFault>
    requires { is_table (view value.now) ≡ true }
    ensures sound { IfOk result (λ p. IsSoundPart p) }
    ensures gives { GivesInMemory (part_in_table header (table_of (view value.now))) (table_fault header position (table_of (view value.now))) result }
{
    match value.as_table() {
        Some(table) => read_part(alloc, table, header, position),
        None => unreachable!(),
    }
}
