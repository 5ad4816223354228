//! Reads a table of `part`.

ghost use Rattle.std.specs.Prelude.{◌≡◌, ◌≤◌, ◌+◌, Some, None, pos, [], false, option_map, IfOk, IfSome};
ghost use Rattle.toml.specs.Data.{string, integer, boolean};
ghost use Rattle.toml.specs.View.{view, table_view};
ghost use Rattle.a429_profile.specs.Value.{text_of_value, number_of_value, truth_of_value};
ghost use Rattle.a429_import.specs.Fault.{Gives, GivesSome, GivesInMemory};
ghost use Rattle.a429_import.specs.Key.{part_row, part_fault, part_value, first_part_fault};
ghost use Rattle.a429_import.specs.Part.{IsSoundPart};
ghost use Rattle.a429_import.specs.Piece.{IsPieceCounted};
ghost use Rattle.a429_import.specs.Value as rule;
ghost use Rattle.a429_import.specs.Value.{base_of, split_of, column_of_value};
ghost use Rattle.a429_import.specs.PartTable.{part_in_table, table_fault, digits_keys, digits_in_table, other_keys, others_in_table, joined, piece_of};

use crate::base::Base;
use crate::bits::Bits;
use crate::column::Column;
use crate::fault::MapFault;
use crate::key::{Key, PartKey};
use crate::part::Part;
use crate::piece::Piece;
use crate::value::{at, base, column, number, split, text, truth};
use a429_profile::Text;
use std::alloc::Global;
use toml::Table;

// The keys of a part up to its bits.
#[derive(Drop)]
struct Digits {
    column: Column,
    base: Base,
    low: u8,
    count: u8,
}

// Those after them.
#[derive(Drop)]
struct Others {
    reversed: bool,
    prefix: Text,
    piece: Option<Piece>,
}

// A column, which is needed.
fn column_at(
    alloc: Global,
    table: &Table,
    header: bool,
    position: usize,
    key: PartKey,
) -> Result<Column, MapFault>
    requires rule { (part_row header key).rule ≡ rule.column header }
    requires default { (part_row header key).default ≡ None }
    ensures { GivesInMemory (column_of_value header (part_value header (table_view table.now) key)) (part_fault header position (table_view table.now) key) result }
{
    match at(table, key.name()) {
        Some(value) => column(alloc, value, Key::Part(position, key), header),
        None => Err(MapFault::Missing(Key::Part(position, key))),
    }
}

// A base, which is needed.
fn base_at(table: &Table, header: bool, position: usize, key: PartKey) -> Result<Base, MapFault>
    requires rule { (part_row header key).rule ≡ rule.base }
    requires default { (part_row header key).default ≡ None }
    ensures { GivesSome (base_of (number_of_value (part_value header (table_view table.now) key))) (part_fault header position (table_view table.now) key) result }
{
    match at(table, key.name()) {
        Some(value) => base(value, Key::Part(position, key)),
        None => Err(MapFault::Missing(Key::Part(position, key))),
    }
}

// A number from 1 on, with the one that stands for it where it is missing.
fn number_at(
    table: &Table,
    header: bool,
    position: usize,
    key: PartKey,
    high: u8,
    default: Option<u8>,
) -> Result<u8, MapFault>
    requires rule { (part_row header key).rule ≡ rule.number 1 high }
    requires default { (part_row header key).default ≡ option_map (λ n. integer (pos n)) default }
    requires least { IfSome default (λ n. 1 ≤ n) }
    ensures least { IfOk result (λ n. 1 ≤ n) }
    ensures gives { Gives (number_of_value (part_value header (table_view table.now) key)) (part_fault header position (table_view table.now) key) result }
{
    match at(table, key.name()) {
        Some(value) => {
            let number = number(value, Key::Part(position, key), 1, u32::from(high))?;
            Ok(number as u8)
        }
        None => default.ok_or(MapFault::Missing(Key::Part(position, key))),
    }
}

// A truth value, false where it is missing.
fn truth_at(table: &Table, header: bool, position: usize, key: PartKey) -> Result<bool, MapFault>
    requires rule { (part_row header key).rule ≡ rule.truth }
    requires default { (part_row header key).default ≡ Some (boolean false) }
    ensures { Gives (truth_of_value (part_value header (table_view table.now) key)) (part_fault header position (table_view table.now) key) result }
{
    match at(table, key.name()) {
        Some(value) => truth(value, Key::Part(position, key)),
        None => Ok(false),
    }
}

// A text, empty where it is missing.
fn text_at(
    alloc: Global,
    table: &Table,
    header: bool,
    position: usize,
    key: PartKey,
) -> Result<Text, MapFault>
    requires rule { (part_row header key).rule ≡ rule.text }
    requires default { (part_row header key).default ≡ Some (string []) }
    ensures { GivesInMemory (text_of_value (part_value header (table_view table.now) key)) (part_fault header position (table_view table.now) key) result }
{
    match at(table, key.name()) {
        Some(value) => text(alloc, value, Key::Part(position, key)),
        None => Ok(Text::new(String::new(alloc))),
    }
}

// The byte at which a field is cut, none where it is missing.
fn split_at(
    table: &Table,
    header: bool,
    position: usize,
    key: PartKey,
) -> Result<Option<u8>, MapFault>
    requires rule { (part_row header key).rule ≡ rule.split }
    requires default { (part_row header key).default ≡ Some (string []) }
    ensures { Gives (split_of (text_of_value (part_value header (table_view table.now) key))) (part_fault header position (table_view table.now) key) result }
{
    match at(table, key.name()) {
        Some(value) => split(value, Key::Part(position, key)),
        None => Ok(None),
    }
}

fn read_digits(
    alloc: Global,
    table: &Table,
    header: bool,
    position: usize,
) -> Result<Digits, MapFault>
    ensures some { IfOk result (λ d. (1 ≤ d.low) × (1 ≤ d.count)) }
    ensures gives { GivesInMemory (digits_in_table header (table_view table.now)) (first_part_fault header position (table_view table.now) digits_keys) result }
{
    let column = column_at(alloc, table, header, position, PartKey::Column)?;
    let base = base_at(table, header, position, PartKey::Base)?;
    let low = number_at(table, header, position, PartKey::Low, 32, None)?;
    let count = number_at(table, header, position, PartKey::Bits, 32, None)?;
    Ok(Digits {
        column,
        base,
        low,
        count,
    })
}

// The piece that is cut out at this byte, if a field is cut.
fn piece_of(at: Option<u8>, number: u8) -> Option<Piece>
    requires { 1 ≤ number }
    ensures piece { result ≡ piece_of at number }
    ensures counted { IsPieceCounted result }
{
    at.map(|at| Piece { at, number })
}

fn read_others(
    alloc: Global,
    table: &Table,
    header: bool,
    position: usize,
) -> Result<Others, MapFault>
    ensures piece { IfOk result (λ o. IsPieceCounted o.piece) }
    ensures gives { GivesInMemory (others_in_table header (table_view table.now)) (first_part_fault header position (table_view table.now) other_keys) result }
{
    let reversed = truth_at(table, header, position, PartKey::Reversed)?;
    let prefix = text_at(alloc, table, header, position, PartKey::Prefix)?;
    let at = split_at(table, header, position, PartKey::Split)?;
    let number = number_at(table, header, position, PartKey::Piece, 9, Some(1))?;
    Ok(Others {
        reversed,
        prefix,
        piece: piece_of(at, number),
    })
}

/// The part that the table at this position, from 0, describes.
pub(crate) fn read_part(
    alloc: Global,
    table: &Table,
    header: bool,
    position: usize,
) -> Result<Part, MapFault>
    ensures sound { IfOk result (λ p. IsSoundPart p) }
    ensures gives { GivesInMemory (part_in_table header (table_view table.now)) (table_fault header position (table_view table.now)) result }
{
    let digits = read_digits(alloc, table, header, position)?;
    if u32::from(digits.low) + u32::from(digits.count) > 33 {
        return Err(MapFault::OutOfRange(Key::Part(position, PartKey::Bits)));
    }
    let others = read_others(alloc, table, header, position)?;
    Ok(part_from(digits, others))
}

fn part_from(digits: Digits, others: Others) -> Part
    requires low { 1 ≤ digits.low }
    requires count { 1 ≤ digits.count }
    requires last { digits.low + digits.count ≤ 33 }
    requires piece { IsPieceCounted others.piece }
    ensures part { result ≡ joined digits others }
    ensures sound { IsSoundPart result }
{
    let Digits {
        column,
        base,
        low,
        count,
    } = digits;
    let Others {
        reversed,
        prefix,
        piece,
    } = others;
    Part {
        column,
        base,
        bits: Bits {
            low,
            count,
            reversed,
        },
        prefix,
        piece,
    }
}
