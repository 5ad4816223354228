//! Reads the flags of a discrete label.

ghost use Rattle.std.specs.Prelude.{◌≡◌, Some, None, IfOk, true, map, codes, [], length, ◌&&◌};
ghost use Rattle.std.specs.List.{list_all};
ghost use Rattle.std.specs.Option.{option_map_or};
ghost use Rattle.toml.specs.Data.{get_member};
ghost use Rattle.toml.specs.View.{view, table_view};
ghost use Rattle.a429_profile.specs.Fault.{GivesInMemory};
ghost use Rattle.a429_profile.specs.Value.{flags, is_integer, is_text, is_flag, is_flag_in_range, is_flag_count, is_number_between, is_printable_text, holds_at, number_of_value, text_of_value, flag_of, elements_of};
ghost use Rattle.a429_profile.specs.Key.{value_fault};

use crate::entry::{Flag, Flags, Text};
use crate::fault::ProfileFault;
use crate::key::Key;
use crate::value::{at, byte, elements, is_between, is_printable};
use std::alloc::{AllocError, Global};
use toml::{Table, Value};

// The flags of an array of 1 to 19 tables, each with a bit from 11 to 29 and a name.
pub(crate) fn flags(alloc: Global, value: &Value, key: Key) -> Result<Flags, ProfileFault>
    ensures { GivesInMemory (map flag_of (elements_of (view value.now))) (value_fault key flags (view value.now)) result }
{
    let Some(values) = elements(value) else {
        return Err(ProfileFault::WrongKind(key));
    };
    if !are_flags(values) {
        return Err(ProfileFault::WrongKind(key));
    }
    if !are_in_range(values) {
        return Err(ProfileFault::OutOfRange(key));
    }
    match made_of(alloc, values) {
        Ok(flags) => Ok(flags),
        Err(_) => Err(ProfileFault::OutOfMemory),
    }
}

fn are_flags(values: &[Value]) -> bool
    ensures { result ≡ list_all (λ v. is_flag (view v)) values.now }
{
    values.iter().all(|value| is_flag(value))
}

// Whether there are 1 to 19 flags, each in its range.
fn are_in_range(values: &[Value]) -> bool
    ensures { result ≡ (is_flag_count (length values.now) && list_all (λ v. is_flag_in_range (view v)) values.now) }
{
    1 <= values.len() && values.len() <= 19 && are_each_in_range(values)
}

fn are_each_in_range(values: &[Value]) -> bool
    ensures { result ≡ list_all (λ v. is_flag_in_range (view v)) values.now }
{
    values.iter().all(|value| is_in_range(value))
}

// Whether it is a table with an integer `bit` and a text `name`.
fn is_flag(value: &Value) -> bool
    ensures { result ≡ is_flag (view value.now) }
{
    match value.as_table() {
        Some(table) => has_integer(table, "bit") && has_text(table, "name"),
        None => false,
    }
}

fn has_integer(table: &Table, key: &str) -> bool
    ensures { result ≡ holds_at is_integer key.now (table_view table.now) }
{
    match at(table, key) {
        Some(value) => value.is_integer(),
        None => false,
    }
}

fn has_text(table: &Table, key: &str) -> bool
    ensures { result ≡ holds_at is_text key.now (table_view table.now) }
{
    match at(table, key) {
        Some(value) => value.is_str(),
        None => false,
    }
}

// Whether the bit and the name of a flag lie in their ranges.
fn is_in_range(value: &Value) -> bool
    ensures { result ≡ is_flag_in_range (view value.now) }
{
    match value.as_table() {
        Some(table) => has_bit(table) && has_name(table),
        None => false,
    }
}

fn has_bit(table: &Table) -> bool
    ensures { result ≡ holds_at (is_number_between 11 29) (codes "bit") (table_view table.now) }
{
    match at(table, "bit") {
        Some(value) => is_between(value, 11, 29),
        None => false,
    }
}

fn has_name(table: &Table) -> bool
    ensures { result ≡ holds_at (λ d. is_printable_text 1 32 (text_of_value d)) (codes "name") (table_view table.now) }
{
    match at(table, "name") {
        Some(value) => is_printable(value.as_str().unwrap_or(""), 1, 32),
        None => false,
    }
}

// The flags that tables describe.
fn made_of(alloc: Global, values: &[Value]) -> Result<Flags, AllocError>
    requires { list_all (λ v. is_flag_in_range (view v)) values.now ≡ true }
    ensures { IfOk result (λ f. f ≡ map (λ w. flag_of (view w)) values.now) }
{
    let mut flags = Vec::new(alloc);
    for value in values {
        flags.push(flag(alloc, value)?)?;
    }
    Flags::new(alloc, flags)
}

// The flag that a table describes; the rest of its keys are not looked at.
fn flag(alloc: Global, value: &Value) -> Result<Flag, AllocError>
    requires { is_flag_in_range (view value.now) ≡ true }
    ensures { IfOk result (λ f. f ≡ flag_of (view value.now)) }
{
    let (bit, name) = match value.as_table() {
        Some(table) => (bit_of(table), name_of(table)),
        None => (0, ""),
    };
    let name = Text::new(String::from_str(alloc, name)?);
    Ok(Flag { bit, name })
}

fn bit_of(table: &Table) -> u8
    requires { holds_at (is_number_between 11 29) (codes "bit") (table_view table.now) ≡ true }
    ensures { result ≡ option_map_or number_of_value (get_member (codes "bit") (table_view table.now)) 0 }
{
    match at(table, "bit") {
        Some(value) => byte(value),
        None => 0,
    }
}

fn name_of(table: &Table) -> &str
    ensures { result.now ≡ option_map_or text_of_value (get_member (codes "name") (table_view table.now)) [] }
{
    match at(table, "name") {
        Some(value) => value.as_str().unwrap_or(""),
        None => "",
    }
}
