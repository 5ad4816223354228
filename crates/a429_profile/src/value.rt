//! Reads the value at a key: its kind first, and then its range.

ghost use Rattle.std.specs.Prelude.{◌≡◌, ◌≤◌, Some, None, IfOk, IfErr, OnOk, IfSome, is_some, option_map, true, false, map};
ghost use Rattle.std.specs.List.{list_all};
ghost use Rattle.toml.specs.Data.{as_array, get_member};
ghost use Rattle.toml.specs.View.{view, table_view};
ghost use Rattle.a429_profile.specs.Fault.{Gives, GivesInMemory};
ghost use Rattle.a429_profile.specs.Value.{octal, number, numbers, four_numbers, truth, printable, kind_word, kind_word_of, number_of_value, text_of_value, octal_number, truth_of_value, elements_of, is_array_of, is_integer, is_number_between, is_printable, is_printable_text, byte_of, numbers_of_value};
ghost use Rattle.a429_profile.specs.Key.{section_place, value, value_fault, label_place, section_fault};
ghost use Rattle.a429_profile.specs.Labels.{needed_fault};

use crate::entry::{KindWord, Numbers, Text};
use crate::fault::ProfileFault;
use crate::key::{Key, LabelKey, SectionKey};
use std::alloc::{AllocError, Global};
use toml::{Table, Value};

// The value at a key of a table.
pub(crate) fn at<'a>(table: &'a Table, key: &str) -> Option<&'a Value>
    ensures { option_map (λ v. view v.now) result ≡ get_member key.now (table_view table.now) }
{
    table.get(key)
}

// The value at a key of a section.
pub(crate) fn in_section(doc: &Table, key: SectionKey) -> Result<&Value, ProfileFault>
    ensures ok { IfOk result (λ v. section_place (table_view doc.now) key ≡ value (view v.now)) }
    ensures err { IfErr result (λ f. section_fault (table_view doc.now) key ≡ Some f) }
{
    let Some(section) = at(doc, key.section()) else {
        return Err(ProfileFault::Missing(Key::Section(key)));
    };
    let Some(table) = section.as_table() else {
        return Err(ProfileFault::WrongKind(Key::Section(key)));
    };
    match at(table, key.name()) {
        Some(value) => Ok(value),
        None => Err(ProfileFault::Missing(Key::Section(key))),
    }
}

// A number from low to high.
pub(crate) fn number(value: &Value, key: Key, low: u32, high: u32) -> Result<u32, ProfileFault>
    ensures fits { IfOk result (λ n. n ≤ high) }
    ensures gives { Gives (number_of_value (view value.now)) (value_fault key (number low high) (view value.now)) result }
{
    let Some(number) = value.as_integer() else {
        return Err(ProfileFault::WrongKind(key));
    };
    if number < i64::from(low) || i64::from(high) < number {
        return Err(ProfileFault::OutOfRange(key));
    }
    Ok(number as u32)
}

// A truth value.
pub(crate) fn truth(value: &Value, key: Key) -> Result<bool, ProfileFault>
    ensures { Gives (truth_of_value (view value.now)) (value_fault key truth (view value.now)) result }
{
    value.as_bool().ok_or(ProfileFault::WrongKind(key))
}

// The number of three octal digits, 000 to 377.
pub(crate) fn octal(value: &Value, key: Key) -> Result<u8, ProfileFault>
    ensures { Gives (octal_number (text_of_value (view value.now))) (value_fault key octal (view value.now)) result }
{
    let Some(text) = value.as_str() else {
        return Err(ProfileFault::WrongKind(key));
    };
    match text.as_bytes() {
        [a @ b'0'..=b'3', b @ b'0'..=b'7', c @ b'0'..=b'7'] => {
            Ok(64 * (*a - b'0') + 8 * (*b - b'0') + (*c - b'0'))
        }
        _ => Err(ProfileFault::OutOfRange(key)),
    }
}

// The value at a key of the table of `label` at this position.
pub(crate) fn in_label(
    table: &Table,
    position: usize,
    key: LabelKey,
) -> Result<&Value, ProfileFault>
    ensures ok { IfOk result (λ v. label_place (table_view table.now) key ≡ value (view v.now)) }
    ensures err { IfErr result (λ f. needed_fault position (table_view table.now) key ≡ Some f) }
{
    match at(table, key.name()) {
        Some(value) => Ok(value),
        None => Err(ProfileFault::Missing(Key::Label(position, key))),
    }
}

// The least and the most characters that a text may have.
#[derive(Clone, Copy)]
pub(crate) struct Lengths {
    pub(crate) least: usize,
    pub(crate) most: usize,
}

// A text of so many printable characters.
pub(crate) fn printable(
    alloc: Global,
    value: &Value,
    key: Key,
    lengths: Lengths,
) -> Result<Text, ProfileFault>
    ensures { let d = view value.now in GivesInMemory (text_of_value d) (value_fault key (printable lengths.least lengths.most) d) result }
{
    let Some(text) = value.as_str() else {
        return Err(ProfileFault::WrongKind(key));
    };
    if !is_printable(text, lengths.least, lengths.most) {
        return Err(ProfileFault::OutOfRange(key));
    }
    match String::from_str(alloc, text) {
        Ok(owned) => Ok(Text::new(owned)),
        Err(_) => Err(ProfileFault::OutOfMemory),
    }
}

// Whether the text has at least and at most this many bytes, each of them a printable character.
pub(crate) fn is_printable(text: &str, least: usize, most: usize) -> bool
    ensures { result ≡ is_printable_text least most text.now }
{
    least <= text.len() && text.len() <= most && are_printable(text.as_bytes())
}

fn are_printable(text: &[u8]) -> bool
    ensures { result ≡ list_all is_printable text.now }
{
    text.iter().all(|c| b' ' <= *c && *c <= b'~')
}

// A number from low to high.
pub(crate) fn small(value: &Value, key: Key, low: u8, high: u8) -> Result<u8, ProfileFault>
    ensures fits { IfOk result (λ n. n ≤ high) }
    ensures gives { Gives (number_of_value (view value.now)) (value_fault key (number low high) (view value.now)) result }
{
    let number = number(value, key, u32::from(low), u32::from(high))?;
    Ok(number as u8)
}

// The elements of an array.
pub(crate) fn elements(value: &Value) -> Option<&[Value]>
    ensures some { IfSome result (λ vs. elements_of (view value.now) ≡ map view vs.now) }
    ensures variant { is_some result ≡ is_some (as_array (view value.now)) }
{
    match value.as_array() {
        Some(array) => Some(array.as_slice()),
        None => None,
    }
}

// The elements of an array of integers.
fn integers(value: &Value) -> Option<&[Value]>
    ensures some { IfSome result (λ vs. elements_of (view value.now) ≡ map view vs.now) }
    ensures variant { is_some result ≡ is_array_of is_integer (view value.now) }
{
    let values = elements(value)?;
    if are_integers(values) {
        Some(values)
    } else {
        None
    }
}

fn are_integers(values: &[Value]) -> bool
    ensures { result ≡ list_all (λ v. is_integer (view v)) values.now }
{
    values.iter().all(|value| value.is_integer())
}

// Whether each of the numbers lies between low and high.
fn are_between(values: &[Value], low: u8, high: u8) -> bool
    ensures { result ≡ list_all (λ v. is_number_between low high (view v)) values.now }
{
    values.iter().all(|value| is_between(value, low, high))
}

pub(crate) fn is_between(value: &Value, low: u8, high: u8) -> bool
    ensures { result ≡ is_number_between low high (view value.now) }
{
    let number = value.as_integer().unwrap_or(0);
    i64::from(low) <= number && number <= i64::from(high)
}

// An integer as a byte; 0 for any other value.
#[tactic(auto, unfolding(crate::specs::Value::byte_of))]
pub(crate) fn byte(value: &Value) -> u8
    ensures { result ≡ byte_of (view value.now) }
{
    let number = value.as_integer().unwrap_or(0);
    if 0 <= number && number <= 255 {
        number as u8
    } else {
        0
    }
}

// The numbers of an array, each from low to high.
pub(crate) fn numbers(
    alloc: Global,
    value: &Value,
    key: Key,
    low: u8,
    high: u8,
) -> Result<Numbers, ProfileFault>
    ensures { GivesInMemory (numbers_of_value (view value.now)) (value_fault key (numbers low high) (view value.now)) result }
{
    let Some(values) = integers(value) else {
        return Err(ProfileFault::WrongKind(key));
    };
    if !are_between(values, low, high) {
        return Err(ProfileFault::OutOfRange(key));
    }
    match bytes(alloc, values) {
        Ok(numbers) => Ok(Numbers::new(numbers)),
        Err(_) => Err(ProfileFault::OutOfMemory),
    }
}

fn bytes(alloc: Global, values: &[Value]) -> Result<Vec<u8>, AllocError>
    ensures { IfOk result (λ v. v.items ≡ map (λ v. byte_of (view v)) values.now) }
{
    let mut numbers = Vec::new(alloc);
    for value in values {
        numbers.push(byte(value))?;
    }
    Ok(numbers)
}

// Four numbers, each from low to high.
pub(crate) fn four_numbers(
    value: &Value,
    key: Key,
    low: u8,
    high: u8,
) -> Result<[u8; 4], ProfileFault>
    ensures ok { OnOk result (value_fault key (four_numbers low high) (view value.now) ≡ None) }
    ensures value { IfOk result (λ v. numbers_of_value (view value.now) ≡ v) }
    ensures err { IfErr result (λ f. value_fault key (four_numbers low high) (view value.now) ≡ Some f) }
{
    let Some(values) = integers(value) else {
        return Err(ProfileFault::WrongKind(key));
    };
    if !are_between(values, low, high) {
        return Err(ProfileFault::OutOfRange(key));
    }
    let [a, b, c, d] = values else {
        return Err(ProfileFault::OutOfRange(key));
    };
    Ok([byte(a), byte(b), byte(c), byte(d)])
}

// One of the words for a kind of label.
pub(crate) fn kind_word(value: &Value, key: Key) -> Result<KindWord, ProfileFault>
    ensures ok { OnOk result (value_fault key kind_word (view value.now) ≡ None) }
    ensures value { IfOk result (λ w. kind_word_of (text_of_value (view value.now)) ≡ Some w) }
    ensures err { IfErr result (λ f. value_fault key kind_word (view value.now) ≡ Some f) }
{
    let Some(text) = value.as_str() else {
        return Err(ProfileFault::WrongKind(key));
    };
    if text == "bnr" {
        Ok(KindWord::Bnr)
    } else if text == "bcd" {
        Ok(KindWord::Bcd)
    } else if text == "discrete" {
        Ok(KindWord::Discrete)
    } else {
        Err(ProfileFault::OutOfRange(key))
    }
}
