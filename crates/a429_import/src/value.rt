//! Reads the value at a key: its kind first, and then its range.

ghost use Rattle.std.specs.Prelude.{◌≡◌, ◌≤◌, Some, None, Bool, IfOk, IfErr, IfSome, is_some, option_map, map, true, false, bytes_eq, nat_lt};
ghost use Rattle.std.specs.List.{list_all};
ghost use Rattle.toml.specs.Data.{as_array, get_member};
ghost use Rattle.toml.specs.View.{view, table_view};
ghost use Rattle.a429_profile.specs.Value.{number_of_value, text_of_value, truth_of_value, elements_of, is_text, is_array_of};
ghost use Rattle.a429_import.specs.Fault.{Gives, GivesSome, GivesInMemory};
ghost use Rattle.a429_import.specs.Key.{value_fault};
ghost use Rattle.a429_import.specs.Value as rule;
ghost use Rattle.a429_import.specs.Value.{texts_of_value, column_of_value, date_of, separator_of, separator_byte, form_of, unit_of, point_of, bit_word_of, base_of, is_split, split_of};

use crate::base::Base;
use crate::clock_time::{DateForm, DateOrder};
use crate::column::Column;
use crate::fault::MapFault;
use crate::key::Key;
use crate::map::Separator;
use crate::texts::Texts;
use crate::time::Unit;
use a429_profile::Text;
use std::alloc::{AllocError, Global};
use toml::{Table, Value};

/// The words for how a time is written.
#[derive(Clone, Copy)]
pub(crate) enum FormWord {
    Integer,
    Decimal,
    Clock,
}

/// The words for what bit 32 is.
#[derive(Clone, Copy)]
pub(crate) enum BitWord {
    Parity,
    ErrorSet,
    ErrorClear,
    Absent,
    Column,
}

// The value at a key of a table.
pub(crate) fn at<'a>(table: &'a Table, key: &str) -> Option<&'a Value>
    ensures { option_map (λ v. view v.now) result ≡ get_member key.now (table_view table.now) }
{
    table.get(key)
}

// A truth value.
pub(crate) fn truth(value: &Value, key: Key) -> Result<bool, MapFault>
    ensures { Gives (truth_of_value (view value.now)) (value_fault key rule.truth (view value.now)) result }
{
    value.as_bool().ok_or(MapFault::WrongKind(key))
}

// A number from low to high.
pub(crate) fn number(value: &Value, key: Key, low: u32, high: u32) -> Result<u32, MapFault>
    ensures least { IfOk result (λ n. low ≤ n) }
    ensures fits { IfOk result (λ n. n ≤ high) }
    ensures gives { Gives (number_of_value (view value.now)) (value_fault key (rule.number low high) (view value.now)) result }
{
    let Some(number) = value.as_integer() else {
        return Err(MapFault::WrongKind(key));
    };
    if number < i64::from(low) || i64::from(high) < number {
        return Err(MapFault::OutOfRange(key));
    }
    Ok(number as u32)
}

// The most microseconds that a key may have: 2^62.
const MOST_MICROS: i64 = 1 << 62;

// Microseconds, 0 to 2^62.
pub(crate) fn micros(value: &Value, key: Key) -> Result<u64, MapFault>
    ensures { Gives (number_of_value (view value.now)) (value_fault key (rule.number 0 4611686018427387904) (view value.now)) result }
{
    let Some(number) = value.as_integer() else {
        return Err(MapFault::WrongKind(key));
    };
    if number < 0 || MOST_MICROS < number {
        return Err(MapFault::OutOfRange(key));
    }
    Ok(number as u64)
}

// Microseconds after which a clock begins again: 0, or 1,000 to 2^62.
pub(crate) fn wraps(value: &Value, key: Key) -> Result<u64, MapFault>
    ensures { Gives (number_of_value (view value.now)) (value_fault key rule.wraps (view value.now)) result }
{
    let Some(number) = value.as_integer() else {
        return Err(MapFault::WrongKind(key));
    };
    if number != 0 && (number < 1000 || MOST_MICROS < number) {
        return Err(MapFault::OutOfRange(key));
    }
    Ok(number as u64)
}

// A text.
pub(crate) fn text(alloc: Global, value: &Value, key: Key) -> Result<Text, MapFault>
    ensures { GivesInMemory (text_of_value (view value.now)) (value_fault key rule.text (view value.now)) result }
{
    let Some(text) = value.as_str() else {
        return Err(MapFault::WrongKind(key));
    };
    match String::from_str(alloc, text) {
        Ok(owned) => Ok(Text::new(owned)),
        Err(_) => Err(MapFault::OutOfMemory),
    }
}

// The elements of an array.
pub(crate) fn elements(value: &Value) -> Option<&[Value]>
    ensures some { IfSome result (λ vs. elements_of (view value.now) ≡ map view vs.now) }
    ensures variant { is_some result ≡ is_some (as_array (view value.now)) }
{
    match value.as_array() {
        Some(array) => Some(array.as_slice()),
        None => None,
    }
}

// Texts.
pub(crate) fn texts(alloc: Global, value: &Value, key: Key) -> Result<Texts, MapFault>
    ensures { GivesInMemory (texts_of_value (view value.now)) (value_fault key rule.texts (view value.now)) result }
{
    let Some(values) = elements(value) else {
        return Err(MapFault::WrongKind(key));
    };
    if !are_texts(values) {
        return Err(MapFault::WrongKind(key));
    }
    match made_of(alloc, values) {
        Ok(texts) => Ok(Texts::new(texts)),
        Err(_) => Err(MapFault::OutOfMemory),
    }
}

fn are_texts(values: &[Value]) -> bool
    ensures { result ≡ list_all (λ v. is_text (view v)) values.now }
{
    values.iter().all(|value| value.is_str())
}

fn made_of(alloc: Global, values: &[Value]) -> Result<Vec<Text>, AllocError>
    ensures { IfOk result (λ v. v.items ≡ map (λ w. text_of_value (view w)) values.now) }
{
    let mut texts = Vec::new(alloc);
    for value in values {
        texts.push(text_of(alloc, value)?)?;
    }
    Ok(texts)
}

fn text_of(alloc: Global, value: &Value) -> Result<Text, AllocError>
    ensures { IfOk result (λ t. t ≡ text_of_value (view value.now)) }
{
    let text = value.as_str().unwrap_or("");
    Ok(Text::new(String::from_str(alloc, text)?))
}

// A column: its name where a row names the columns, else its number.
pub(crate) fn column(
    alloc: Global,
    value: &Value,
    key: Key,
    header: bool,
) -> Result<Column, MapFault>
    ensures { GivesInMemory (column_of_value header (view value.now)) (value_fault key (rule.column header) (view value.now)) result }
{
    if header {
        let name = text(alloc, value, key)?;
        Ok(Column::Name(name))
    } else {
        let number = number(value, key, 1, 1000)?;
        Ok(Column::Number(number as u16))
    }
}

// A separator.
pub(crate) fn separator(value: &Value, key: Key) -> Result<Separator, MapFault>
    ensures { GivesSome (separator_of (text_of_value (view value.now))) (value_fault key rule.separator (view value.now)) result }
{
    let Some(text) = value.as_str() else {
        return Err(MapFault::WrongKind(key));
    };
    named_separator(text.as_bytes()).ok_or(MapFault::OutOfRange(key))
}

fn named_separator(text: &[u8]) -> Option<Separator>
    ensures { result ≡ separator_of text.now }
{
    if text == b"tab".as_slice() {
        Some(Separator::Byte(b'\t'))
    } else if text == b"blanks".as_slice() {
        Some(Separator::Blanks)
    } else {
        separator_byte(text)
    }
}

fn separator_byte(text: &[u8]) -> Option<Separator>
    ensures { result ≡ separator_byte text.now }
{
    match text {
        [byte] if byte.is_ascii() && !matches!(*byte, b'"' | b'\r' | b'\n') => {
            Some(Separator::Byte(*byte))
        }
        _ => None,
    }
}

// How a time is written.
pub(crate) fn form(value: &Value, key: Key) -> Result<FormWord, MapFault>
    ensures { GivesSome (form_of (text_of_value (view value.now))) (value_fault key rule.form (view value.now)) result }
{
    let Some(text) = value.as_str() else {
        return Err(MapFault::WrongKind(key));
    };
    named_form(text.as_bytes()).ok_or(MapFault::OutOfRange(key))
}

fn named_form(text: &[u8]) -> Option<FormWord>
    ensures { result ≡ form_of text.now }
{
    if text == b"integer".as_slice() {
        Some(FormWord::Integer)
    } else if text == b"decimal".as_slice() {
        Some(FormWord::Decimal)
    } else if text == b"clock".as_slice() {
        Some(FormWord::Clock)
    } else {
        None
    }
}

// What is before a time of day.
pub(crate) fn date(value: &Value, key: Key) -> Result<DateForm, MapFault>
    ensures { GivesSome (date_of (text_of_value (view value.now))) (value_fault key rule.date (view value.now)) result }
{
    let Some(text) = value.as_str() else {
        return Err(MapFault::WrongKind(key));
    };
    named_date(text.as_bytes()).ok_or(MapFault::OutOfRange(key))
}

fn named_date(text: &[u8]) -> Option<DateForm>
    ensures { result ≡ date_of text.now }
{
    if text == b"none".as_slice() {
        Some(DateForm::None)
    } else if text == b"mdy".as_slice() {
        Some(DateForm::Calendar(DateOrder::MonthDayYear))
    } else if text == b"dmy".as_slice() {
        Some(DateForm::Calendar(DateOrder::DayMonthYear))
    } else if text == b"ymd".as_slice() {
        Some(DateForm::Calendar(DateOrder::YearMonthDay))
    } else if text == b"day".as_slice() {
        Some(DateForm::DayOfYear)
    } else {
        None
    }
}

// What a number of a time counts.
pub(crate) fn unit(value: &Value, key: Key) -> Result<Unit, MapFault>
    ensures { GivesSome (unit_of (text_of_value (view value.now))) (value_fault key rule.unit (view value.now)) result }
{
    let Some(text) = value.as_str() else {
        return Err(MapFault::WrongKind(key));
    };
    named_unit(text.as_bytes()).ok_or(MapFault::OutOfRange(key))
}

fn named_unit(text: &[u8]) -> Option<Unit>
    ensures { result ≡ unit_of text.now }
{
    if text == b"s".as_slice() {
        Some(Unit::Second)
    } else if text == b"ms".as_slice() {
        Some(Unit::Millisecond)
    } else if text == b"us".as_slice() {
        Some(Unit::Microsecond)
    } else if text == b"ns".as_slice() {
        Some(Unit::Nanosecond)
    } else {
        None
    }
}

// The point of a time.
pub(crate) fn point(value: &Value, key: Key) -> Result<u8, MapFault>
    ensures { GivesSome (point_of (text_of_value (view value.now))) (value_fault key rule.point (view value.now)) result }
{
    let Some(text) = value.as_str() else {
        return Err(MapFault::WrongKind(key));
    };
    named_point(text.as_bytes()).ok_or(MapFault::OutOfRange(key))
}

fn named_point(text: &[u8]) -> Option<u8>
    ensures { result ≡ point_of text.now }
{
    if text == b".".as_slice() {
        Some(b'.')
    } else if text == b",".as_slice() {
        Some(b',')
    } else {
        None
    }
}

// What bit 32 is.
pub(crate) fn bit_word(value: &Value, key: Key) -> Result<BitWord, MapFault>
    ensures { GivesSome (bit_word_of (text_of_value (view value.now))) (value_fault key rule.bit_word (view value.now)) result }
{
    let Some(text) = value.as_str() else {
        return Err(MapFault::WrongKind(key));
    };
    named_bit(text.as_bytes()).ok_or(MapFault::OutOfRange(key))
}

fn named_bit(text: &[u8]) -> Option<BitWord>
    ensures { result ≡ bit_word_of text.now }
{
    if text == b"parity".as_slice() {
        Some(BitWord::Parity)
    } else if text == b"error_set".as_slice() {
        Some(BitWord::ErrorSet)
    } else if text == b"error_clear".as_slice() {
        Some(BitWord::ErrorClear)
    } else if text == b"absent".as_slice() {
        Some(BitWord::Absent)
    } else if text == b"column".as_slice() {
        Some(BitWord::Column)
    } else {
        None
    }
}

// The base of digits.
pub(crate) fn base(value: &Value, key: Key) -> Result<Base, MapFault>
    ensures { GivesSome (base_of (number_of_value (view value.now))) (value_fault key rule.base (view value.now)) result }
{
    let Some(number) = value.as_integer() else {
        return Err(MapFault::WrongKind(key));
    };
    match number {
        2 => Ok(Base::Binary),
        8 => Ok(Base::Octal),
        10 => Ok(Base::Decimal),
        16 => Ok(Base::Hexadecimal),
        _ => Err(MapFault::OutOfRange(key)),
    }
}

// The byte at which a field is cut, if it is cut.
pub(crate) fn split(value: &Value, key: Key) -> Result<Option<u8>, MapFault>
    ensures { Gives (split_of (text_of_value (view value.now))) (value_fault key rule.split (view value.now)) result }
{
    let Some(text) = value.as_str() else {
        return Err(MapFault::WrongKind(key));
    };
    match text.as_bytes() {
        [] => Ok(None),
        [byte] if byte.is_ascii() => Ok(Some(*byte)),
        _ => Err(MapFault::OutOfRange(key)),
    }
}
