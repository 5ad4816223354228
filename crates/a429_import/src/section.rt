//! Reads the sections of a map, key by key in their order.

ghost use Rattle.std.specs.Prelude.{◌≡◌, Some, None, Bool, false, IfOk, IfErr, option_map, if◌then◌else◌};
ghost use Rattle.toml.specs.Data.{string, integer, boolean, array, no_items};
ghost use Rattle.toml.specs.View.{view, table_view};
ghost use Rattle.a429_profile.specs.Key.{place_of};
ghost use Rattle.a429_import.specs.Fault.{Gives, GivesSome, GivesInMemory};
ghost use Rattle.a429_import.specs.Key.{section_row, section_place, section_fault, first_section_fault};
ghost use Rattle.a429_import.specs.Value as rule;
ghost use Rattle.a429_import.specs.Map.{text_at, texts_at, truth_at, column_at, number_at, row_keys, rows_of, time_keys, order_keys, time_fault, repeat_keys, repeats_of, written_time, order_rule, time_rule, time_form, channel_keys, channels_of, word_keys, word_rule, status_keys, status_of, parity_bit, parity_fault};
ghost use Rattle.a429_import.specs.Value.{date_of, separator_of, form_of, unit_of, point_of, bit_word_of};
ghost use Rattle.std.specs.Prelude.{pos, codes, []};

use crate::channel::Channels;
use crate::clock_time::{ClockForm, DateForm};
use crate::column::Column;
use crate::fault::MapFault;
use crate::key::{Key, SectionKey};
use crate::map::{RowRule, Separator, TimeRule, WordRule};
use crate::order::OrderRule;
use crate::parity::{ParityBit, Status};
use crate::repeats::RepeatRule;
use crate::texts::Texts;
use crate::time::{TimeForm, Unit};
use crate::turning::Turning;
use crate::value::{
    BitWord, FormWord, at, bit_word, column, date, form, micros, number, point, separator, text,
    texts, truth, unit, wraps,
};
use a429_profile::Text;
use std::alloc::Global;
use toml::{Table, Value};

// The value at a key of a section, if there is one.
fn in_section(doc: &Table, key: SectionKey) -> Result<Option<&Value>, MapFault>
    ensures ok { IfOk result (λ o. (header : Bool) → section_place header (table_view doc.now) key ≡ place_of (option_map (λ v. view v.now) o)) }
    ensures err { IfErr result (λ f. (header : Bool) → section_fault header (table_view doc.now) key ≡ Some f) }
{
    let Some(section) = at(doc, key.section()) else {
        return Ok(None);
    };
    match section.as_table() {
        Some(table) => Ok(at(table, key.name())),
        None => Err(MapFault::WrongKind(Key::Section(key))),
    }
}

fn truth_at(
    doc: &Table,
    header: bool,
    key: SectionKey,
    default: Option<bool>,
) -> Result<bool, MapFault>
    requires rule { (section_row header key).rule ≡ rule.truth }
    requires default { (section_row header key).default ≡ option_map boolean default }
    ensures { Gives (truth_at header (table_view doc.now) key) (section_fault header (table_view doc.now) key) result }
{
    match in_section(doc, key)? {
        Some(value) => truth(value, Key::Section(key)),
        None => default.ok_or(MapFault::Missing(Key::Section(key))),
    }
}

// A number, the lowest where it is missing.
fn number_at(
    doc: &Table,
    header: bool,
    key: SectionKey,
    low: u32,
    high: u32,
) -> Result<u32, MapFault>
    requires rule { (section_row header key).rule ≡ rule.number low high }
    requires default { (section_row header key).default ≡ Some (integer (pos low)) }
    ensures { Gives (number_at header (table_view doc.now) key) (section_fault header (table_view doc.now) key) result }
{
    match in_section(doc, key)? {
        Some(value) => number(value, Key::Section(key), low, high),
        None => Ok(low),
    }
}

// A text, empty where it is missing.
fn text_at(alloc: Global, doc: &Table, header: bool, key: SectionKey) -> Result<Text, MapFault>
    requires rule { (section_row header key).rule ≡ rule.text }
    requires default { (section_row header key).default ≡ Some (string []) }
    ensures { GivesInMemory (text_at header (table_view doc.now) key) (section_fault header (table_view doc.now) key) result }
{
    match in_section(doc, key)? {
        Some(value) => text(alloc, value, Key::Section(key)),
        None => Ok(Text::new(String::new(alloc))),
    }
}

// Texts that are needed.
fn texts_at(alloc: Global, doc: &Table, header: bool, key: SectionKey) -> Result<Texts, MapFault>
    requires rule { (section_row header key).rule ≡ rule.texts }
    requires default { (section_row header key).default ≡ None }
    ensures { GivesInMemory (texts_at header (table_view doc.now) key) (section_fault header (table_view doc.now) key) result }
{
    match in_section(doc, key)? {
        Some(value) => texts(alloc, value, Key::Section(key)),
        None => Err(MapFault::Missing(Key::Section(key))),
    }
}

// Texts, none where they are missing.
fn texts_or_none(
    alloc: Global,
    doc: &Table,
    header: bool,
    key: SectionKey,
) -> Result<Texts, MapFault>
    requires rule { (section_row header key).rule ≡ rule.texts }
    requires default { (section_row header key).default ≡ Some (array no_items) }
    ensures { GivesInMemory (texts_at header (table_view doc.now) key) (section_fault header (table_view doc.now) key) result }
{
    match in_section(doc, key)? {
        Some(value) => texts(alloc, value, Key::Section(key)),
        None => Ok(Texts::new(Vec::new(alloc))),
    }
}

fn column_at(alloc: Global, doc: &Table, header: bool, key: SectionKey) -> Result<Column, MapFault>
    requires rule { (section_row header key).rule ≡ rule.column header }
    requires default { (section_row header key).default ≡ None }
    ensures { GivesInMemory (column_at header (table_view doc.now) key) (section_fault header (table_view doc.now) key) result }
{
    match in_section(doc, key)? {
        Some(value) => column(alloc, value, Key::Section(key), header),
        None => Err(MapFault::Missing(Key::Section(key))),
    }
}

fn separator_at(doc: &Table, header: bool, key: SectionKey) -> Result<Separator, MapFault>
    requires rule { (section_row header key).rule ≡ rule.separator }
    requires default { (section_row header key).default ≡ None }
    ensures { GivesSome (separator_of (text_at header (table_view doc.now) key)) (section_fault header (table_view doc.now) key) result }
{
    match in_section(doc, key)? {
        Some(value) => separator(value, Key::Section(key)),
        None => Err(MapFault::Missing(Key::Section(key))),
    }
}

// Microseconds, 0 to 2^62; 0 where they are missing.
fn micros_at(doc: &Table, header: bool, key: SectionKey) -> Result<u64, MapFault>
    requires rule { (section_row header key).rule ≡ rule.number 0 4611686018427387904 }
    requires default { (section_row header key).default ≡ Some (integer (pos 0)) }
    ensures { Gives (number_at header (table_view doc.now) key) (section_fault header (table_view doc.now) key) result }
{
    match in_section(doc, key)? {
        Some(value) => micros(value, Key::Section(key)),
        None => Ok(0),
    }
}

// After how many microseconds a clock begins again; 0 where nothing is said.
fn wraps_at(doc: &Table, header: bool, key: SectionKey) -> Result<u64, MapFault>
    requires rule { (section_row header key).rule ≡ rule.wraps }
    requires default { (section_row header key).default ≡ Some (integer (pos 0)) }
    ensures { Gives (number_at header (table_view doc.now) key) (section_fault header (table_view doc.now) key) result }
{
    match in_section(doc, key)? {
        Some(value) => wraps(value, Key::Section(key)),
        None => Ok(0),
    }
}

fn form_at(doc: &Table, header: bool, key: SectionKey) -> Result<FormWord, MapFault>
    requires rule { (section_row header key).rule ≡ rule.form }
    requires default { (section_row header key).default ≡ None }
    ensures { GivesSome (form_of (text_at header (table_view doc.now) key)) (section_fault header (table_view doc.now) key) result }
{
    match in_section(doc, key)? {
        Some(value) => form(value, Key::Section(key)),
        None => Err(MapFault::Missing(Key::Section(key))),
    }
}

fn unit_at(doc: &Table, header: bool, key: SectionKey) -> Result<Unit, MapFault>
    requires rule { (section_row header key).rule ≡ rule.unit }
    requires default { (section_row header key).default ≡ Some (string (codes "us")) }
    ensures { GivesSome (unit_of (text_at header (table_view doc.now) key)) (section_fault header (table_view doc.now) key) result }
{
    match in_section(doc, key)? {
        Some(value) => unit(value, Key::Section(key)),
        None => Ok(Unit::Microsecond),
    }
}

fn point_at(doc: &Table, header: bool, key: SectionKey) -> Result<u8, MapFault>
    requires rule { (section_row header key).rule ≡ rule.point }
    requires default { (section_row header key).default ≡ Some (string (codes ".")) }
    ensures { GivesSome (point_of (text_at header (table_view doc.now) key)) (section_fault header (table_view doc.now) key) result }
{
    match in_section(doc, key)? {
        Some(value) => point(value, Key::Section(key)),
        None => Ok(b'.'),
    }
}

// What is before a time of day: nothing, where nothing is said.
fn date_at(doc: &Table, header: bool, key: SectionKey) -> Result<DateForm, MapFault>
    requires rule { (section_row header key).rule ≡ rule.date }
    requires default { (section_row header key).default ≡ Some (string (codes "none")) }
    ensures { GivesSome (date_of (text_at header (table_view doc.now) key)) (section_fault header (table_view doc.now) key) result }
{
    match in_section(doc, key)? {
        Some(value) => date(value, Key::Section(key)),
        None => Ok(DateForm::None),
    }
}

fn bit_word_at(doc: &Table, header: bool, key: SectionKey) -> Result<BitWord, MapFault>
    requires rule { (section_row header key).rule ≡ rule.bit_word }
    requires default { (section_row header key).default ≡ None }
    ensures { GivesSome (bit_word_of (text_at header (table_view doc.now) key)) (section_fault header (table_view doc.now) key) result }
{
    match in_section(doc, key)? {
        Some(value) => bit_word(value, Key::Section(key)),
        None => Err(MapFault::Missing(Key::Section(key))),
    }
}

/// The section `rows`.
pub(crate) fn read_rows(alloc: Global, doc: &Table) -> Result<RowRule, MapFault>
    ensures { GivesInMemory (rows_of (table_view doc.now)) (first_section_fault false (table_view doc.now) row_keys) result }
{
    let separator = separator_at(doc, false, SectionKey::Separator)?;
    let header = truth_at(doc, false, SectionKey::Header, None)?;
    let quotes = truth_at(doc, false, SectionKey::Quotes, Some(true))?;
    let skip = number_at(doc, false, SectionKey::Skip, 0, 1_000_000)?;
    let comment = text_at(alloc, doc, false, SectionKey::Comment)?;
    let pass = texts_or_none(alloc, doc, false, SectionKey::RowsPass)?;
    Ok(RowRule {
        separator,
        header,
        quotes,
        skip,
        comment,
        pass,
    })
}

// How a time of this form is written.
fn time_form(form: FormWord, clock: ClockForm) -> TimeForm
    ensures { result ≡ time_form form clock }
{
    match form {
        FormWord::Integer => TimeForm::Integer,
        FormWord::Decimal => TimeForm::Decimal(clock.point),
        FormWord::Clock => TimeForm::Clock(clock),
    }
}

/// The section `time`.
pub(crate) fn read_time_rule(alloc: Global, doc: &Table, header: bool) -> Result<TimeRule, MapFault>
    ensures { GivesInMemory (time_rule header (table_view doc.now)) (time_fault header (table_view doc.now)) result }
{
    let WrittenTime { column, form, unit } = read_written_time(alloc, doc, header)?;
    let order = read_order(doc, header)?;
    Ok(TimeRule {
        column,
        form,
        unit,
        order,
    })
}

// Where a time is, and how it is written.
#[derive(Drop)]
struct WrittenTime {
    column: Column,
    form: TimeForm,
    unit: Unit,
}

fn read_written_time(alloc: Global, doc: &Table, header: bool) -> Result<WrittenTime, MapFault>
    ensures { GivesInMemory (written_time header (table_view doc.now)) (first_section_fault header (table_view doc.now) time_keys) result }
{
    let column = column_at(alloc, doc, header, SectionKey::TimeColumn)?;
    let form = form_at(doc, header, SectionKey::TimeForm)?;
    let unit = unit_at(doc, header, SectionKey::TimeUnit)?;
    let point = point_at(doc, header, SectionKey::TimePoint)?;
    let date = date_at(doc, header, SectionKey::TimeDate)?;
    let half_days = truth_at(doc, header, SectionKey::HalfDays, Some(false))?;
    let clock = ClockForm {
        date,
        half_days,
        point,
    };
    Ok(WrittenTime {
        column,
        form: time_form(form, clock),
        unit,
    })
}

// How times are put in order.
fn read_order(doc: &Table, header: bool) -> Result<OrderRule, MapFault>
    ensures { Gives (order_rule header (table_view doc.now)) (first_section_fault header (table_view doc.now) order_keys) result }
{
    let wraps_at = wraps_at(doc, header, SectionKey::WrapsAt)?;
    let back = micros_at(doc, header, SectionKey::Back)?;
    let resets = truth_at(doc, header, SectionKey::Resets, Some(false))?;
    Ok(OrderRule {
        wraps_at,
        back,
        resets,
    })
}

/// The section `repeats`. Where repeats are not left out, no entries are compared.
pub(crate) fn read_repeats(doc: &Table, header: bool) -> Result<RepeatRule, MapFault>
    ensures { Gives (repeats_of header (table_view doc.now)) (first_section_fault header (table_view doc.now) repeat_keys) result }
{
    let drop = truth_at(doc, header, SectionKey::RepeatsDrop, Some(false))?;
    let within = number_at(doc, header, SectionKey::RepeatsWithin, 0, 1_000_000)?;
    let among = number_at(doc, header, SectionKey::RepeatsAmong, 1, 1_000_000)?;
    Ok(RepeatRule {
        within,
        among: if drop { among } else { 0 },
    })
}

/// The section `channel`.
pub(crate) fn read_channels(alloc: Global, doc: &Table, header: bool) -> Result<Channels, MapFault>
    ensures { GivesInMemory (channels_of header (table_view doc.now)) (first_section_fault header (table_view doc.now) channel_keys) result }
{
    let column = column_at(alloc, doc, header, SectionKey::ChannelColumn)?;
    let a = texts_at(alloc, doc, header, SectionKey::ChannelA)?;
    let b = texts_at(alloc, doc, header, SectionKey::ChannelB)?;
    let pass = texts_or_none(alloc, doc, header, SectionKey::ChannelPass)?;
    let pass_others = truth_at(doc, header, SectionKey::PassOthers, Some(false))?;
    Ok(Channels {
        column,
        a,
        b,
        pass,
        pass_others,
    })
}

/// The section `word`.
pub(crate) fn read_word_rule(doc: &Table) -> Result<WordRule, MapFault>
    ensures { Gives (word_rule (table_view doc.now)) (first_section_fault false (table_view doc.now) word_keys) result }
{
    let bit_32 = bit_word_at(doc, false, SectionKey::BitWord)?;
    let bytes = truth_at(doc, false, SectionKey::BytesReversed, Some(false))?;
    let label = truth_at(doc, false, SectionKey::LabelReversed, Some(false))?;
    Ok(WordRule {
        bit_32,
        turning: Turning { bytes, label },
    })
}

fn read_status(alloc: Global, doc: &Table, header: bool) -> Result<Status, MapFault>
    ensures { GivesInMemory (status_of header (table_view doc.now)) (first_section_fault header (table_view doc.now) status_keys) result }
{
    let column = column_at(alloc, doc, header, SectionKey::ErrorColumn)?;
    let good = texts_at(alloc, doc, header, SectionKey::ErrorGood)?;
    let bad = texts_at(alloc, doc, header, SectionKey::ErrorBad)?;
    Ok(Status { column, good, bad })
}

/// What bit 32 is; the section `error` is looked at only where a column says it.
pub(crate) fn read_parity_bit(
    alloc: Global,
    doc: &Table,
    header: bool,
    word: BitWord,
) -> Result<ParityBit, MapFault>
    ensures { GivesInMemory (parity_bit header (table_view doc.now) word) (parity_fault header (table_view doc.now) word) result }
{
    match word {
        BitWord::Parity => Ok(ParityBit::Received),
        BitWord::ErrorSet => Ok(ParityBit::ErrorSet),
        BitWord::ErrorClear => Ok(ParityBit::ErrorClear),
        BitWord::Absent => Ok(ParityBit::Absent),
        BitWord::Column => {
            let status = read_status(alloc, doc, header)?;
            Ok(ParityBit::Status(status))
        }
    }
}
