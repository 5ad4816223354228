//! Reads the label table, entry by entry in the order of the file.

ghost use Rattle.std.specs.Prelude.{◌≡◌, ◌≢◌, IfOk, IfErr, OnOk, Some, None, true, false, codes, map};
ghost use Rattle.std.specs.List.{list_all};
ghost use Rattle.toml.specs.View.{view, table_view};
ghost use Rattle.a429_profile.specs.Fault.{Gives, GivesInMemory};
ghost use Rattle.a429_profile.specs.Value.{octal, number, printable, is_table};
ghost use Rattle.a429_profile.specs.Key.{label_row};
ghost use Rattle.a429_profile.specs.declared.entry.KindWord.TheVariants as word;
ghost use Rattle.a429_profile.specs.Labels.{label_fault, label_number, kind_word_in_table, GivesKind, GivesKindInMemory, entry_fault, entry_in_table, table_of, entries_fault, labels_fault, labels_of, label_text, label_in_table, sdi_in_table};

use crate::entry::{Kind, KindWord, LabelEntry, Text};
use crate::fault::ProfileFault;
use crate::flags::flags;
use crate::key::{Key, LabelKey};
use crate::value::{Lengths, at, elements, in_label, kind_word, number, octal, printable, small};
use std::alloc::Global;
use toml::{Table, Value};

const NAME_LENGTHS: Lengths = Lengths { least: 1, most: 32 };

const UNIT_LENGTHS: Lengths = Lengths { least: 0, most: 16 };

fn small_at(
    table: &Table,
    position: usize,
    key: LabelKey,
    low: u8,
    high: u8,
) -> Result<u8, ProfileFault>
    requires rule { (label_row key).rule ≡ number low high }
    requires needed { (label_row key).may_be_missing ≡ false }
    ensures { Gives (label_number (table_view table.now) key) (label_fault position (table_view table.now) key) result }
{
    let value = in_label(table, position, key)?;
    small(value, Key::Label(position, key), low, high)
}

// A text of printable characters.
fn text_at(
    alloc: Global,
    table: &Table,
    position: usize,
    key: LabelKey,
    lengths: Lengths,
) -> Result<Text, ProfileFault>
    requires rule { (label_row key).rule ≡ printable lengths.least lengths.most }
    requires needed { (label_row key).may_be_missing ≡ false }
    ensures { GivesInMemory (label_text (table_view table.now) key) (label_fault position (table_view table.now) key) result }
{
    let value = in_label(table, position, key)?;
    printable(alloc, value, Key::Label(position, key), lengths)
}

fn label_at(table: &Table, position: usize) -> Result<u8, ProfileFault>
    ensures { Gives (label_in_table (table_view table.now)) (label_fault position (table_view table.now) LabelKey.Octal) result }
{
    let value = in_label(table, position, LabelKey::Octal)?;
    octal(value, Key::Label(position, LabelKey::Octal))
}

// The SDI, which may be missing.
fn sdi_at(table: &Table, position: usize) -> Result<Option<u8>, ProfileFault>
    ensures { Gives (sdi_in_table (table_view table.now)) (label_fault position (table_view table.now) LabelKey.Sdi) result }
{
    match at(table, LabelKey::Sdi.name()) {
        None => Ok(None),
        Some(value) => {
            let sdi = small(value, Key::Label(position, LabelKey::Sdi), 0, 3)?;
            Ok(Some(sdi))
        }
    }
}

fn word_at(table: &Table, position: usize) -> Result<KindWord, ProfileFault>
    ensures ok { OnOk result (label_fault position (table_view table.now) LabelKey.Kind ≡ None) }
    ensures value { IfOk result (λ w. kind_word_in_table (table_view table.now) ≡ Some w) }
    ensures err { IfErr result (λ f. label_fault position (table_view table.now) LabelKey.Kind ≡ Some f) }
{
    let value = in_label(table, position, LabelKey::Kind)?;
    kind_word(value, Key::Label(position, LabelKey::Kind))
}

fn read_bnr(table: &Table, position: usize) -> Result<Kind, ProfileFault>
    ensures { GivesKind position (table_view table.now) word.Bnr result }
{
    let bits = small_at(table, position, LabelKey::Bits, 1, 18)?;
    let value = in_label(table, position, LabelKey::Range)?;
    let range = number(
        value,
        Key::Label(position, LabelKey::Range),
        1,
        1_000_000_000,
    )?;
    let decimals = small_at(table, position, LabelKey::Decimals, 0, 6)?;
    Ok(Kind::Bnr {
        bits,
        range,
        decimals,
    })
}

fn read_bcd(table: &Table, position: usize) -> Result<Kind, ProfileFault>
    ensures { GivesKind position (table_view table.now) word.Bcd result }
{
    let digits = small_at(table, position, LabelKey::Digits, 1, 5)?;
    let decimals = small_at(table, position, LabelKey::Decimals, 0, 6)?;
    Ok(Kind::Bcd { digits, decimals })
}

fn read_discrete(alloc: Global, table: &Table, position: usize) -> Result<Kind, ProfileFault>
    ensures { GivesKindInMemory position (table_view table.now) word.Discrete result }
{
    let value = in_label(table, position, LabelKey::Flags)?;
    let flags = flags(alloc, value, Key::Label(position, LabelKey::Flags))?;
    Ok(Kind::Discrete { flags })
}

fn read_kind(
    alloc: Global,
    table: &Table,
    position: usize,
    word: KindWord,
) -> Result<Kind, ProfileFault>
    ensures { GivesKindInMemory position (table_view table.now) word result }
{
    match word {
        KindWord::Bnr => read_bnr(table, position),
        KindWord::Bcd => read_bcd(table, position),
        KindWord::Discrete => read_discrete(alloc, table, position),
    }
}

// The entry that the table at this position describes.
fn read_entry(alloc: Global, table: &Table, position: usize) -> Result<LabelEntry, ProfileFault>
    ensures { GivesInMemory (entry_in_table (table_view table.now)) (entry_fault position (table_view table.now)) result }
{
    let label = label_at(table, position)?;
    let sdi = sdi_at(table, position)?;
    let name = text_at(alloc, table, position, LabelKey::Name, NAME_LENGTHS)?;
    let unit = text_at(alloc, table, position, LabelKey::Unit, UNIT_LENGTHS)?;
    let word = word_at(table, position)?;
    let kind = read_kind(alloc, table, position, word)?;
    Ok(LabelEntry {
        label,
        sdi,
        name,
        unit,
        kind,
    })
}

/// The entries of the array `label`, which may be missing.
pub(crate) fn read_labels(alloc: Global, doc: &Table) -> Result<Vec<LabelEntry>, ProfileFault>
    ensures ok { OnOk result (labels_fault (table_view doc.now) ≡ None) }
    ensures value { IfOk result (λ v. v.items ≡ labels_of (table_view doc.now)) }
    ensures err { IfErr result (λ f. f ≢ ProfileFault.OutOfMemory → labels_fault (table_view doc.now) ≡ Some f) }
{
    let Some(value) = at(doc, "label") else {
        return Ok(Vec::new(alloc));
    };
    let Some(values) = elements(value) else {
        return Err(ProfileFault::WrongKind(Key::Labels));
    };
    if !are_tables(values) {
        return Err(ProfileFault::WrongKind(Key::Labels));
    }
    read_entries(alloc, values)
}

fn are_tables(values: &[Value]) -> bool
    ensures { result ≡ list_all (λ v. is_table (view v)) values.now }
{
    values.iter().all(|value| value.is_table())
}

// The entries that tables describe, in their order.
fn read_entries(alloc: Global, values: &[Value]) -> Result<Vec<LabelEntry>, ProfileFault>
    requires { list_all (λ v. is_table (view v)) values.now ≡ true }
    ensures ok { OnOk result (entries_fault 0 (map view values.now) ≡ None) }
    ensures value { IfOk result (λ v. v.items ≡ map (λ e. entry_in_table (table_of (view e))) values.now) }
    ensures err { IfErr result (λ f. f ≢ ProfileFault.OutOfMemory → entries_fault 0 (map view values.now) ≡ Some f) }
{
    let mut entries = Vec::new(alloc);
    for (position, value) in values.iter().enumerate() {
        let entry = read_table(alloc, value, position)?;
        match entries.push(entry) {
            Ok(()) => {}
            Err(_) => return Err(ProfileFault::OutOfMemory),
        }
    }
    Ok(entries)
}

// The entry that a table describes.
fn read_table(alloc: Global, value: &Value, position: usize) -> Result<LabelEntry, ProfileFault>
    requires { is_table (view value.now) ≡ true }
    ensures { GivesInMemory (entry_in_table (table_of (view value.now))) (entry_fault position (table_of (view value.now))) result }
{
    match value.as_table() {
        Some(table) => read_entry(alloc, table, position),
        None => unreachable!(),
    }
}
