//! Maps: what the rows of an export mean.

ghost use Rattle.std.specs.Prelude.{◌≡◌, ◌≢◌, ◌≤◌, ◌++◌, ◌||◌, Err, IfOk};
ghost use Rattle.toml.specs.Parse.{parse_document};
ghost use Rattle.toml.specs.View.{table_view};
ghost use Rattle.a429_import.specs.Fault.{GivesInMemory};
ghost use Rattle.a429_import.specs.Texts.{has_twin};
ghost use Rattle.a429_import.specs.Map.{sections_of, Answers, bits_needed, looks_at_bit_32, map_fault, map_of, sections_fault, twins_fault, twin_channel, twin_status};

use crate::channel::Channels;
use crate::column::Column;
use crate::fault::MapFault;
use crate::order::OrderRule;
use crate::parity::ParityBit;
use crate::parts::{Parts, read_parts};
use crate::repeats::RepeatRule;
use crate::section::{
    read_channels, read_parity_bit, read_repeats, read_rows, read_time_rule, read_word_rule,
};
use crate::texts::{Texts, has_twin, share};
use crate::time::{TimeForm, Unit};
use crate::turning::Turning;
use crate::value::BitWord;
use a429_profile::Text;
use std::alloc::Global;
use toml::Table;

/// What is between the fields of a row (profile).
#[derive(Clone, Copy, Debug)]
pub enum Separator {
    /// This byte of ASCII.
    Byte(u8),
    /// One or more blanks or tabs; there are no quotes then.
    Blanks,
}

/// How the lines of an export are rows (profile).
#[derive(Drop)]
pub struct RowRule {
    pub separator: Separator,
    /// Whether a row names the columns.
    pub header: bool,
    /// Whether a field may be in quotes, two of them for one inside.
    pub quotes: bool,
    /// How many lines are passed over first, 0 to 1,000,000.
    pub skip: u32,
    /// Lines that begin with this are passed over; none where it is empty.
    pub comment: Text,
    /// Rows whose first field is one of these are passed over.
    pub pass: Texts,
}

/// Where a row's time is, and how it is written (profile).
#[derive(Drop)]
pub struct TimeRule {
    pub column: Column,
    pub form: TimeForm,
    pub unit: Unit,
    pub order: OrderRule,
}

/// What is done with a word that was put together (profile).
#[derive(Clone, Copy)]
pub(crate) struct WordRule {
    pub(crate) bit_32: BitWord,
    pub(crate) turning: Turning,
}

/// A map (profile): what the rows of an export mean.
#[derive(Drop)]
pub struct Map {
    pub rows: RowRule,
    pub time: TimeRule,
    pub channels: Channels,
    pub turning: Turning,
    pub repeats: RepeatRule,
    /// What bit 32 of the export's words is.
    pub parity: ParityBit,
    pub parts: Parts,
}

/// Reads a map from its text, a TOML document. The fault is the first one: of the keys of the sections in their order, of the
/// parts one by one, a bit that is in no part, or a text that is given twice; or `OutOfMemory`, where memory was refused.
pub fn read_map(alloc: Global, text: &str) -> Result<Map, MapFault>
    ensures { result ≢ Err MapFault.OutOfMemory → Answers (parse_document text.now) result }
{
    match toml::table_from_str(alloc, text) {
        Ok(doc) => read_document(alloc, &doc),
        Err(error) => {
            if error.is_memory() {
                Err(MapFault::OutOfMemory)
            } else {
                Err(MapFault::NotToml)
            }
        }
    }
}

// The map of a document.
fn read_document(alloc: Global, doc: &Table) -> Result<Map, MapFault>
    ensures { GivesInMemory (map_of (table_view doc.now)) (map_fault (table_view doc.now)) result }
{
    let Sections {
        rows,
        time,
        channels,
        word,
        repeats,
        parity,
    } = read_sections(alloc, doc)?;
    let parts = read_parts(alloc, doc, rows.header)?;
    if let Some(fault) = parts.missing(bits_needed(word)) {
        return Err(fault);
    }
    if let Some(fault) = twins(&parity, &channels) {
        return Err(fault);
    }
    Ok(Map {
        rows,
        time,
        channels,
        turning: word.turning,
        repeats,
        parity,
        parts,
    })
}

// What the sections say.
#[derive(Drop)]
struct Sections {
    rows: RowRule,
    time: TimeRule,
    channels: Channels,
    word: WordRule,
    repeats: RepeatRule,
    parity: ParityBit,
}

fn read_sections(alloc: Global, doc: &Table) -> Result<Sections, MapFault>
    ensures { GivesInMemory (sections_of (table_view doc.now)) (sections_fault (table_view doc.now)) result }
{
    let rows = read_rows(alloc, doc)?;
    let time = read_time_rule(alloc, doc, rows.header)?;
    let channels = read_channels(alloc, doc, rows.header)?;
    let word = read_word_rule(doc)?;
    let repeats = read_repeats(doc, rows.header)?;
    let parity = read_parity_bit(alloc, doc, rows.header, word.bit_32)?;
    Ok(Sections {
        rows,
        time,
        channels,
        word,
        repeats,
        parity,
    })
}

// How many bits, from bit 1 on, the parts must have.
fn bits_needed(word: WordRule) -> u8
    ensures needed { result ≡ bits_needed word }
    ensures most { result ≤ 32 }
{
    if looks_at_bit_32(word.bit_32) || word.turning.bytes {
        32
    } else {
        31
    }
}

fn looks_at_bit_32(word: BitWord) -> bool
    ensures { result ≡ looks_at_bit_32 word }
{
    match word {
        BitWord::Parity | BitWord::ErrorSet | BitWord::ErrorClear => true,
        BitWord::Absent | BitWord::Column => false,
    }
}

// A status or a channel's name that is given twice.
fn twins(parity: &ParityBit, channels: &Channels) -> Option<MapFault>
    ensures { result ≡ twins_fault parity.now channels.now }
{
    if has_twin_status(parity) {
        Some(MapFault::StatusTwice)
    } else if has_twin_channel(channels) {
        Some(MapFault::ChannelTwice)
    } else {
        None
    }
}

fn has_twin_status(parity: &ParityBit) -> bool
    ensures { result ≡ twin_status parity.now }
{
    match parity {
        ParityBit::Status(status) => have_twin(status.good.as_slice(), status.bad.as_slice()),
        _ => false,
    }
}

#[tactic(auto, using(crate::proofs::TextsFacts::has_twin_join))]
fn have_twin(some: &[Text], more: &[Text]) -> bool
    ensures { result ≡ has_twin (some.now ++ more.now) }
{
    has_twin(some) || share(some, more) || has_twin(more)
}

#[tactic(auto, using(crate::proofs::TextsFacts::has_twin_three))]
fn has_twin_channel(channels: &Channels) -> bool
    ensures { result ≡ twin_channel channels.now }
{
    let a = channels.a.as_slice();
    let b = channels.b.as_slice();
    let pass = channels.pass.as_slice();
    has_twin(a) || share(a, b) || share(a, pass) || have_twin(b, pass)
}
