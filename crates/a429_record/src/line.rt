//! What one line holds: its row, by a scan or by `csv`, and its entry.

ghost use Rattle.std.specs.Prelude.{◌≡◌, ◌↔◌, ◌<◌, ◌∷◌, [], ◌==◌, IsTrue, IfOk, IfErr, IfSome, length, take, slice_index};
ghost use Rattle.std.specs.List.{list_all};
ghost use Rattle.csv.specs.Reading.{strip_bom, default_config, records};
ghost use Rattle.a429_record.specs.Ends.{HasNoEnd};
ghost use Rattle.a429_record.specs.Line.{line_entries, found_rows, found_entries};
ghost use Rattle.a429_record.specs.Plain.{IsLineEnd};
ghost use Rattle.a429_record.specs.Row.{line_rows, rows_in};
ghost use Rattle.a429_record.specs.declared.fault.ReadFault.TheVariants as fault;

use crate::entry::Entry;
use crate::fault::ReadFault;
use crate::plain::plain_row;
use crate::row::entry_of;
use crate::scan::{Place, ScanFault, next_record};
use csv::{ByteRecord, ReaderBuilder};
use std::alloc::Global;

// A byte order mark.
const MARK: [u8; 3] = [0xef, 0xbb, 0xbf];

// How many fields an entry has, and how many bytes at most: a time of 20 digits, a bus and a word.
const ROW_FIELDS: usize = 3;

const ROW_BYTES: usize = 29;

/// The row of a line.
#[derive(Drop)]
pub enum LineRow {
    /// No record.
    Blank,
    /// One record.
    One(ByteRecord),
    /// Two records or more.
    Several,
}

/// The row of a line as an entry.
#[derive(Clone, Copy, Drop)]
pub enum LineEntry {
    /// No record.
    Blank,
    /// An entry.
    One(Entry),
    /// A row that is no entry.
    Bad,
}

/// The row of a line, which comes without its line feed.
pub fn row_in_line(alloc: Global, line: &[u8]) -> Result<LineRow, ReadFault>
    ensures ok { IfOk result (λ r. found_rows r ≡ line_rows line.now) }
    ensures err { IfErr result (λ f. f ≡ fault.OutOfMemory) }
{
    let text = without_mark(line);
    if is_blank(text) {
        return Ok(LineRow::Blank);
    }
    match row_by_scan(alloc, text) {
        Ok(row) => Ok(row),
        Err(ScanFault::QuoteInside) => row_by_csv(alloc, line),
        Err(ScanFault::OutOfMemory) => Err(ReadFault::OutOfMemory),
    }
}

/// The entry of a line, which comes without its line feed.
pub fn entry_in_line(alloc: Global, line: &[u8]) -> Result<LineEntry, ReadFault>
    ensures ok { IfOk result (λ e. found_entries e ≡ line_entries line.now) }
    ensures err { IfErr result (λ f. f ≡ fault.OutOfMemory) }
{
    if let Some(entry) = plain_entry(line) {
        return Ok(LineEntry::One(entry));
    }
    match row_in_line(alloc, line) {
        Ok(LineRow::Blank) => Ok(LineEntry::Blank),
        Ok(LineRow::One(row)) => match entry_of(&row) {
            Some(entry) => Ok(LineEntry::One(entry)),
            None => Ok(LineEntry::Bad),
        },
        Ok(LineRow::Several) => Ok(LineEntry::Bad),
        Err(fault) => Err(fault),
    }
}

// The row of a line without its byte order mark, where no quote is inside quotes.
fn row_by_scan(alloc: Global, text: &[u8]) -> Result<LineRow, ScanFault>
    ensures { IfOk result (λ r. found_rows r ≡ rows_in (records default_config text.now)) }
{
    let mut row = ByteRecord::with_capacity(alloc, ROW_BYTES, ROW_FIELDS)?;
    let mut field = Vec::with_capacity(alloc, ROW_BYTES)?;
    let Some(end) = next_record(Place::Start, text, &mut row, &mut field)? else {
        return Ok(LineRow::Blank);
    };
    let mut next = ByteRecord::new(alloc);
    let second = next_record(end.place, &text[end.len..], &mut next, &mut field)?;
    match second {
        Some(_) => Ok(LineRow::Several),
        None => Ok(LineRow::One(row)),
    }
}

// The row of a line, read by `csv` as a text of its own.
fn row_by_csv(alloc: Global, line: &[u8]) -> Result<LineRow, ReadFault>
    ensures ok { IfOk result (λ r. found_rows r ≡ line_rows line.now) }
    ensures err { IfErr result (λ f. f ≡ fault.OutOfMemory) }
{
    let mut reader = ReaderBuilder::new()
        .has_headers(false)
        .flexible(true)
        .from_reader(alloc, line);
    let mut row = ByteRecord::new(alloc);
    let Ok(found) = reader.read_byte_record(&mut row) else {
        return Err(ReadFault::OutOfMemory);
    };
    if !found {
        return Ok(LineRow::Blank);
    }
    let mut next = ByteRecord::new(alloc);
    let Ok(more) = reader.read_byte_record(&mut next) else {
        return Err(ReadFault::OutOfMemory);
    };
    if more {
        return Ok(LineRow::Several);
    }
    Ok(LineRow::One(row))
}

/// A line without the byte order mark that it may begin with.
pub fn without_mark(line: &[u8]) -> &[u8]
    ensures { result.now ≡ strip_bom line.now }
{
    if line.starts_with(&MARK) {
        &line[MARK.len()..]
    } else {
        line
    }
}

// Whether the line has nothing but carriage returns, as many lines have in some recordings. They are read without
// memory.
fn is_blank(line: &[u8]) -> bool
    ensures { result ≡ list_all (λ b. b == 13) line.now }
{
    line.iter().all(|byte| *byte == b'\r')
}

/// The line that bytes begin with, as an entry.
#[derive(Clone, Copy, Drop)]
pub struct FrontLine {
    pub entry: Entry,
    /// How many bytes it has, without its line feed.
    pub len: usize,
}

/// The entry of the line that bytes begin with, where it has its line feed, and nothing but a plain row
/// and at most a carriage return after it.
#[inline(always)]
pub fn front_line(bytes: &[u8]) -> Option<FrontLine>
    ensures inside { IfSome result (λ l. l.len < length bytes.now) }
    ensures one { IfSome result (λ l. HasNoEnd (take l.len bytes.now)) }
    ensures entry { IfSome result (λ l. line_entries (take l.len bytes.now) ≡ Some l.entry ∷ []) }
    ensures ended { IfSome result (λ l. slice_index bytes.now l.len ≡ 10) }
{
    let row = plain_row(bytes)?;
    match &bytes[row.len..] {
        [b'\n', ..] => Some(FrontLine {
            entry: row.entry,
            len: row.len,
        }),
        [b'\r', b'\n', ..] => Some(FrontLine {
            entry: row.entry,
            len: row.len + 1,
        }),
        _ => None,
    }
}

// The entry of a line that has nothing but a plain row, and at most a carriage return after it.
fn plain_entry(line: &[u8]) -> Option<Entry>
    ensures { IfSome result (λ e. line_entries line.now ≡ Some e ∷ []) }
{
    let row = plain_row(line)?;
    if is_line_end(&line[row.len..]) {
        Some(row.entry)
    } else {
        None
    }
}

// Whether bytes are nothing, or a carriage return.
fn is_line_end(rest: &[u8]) -> bool
    ensures { IsTrue result ↔ IsLineEnd rest.now }
{
    rest.is_empty() || rest == b"\r".as_slice()
}
