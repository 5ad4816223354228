//! Recordings made of exports, written while an export is read.

ghost use Rattle.std.specs.Prelude.{◌≡◌, ◌≢◌, ◌↔◌, ◌+◌, ◌<◌, ◌^◌, ◌∷◌, [], length, true, false, unwrap_or, List, IfOk, IfErr, IsErrOf, OnOk, ◌++◌, IsSome, None, Ok, Err, ◌⊎◌};
ghost use Rattle.std.specs.List.{flat_map};
ghost use Rattle.a429_record.specs.Writing.{line_text};
ghost use Rattle.a429_word.specs.Sheet.{Says, sheet_failed};
ghost use Rattle.a429_word.specs.Tally.{has_failed, unread};
ghost use Rattle.a429_import.specs.Columns.{field_at};
ghost use Rattle.a429_import.specs.Fields.{fields_in, fields_left};
ghost use Rattle.a429_import.specs.Import.{at_start, entry_before, columns_with, first_columns, fields_lot, is_comment, lot_of, past_after, progress_after};
ghost use Rattle.a429_import.specs.Texts.{has_text};
ghost use Rattle.a429_import.specs.declared.lot.Lot.{Lot as ALot};
ghost use Rattle.a429_import.specs.Importing.{Answers, AreImported, ImportsAll, ImportsUntil};

use crate::columns::{Columns, find_columns};
use crate::counts::Counts;
use crate::fault::{ExportFault, ImportFault};
use crate::fields::{Fields, csv_record, cut, find_starts, is_all_blank, without_returns, words};
use crate::lot::Lot;
use crate::map::{Map, Separator};
use crate::past::Past;
use crate::places::{Place, push_places};
use crate::progress::Progress;
use crate::row::Row;
use crate::texts::Texts;
use a429_record::{EntryText, Lines, ReadFault, put_header, without_mark};
use a429_word::{Sheet, Tally};
use std::alloc::{AllocError, Global};
use std::io::{Read, Write};

/// What became of the lines of an export.
#[derive(Drop)]
pub struct Import {
    pub counts: Counts,
    /// Where its clock jumps, in their order.
    pub places: Vec<Place>,
}

impl Progress {
    // What becomes of the next line.
    fn turn(
        &mut self,
        alloc: Global,
        map: &Map,
        line: &[u8],
        starts: &mut Vec<usize>,
    ) -> Result<Lot, ImportFault>
        requires { self.old.lines + 1 < 2 ^ 64 }
        ensures answers { Answers (lot_of map.now self.old line.now) result }
        ensures after { IfOk result (λ l. self.new ≡ progress_after map.now self.old line.now l) }
    {
        let lot = self.lot(alloc, map, line, starts)?;
        self.lines += 1;
        match self.add(map, &lot) {
            Ok(()) => Ok(lot),
            Err(_) => Err(ImportFault::OutOfMemory),
        }
    }

    // After an entry, if it is one.
    fn add(&mut self, map: &Map, lot: &Lot) -> Result<(), AllocError>
        ensures past { OnOk result (self.new.past ≡ past_after map.now.repeats self.old.past lot.now) }
        ensures columns { self.new.columns ≡ self.old.columns }
        ensures lines { self.new.lines ≡ self.old.lines }
    {
        match lot {
            Lot::Written { entry, mend, .. } => self.past.add(map.repeats, *entry, *mend),
            _ => Ok(()),
        }
    }

    // The same, where only the columns change.
    fn lot(
        &mut self,
        alloc: Global,
        map: &Map,
        line: &[u8],
        starts: &mut Vec<usize>,
    ) -> Result<Lot, ImportFault>
        requires { self.old.lines + 1 < 2 ^ 64 }
        ensures answers { Answers (lot_of map.now self.old line.now) result }
        ensures columns { IfOk result (λ l. self.new.columns ≡ columns_with map.now self.old.columns (fields_in map.now.rows line.now) l) }
        ensures lines { self.new.lines ≡ self.old.lines }
        ensures past { self.new.past ≡ self.old.past }
    {
        let rows = &map.rows;
        if self.lines < u64::from(rows.skip) {
            return Ok(Lot::Skipped);
        }
        let line = without_returns(line);
        let text = without_mark(line);
        if is_all_blank(text) {
            return Ok(Lot::Empty);
        }
        if is_comment(rows.comment.as_str().as_bytes(), text) {
            return Ok(Lot::Comment);
        }
        match rows.separator {
            Separator::Blanks => self.lot_of(alloc, map, words(text)),
            Separator::Byte(at) => {
                let Ok(plain) = find_starts(at, rows.quotes, text, starts) else {
                    return Err(ImportFault::OutOfMemory);
                };
                if plain {
                    self.lot_of(alloc, map, cut(at, rows.quotes, text, starts.as_slice()))
                } else {
                    let Ok(row) = csv_record(alloc, at, rows.quotes, line) else {
                        return Err(ImportFault::OutOfMemory);
                    };
                    self.lot_of(alloc, map, Fields::Record(&row, 0))
                }
            }
        }
    }

    // The same for the fields of a line.
    fn lot_of(&mut self, alloc: Global, map: &Map, fields: Fields<'_>) -> Result<Lot, ImportFault>
        requires lines { self.old.lines + 1 < 2 ^ 64 }
        requires fields { length (fields_left fields) < 2 ^ 64 }
        ensures answers { Answers (fields_lot map.now self.old self.old.columns (fields_left fields.entry)) result }
        ensures columns { IfOk result (λ l. self.new.columns ≡ columns_with map.now self.old.columns (fields_left fields.entry) l) }
        ensures lines { self.new.lines ≡ self.old.lines }
        ensures past { self.new.past ≡ self.old.past }
    {
        match &self.columns {
            Some(columns) => {
                if is_passed(&map.rows.pass, fields) {
                    return Ok(Lot::RowPassed);
                }
                let row = Row {
                    map,
                    columns,
                    fields,
                    line: self.lines + 1,
                    past: &self.past,
                };
                match row.lot() {
                    Ok(lot) => Ok(lot),
                    Err(fault) => Err(ImportFault::Export(fault)),
                }
            }
            None => match find_columns(alloc, map, fields) {
                Ok(columns) => {
                    self.columns = columns;
                    Ok(Lot::Heading)
                }
                Err(_) => Err(ImportFault::OutOfMemory),
            },
        }
    }
}

impl Import {
    // And the line of this number, of which this becomes.
    fn add(&mut self, line: u64, lot: &Lot) -> Result<(), AllocError>
        ensures { (lots : List ALot) → length lots + 1 < 2 ^ 64 → line ≡ length lots + 1 → AreImported self.old lots → OnOk result (AreImported self.new (lots ++ lot.now ∷ [])) }
    {
        match push_places(&mut self.places, self.counts.entries, line, lot) {
            Ok(()) => {}
            Err(fault) => return Err(fault),
        }
        self.counts = self.counts.with(lot);
        Ok(())
    }
}

// Whether a row is passed over for its first field.
fn is_passed(pass: &Texts, fields: Fields<'_>) -> bool
    ensures { result ≡ has_text pass.now (field_at (fields_left fields.entry) 0) }
{
    !pass.as_slice().is_empty() && pass.has(fields.at(0))
}

// Whether a line begins with what comments begin with, if there is anything.
fn is_comment(mark: &[u8], text: &[u8]) -> bool
    ensures { result ≡ is_comment mark.now text.now }
{
    !mark.is_empty() && text.starts_with(mark)
}

// Where an export is begun. Where no row names the columns, they are known.
fn at_start(alloc: Global, map: &Map) -> Result<Progress, ImportFault>
    ensures start { IfOk result (λ s. s ≡ at_start map.now) }
    ensures err { IfErr result (λ f. f ≡ ImportFault.OutOfMemory) }
{
    let Ok(columns) = first_columns(alloc, map) else {
        return Err(ImportFault::OutOfMemory);
    };
    Ok(Progress {
        lines: 0,
        columns,
        past: Past::new(alloc),
    })
}

fn first_columns(alloc: Global, map: &Map) -> Result<Option<Columns>, AllocError>
    ensures { IfOk result (λ c. c ≡ first_columns map.now) }
{
    if map.rows.header {
        Ok(None)
    } else {
        find_columns(alloc, map, Fields::End)
    }
}

/// Puts the text recording that an export is by a map, as it is read, and answers what became of its lines. Where the export has a fault,
/// the header and the rows of the entries before it are put. Where the sheet fails it stops and answers `Ok`: ask the sheet.
///
/// Faults: `Export` with the export's first fault; `Device` exactly where the reader has failed; `OutOfMemory` where memory was refused.
pub fn put_import<R: Read, W: Write>(
    alloc: Global,
    map: &Map,
    export: &mut Tally<R>,
    sheet: &mut Sheet<'_, W>,
) -> Result<Import, ImportFault>
    requires { has_failed export.old ≡ false }
    ensures all { IfOk result (ImportsAll W.contents (record { map = map.now; bytes = unread R.remaining export.old }) sheet.old sheet.new) }
    ensures until { IfErr result (ImportsUntil W.contents (record { map = map.now; bytes = unread R.remaining export.old }) sheet.old sheet.new) }
    ensures device { IsErrOf result ImportFault.Device ↔ (has_failed export.new ≡ true) }
{
    // (for the proof: the bytes, and so the lines, are fewer than 2^64)
    let _most = export.left();
    put_header(sheet);
    let mut progress = match at_start(alloc, map) {
        Ok(progress) => progress,
        Err(fault) => return Err(fault),
    };
    let mut import = Import {
        counts: Counts::new(),
        places: Vec::new(alloc),
    };
    let mut lines = Lines::new();
    let mut line = Vec::new(alloc);
    let mut starts = Vec::new(alloc);
    let mut text = EntryText::new();
    'lines: loop {
        if sheet.failed() {
            return Ok(import);
        }
        let more = match lines.next_line(export, &mut line) {
            Ok(more) => more,
            Err(fault) => return Err(read_fault(fault)),
        };
        if !more {
            return at_end(&progress, import);
        }
        let lot = match progress.turn(alloc, map, line.as_slice(), &mut starts) {
            Ok(lot) => lot,
            Err(fault) => return Err(fault),
        };
        match import.add(progress.lines, &lot) {
            Ok(()) => {}
            Err(_) => return Err(ImportFault::OutOfMemory),
        }
        put_lot(sheet, &mut text, &lot);
    }
}

// At the end of the lines the columns must be known.
fn at_end(progress: &Progress, import: Import) -> Result<Import, ImportFault>
    ensures ok { IfOk result (λ i. (i ≡ import) × IsSome progress.now.columns) }
    ensures err { IfErr result (λ f. (f ≡ ImportFault.Export ExportFault.Header) × (progress.now.columns ≡ None)) }
{
    match progress.columns {
        Some(_) => Ok(import),
        None => Err(ImportFault::Export(ExportFault::Header)),
    }
}

// A fault of reading a line: the device, or memory.
fn read_fault(fault: ReadFault) -> ImportFault
    ensures device { result ≡ ImportFault.Device ↔ (fault ≡ ReadFault.Device) }
    ensures other { (result ≡ ImportFault.Device) ⊎ (result ≡ ImportFault.OutOfMemory) }
{
    match fault {
        ReadFault::Device => ImportFault::Device,
        _ => ImportFault::OutOfMemory,
    }
}

// Puts the line of the entry, if it is one.
#[inline(always)]
fn put_lot<W: Write>(sheet: &mut Sheet<'_, W>, text: &mut EntryText, lot: &Lot)
    ensures { Says W.contents sheet.old sheet.new (flat_map line_text (entry_before lot.now [])) }
{
    if let Lot::Written { entry, .. } = lot {
        text.put_line(sheet, *entry);
    }
}
