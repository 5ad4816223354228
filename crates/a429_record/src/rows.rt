//! The rows of a recording, read one by one: the lines of a text, or the pieces of a binary recording.

ghost use Rattle.std.specs.Prelude.{◌≡◌, ◌≢◌, ◌↔◌, ◌∷◌, ◌+◌, ◌<◌, ◌≤◌, [], false, true, IsErrOf, IsTrue, IfOk, IfErr, IfSome, IfNone, OnOk, Ok, Err, Some};
ghost use Rattle.a429_word.specs.Tally.{has_failed};

use crate::binary::{ENTRY_BYTES, entry_of_piece};
use crate::entry::Entry;
use crate::entry_line::EntryLine;
use crate::fault::ReadFault;
use crate::format::Format;
use crate::line::{LineEntry, LineRow, entry_in_line, front_line, row_in_line};
use crate::lines::Lines;
use crate::plain::written_row;
use crate::row::is_header_row;
use a429_word::{Failing, Tally};
use std::alloc::Global;
use std::io::Read;

/// How far a recording was read: its format, the bytes that were read and not yet used, how many entries
/// may be returned and how many were, and the time of the last of them in microseconds.
#[derive(Drop)]
pub struct RowReader {
    alloc: Global,
    format: Format,
    lines: Lines,
    line: Vec<u8>,
    most: usize,
    count: usize,
    last: u64,
    ghost in_range: { count ≤ most },
}

impl RowReader {
    ghost use Rattle.a429_record.specs.Lines.{ahead_of, pending, pending_of, room_of, HandsRows, HandsOut, FailsAfter, Chooses, IsMagicFront};
    ghost use Rattle.a429_record.specs.Line.{GivesEntry};
    ghost use Rattle.a429_record.specs.Handed.{HasNoRow, HasNoFaultWithin, HasNoTextFault, IsCut, AreHeader, AreEntryOf, AreGiven, ArePieceOf};
    ghost use Rattle.a429_record.specs.Rows.{IsFresh, IsUncounted, rows_left, text_left, binary_left, recording_left, all_left, TakesHeader, GivesNext, first_left, GivesRow, IfEntry, Follows, entries_in};
    ghost use Rattle.a429_record.specs.Reading.{AreFirstHanded, AreNextHanded, FailsNext, IsChosen};
    ghost use Rattle.a429_record.specs.Writing.{line_text};
    ghost use Rattle.a429_record.specs.declared.format.Format.TheVariants as format;
    ghost use Rattle.a429_record.specs.declared.fault.ReadFault.TheVariants as fault;

    /// A reading in which nothing was read yet, of at most this many entries.
    pub fn new(alloc: Global, most: usize) -> Self
        ensures fresh { IsFresh result }
        ensures most { result.most ≡ most }
    {
        RowReader {
            alloc,
            format: Format::Text,
            lines: Lines::new(),
            line: Vec::new(alloc),
            most,
            count: 0,
            last: 0,
        }
    }

    /// Reads what comes before all entries (the eight bytes of the binary format, or the header of a text) and
    /// the first entry; `None` where there is no entry.
    pub fn first<R: Read>(&mut self, rec: &mut Tally<R>) -> Result<Option<Entry>, ReadFault>
        requires { IsFresh self.old }
        ensures gives { GivesNext (all_left R.remaining self.old rec.old) (recording_left R.remaining self.new rec.new) result }
        ensures format { IfEntry result (λ _. IsChosen (pending_of R.remaining self.old.lines rec.old) self.new.format) }
        ensures lines { IfEntry result (λ e. HandsOut (AreFirstHanded self.new.format e)
            (pending R.remaining self.old.lines rec.old self.new.lines rec.new)) }
        ensures before { IsErrOf result fault.Device → FailsAfter (HasNoFaultWithin self.old.most) R.remaining self.old.lines rec.old rec.new }
        ensures follows { IfEntry result (λ e. Follows self.old self.new e) }
        ensures counts { self.new.count ≡ self.old.count + entries_in result }
        ensures room { IfEntry result (λ _. room_of self.new.lines rec.new < room_of self.old.lines rec.old) }
        ensures device { IsErrOf result fault.Device ↔ (has_failed rec.new ≡ true) }
        ensures no_failed { result ≢ Err fault.Failed }
    {
        if rec.failed() {
            return Err(ReadFault::Device);
        }
        match self.lines.format(rec) {
            Ok(format) => self.format = format,
            Err(fault) => return Err(fault),
        }
        match self.format {
            Format::Text => self.first_row(rec),
            Format::Binary => self.next_piece(rec),
        }
    }

    /// Reads the next entry, after `first` has read the first one; `None` at the end.
    #[inline(always)]
    pub fn next<R: Read>(&mut self, rec: &mut Tally<R>) -> Result<Option<Entry>, ReadFault>
        requires { has_failed rec.old ≡ false }
        ensures gives { GivesNext (recording_left R.remaining self.old rec.old) (recording_left R.remaining self.new rec.new) result }
        ensures format { self.new.format ≡ self.old.format }
        ensures lines { IfEntry result (λ e. HandsOut (AreNextHanded self.old.format e)
            (pending R.remaining self.old.lines rec.old self.new.lines rec.new)) }
        ensures before { IsErrOf result fault.Device → FailsNext R.remaining self.old rec.old rec.new }
        ensures follows { IfEntry result (λ e. Follows self.old self.new e) }
        ensures counts { self.new.count ≡ self.old.count + entries_in result }
        ensures room { IfEntry result (λ _. room_of self.new.lines rec.new < room_of self.old.lines rec.old) }
        ensures device { IsErrOf result fault.Device ↔ (has_failed rec.new ≡ true) }
        ensures no_failed { result ≢ Err fault.Failed }
    {
        match self.format {
            Format::Text => self.next_row(rec),
            Format::Binary => self.next_piece(rec),
        }
    }

    /// The next entry of a text, where a quick look finds its row and line feed in the buffer, without a fault and exactly as this
    /// library writes them: `line` becomes these. Else none, and nothing changes; the row may be like that all the same. The header
    /// was read before.
    #[inline(always)]
    pub fn written_entry(&mut self, line: &mut EntryLine) -> Option<Entry>
        ensures text { IfSome result (λ _. self.old.format ≡ format.Text) }
        ensures gives { IfSome result (λ e. GivesEntry (ahead_of self.old.lines) (ahead_of self.new.lines) e) }
        ensures row { IfSome result (λ e. GivesRow self.old (Some e) self.new (Ok (Some e))) }
        ensures follows { IfSome result (λ e. Follows self.old self.new e) }
        ensures line { IfSome result (λ e. line.new ≡ line_text e) }
        ensures format { self.new.format ≡ self.old.format }
        ensures none { IfNone result ((self.new ≡ self.old) × (line.new ≡ line.old)) }
    {
        if self.is_full() || !self.is_text() {
            return None;
        }
        let row = written_row(self.lines.ahead())?;
        if row.entry.time < self.last {
            return None;
        }
        line.copy(self.lines.front()?, row.len + 1);
        self.lines.pass(row.len + 1);
        self.count += 1;
        self.last = row.entry.time;
        Some(row.entry)
    }

    // Whether the recording is a text.
    #[inline(always)]
    fn is_text(&self) -> bool
        ensures { IsTrue result ↔ (self.now.format ≡ format.Text) }
    {
        matches!(self.format, Format::Text)
    }

    // Reads the header of a text, which comes before the first entry.
    fn header<R: Read>(&mut self, rec: &mut Tally<R>) -> Result<(), ReadFault>
        requires { has_failed rec.old ≡ false }
        ensures takes { TakesHeader self.old.most (rows_left R.remaining self.old rec.old) (rows_left R.remaining self.new rec.new) result }
        ensures lines { OnOk result (HandsRows AreHeader (pending R.remaining self.old.lines rec.old self.new.lines rec.new)) }
        ensures before { IsErrOf result fault.Device → FailsAfter HasNoRow R.remaining self.old.lines rec.old rec.new }
        ensures format { self.new.format ≡ self.old.format }
        ensures most { self.new.most ≡ self.old.most }
        ensures count { self.new.count ≡ self.old.count }
        ensures last { self.new.last ≡ self.old.last }
        ensures room { OnOk result (room_of self.new.lines rec.new ≤ room_of self.old.lines rec.old) }
        ensures device { IsErrOf result fault.Device ↔ (has_failed rec.new ≡ true) }
        ensures no_failed { result ≢ Err fault.Failed }
    {
        'lines: loop {
            match self.lines.next_line(rec, &mut self.line) {
                Ok(true) => {}
                Ok(false) => return Err(ReadFault::Header),
                Err(fault) => return Err(fault),
            }
            match row_in_line(self.alloc, self.line.as_slice()) {
                Ok(LineRow::Blank) => {}
                Ok(LineRow::One(row)) => {
                    if is_header_row(&row) {
                        return Ok(());
                    }
                    return Err(ReadFault::Header);
                }
                Ok(LineRow::Several) => return Err(ReadFault::Header),
                Err(fault) => return Err(fault),
            }
        }
    }

    // Reads the header of a text, and the entry after it, where there is one.
    fn first_row<R: Read>(&mut self, rec: &mut Tally<R>) -> Result<Option<Entry>, ReadFault>
        requires fresh { IsUncounted self.old }
        requires works { has_failed rec.old ≡ false }
        ensures gives { GivesNext (first_left R.remaining self.old rec.old) (text_left R.remaining self.new rec.new) result }
        ensures format { self.new.format ≡ self.old.format }
        ensures lines { IfEntry result (λ e. HandsRows (AreGiven (e ∷ [])) (pending R.remaining self.old.lines rec.old self.new.lines rec.new)) }
        ensures before { IsErrOf result fault.Device → FailsAfter (HasNoTextFault self.old.most) R.remaining self.old.lines rec.old rec.new }
        ensures follows { IfEntry result (λ e. Follows self.old self.new e) }
        ensures counts { self.new.count ≡ self.old.count + entries_in result }
        ensures room { IfEntry result (λ _. room_of self.new.lines rec.new < room_of self.old.lines rec.old) }
        ensures device { IsErrOf result fault.Device ↔ (has_failed rec.new ≡ true) }
        ensures no_failed { result ≢ Err fault.Failed }
    {
        match self.header(rec) {
            Ok(()) => {}
            Err(fault) => return Err(fault),
        }
        self.next_row(rec)
    }

    // Reads the next entry of a text, where there is one. The header was read before.
    #[inline(always)]
    fn next_row<R: Read>(&mut self, rec: &mut Tally<R>) -> Result<Option<Entry>, ReadFault>
        requires { has_failed rec.old ≡ false }
        ensures gives { GivesNext (text_left R.remaining self.old rec.old) (text_left R.remaining self.new rec.new) result }
        ensures format { self.new.format ≡ self.old.format }
        ensures lines { IfEntry result (λ e. HandsRows (AreEntryOf e) (pending R.remaining self.old.lines rec.old self.new.lines rec.new)) }
        ensures before { IsErrOf result fault.Device → FailsAfter HasNoRow R.remaining self.old.lines rec.old rec.new }
        ensures follows { IfEntry result (λ e. Follows self.old self.new e) }
        ensures counts { self.new.count ≡ self.old.count + entries_in result }
        ensures room { IfEntry result (λ _. room_of self.new.lines rec.new < room_of self.old.lines rec.old) }
        ensures device { IsErrOf result fault.Device ↔ (has_failed rec.new ≡ true) }
        ensures no_failed { result ≢ Err fault.Failed }
    {
        if let Some(entry) = self.plain_entry() {
            return self.take_row(Some(entry));
        }
        'lines: loop {
            match self.lines.next_line(rec, &mut self.line) {
                Ok(true) => {}
                Ok(false) => return Ok(None),
                Err(fault) => return Err(fault),
            }
            match entry_in_line(self.alloc, self.line.as_slice()) {
                Ok(LineEntry::Blank) => {}
                Ok(LineEntry::One(entry)) => return self.take_row(Some(entry)),
                Ok(LineEntry::Bad) => return self.take_row(None),
                Err(fault) => return Err(fault),
            }
        }
    }

    // The entry of the next line, where all of the line was read and it is plain. The line is passed then.
    #[inline(always)]
    fn plain_entry(&mut self) -> Option<Entry>
        ensures some { IfSome result (λ e. GivesEntry (ahead_of self.old.lines) (ahead_of self.new.lines) e) }
        ensures none { IfNone result (self.new ≡ self.old) }
        ensures most { self.new.most ≡ self.old.most }
        ensures count { self.new.count ≡ self.old.count }
        ensures last { self.new.last ≡ self.old.last }
        ensures format { self.new.format ≡ self.old.format }
    {
        let line = front_line(self.lines.ahead())?;
        self.lines.pass(line.len + 1);
        Some(line.entry)
    }

    // Reads the next entry of a binary recording, where there is one.
    #[inline(always)]
    fn next_piece<R: Read>(&mut self, rec: &mut Tally<R>) -> Result<Option<Entry>, ReadFault>
        requires { has_failed rec.old ≡ false }
        ensures gives { GivesNext (binary_left R.remaining self.old rec.old) (binary_left R.remaining self.new rec.new) result }
        ensures format { self.new.format ≡ self.old.format }
        ensures piece { IfEntry result (λ e. HandsOut (ArePieceOf e) (pending R.remaining self.old.lines rec.old self.new.lines rec.new)) }
        ensures before { IsErrOf result fault.Device → FailsAfter (IsCut self.old.most self.old.count) R.remaining self.old.lines rec.old rec.new }
        ensures follows { IfEntry result (λ e. Follows self.old self.new e) }
        ensures counts { self.new.count ≡ self.old.count + entries_in result }
        ensures room { IfEntry result (λ _. room_of self.new.lines rec.new < room_of self.old.lines rec.old) }
        ensures device { IsErrOf result fault.Device ↔ (has_failed rec.new ≡ true) }
        ensures no_failed { result ≢ Err fault.Failed }
    {
        let ahead = self.lines.ahead();
        if ahead.len() < ENTRY_BYTES {
            return self.piece_in_parts(rec);
        }
        let row = entry_of_piece(&ahead[..ENTRY_BYTES]);
        self.lines.pass(ENTRY_BYTES);
        self.take_row(row)
    }

    // The same, where not all bytes of it were read.
    fn piece_in_parts<R: Read>(&mut self, rec: &mut Tally<R>) -> Result<Option<Entry>, ReadFault>
        requires { has_failed rec.old ≡ false }
        ensures gives { GivesNext (binary_left R.remaining self.old rec.old) (binary_left R.remaining self.new rec.new) result }
        ensures format { self.new.format ≡ self.old.format }
        ensures piece { IfEntry result (λ e. HandsOut (ArePieceOf e) (pending R.remaining self.old.lines rec.old self.new.lines rec.new)) }
        ensures before { IsErrOf result fault.Device → FailsAfter (IsCut self.old.most self.old.count) R.remaining self.old.lines rec.old rec.new }
        ensures follows { IfEntry result (λ e. Follows self.old self.new e) }
        ensures counts { self.new.count ≡ self.old.count + entries_in result }
        ensures room { IfEntry result (λ _. room_of self.new.lines rec.new < room_of self.old.lines rec.old) }
        ensures device { IsErrOf result fault.Device ↔ (has_failed rec.new ≡ true) }
        ensures no_failed { result ≢ Err fault.Failed }
    {
        match self.lines.is_more(rec) {
            Ok(true) if self.is_full() => return Err(ReadFault::TooMany),
            Ok(true) => {}
            Ok(false) => return Ok(None),
            Err(fault) => return Err(fault),
        }
        let mut piece = [0; ENTRY_BYTES];
        match self.lines.fill(rec, &mut piece) {
            Ok(len) => self.take_row(entry_of_piece(&piece[..len])),
            Err(fault) => Err(fault),
        }
    }

    // Whether as many entries were returned as may be.
    fn is_full(&self) -> bool
        ensures { IsTrue result ↔ (self.now.count ≡ self.now.most) }
    {
        self.count == self.most
    }

    // The entry of the next row, or the fault that the row makes: one too many, no entry, a time that falls.
    fn take_row(&mut self, row: Option<Entry>) -> Result<Option<Entry>, ReadFault>
        ensures gives { GivesRow self.old row self.new result }
        ensures entry { IfOk result (λ o. o ≡ row) }
        ensures follows { IfEntry result (λ e. Follows self.old self.new e) }
        ensures counts { self.new.count ≡ self.old.count + entries_in result }
        ensures lines { self.new.lines ≡ self.old.lines }
        ensures format { self.new.format ≡ self.old.format }
        ensures err { IfErr result (λ f. (f ≢ fault.Device) × (f ≢ fault.Failed)) }
    {
        if self.is_full() {
            return Err(ReadFault::TooMany);
        }
        let Some(entry) = row else {
            return Err(ReadFault::Row(self.count));
        };
        if entry.time < self.last {
            return Err(ReadFault::TimeBack(self.count));
        }
        self.count += 1;
        self.last = entry.time;
        Ok(Some(entry))
    }
}
