//! A recording, read entry by entry.

ghost use Rattle.std.specs.Prelude.{◌≡◌, ◌↔◌, ◌+◌, ◌<◌, Bool, true, false, Option, option_map, IsErrOf};
ghost use Rattle.a429_word.specs.Tally.{has_failed, left_of, unread};

use crate::entry::{Entry, MOST_ENTRIES};
use crate::entry_line::EntryLine;
use crate::fault::ReadFault;
use crate::reading::Reading;
use a429_word::{Failing, Tally};
use std::alloc::Global;
use std::io::Read;
use std::marker::Model;

/// A reader of a recording's entries, one after the other, in either format. It has failed where the reader that it
/// owns has.
#[derive(Drop)]
pub struct EntryReader<R: Read> {
    reading: Reading,
    rec: Tally<R>,
}

impl<R: Read> Model for EntryReader<R> {
    ghost use Rattle.a429_record.specs.Entries.{EntriesLeft};

    ghost Value = { EntriesLeft };

    ghost use Rattle.a429_record.specs.Entries.{entries_left, IsWorking};

    ghost view = { λ r. entries_left R.remaining r.reading r.rec };

    ghost invariant = { λ r. IsWorking r.reading r.rec };
}

impl<R: Read> Failing for EntryReader<R> {
    ghost failed = { λ r. r.failed };

    fn failed(&self) -> bool {
        self.rec.failed()
    }
}

impl<R: Read> EntryReader<R> {
    ghost use Rattle.a429_record.specs.Recording.{stands_for, stands_within};
    ghost use Rattle.a429_record.specs.Handed.{Loses, OfTaken};
    ghost use Rattle.a429_record.specs.Reading.{AreHandedAt, IsFormatAfter};
    ghost use Rattle.a429_record.specs.Stage.{may_go_on, stage_after, AnswersAt};
    ghost use Rattle.a429_record.specs.Rows.{GivesNext, IfEntry, entries_in};
    ghost use Rattle.a429_record.specs.Entries.{ComesNext, PassesFrom};
    ghost use Rattle.a429_record.specs.Writing.{IsLineOf};
    ghost use Rattle.a429_record.specs.declared.fault.ReadFault.TheVariants as fault;
    ghost use Rattle.a429_record.specs.declared.stage.Stage.TheVariants as at;

    /// A reader of the entries of `rec`, 1,000,000 at most, of which nothing was read yet.
    pub fn new(alloc: Global, rec: Tally<R>) -> EntryReader<R>
        ensures to_come { result.to_come ≡ option_map stands_for (unread R.remaining rec) }
        ensures begins { (result.stage ≡ at.Begins) × (result.count ≡ 0) × (result.last ≡ 0) }
        ensures bytes { (result.bytes ≡ unread R.remaining rec) × (result.unread ≡ unread R.remaining rec) }
        ensures room { result.room ≡ left_of rec }
        ensures failed { result.failed ≡ has_failed rec }
        ensures most { result.most ≡ MOST_ENTRIES }
    {
        EntryReader::of_most(alloc, rec, MOST_ENTRIES)
    }

    /// The same with another limit of entries: `usize::MAX` for a recording of any length.
    pub fn of_most(alloc: Global, rec: Tally<R>, most: usize) -> EntryReader<R>
        ensures to_come { result.to_come ≡ option_map (stands_within most) (unread R.remaining rec) }
        ensures begins { (result.stage ≡ at.Begins) × (result.count ≡ 0) × (result.last ≡ 0) }
        ensures bytes { (result.bytes ≡ unread R.remaining rec) × (result.unread ≡ unread R.remaining rec) }
        ensures room { result.room ≡ left_of rec }
        ensures failed { result.failed ≡ has_failed rec }
        ensures most { result.most ≡ most }
    {
        EntryReader {
            reading: Reading::new(alloc, most),
            rec,
        }
    }

    /// The next entry; `None` at the end, and at each call after it. The first call also reads the first eight
    /// bytes, which choose the format, and the header of a text.
    ///
    /// Faults: `Device` where the reader has failed and the rows that it returned whole before have no fault;
    /// `OutOfMemory` where memory was refused; `Failed` at each call after a fault, and only there; any other is the
    /// recording's first fault.
    #[inline(always)]
    pub fn next(&mut self) -> Result<Option<Entry>, ReadFault>
        ensures gives { GivesNext self.old.to_come self.new.to_come result }
        ensures answers { AnswersAt self.old.stage result }
        ensures stage { self.new.stage ≡ stage_after result }
        ensures follows { IfEntry result (λ e. ComesNext self.old self.new e) }
        ensures counts { self.new.count ≡ self.old.count + entries_in result }
        ensures format { IfEntry result (λ _. IsFormatAfter self.old.stage self.old.format self.old.bytes self.new.format) }
        ensures lines { IfEntry result (λ e. Loses (AreHandedAt self.old.stage self.new.format e) self.old.bytes self.new.bytes) }
        ensures before { IsErrOf result fault.Device → Loses (OfTaken (PassesFrom self.old)) self.old.bytes self.new.unread }
        ensures room { IfEntry result (λ _. self.new.room < self.old.room) }
        ensures device { IsErrOf result fault.Device ↔ (may_go_on self.old.stage ≡ true) × (self.new.failed ≡ true) }
        ensures stays { may_go_on self.old.stage ≡ false → self.new ≡ self.old }
    {
        self.reading.next(&mut self.rec)
    }

    /// The next entry, as `next` answers it. Where the row is exactly as this library writes the entry, `line` becomes the row and
    /// its line feed, so that they can be copied and no digits made again; else it becomes empty. It also becomes empty for the
    /// first entry, for a time of 20 digits, and for a row that is not whole in the buffer with its line feed or begins less than
    /// 32 bytes before the buffer's end.
    #[inline(always)]
    pub fn next_line(&mut self, line: &mut EntryLine) -> Result<Option<Entry>, ReadFault>
        ensures gives { GivesNext self.old.to_come self.new.to_come result }
        ensures answers { AnswersAt self.old.stage result }
        ensures stage { self.new.stage ≡ stage_after result }
        ensures follows { IfEntry result (λ e. ComesNext self.old self.new e) }
        ensures counts { self.new.count ≡ self.old.count + entries_in result }
        ensures format { IfEntry result (λ _. IsFormatAfter self.old.stage self.old.format self.old.bytes self.new.format) }
        ensures lines { IfEntry result (λ e. Loses (AreHandedAt self.old.stage self.new.format e) self.old.bytes self.new.bytes) }
        ensures before { IsErrOf result fault.Device → Loses (OfTaken (PassesFrom self.old)) self.old.bytes self.new.unread }
        ensures room { IfEntry result (λ _. self.new.room < self.old.room) }
        ensures device { IsErrOf result fault.Device ↔ (may_go_on self.old.stage ≡ true) × (self.new.failed ≡ true) }
        ensures stays { may_go_on self.old.stage ≡ false → self.new ≡ self.old }
        ensures line { IfEntry result (λ e. IsLineOf line.new e) }
    {
        if let Some(entry) = self.reading.written_entry(line) {
            return Ok(Some(entry));
        }
        line.clear();
        self.reading.next(&mut self.rec)
    }
}
