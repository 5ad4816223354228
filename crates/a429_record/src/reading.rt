//! One reading of a recording, entry by entry.

ghost use Rattle.std.specs.Prelude.{◌≡◌, ◌↔◌, ◌+◌, ◌<◌, true, false, IsErrOf, IfSome, IfNone, Some, Ok};
ghost use Rattle.a429_word.specs.Tally.{has_failed};
ghost use Rattle.a429_record.specs.Rows.{IsFresh};
ghost use Rattle.a429_record.specs.declared.stage.Stage.TheVariants as at;

use crate::entry::Entry;
use crate::entry_line::EntryLine;
use crate::fault::ReadFault;
use crate::rows::RowReader;
use crate::stage::Stage;
use a429_word::Tally;
use std::alloc::Global;
use std::io::Read;

/// How far a recording was read, and what the last call returned.
#[derive(Drop)]
pub struct Reading {
    rows: RowReader,
    stage: Stage,
    ghost fresh: { stage ≡ at.Begins → IsFresh rows },
}

impl Reading {
    ghost use Rattle.a429_record.specs.Lines.{ahead_of, pending, room_of};
    ghost use Rattle.a429_record.specs.Line.{GivesEntry};
    ghost use Rattle.a429_record.specs.Writing.{line_text};
    ghost use Rattle.a429_record.specs.declared.format.Format.TheVariants as format;
    ghost use Rattle.a429_record.specs.Rows.{GivesNext, GivesRow, IfEntry, Follows, entries_in};
    ghost use Rattle.a429_record.specs.Stage.{may_go_on, stage_after, AnswersAt};
    ghost use Rattle.a429_record.specs.Reading.{left_to_come, HandsEntry, FailsAfterRows, KeepsFormat};
    ghost use Rattle.a429_record.specs.declared.fault.ReadFault.TheVariants as fault;

    /// A reading in which nothing was read yet, of at most this many entries.
    pub fn new(alloc: Global, most: usize) -> Self
        ensures stage { result.stage ≡ at.Begins }
        ensures most { result.rows.most ≡ most }
    {
        Reading {
            rows: RowReader::new(alloc, most),
            stage: Stage::Begins,
        }
    }

    /// The next entry of a text, after the first, where a quick look finds its row and line feed in the buffer, without a fault and
    /// exactly as this library writes them: `line` becomes these. Else none, and nothing changes; the row may be like that all the
    /// same.
    #[inline(always)]
    pub fn written_entry(&mut self, line: &mut EntryLine) -> Option<Entry>
        ensures stage { IfSome result (λ _. self.old.stage ≡ at.Rows) }
        ensures stays { self.new.stage ≡ self.old.stage }
        ensures text { IfSome result (λ _. self.old.rows.format ≡ format.Text) }
        ensures gives { IfSome result (λ e. GivesEntry (ahead_of self.old.rows.lines) (ahead_of self.new.rows.lines) e) }
        ensures row { IfSome result (λ e. GivesRow self.old.rows (Some e) self.new.rows (Ok (Some e))) }
        ensures follows { IfSome result (λ e. Follows self.old.rows self.new.rows e) }
        ensures line { IfSome result (λ e. line.new ≡ line_text e) }
        ensures format { self.new.rows.format ≡ self.old.rows.format }
        ensures none { IfNone result ((self.new ≡ self.old) × (line.new ≡ line.old)) }
    {
        match self.stage {
            Stage::Rows => self.rows.written_entry(line),
            _ => None,
        }
    }

    /// Reads the next entry; `None` at the end, and each time after it. After a fault every call returns `Failed`.
    #[inline(always)]
    pub fn next<R: Read>(&mut self, rec: &mut Tally<R>) -> Result<Option<Entry>, ReadFault>
        requires { self.old.stage ≡ at.Rows → has_failed rec.old ≡ false }
        ensures gives { GivesNext (left_to_come R.remaining self.old rec.old) (left_to_come R.remaining self.new rec.new) result }
        ensures answers { AnswersAt self.old.stage result }
        ensures stage { self.new.stage ≡ stage_after result }
        ensures format { IfEntry result (λ _. KeepsFormat R.remaining self.old rec.old self.new) }
        ensures lines { IfEntry result (λ e. HandsEntry self.old self.new (pending R.remaining self.old.rows.lines rec.old self.new.rows.lines rec.new) e) }
        ensures before { IsErrOf result fault.Device → FailsAfterRows R.remaining self.old rec.old rec.new }
        ensures follows { IfEntry result (λ e. Follows self.old.rows self.new.rows e) }
        ensures counts { self.new.rows.count ≡ self.old.rows.count + entries_in result }
        ensures room { IfEntry result (λ _. room_of self.new.rows.lines rec.new < room_of self.old.rows.lines rec.old) }
        ensures device { IsErrOf result fault.Device ↔ (may_go_on self.old.stage ≡ true) × (has_failed rec.new ≡ true) }
        ensures stays { may_go_on self.old.stage ≡ false → (self.new ≡ self.old) × (rec.new ≡ rec.old) }
    {
        match self.stage {
            Stage::Begins => {
                let answer = self.rows.first(rec);
                self.stage = Stage::after(&answer);
                answer
            }
            Stage::Rows => {
                let answer = self.rows.next(rec);
                self.stage = Stage::after(&answer);
                answer
            }
            Stage::Ended => Ok(None),
            Stage::Failed => Err(ReadFault::Failed),
        }
    }
}
