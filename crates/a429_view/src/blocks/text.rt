//! The text of a row.

ghost use Rattle.std.specs.Prelude.{◌≡◌, codes};
ghost use Rattle.a429_word.specs.Sheet.{Says};
ghost use Rattle.a429_record.specs.declared.entry.Entry.{Entry};
ghost use Rattle.a429_view.specs.Blocks.{counts_text, ended_outcome, last_line, last_outcome, moments_text, not_allowed_line, row_line, unit_cells, why_cell};
ghost use Rattle.a429_view.specs.BlockSteps.{ended_before};

use crate::blocks::row::{Answer, AttemptRow};
use crate::units::span::Moment;
use crate::units::text::put_cell;
use a429_link::{UnitNumber, Why};
use a429_word::Sheet;
use std::io::Write;

/// The names of the columns.
pub(crate) const COLUMNS: &[u8] = b"first,last,from,to,file,ldu,asked,got,damaged,outcome,why\n";

/// Puts the row of an attempt that has ended, where there is one.
pub(crate) fn put_ended<W: Write>(sheet: &mut Sheet<'_, W>, row: &Option<AttemptRow>)
    ensures { Says W.contents sheet.old sheet.new (ended_before row.now) }
{
    if let Some(row) = row {
        put_row(sheet, row, ended_outcome(row.answer));
    }
}

/// Puts the row of the last attempt, where there is one.
pub(crate) fn put_last<W: Write>(sheet: &mut Sheet<'_, W>, row: &Option<AttemptRow>)
    ensures { Says W.contents sheet.old sheet.new (last_line row.now) }
{
    if let Some(row) = row {
        put_row(sheet, row, last_outcome(row.answer));
    }
}

/// Puts the row of an entry that no run records after those before it.
pub(crate) fn put_not_allowed<W: Write>(sheet: &mut Sheet<'_, W>, number: usize, time: u64)
    ensures { (e : Entry) → e.time ≡ time → Says W.contents sheet.old sheet.new (not_allowed_line number e) }
{
    let here = Moment {
        entry: number,
        time,
    };
    put_moments(sheet, here, here);
    sheet.put(b",,,,,not-allowed,\n");
}

fn put_row<W: Write>(sheet: &mut Sheet<'_, W>, row: &AttemptRow, outcome: &[u8])
    ensures { Says W.contents sheet.old sheet.new (row_line row.now outcome.now) }
{
    put_moments(sheet, row.first, row.last);
    put_unit(sheet, row.unit);
    put_counts(sheet, row);
    sheet.put(outcome);
    sheet.put(b",");
    sheet.put(why_cell(row.why));
    sheet.put(b"\n");
}

// The entries, then the times.
fn put_moments<W: Write>(sheet: &mut Sheet<'_, W>, first: Moment, last: Moment)
    ensures { Says W.contents sheet.old sheet.new (moments_text first last) }
{
    put_cell(sheet, first.entry as u64);
    put_cell(sheet, last.entry as u64);
    put_cell(sheet, first.time);
    put_cell(sheet, last.time);
}

// The number of a start word; nothing where none was recorded.
fn put_unit<W: Write>(sheet: &mut Sheet<'_, W>, unit: Option<UnitNumber>)
    ensures { Says W.contents sheet.old sheet.new (unit_cells unit) }
{
    match unit {
        Some(unit) => {
            put_cell(sheet, u64::from(unit.file));
            put_cell(sheet, u64::from(unit.ldu));
        }
        None => sheet.put(b",,"),
    }
}

fn put_counts<W: Write>(sheet: &mut Sheet<'_, W>, row: &AttemptRow)
    ensures { Says W.contents sheet.old sheet.new (counts_text row.now) }
{
    put_cell(sheet, u64::from(row.asked));
    put_cell(sheet, row.got);
    put_cell(sheet, row.damaged);
}

// What became of an attempt, where another one comes after it.
fn ended_outcome(answer: Option<Answer>) -> &'static [u8]
    ensures { result.now ≡ ended_outcome answer }
{
    match answer {
        None => b"ungranted",
        Some(Answer::Clear) => b"unanswered",
        Some(Answer::Accepted) => b"acknowledged",
        Some(Answer::Again) => b"again",
        Some(Answer::Negative) => b"refused",
    }
}

// What became of the last attempt.
fn last_outcome(answer: Option<Answer>) -> &'static [u8]
    ensures { result.now ≡ last_outcome answer }
{
    match answer {
        None | Some(Answer::Clear) => b"open",
        Some(Answer::Accepted | Answer::Again | Answer::Negative) => ended_outcome(answer),
    }
}

// Why the block is not good, as one word.
fn why_cell(why: Option<Why>) -> &'static [u8]
    ensures { result.now ≡ why_cell why }
{
    match why {
        None => b"",
        Some(Why::NoStart) => b"no-start",
        Some(Why::OtherCount { .. }) => b"too-few",
        Some(Why::HalfBytes(_)) => b"half-bytes",
        Some(Why::OtherCheck(_)) => b"check",
        Some(Why::OutOfSequence) => b"sequence",
    }
}
