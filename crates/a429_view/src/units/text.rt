//! The text of a row.

ghost use Rattle.std.specs.Prelude.{◌≡◌, option_map, codes};
ghost use Rattle.a429_word.specs.Sheet.{Says};
ghost use Rattle.a429_view.specs.Units.{cell, cell_of, yes_no, unit_size_text, counts_text, span_text, unit_line};
ghost use Rattle.a429_view.specs.UnitSteps.{line_before};
ghost use Rattle.a429_view.specs.declared.units.span.Moment.{Moment};

use crate::units::counts::UnitCounts;
use crate::units::row::UnitRow;
use crate::units::size::UnitSize;
use crate::units::span::{Moment, UnitSpan};
use a429_word::Sheet;
use std::io::Write;

// The names of the columns.
const HEADER: &[u8] =
    b"file,ldu,words,bytes,final,requests,lost,unanswered,unheard,naks,timeouts,first_entry,last_entry,first_time,last_time,crossed\n";

/// Puts the row of the last unit, or the names of the columns where there is none.
pub(crate) fn put_line_before<W: Write>(sheet: &mut Sheet<'_, W>, row: &Option<UnitRow>)
    ensures { Says W.contents sheet.old sheet.new (line_before row.now) }
{
    match row {
        Some(row) => put_row(sheet, row),
        None => sheet.put(HEADER),
    }
}

fn put_row<W: Write>(sheet: &mut Sheet<'_, W>, row: &UnitRow)
    ensures { Says W.contents sheet.old sheet.new (unit_line row.now) }
{
    put_cell(sheet, u64::from(row.number.file));
    put_cell(sheet, u64::from(row.number.ldu));
    put_size(sheet, &row.size);
    put_counts(sheet, &row.counts);
    put_span(sheet, &row.span);
    sheet.put(b"\n");
}

fn put_size<W: Write>(sheet: &mut Sheet<'_, W>, size: &UnitSize)
    ensures { Says W.contents sheet.old sheet.new (unit_size_text size.now) }
{
    put_cell(sheet, u64::from(size.words));
    put_cell(sheet, size.bytes as u64);
    put_yes_no(sheet, size.is_final);
    sheet.put(b",");
}

fn put_counts<W: Write>(sheet: &mut Sheet<'_, W>, counts: &UnitCounts)
    ensures { Says W.contents sheet.old sheet.new (counts_text counts.now) }
{
    put_cell(sheet, counts.requests);
    put_cell(sheet, counts.lost);
    put_cell(sheet, counts.unanswered);
    put_cell(sheet, counts.unheard);
    put_cell(sheet, counts.naks);
    put_cell(sheet, counts.timeouts);
}

fn put_span<W: Write>(sheet: &mut Sheet<'_, W>, span: &UnitSpan)
    ensures { Says W.contents sheet.old sheet.new (span_text span.now) }
{
    put_cell_of(sheet, entry_of(span.first));
    put_cell_of(sheet, entry_of(span.last));
    put_cell_of(sheet, time_of(span.first));
    put_cell_of(sheet, time_of(span.last));
    put_yes_no(sheet, span.crossed);
}

fn entry_of(moment: Option<Moment>) -> Option<u64>
    ensures { result ≡ option_map (λ (m : Moment). m.entry) moment }
{
    Some(moment?.entry as u64)
}

fn time_of(moment: Option<Moment>) -> Option<u64>
    ensures { result ≡ option_map (λ (m : Moment). m.time) moment }
{
    Some(moment?.time)
}

/// A number, and the comma after it.
pub(crate) fn put_cell<W: Write>(sheet: &mut Sheet<'_, W>, number: u64)
    ensures { Says W.contents sheet.old sheet.new (cell number) }
{
    sheet.put_number(number);
    sheet.put(b",");
}

// A number, if there is one, and the comma after it.
fn put_cell_of<W: Write>(sheet: &mut Sheet<'_, W>, number: Option<u64>)
    ensures { Says W.contents sheet.old sheet.new (cell_of number) }
{
    match number {
        Some(number) => put_cell(sheet, number),
        None => sheet.put(b","),
    }
}

fn put_yes_no<W: Write>(sheet: &mut Sheet<'_, W>, is_so: bool)
    ensures { Says W.contents sheet.old sheet.new (yes_no is_so) }
{
    if is_so {
        sheet.put(b"yes");
    } else {
        sheet.put(b"no");
    }
}
