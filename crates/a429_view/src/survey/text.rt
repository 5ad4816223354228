//! The lines of a survey.

ghost use Rattle.std.specs.Prelude.{◌≡◌, ◌<◌, flat_map};
ghost use Rattle.a429_word.specs.Sheet.{Says};
ghost use Rattle.a429_view.specs.Survey.{count_lines, counted_kind, counted_labels, entries_line, kind_text, kinds, label_text, text_of, times_text};

use crate::survey::Survey;
use crate::survey::counts::{BusCount, Hits, LABEL_COUNT, LabelCount};
use crate::survey::kind::{KINDS, WordKind};
use a429_word::{Bus, Sheet, octal};
use std::io::Write;

/// Puts what was counted: a line for the count of its entries, one for its times, and then the lines of bus A
/// and of bus B.
pub fn put_survey<W: Write>(sheet: &mut Sheet<'_, W>, survey: &Survey)
    ensures { Says W.contents sheet.old sheet.new (text_of survey.now) }
{
    sheet.put(b"entries ");
    sheet.put_number(survey.entries as u64);
    sheet.put(b"\n");
    put_times(sheet, survey);
    put_bus(sheet, Bus::A, &survey.a);
    put_bus(sheet, Bus::B, &survey.b);
}

// From when to when, where there are entries.
fn put_times<W: Write>(sheet: &mut Sheet<'_, W>, survey: &Survey)
    ensures { Says W.contents sheet.old sheet.new (times_text survey.now.entries survey.now.first survey.now.last) }
{
    if survey.entries > 0 {
        sheet.put(b"from ");
        sheet.put_number(survey.first);
        sheet.put(b" to ");
        sheet.put_number(survey.last);
        sheet.put(b"\n");
    }
}

// The lines of a bus.
fn put_bus<W: Write>(sheet: &mut Sheet<'_, W>, bus: Bus, count: &BusCount)
    ensures { Says W.contents sheet.old sheet.new (count_lines bus count.now) }
{
    put_entries(sheet, bus, count.entries);
    put_kinds(sheet, bus, count);
    put_labels(sheet, bus, count);
}

// How many entries a bus has.
fn put_entries<W: Write>(sheet: &mut Sheet<'_, W>, bus: Bus, count: usize)
    ensures { Says W.contents sheet.old sheet.new (entries_line bus count) }
{
    sheet.put(bus.letter().as_bytes());
    sheet.put(b" ");
    sheet.put_number(count as u64);
    sheet.put(b"\n");
}

// A line for each kind that occurs, in their order.
fn put_kinds<W: Write>(sheet: &mut Sheet<'_, W>, bus: Bus, count: &BusCount)
    ensures { Says W.contents sheet.old sheet.new (flat_map (counted_kind bus count.now.kinds) kinds) }
{
    for i in 0..KINDS.len() {
        let kind = KINDS[i];
        put_kind(sheet, bus, kind, count.hits(kind));
    }
}

fn put_kind<W: Write>(sheet: &mut Sheet<'_, W>, bus: Bus, kind: WordKind, hits: Hits)
    ensures { Says W.contents sheet.old sheet.new (kind_text bus kind hits.count hits.first) }
{
    if hits.count > 0 {
        sheet.put(bus.letter().as_bytes());
        sheet.put(b" ");
        sheet.put(kind.name());
        sheet.put(b" ");
        sheet.put_number(hits.count as u64);
        sheet.put(b" first ");
        sheet.put_number(hits.first as u64);
        sheet.put(b"\n");
    }
}

// A line for each label that occurs, rising.
fn put_labels<W: Write>(sheet: &mut Sheet<'_, W>, bus: Bus, count: &BusCount)
    ensures { Says W.contents sheet.old sheet.new (counted_labels bus 256 count.now.labels) }
{
    for label in 0..LABEL_COUNT {
        put_label(sheet, bus, label as u8, count.label(label as u8));
    }
}

fn put_label<W: Write>(sheet: &mut Sheet<'_, W>, bus: Bus, label: u8, count: LabelCount)
    ensures { Says W.contents sheet.old sheet.new (label_text bus label count.count count.even) }
{
    if count.count > 0 {
        sheet.put(bus.letter().as_bytes());
        sheet.put(b" label ");
        sheet.put(&octal(label));
        sheet.put(b" ");
        sheet.put_number(count.count as u64);
        sheet.put(b" even ");
        sheet.put_number(count.even as u64);
        sheet.put(b"\n");
    }
}
