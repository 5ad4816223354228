//! What becomes of the lines of an export, counted.

ghost use Rattle.std.specs.Prelude.{◌≡◌, ◌+◌, ◌<◌, ◌^◌, ◌∷◌, ◌++◌, [], Bool, List, filter, length};
ghost use Rattle.a429_word.specs.Sheet.{Says};
ghost use Rattle.a429_import.specs.Counts.{AreCounts, count_line, counts_text, is_cut_time, is_empty, is_entry, is_heading, is_lifted, is_made_bad, is_made_good, is_of_passed_channel, is_on_a, is_on_b, is_passed_row, is_remark, is_repeated, is_reset, is_skipped, is_wrap, lift_of, lifted_line, lifted_text, made_line, made_text, most_lift_of, raise_of, some_line, turned_line};
ghost use Rattle.a429_import.specs.declared.lot.Lot.{Lot as ALot};

use crate::lot::Lot;
use crate::order::Fall;
use crate::parity::Verdict;
use crate::turning::Turning;
use a429_word::{Bus, Sheet};
use std::io::Write;

/// What became of the lines of an export. Each line is an entry, or counted as skipped, empty, a comment, up to the header, a row
/// that was passed over, one of a channel that was, or an entry that was left out.
#[derive(Clone, Copy, Debug)]
pub struct Counts {
    pub lines: u64,
    pub entries: u64,
    pub on_a: u64,
    pub on_b: u64,
    pub skipped: u64,
    pub empty: u64,
    pub comments: u64,
    /// Lines up to the header.
    pub headings: u64,
    pub passed_rows: u64,
    pub of_passed_channels: u64,
    /// Entries that were left out, since they are one of the last ones again.
    pub repeats: u64,
    /// Entries of whose times something was cut off.
    pub cut_times: u64,
    /// Entries at which the clock begins again.
    pub wraps: u64,
    /// Entries before which the clock was set back.
    pub resets: u64,
    /// Entries whose times were below the latest one and became that.
    pub lifted: u64,
    /// By how many microseconds one was at most.
    pub most_lift: u64,
    /// Entries whose bit 32 was made so that their parity is good.
    pub made_good: u64,
    /// The same, so that it is wrong.
    pub made_bad: u64,
}

impl Counts {
    /// No line.
    pub(crate) fn new() -> Counts
        ensures { AreCounts result [] }
    {
        Counts {
            lines: 0,
            entries: 0,
            on_a: 0,
            on_b: 0,
            skipped: 0,
            empty: 0,
            comments: 0,
            headings: 0,
            passed_rows: 0,
            of_passed_channels: 0,
            repeats: 0,
            cut_times: 0,
            wraps: 0,
            resets: 0,
            lifted: 0,
            most_lift: 0,
            made_good: 0,
            made_bad: 0,
        }
    }

    /// And a line of which this becomes.
    pub(crate) fn with(self, lot: &Lot) -> Counts
        ensures { (lots : List ALot) → length lots + 1 < 2 ^ 64 → AreCounts self lots → AreCounts result (lots ++ lot.now ∷ []) }
    {
        Counts {
            lines: self.lines.saturating_add(1),
            entries: with(self.entries, is_entry(lot)),
            on_a: with(self.on_a, is_on_a(lot)),
            on_b: with(self.on_b, is_on_b(lot)),
            skipped: with(self.skipped, is_skipped(lot)),
            empty: with(self.empty, is_empty(lot)),
            comments: with(self.comments, is_remark(lot)),
            headings: with(self.headings, is_heading(lot)),
            passed_rows: with(self.passed_rows, is_passed_row(lot)),
            of_passed_channels: with(self.of_passed_channels, is_of_passed_channel(lot)),
            repeats: with(self.repeats, is_repeated(lot)),
            cut_times: with(self.cut_times, is_cut_time(lot)),
            wraps: with(self.wraps, is_wrap(lot)),
            resets: with(self.resets, is_reset(lot)),
            lifted: with(self.lifted, is_lifted(lot)),
            most_lift: with_lift(self.most_lift, lift_of(lot)),
            made_good: with(self.made_good, is_made_good(lot)),
            made_bad: with(self.made_bad, is_made_bad(lot)),
        }
    }
}

// A count, and one more where this is so.
fn with(count: u64, more: bool) -> u64
    ensures { (is : ALot → Bool) (lots : List ALot) (lot : ALot) → length lots + 1 < 2 ^ 64 → more ≡ is lot → count ≡ length (filter is lots)
        → result ≡ length (filter is (lots ++ lot ∷ [])) }
{
    if more { count.saturating_add(1) } else { count }
}

fn is_skipped(lot: &Lot) -> bool
    ensures { result ≡ is_skipped lot.now }
{
    matches!(lot, Lot::Skipped)
}

fn is_empty(lot: &Lot) -> bool
    ensures { result ≡ is_empty lot.now }
{
    matches!(lot, Lot::Empty)
}

fn is_remark(lot: &Lot) -> bool
    ensures { result ≡ is_remark lot.now }
{
    matches!(lot, Lot::Comment)
}

fn is_heading(lot: &Lot) -> bool
    ensures { result ≡ is_heading lot.now }
{
    matches!(lot, Lot::Heading)
}

fn is_passed_row(lot: &Lot) -> bool
    ensures { result ≡ is_passed_row lot.now }
{
    matches!(lot, Lot::RowPassed)
}

fn is_of_passed_channel(lot: &Lot) -> bool
    ensures { result ≡ is_of_passed_channel lot.now }
{
    matches!(lot, Lot::ChannelPassed)
}

fn is_repeated(lot: &Lot) -> bool
    ensures { result ≡ is_repeated lot.now }
{
    matches!(lot, Lot::Repeated)
}

fn is_entry(lot: &Lot) -> bool
    ensures { result ≡ is_entry lot.now }
{
    matches!(lot, Lot::Written { .. })
}

fn is_on_a(lot: &Lot) -> bool
    ensures { result ≡ is_on_a lot.now }
{
    match lot {
        Lot::Written { entry, .. } => matches!(entry.bus, Bus::A),
        _ => false,
    }
}

fn is_on_b(lot: &Lot) -> bool
    ensures { result ≡ is_on_b lot.now }
{
    match lot {
        Lot::Written { entry, .. } => matches!(entry.bus, Bus::B),
        _ => false,
    }
}

fn is_cut_time(lot: &Lot) -> bool
    ensures { result ≡ is_cut_time lot.now }
{
    match lot {
        Lot::Written { is_cut, .. } => *is_cut,
        _ => false,
    }
}

fn is_wrap(lot: &Lot) -> bool
    ensures { result ≡ is_wrap lot.now }
{
    match lot {
        Lot::Written { mend, .. } => mend.wraps,
        _ => false,
    }
}

fn is_reset(lot: &Lot) -> bool
    ensures { result ≡ is_reset lot.now }
{
    match lot {
        Lot::Written { mend, .. } => matches!(mend.fall, Fall::Reset(_)),
        _ => false,
    }
}

fn is_lifted(lot: &Lot) -> bool
    ensures { result ≡ is_lifted lot.now }
{
    match lot {
        Lot::Written { mend, .. } => matches!(mend.fall, Fall::Lifted(_)),
        _ => false,
    }
}

// By how many microseconds its time was raised, or 0.
fn lift_of(lot: &Lot) -> u64
    ensures { result ≡ lift_of lot.now }
{
    match lot {
        Lot::Written { mend, .. } => raise_of(mend.fall),
        _ => 0,
    }
}

fn raise_of(fall: Fall) -> u64
    ensures { result ≡ raise_of fall }
{
    match fall {
        Fall::Lifted(by) => by,
        _ => 0,
    }
}

// The most, with one more.
fn with_lift(most: u64, lift: u64) -> u64
    ensures { (lots : List ALot) (lot : ALot) → lift ≡ lift_of lot → most ≡ most_lift_of lots → result ≡ most_lift_of (lots ++ lot ∷ []) }
{
    most.max(lift)
}

fn is_made_good(lot: &Lot) -> bool
    ensures { result ≡ is_made_good lot.now }
{
    match lot {
        Lot::Written { verdict, .. } => matches!(verdict, Verdict::Good),
        _ => false,
    }
}

fn is_made_bad(lot: &Lot) -> bool
    ensures { result ≡ is_made_bad lot.now }
{
    match lot {
        Lot::Written { verdict, .. } => matches!(verdict, Verdict::Bad),
        _ => false,
    }
}

/// Puts the counts, a line for each: of the entries, those on each line, and the lines; and the others where they are not 0. Where
/// words are turned, each is.
pub fn put_counts<W: Write>(sheet: &mut Sheet<'_, W>, turning: Turning, counts: &Counts)
    ensures { Says W.contents sheet.old sheet.new (counts_text turning counts.now) }
{
    put_count(sheet, b"entries ", counts.entries);
    put_count(sheet, b"on A ", counts.on_a);
    put_count(sheet, b"on B ", counts.on_b);
    put_count(sheet, b"lines ", counts.lines);
    put_some(sheet, b"lines skipped ", counts.skipped);
    put_some(sheet, b"empty lines ", counts.empty);
    put_some(sheet, b"comments ", counts.comments);
    put_some(sheet, b"lines up to the header ", counts.headings);
    put_some(sheet, b"rows passed over ", counts.passed_rows);
    put_some(sheet, b"rows of other channels ", counts.of_passed_channels);
    put_some(sheet, b"repeats left out ", counts.repeats);
    put_some(sheet, b"wraps undone ", counts.wraps);
    put_some(sheet, b"resets joined ", counts.resets);
    put_some(sheet, b"times cut to microseconds ", counts.cut_times);
    put_turned(
        sheet,
        b"words with bytes reversed ",
        turning.bytes,
        counts.entries,
    );
    put_turned(
        sheet,
        b"words with labels reversed ",
        turning.label,
        counts.entries,
    );
    put_lifted(sheet, counts.lifted, counts.most_lift);
    put_made(sheet, counts.made_good, counts.made_bad);
}

// A name and a number.
fn put_count<W: Write>(sheet: &mut Sheet<'_, W>, name: &[u8], count: u64)
    ensures { Says W.contents sheet.old sheet.new (count_line name.now count) }
{
    sheet.put(name);
    sheet.put_number(count);
    sheet.put(b"\n");
}

// The same where the number is not 0.
fn put_some<W: Write>(sheet: &mut Sheet<'_, W>, name: &[u8], count: u64)
    ensures { Says W.contents sheet.old sheet.new (some_line name.now count) }
{
    if count != 0 {
        put_count(sheet, name, count);
    }
}

fn put_turned<W: Write>(sheet: &mut Sheet<'_, W>, name: &[u8], is_turned: bool, count: u64)
    ensures { Says W.contents sheet.old sheet.new (turned_line name.now is_turned count) }
{
    if is_turned {
        put_some(sheet, name, count);
    }
}

fn put_lifted<W: Write>(sheet: &mut Sheet<'_, W>, count: u64, most: u64)
    ensures { Says W.contents sheet.old sheet.new (lifted_line count most) }
{
    if count != 0 {
        put_lifts(sheet, count, most);
    }
}

fn put_lifts<W: Write>(sheet: &mut Sheet<'_, W>, count: u64, most: u64)
    ensures { Says W.contents sheet.old sheet.new (lifted_text count most) }
{
    sheet.put(b"times lifted ");
    sheet.put_number(count);
    sheet.put(b" by at most ");
    sheet.put_number(most);
    sheet.put(b"\n");
}

fn put_made<W: Write>(sheet: &mut Sheet<'_, W>, good: u64, bad: u64)
    ensures { Says W.contents sheet.old sheet.new (made_line good bad) }
{
    if !(good == 0 && bad == 0) {
        put_verdicts(sheet, good, bad);
    }
}

fn put_verdicts<W: Write>(sheet: &mut Sheet<'_, W>, good: u64, bad: u64)
    ensures { Says W.contents sheet.old sheet.new (made_text good bad) }
{
    sheet.put(b"bit 32 made: good ");
    sheet.put_number(good);
    sheet.put(b" bad ");
    sheet.put_number(bad);
    sheet.put(b"\n");
}
