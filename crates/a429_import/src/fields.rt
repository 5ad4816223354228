//! The fields of a line.

ghost use Rattle.std.specs.Prelude.{◌≡◌, ◌<◌, ◌≤◌, ◌^◌, ◌-◌, ◌==◌, ◌&&◌, ◌||◌, ◌∷◌, [], length, map, take, drop, true, false, not, slice_get, option_map, IfOk, IfSome, IfNone, OnOk};
ghost use Rattle.std.specs.List.{list_all, list_any};
ghost use Rattle.csv.specs.Records.{fields_of};
ghost use Rattle.csv.specs.Reading.{strip_bom};
ghost use Rattle.a429_import.specs.Fields.{is_blank, is_mark, is_return, without_first, without_last, without_returns, trimmed, text_of, words, word_length, csv_fields, fields_left};
ghost use Rattle.a429_import.specs.Columns.{field_at, name_at};
ghost use Rattle.a429_import.specs.Piece.{pieces, pieces_from, starts_from};

use crate::piece::end_of;
use csv::{ByteRecord, ReaderBuilder, Terminator};
use std::alloc::{AllocError, Global};

/// The fields of a line that are still to come.
#[derive(Clone, Copy, Drop)]
pub(crate) enum Fields<'a> {
    /// The pieces of a text, the first from this place on, the others from these on.
    Cut(&'a [u8], usize, &'a [usize]),
    /// The words of a text, between blanks.
    Words(&'a [u8]),
    /// Those of a record, from this place on.
    Record(&'a ByteRecord, usize),
    /// None.
    End,
}

/// A field, and those after it.
#[derive(Clone, Copy, Drop)]
struct First<'a> {
    field: &'a [u8],
    rest: Fields<'a>,
}

impl<'a> Fields<'a> {
    // The first of them, if there is one.
    fn first(self) -> Option<First<'a>>
        ensures some { IfSome result (λ f. fields_left self.entry ≡ f.field.now ∷ fields_left f.rest) }
        ensures none { IfNone result (fields_left self.entry ≡ []) }
    {
        match self {
            Fields::Cut(text, start, starts) => Some(first_piece(text, start, starts)),
            Fields::Words(text) => first_word(text),
            Fields::Record(row, place) => first_of_record(row, place),
            Fields::End => None,
        }
    }

    /// The field at a place, from 0.
    pub(crate) fn get(self, place: usize) -> Option<&'a [u8]>
        ensures { option_map (λ f. f.now) result ≡ slice_get (fields_left self.entry) place }
    {
        match self {
            Fields::Cut(text, start, starts) => {
                let piece = piece_at(text, start, starts, place)?;
                Some(trimmed(piece))
            }
            _ => self.walk_to(place),
        }
    }

    // The same, field by field from the first.
    fn walk_to(self, place: usize) -> Option<&'a [u8]>
        ensures { option_map (λ f. f.now) result ≡ slice_get (fields_left self.entry) place }
    {
        let mut fields = self;
        'fields: for _before in 0..place {
            fields = fields.first()?.rest;
        }
        let first = fields.first()?;
        Some(first.field)
    }

    /// The field at a place; empty where there is none.
    pub(crate) fn at(self, place: usize) -> &'a [u8]
        ensures { result.now ≡ field_at (fields_left self.entry) place }
    {
        match self.get(place) {
            Some(field) => field,
            None => &[],
        }
    }

    /// The place of the first field with this name.
    pub(crate) fn position(self, name: &[u8]) -> Option<usize>
        requires { length (fields_left self) < 2 ^ 64 }
        ensures { result ≡ name_at 0 name.now (fields_left self.entry) }
    {
        let mut fields = self;
        let mut place = 0;
        'fields: loop {
            let first = fields.first()?;
            if first.field == name {
                return Some(place);
            }
            fields = first.rest;
            place += 1;
        }
    }
}

// The first piece of a text from this place on, and the others.
fn first_piece<'a>(text: &'a [u8], start: usize, starts: &'a [usize]) -> First<'a>
    ensures { map trimmed (pieces_from text.now start starts.now) ≡ result.field.now ∷ fields_left result.rest }
{
    match starts {
        [next, rest @ ..] => First {
            field: trimmed(between(text, start, *next)),
            rest: Fields::Cut(text, *next, rest),
        },
        [] => First {
            field: trimmed(rest_from(text, start)),
            rest: Fields::End,
        },
    }
}

// The piece at a place, from 0.
fn piece_at<'a>(text: &'a [u8], start: usize, starts: &[usize], place: usize) -> Option<&'a [u8]>
    ensures { option_map (λ p. p.now) result ≡ slice_get (pieces_from text.now start starts.now) place }
{
    let begin = begin_of(start, starts, place)?;
    match place_at(starts, place) {
        Some(next) => Some(between(text, begin, next)),
        None => Some(rest_from(text, begin)),
    }
}

// Where it begins.
fn begin_of(start: usize, starts: &[usize], place: usize) -> Option<usize>
    ensures { result ≡ slice_get (start ∷ starts.now) place }
{
    if place == 0 {
        Some(start)
    } else {
        place_at(starts, place - 1)
    }
}

fn place_at(starts: &[usize], place: usize) -> Option<usize>
    ensures { result ≡ slice_get starts.now place }
{
    starts.get(place).copied()
}

// What is from one place on and before the byte before another.
fn between(text: &[u8], start: usize, next: usize) -> &[u8]
    ensures { result.now ≡ take (next - 1 - start) (drop start text.now) }
{
    let rest = rest_from(text, start);
    let count = next.saturating_sub(1).saturating_sub(start).min(rest.len());
    &rest[..count]
}

// What is from a place on.
fn rest_from(text: &[u8], start: usize) -> &[u8]
    ensures { result.now ≡ drop start text.now }
{
    &text[start.min(text.len())..]
}

// The first word of a text, and the others.
fn first_word(text: &[u8]) -> Option<First<'_>>
    ensures some { IfSome result (λ f. words text.now ≡ f.field.now ∷ fields_left f.rest) }
    ensures none { IfNone result (words text.now ≡ []) }
{
    let text = without_first_blanks(text);
    if text.is_empty() {
        return None;
    }
    let end = word_end(text);
    Some(First {
        field: &text[..end],
        rest: Fields::Words(&text[end..]),
    })
}

// Where the first blank is, or the end.
fn word_end(text: &[u8]) -> usize
    ensures length { result ≡ word_length text.now }
    ensures inside { result ≤ length text.now }
{
    let mut end = 0;
    'bytes: while end < text.len() {
        if is_blank(text[end]) {
            return end;
        }
        end += 1;
    }
    end
}

// The first field of a record from a place on, and the others.
fn first_of_record(row: &ByteRecord, place: usize) -> Option<First<'_>>
    ensures some { IfSome result (λ f. map trimmed (drop place (fields_of row.now)) ≡ f.field.now ∷ fields_left f.rest) }
    ensures none { IfNone result (map trimmed (drop place (fields_of row.now)) ≡ []) }
{
    let field = row.get(place)?;
    Some(First {
        field: trimmed(field),
        rest: Fields::Record(row, place + 1),
    })
}

/// The fields that `csv` reads in a line.
pub(crate) fn csv_record(
    alloc: Global,
    at: u8,
    quotes: bool,
    line: &[u8],
) -> Result<ByteRecord, AllocError>
    ensures fields { IfOk result (λ r. fields_of r ≡ csv_fields at quotes (strip_bom line.now)) }
    ensures few { IfOk result (λ r. length (fields_of r) < 2 ^ 64) }
{
    let mut reader = ReaderBuilder::new()
        .delimiter(at)
        .quoting(quotes)
        .terminator(Terminator::Any(b'\n'))
        .has_headers(false)
        .flexible(true)
        .from_reader(alloc, line);
    let mut row = ByteRecord::new(alloc);
    let Ok(found) = reader.read_byte_record(&mut row) else {
        return Err(AllocError);
    };
    if !found {
        return Ok(ByteRecord::new(alloc));
    }
    // (for the proof: there are so few)
    let _count = row.len();
    Ok(row)
}

/// A blank or a tab.
pub(crate) fn is_blank(byte: u8) -> bool
    ensures { result ≡ is_blank byte }
{
    byte == b' ' || byte == b'\t'
}

fn is_return(byte: u8) -> bool
    ensures { result ≡ is_return byte }
{
    byte == b'\r'
}

/// Whether a text has nothing but blanks and tabs.
pub(crate) fn is_all_blank(text: &[u8]) -> bool
    ensures { result ≡ list_all is_blank text.now }
{
    text.iter().all(|byte| is_blank(*byte))
}

/// The words of a text, between blanks.
pub(crate) fn words(text: &[u8]) -> Fields<'_>
    ensures fields { fields_left result ≡ words text.now }
    ensures few { length (fields_left result) < 2 ^ 64 }
{
    Fields::Words(text)
}

/// Puts into `starts` where the pieces of a text begin after the first, the text being cut at each such byte, and returns whether `csv`
/// has only to cut it: whether it has no line feed, and no quote where quotes count.
pub(crate) fn find_starts(
    at: u8,
    quotes: bool,
    text: &[u8],
    starts: &mut Vec<usize>,
) -> Result<bool, AllocError>
    ensures plain { IfOk result (λ plain. plain ≡ not (list_any (is_mark quotes) text.now)) }
    ensures starts { IfOk result (λ plain. plain ≡ true → starts.new.items ≡ starts_from at 0 text.now) }
{
    starts.clear();
    let mut place = 0;
    'bytes: while place < text.len() {
        let byte = text[place];
        place += 1;
        if is_mark(quotes, byte) {
            return Ok(false);
        }
        if byte == at {
            starts.push(place)?;
        }
    }
    Ok(true)
}

// A byte that counts for `csv`.
fn is_mark(quotes: bool, byte: u8) -> bool
    ensures { result ≡ is_mark quotes byte }
{
    byte == b'\n' || quotes && byte == b'"'
}

/// The fields that `csv` reads in a text that it has only to cut, where the pieces begin after the first.
pub(crate) fn cut<'a>(at: u8, quotes: bool, text: &'a [u8], starts: &'a [usize]) -> Fields<'a>
    requires some { list_all is_blank text.now ≡ false }
    requires plain { not (list_any (is_mark quotes) text.now) ≡ true }
    requires starts { starts.now ≡ starts_from at 0 text.now }
    ensures fields { fields_left result ≡ map trimmed (csv_fields at quotes text.now) }
    ensures few { length (fields_left result) < 2 ^ 64 }
{
    Fields::Cut(text, 0, starts)
}

// A text without the blanks at both ends.
fn trimmed(text: &[u8]) -> &[u8]
    ensures { result.now ≡ trimmed text.now }
{
    without_last_blanks(without_first_blanks(text))
}

/// A text without the blanks at its start.
pub(crate) fn without_first_blanks(text: &[u8]) -> &[u8]
    ensures { result.now ≡ without_first is_blank text.now }
{
    let mut start = 0;
    'blanks: while start < text.len() {
        if !is_blank(text[start]) {
            return &text[start..];
        }
        start += 1;
    }
    &[]
}

/// And without those at its end.
pub(crate) fn without_last_blanks(text: &[u8]) -> &[u8]
    ensures { result.now ≡ without_last is_blank text.now }
{
    let mut end = text.len();
    'blanks: while 0 < end {
        if !is_blank(text[end - 1]) {
            return &text[..end];
        }
        end -= 1;
    }
    &[]
}

/// A line without the carriage returns at its end.
pub(crate) fn without_returns(line: &[u8]) -> &[u8]
    ensures { result.now ≡ without_returns line.now }
{
    let mut end = line.len();
    'returns: while 0 < end {
        if !is_return(line[end - 1]) {
            return &line[..end];
        }
        end -= 1;
    }
    &[]
}
