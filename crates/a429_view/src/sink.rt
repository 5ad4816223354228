//! What a recording says of its sink by itself, as lines.

ghost use Rattle.std.specs.Prelude.{◌++◌, codes, flat_map};
ghost use Rattle.a429_word.specs.Sheet.{Says};
ghost use Rattle.a429_view.specs.Sink.{before_text, crossed_line, no_line, owed_text, sink_text, yes_lines};

use crate::forms::put_named;
use crate::verdict::put_file;
use a429_link::Crossing;
use a429_sink::{Owed, Refusal, SinkVerdict};
use a429_word::Sheet;
use std::io::Write;

/// Puts what a recording says of its sink by itself: how many files crossed, with a line for each, its number and its length in bytes; or
/// the first entry that no sink sends which keeps the rules, the request until which that answer was owed, if it was, and the answers that
/// are allowed in its place (the layout is the profile's).
pub fn put_sink<W: Write>(sheet: &mut Sheet<'_, W>, verdict: &SinkVerdict)
    ensures { Says W.contents sheet.old sheet.new (sink_text verdict.now) }
{
    match verdict {
        SinkVerdict::Yes(files) => put_yes(sheet, files.as_slice()),
        SinkVerdict::No(refusal) => put_no(sheet, refusal),
    }
}

fn put_yes<W: Write>(sheet: &mut Sheet<'_, W>, files: &[Crossing])
    ensures { Says W.contents sheet.old sheet.new (yes_lines files.now) }
{
    sheet.put(b"SINK YES files ");
    sheet.put_number(files.len() as u64);
    sheet.put(b"\n");
    put_files(sheet, files);
}

pub(crate) fn put_files<W: Write>(sheet: &mut Sheet<'_, W>, files: &[Crossing])
    ensures { Says W.contents sheet.old sheet.new (flat_map crossed_line files.now) }
{
    for file in files {
        put_file(sheet, file.number, file.bytes as u64);
    }
}

fn put_no<W: Write>(sheet: &mut Sheet<'_, W>, refusal: &Refusal)
    ensures { Says W.contents sheet.old sheet.new (no_line refusal.now) }
{
    sheet.put(b"SINK NO ");
    sheet.put_number(refusal.entry as u64);
    put_before(sheet, refusal.owed_before);
    sheet.put(b" allowed ");
    put_owed(sheet, refusal.owed);
    sheet.put(b"\n");
}

fn put_before<W: Write>(sheet: &mut Sheet<'_, W>, entry: Option<usize>)
    ensures { Says W.contents sheet.old sheet.new (before_text entry) }
{
    if let Some(entry) = entry {
        sheet.put(b" owed before ");
        sheet.put_number(entry as u64);
    }
}

fn put_owed<W: Write>(sheet: &mut Sheet<'_, W>, owed: Owed)
    ensures { Says W.contents sheet.old sheet.new (owed_text owed) }
{
    match owed {
        Owed::Nothing => sheet.put(b"nothing"),
        Owed::Clear(count) => put_named(sheet, b"cts ", count),
        Owed::Ack { file, ldu } => {
            put_named(sheet, b"ack ", file);
            put_named(sheet, b" ", ldu);
            sheet.put(b", nak");
        }
        Owed::Nak => sheet.put(b"nak"),
    }
}
