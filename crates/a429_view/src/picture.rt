//! The text of a picture: SVG, with the source at the left and the sink at the right.

ghost use Rattle.std.specs.Prelude.{◌≡◌, ◌≤◌, ◌+◌, ◌*◌, ◌++◌, codes, length};
ghost use Rattle.std.specs.Fmt.{decimal};
ghost use Rattle.a429_word.specs.Sheet.{Says};
ghost use Rattle.a429_view.specs.Picture.{stamp_text, arrow_text, crosses_text, word_text, seen_text, unseen_text, load_text, mark_text, row_text, rows_text, style_text, frame_text, names_text, size_text, head_text, svg_text};

use crate::forms::{put_named, put_what};
use crate::mark::{Mark, Recorded};
use a429_cert::Act;
use a429_link::UnitNumber;
use a429_profile::Profile;
use a429_word::{Bus, Sheet};
use std::io::Write;

/// Puts the picture of these rows as SVG; at most 2,000 rows.
pub fn put_picture<W: Write>(sheet: &mut Sheet<'_, W>, profile: &Profile, rows: &[Mark])
    requires { length rows.now ≤ 2000 }
    ensures { Says W.contents sheet.old sheet.new (svg_text profile.now.codes rows.now) }
{
    put_head(sheet, 30 * rows.len() as u64 + 90);
    put_rows(sheet, profile, rows);
    sheet.put(b"</svg>\n");
}

// What is around the rows of a picture that is so high.
fn put_head<W: Write>(sheet: &mut Sheet<'_, W>, height: u64)
    ensures { Says W.contents sheet.old sheet.new (head_text height) }
{
    put_size(sheet, height);
    put_style(sheet);
    put_frame(sheet, height);
    put_names(sheet);
}

fn put_size<W: Write>(sheet: &mut Sheet<'_, W>, height: u64)
    ensures { Says W.contents sheet.old sheet.new (size_text height) }
{
    sheet.put(b"<svg xmlns='http://www.w3.org/2000/svg' width='880' height='");
    sheet.put_number(height);
    sheet.put(b"' viewBox='0 0 880 ");
    sheet.put_number(height);
    sheet.put(b"'>\n<title>Messages between source and sink</title>\n");
}

fn put_style<W: Write>(sheet: &mut Sheet<'_, W>)
    ensures { Says W.contents sheet.old sheet.new style_text }
{
    sheet.put(
        b"<style>\ntext{font:13px monospace;fill:#1a1a1a}path{fill:none;stroke:#1a1a1a;stroke-width:1.5}.head{fill:#1a1a1a;stroke:none}.page{fill:#fff}\n",
    );
    sheet.put(b".end{text-anchor:end}.mid{text-anchor:middle}.dash{stroke-dasharray:7 5}\n");
    sheet.put(
        b"text.pale{fill:#717171}path.pale{stroke:#717171}.note{fill:#b3261e}.lost{stroke:#b3261e}\n",
    );
    sheet.put(
        b"@media(prefers-color-scheme:dark){text{fill:#ececec}path{stroke:#ececec}.head{fill:#ececec}.page{fill:#161616}\n",
    );
    sheet.put(
        b"text.pale{fill:#9a9a9a}path.pale{stroke:#9a9a9a}.note{fill:#ff8a80}.lost{stroke:#ff8a80}}\n</style>\n",
    );
}

// The page, and the lines of source and sink.
fn put_frame<W: Write>(sheet: &mut Sheet<'_, W>, height: u64)
    ensures { Says W.contents sheet.old sheet.new (frame_text height) }
{
    sheet.put(b"<rect class='page' width='880' height='");
    sheet.put_number(height);
    sheet.put(b"'/>\n<path class='pale' d='M300 40V");
    sheet.put_number(height);
    sheet.put(b"M620 40V");
    sheet.put_number(height);
    sheet.put(b"'/>\n");
}

fn put_names<W: Write>(sheet: &mut Sheet<'_, W>)
    ensures { Says W.contents sheet.old sheet.new names_text }
{
    sheet.put(
        b"<marker id='head' viewBox='0 0 8 8' refX='8' refY='4' markerWidth='8' markerHeight='8' orient='auto'><path class='head' d='M0 0 8 4 0 8z'/></marker>\n",
    );
    sheet.put(
        b"<text class='pale end' x='66' y='28'>entry</text><text class='pale end' x='240' y='28'>time in &#181;s</text>\n",
    );
    sheet.put(
        b"<text class='mid' x='300' y='28'>source</text><text class='mid' x='620' y='28'>sink</text>\n",
    );
}

// The rows, one below the other.
fn put_rows<W: Write>(sheet: &mut Sheet<'_, W>, profile: &Profile, rows: &[Mark])
    requires { length rows.now ≤ 2000 }
    ensures { Says W.contents sheet.old sheet.new (rows_text profile.now.codes 0 rows.now) }
{
    for (i, mark) in rows.iter().enumerate() {
        put_row(sheet, profile, 30 * i as u64 + 70, *mark);
    }
}

// A row at this height.
fn put_row<W: Write>(sheet: &mut Sheet<'_, W>, profile: &Profile, y: u64, mark: Mark)
    ensures { Says W.contents sheet.old sheet.new (row_text profile.now.codes y mark) }
{
    sheet.put(b"<g transform='translate(0,");
    sheet.put_number(y);
    sheet.put(b")'>");
    put_mark(sheet, profile, mark);
    sheet.put(b"</g>\n");
}

fn put_mark<W: Write>(sheet: &mut Sheet<'_, W>, profile: &Profile, mark: Mark)
    ensures { Says W.contents sheet.old sheet.new (mark_text profile.now.codes mark) }
{
    match mark {
        Mark::Load(number) => put_load(sheet, number),
        Mark::Unseen(act) => sheet.put(unseen_text(act)),
        Mark::Seen(recorded) => put_recorded(sheet, profile, &recorded),
    }
}

// The link data unit of this number is loaded at the source.
fn put_load<W: Write>(sheet: &mut Sheet<'_, W>, number: UnitNumber)
    ensures { Says W.contents sheet.old sheet.new (load_text number) }
{
    let name = b"<path d='M294 0h12'/><text x='312' y='5'>loads file ";
    put_named(sheet, name, number.file);
    sheet.put(b" unit ");
    sheet.put_number(number.ldu as u64);
    sheet.put(b"</text>");
}

// A step that records nothing.
fn unseen_text(act: Act) -> &'static [u8]
    ensures { result.now ≡ unseen_text act }
{
    match act {
        Act::SentLost =>
            b"<path class='lost dash' d='M300 0H560'/><path class='lost' d='M554-6l12 12m0-12l-12 12'/><text class='mid note' x='430' y='-6'>word lost</text>",
        Act::LoseAnswer =>
            b"<path class='lost dash' d='M620 0H360'/><path class='lost' d='M354-6l12 12m0-12l-12 12'/><text class='mid note' x='490' y='-6'>answer lost</text>",
        Act::TimeOut =>
            b"<path class='lost' d='M294 0h12'/><text class='note' x='312' y='5'>time-out</text>",
        Act::Silent =>
            b"<path class='lost' d='M614 0h12'/><text class='note end' x='608' y='5'>answer left out</text>",
        Act::GiveUp =>
            b"<path class='lost' d='M294 0h12'/><text class='note' x='312' y='5'>file given up</text>",
        _ => b"",
    }
}

// A recorded word: its entry, its arrow or tick with its text, and the file that crosses with it.
fn put_recorded<W: Write>(sheet: &mut Sheet<'_, W>, profile: &Profile, recorded: &Recorded)
    ensures { Says W.contents sheet.old sheet.new (seen_text profile.now.codes recorded.now) }
{
    put_stamp(sheet, recorded.number, recorded.entry.time);
    put_word(sheet, profile, recorded);
    put_crossing(sheet, recorded.crosses);
}

fn put_stamp<W: Write>(sheet: &mut Sheet<'_, W>, number: usize, time: u64)
    ensures { Says W.contents sheet.old sheet.new (stamp_text number time) }
{
    sheet.put(b"<text class='end' x='66' y='5'>");
    sheet.put_number(number as u64);
    sheet.put(b"</text><text class='end' x='240' y='5'>");
    sheet.put_number(time);
    sheet.put(b"</text>");
}

fn put_word<W: Write>(sheet: &mut Sheet<'_, W>, profile: &Profile, recorded: &Recorded)
    ensures { Says W.contents sheet.old sheet.new (word_text profile.now.codes recorded.now) }
{
    sheet.put(line_text(recorded.act, recorded.entry.bus));
    put_what(sheet, profile, &recorded.entry);
    sheet.put(b"</text>");
}

// What is drawn of a recorded word, up to its text.
fn line_text(act: Act, bus: Bus) -> &'static [u8]
    ensures { result.now ≡ arrow_text act bus }
{
    match (act, bus) {
        (Act::Sent, _) =>
            b"<path marker-end='url(#head)' d='M300 0H619'/><text class='mid' x='460' y='-6'>",
        (Act::Answered, _) =>
            b"<path marker-end='url(#head)' d='M620 0H301'/><text class='mid' x='460' y='-6'>",
        (_, Bus::A) => b"<path class='pale' d='M300 0h14'/><text class='pale' x='322' y='5'>",
        (_, Bus::B) => b"<path class='pale' d='M620 0h-14'/><text class='pale end' x='598' y='5'>",
    }
}

// The file that crosses, beside the sink.
fn put_crossing<W: Write>(sheet: &mut Sheet<'_, W>, file: Option<u8>)
    ensures { Says W.contents sheet.old sheet.new (crosses_text file) }
{
    match file {
        None => {}
        Some(file) => put_crossed(sheet, file),
    }
}

fn put_crossed<W: Write>(sheet: &mut Sheet<'_, W>, file: u8)
    ensures { Says W.contents sheet.old sheet.new (crosses_text (Some file)) }
{
    put_named(sheet, b"<text x='632' y='5'>file ", file);
    sheet.put(b" crosses</text>");
}
