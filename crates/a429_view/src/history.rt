//! What is said of the pieces of a recording, as lines.

ghost use Rattle.std.specs.Prelude.{◌≡◌, ◌++◌, flat_map};
ghost use Rattle.std.specs.Fmt.{decimal};
ghost use Rattle.a429_word.specs.Sheet.{Says};
ghost use Rattle.a429_ldu.specs.Sight.{form_in};
ghost use Rattle.a429_parts.specs.Parts.{part_line};
ghost use Rattle.a429_view.specs.History.{begun_text, caveat, history_text, open_line, piece_text, reason_text, stop_line, stop_text};

use crate::forms::put_named;
use crate::sink::put_files;
use a429_ldu::{Form, Sight, form};
use a429_profile::Profile;
use a429_sink::{FileUnits, PieceSummary, Stopped};
use a429_word::Sheet;
use std::io::Write;

/// Puts what is said of the pieces of a recording: of each, how many entries it has and which is its first; whether a file was begun
/// before it; the entry at which it stops, and why; each file that is sure, its number and its length in bytes; and the acknowledged
/// units of other files (the layout is the profile's). The last line says how this is meant.
pub fn put_history<W: Write>(sheet: &mut Sheet<'_, W>, profile: &Profile, told: &[PieceSummary])
    ensures { Says W.contents sheet.old sheet.new (history_text profile.now.codes 1 told.now ++ caveat) }
{
    put_pieces(sheet, profile, told);
    sheet.put(CAVEAT);
}

// How the lines are meant.
const CAVEAT: &[u8] =
    b"a file listed has crossed, here or before; that a part ends there is an assumption\n";

// Numbered from 1.
fn put_pieces<W: Write>(sheet: &mut Sheet<'_, W>, profile: &Profile, told: &[PieceSummary])
    ensures { Says W.contents sheet.old sheet.new (history_text profile.now.codes 1 told.now) }
{
    for place in 0..told.len() {
        put_piece(sheet, profile, place as u64 + 1, &told[place]);
    }
}

fn put_piece<W: Write>(
    sheet: &mut Sheet<'_, W>,
    profile: &Profile,
    number: u64,
    piece: &PieceSummary,
)
    ensures { Says W.contents sheet.old sheet.new (piece_text profile.now.codes number piece.now) }
{
    put_part(sheet, number, piece);
    put_begun(sheet, piece.begun_before);
    put_stop(sheet, profile, &piece.stop);
    put_files(sheet, piece.files.as_slice());
    put_others(sheet, piece.units.as_slice());
}

// As in the list of the parts.
fn put_part<W: Write>(sheet: &mut Sheet<'_, W>, number: u64, piece: &PieceSummary)
    ensures { Says W.contents sheet.old sheet.new (part_line number piece.now.entries piece.now.from) }
{
    sheet.put(b"part ");
    sheet.put_number(number);
    sheet.put(b" entries ");
    sheet.put_number(piece.entries as u64);
    sheet.put(b" from ");
    sheet.put_number(piece.from as u64);
    sheet.put(b"\n");
}

fn put_begun<W: Write>(sheet: &mut Sheet<'_, W>, begun_before: bool)
    ensures { Says W.contents sheet.old sheet.new (begun_text begun_before) }
{
    if begun_before {
        sheet.put(b"begun before\n");
    }
}

fn put_stop<W: Write>(sheet: &mut Sheet<'_, W>, profile: &Profile, stop: &Option<Stopped>)
    ensures { Says W.contents sheet.old sheet.new (stop_text profile.now.codes stop.now) }
{
    if let Some(stop) = stop {
        put_stopped(sheet, profile, stop);
    }
}

fn put_stopped<W: Write>(sheet: &mut Sheet<'_, W>, profile: &Profile, stop: &Stopped)
    ensures { Says W.contents sheet.old sheet.new (stop_line profile.now.codes stop.now) }
{
    sheet.put(b"stopped ");
    sheet.put_number(stop.entry as u64);
    sheet.put(reason(form(profile, stop.seen.bus, stop.seen.word)));
}

// Why no run records a word of this form, which is not free: as `decide` says it.
fn reason(sight: Sight) -> &'static [u8]
    ensures { result.now ≡ reason_text (form_in sight) }
{
    match sight {
        Sight::Form(Form::Sot { .. } | Form::Part(_) | Form::Eot { .. }) => b" NotGranted\n",
        Sight::Form(_) => b" WrongAnswer\n",
        Sight::Free | Sight::NoForm => b" NoForm\n",
    }
}

fn put_others<W: Write>(sheet: &mut Sheet<'_, W>, others: &[FileUnits])
    ensures { Says W.contents sheet.old sheet.new (flat_map open_line others.now) }
{
    for units in others {
        put_open(sheet, units);
    }
}

fn put_open<W: Write>(sheet: &mut Sheet<'_, W>, units: &FileUnits)
    ensures { Says W.contents sheet.old sheet.new (open_line units.now) }
{
    put_named(sheet, b"open ", units.file);
    put_unit(sheet, b" units ", units.first);
    put_unit(sheet, b" to ", units.last);
    sheet.put(b"\n");
}

fn put_unit<W: Write>(sheet: &mut Sheet<'_, W>, name: &[u8], unit: u16)
    ensures { Says W.contents sheet.old sheet.new (name.now ++ decimal unit) }
{
    sheet.put(name);
    sheet.put_number(u64::from(unit));
}
