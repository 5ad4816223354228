//! Where the clock of an export begins again, or was set back.

ghost use Rattle.std.specs.Prelude.{◌≡◌, ◌++◌, OnOk};
ghost use Rattle.std.specs.List.{flat_map};
ghost use Rattle.a429_word.specs.Sheet.{Says};
ghost use Rattle.a429_import.specs.Places.{jump_name, jump_text, place_line, places_at, reset_place, wrap_place};

use crate::lot::Lot;
use crate::order::Fall;
use a429_word::Sheet;
use std::alloc::AllocError;
use std::io::Write;

/// A place in an export at which its clock jumps.
#[derive(Clone, Copy, Debug)]
pub struct Place {
    /// How many entries come before.
    pub entry: u64,
    /// The line of the export, from 1.
    pub line: u64,
    pub jump: Jump,
}

/// What the clock does at it.
#[derive(Clone, Copy, Debug)]
pub enum Jump {
    /// It begins again.
    Wrap,
    /// It was set back by so many microseconds.
    Reset(u64),
}

/// Adds the places of the entry on this line, if it is one, which comes after so many entries.
pub(crate) fn push_places(
    places: &mut Vec<Place>,
    entry: u64,
    line: u64,
    lot: &Lot,
) -> Result<(), AllocError>
    ensures { OnOk result (places.new.items ≡ places.old.items ++ places_at entry line lot.now) }
{
    match lot {
        Lot::Written { mend, .. } => {
            push_wrap(places, entry, line, mend.wraps)?;
            push_reset(places, entry, line, mend.fall)
        }
        _ => Ok(()),
    }
}

fn push_wrap(places: &mut Vec<Place>, entry: u64, line: u64, wraps: bool) -> Result<(), AllocError>
    ensures { OnOk result (places.new.items ≡ places.old.items ++ wrap_place entry line wraps) }
{
    if !wraps {
        return Ok(());
    }
    let jump = Jump::Wrap;
    places.push(Place { entry, line, jump })?;
    Ok(())
}

fn push_reset(places: &mut Vec<Place>, entry: u64, line: u64, fall: Fall) -> Result<(), AllocError>
    ensures { OnOk result (places.new.items ≡ places.old.items ++ reset_place entry line fall) }
{
    match fall {
        Fall::Reset(by) => {
            let jump = Jump::Reset(by);
            places.push(Place { entry, line, jump })?;
            Ok(())
        }
        _ => Ok(()),
    }
}

/// Puts a line for each place.
pub fn put_places<W: Write>(sheet: &mut Sheet<'_, W>, places: &[Place])
    ensures { Says W.contents sheet.old sheet.new (flat_map place_line places.now) }
{
    for place in places {
        put_place(sheet, *place);
    }
}

fn put_place<W: Write>(sheet: &mut Sheet<'_, W>, place: Place)
    ensures { Says W.contents sheet.old sheet.new (place_line place) }
{
    sheet.put(name_of(place.jump));
    sheet.put_number(place.entry);
    sheet.put(b" line ");
    sheet.put_number(place.line);
    put_jump(sheet, place.jump);
}

fn name_of(jump: Jump) -> &'static [u8]
    ensures { result.now ≡ jump_name jump }
{
    match jump {
        Jump::Wrap => b"wrap ",
        Jump::Reset(_) => b"reset ",
    }
}

// By how much the clock was set back, and the line's end.
fn put_jump<W: Write>(sheet: &mut Sheet<'_, W>, jump: Jump)
    ensures { Says W.contents sheet.old sheet.new (jump_text jump) }
{
    match jump {
        Jump::Wrap => sheet.put(b"\n"),
        Jump::Reset(by) => put_by(sheet, by),
    }
}

fn put_by<W: Write>(sheet: &mut Sheet<'_, W>, by: u64)
    ensures { Says W.contents sheet.old sheet.new (jump_text (Jump.Reset by)) }
{
    sheet.put(b" by ");
    sheet.put_number(by);
    sheet.put(b"\n");
}
