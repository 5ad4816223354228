//! The words of one direction, written while a recording is read.

ghost use Rattle.std.specs.Prelude.{◌≡◌, [], true, false, IfOk, IfErr, IsErrOf, OnOk};
ghost use Rattle.std.specs.List.{flat_map};
ghost use Rattle.a429_word.specs.Sheet.{Says, sheet_failed};
ghost use Rattle.a429_record.specs.declared.fault.ReadFault.TheVariants as read;
ghost use Rattle.a429_record.specs.Writing.{IsLineOf, line_text};
ghost use Rattle.a429_parts.specs.Keeping.{taken};
ghost use Rattle.a429_side.specs.Side.{with_written};
ghost use Rattle.a429_side.specs.Siding.{SidesAll, SidesUntil};

use crate::counts::Counts;
use crate::lot::{Side, directed, entry_of, next_lot};
use a429_parts::next_of;
use a429_profile::Profile;
use a429_record::{Entry, EntryLine, EntryReader, EntryText, ReadFault, put_header};
use a429_word::Sheet;
use std::io::{Read, Write};

/// Puts a text recording of the words of one direction and of the profile's destination, in order, as they are read, and answers what
/// became of the entries. Free words are put, and so are words of no direction; in the text the files travel on line A. Where the recording
/// has a fault, the header and the rows of the entries before it that stay are put; where no entry comes before it, nothing is. A
/// reader that has failed is no end of the recording: the fault is `Device`. Where the sheet fails it stops and answers `Ok`: ask the
/// sheet.
pub fn put_side<R: Read, W: Write>(
    profile: &Profile,
    side: Side,
    rec: &mut EntryReader<R>,
    sheet: &mut Sheet<'_, W>,
) -> Result<Counts, ReadFault>
    ensures all { IfOk result (SidesAll W.contents (record { codes = profile.now.codes; side = side; taken = taken rec.old rec.new }) sheet.old sheet.new) }
    ensures until { IfErr result (SidesUntil W.contents (record { codes = profile.now.codes; side = side; taken = taken rec.old rec.new }) sheet.old sheet.new) }
    ensures device { IsErrOf result read.Device → rec.new.failed ≡ true }
    ensures works { OnOk result (sheet_failed sheet.new ≡ false → rec.new.failed ≡ false) }
{
    let mut line = EntryLine::new();
    let mut next = next_of(rec, &mut line)?;
    put_header(sheet);
    let codes = profile.codes();
    let mut counts = Counts::new();
    let mut last = codes.destination;
    let mut text = EntryText::new();
    'entries: loop {
        let Some(recorded) = next else {
            return Ok(counts);
        };
        if sheet.failed() {
            return Ok(counts);
        }
        let entry = directed(side.line, &recorded);
        let lot = next_lot(profile, side.answer, &mut last, &entry);
        counts.add(lot);
        let written = entry_of(codes, lot, entry);
        put_written(sheet, &mut text, written, recorded, &line);
        next = next_of(rec, &mut line)?;
    }
}

// Puts the line of the entry that is written of a recorded one: the line that was read, if there is one and the entry is the same.
#[inline(always)]
fn put_written<W: Write>(
    sheet: &mut Sheet<'_, W>,
    text: &mut EntryText,
    written: Option<Entry>,
    recorded: Entry,
    line: &EntryLine,
)
    requires { IsLineOf line.now recorded }
    ensures { Says W.contents sheet.old sheet.new (flat_map line_text (with_written written [])) }
{
    let Some(entry) = written else {
        return;
    };
    if line.is_empty() || entry != recorded {
        text.put_line(sheet, entry);
    } else {
        line.put(sheet);
    }
}
