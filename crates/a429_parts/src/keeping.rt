//! A recording, written while it is read: of its entries, those that the transfer needs.

ghost use Rattle.std.specs.Prelude.{◌≡◌, ◌+◌, ◌<◌, ◌^◌, true, false, None, IfOk, IfErr, IsErrOf, OnOk};
ghost use Rattle.a429_word.specs.Sheet.{Says, sheet_failed};
ghost use Rattle.a429_record.specs.Rows.{GivesNext, IfEntry, entries_in};
ghost use Rattle.a429_record.specs.declared.fault.ReadFault.TheVariants as read;
ghost use Rattle.a429_record.specs.Writing.{IsLineOf};
ghost use Rattle.a429_parts.specs.Keeping.{kept_line, taken, KeepsAll, KeepsUntil};

use crate::kept::is_kept;
use a429_profile::Profile;
use a429_record::{Entry, EntryLine, EntryReader, EntryText, ReadFault, put_header};
use a429_word::{Failing, Sheet};
use std::io::{Read, Write};

/// Puts a text recording of the entries that are kept (`is_kept`), in order, as they are read. Where the
/// recording has a fault, the header and the rows of the kept entries before it are put; where no entry comes before it,
/// nothing is. A reader that has failed is no end of the recording: the fault is `Device`. Where the sheet fails it stops
/// and answers `Ok`: ask the sheet.
pub fn put_kept<R: Read, W: Write>(
    profile: &Profile,
    rec: &mut EntryReader<R>,
    sheet: &mut Sheet<'_, W>,
) -> Result<(), ReadFault>
    ensures all { OnOk result (KeepsAll W.contents profile.now.codes (taken rec.old rec.new) sheet.old sheet.new) }
    ensures until { IfErr result (KeepsUntil W.contents profile.now.codes (taken rec.old rec.new) sheet.old sheet.new) }
    ensures device { IsErrOf result read.Device → rec.new.failed ≡ true }
    ensures works { OnOk result (sheet_failed sheet.new ≡ false → rec.new.failed ≡ false) }
{
    let mut line = EntryLine::new();
    let mut next = next_of(rec, &mut line)?;
    put_header(sheet);
    let mut text = EntryText::new();
    'entries: loop {
        let Some(entry) = next else {
            return Ok(());
        };
        if sheet.failed() {
            return Ok(());
        }
        put_if_kept(profile, entry, &line, &mut text, sheet);
        next = next_of(rec, &mut line)?;
    }
}

/// The next entry, or none at the recording's end. `line` becomes its line, or empty where the row was not written so.
#[inline(always)]
pub fn next_of<R: Read>(
    rec: &mut EntryReader<R>,
    line: &mut EntryLine,
) -> Result<Option<Entry>, ReadFault>
    ensures gives { GivesNext rec.old.to_come rec.new.to_come result }
    ensures counts { rec.new.count ≡ rec.old.count + entries_in result }
    ensures few { IfEntry result (λ _. rec.new.count < 2 ^ 64) }
    ensures room { IfEntry result (λ _. rec.new.room < rec.old.room) }
    ensures works { IfOk result (λ o. o ≡ None → rec.new.failed ≡ false) }
    ensures device { IsErrOf result read.Device → rec.new.failed ≡ true }
    ensures line { IfEntry result (λ e. IsLineOf line.new e) }
{
    match rec.next_line(line) {
        Ok(None) if rec.failed() => Err(ReadFault::Device),
        next => next,
    }
}

// Puts the line of an entry that is kept: `line`, unless it is empty.
#[inline(always)]
fn put_if_kept<W: Write>(
    profile: &Profile,
    entry: Entry,
    line: &EntryLine,
    text: &mut EntryText,
    sheet: &mut Sheet<'_, W>,
)
    requires { IsLineOf line.now entry }
    ensures { Says W.contents sheet.old sheet.new (kept_line profile.now.codes entry) }
{
    if !is_kept(profile, &entry) {
        return;
    }
    if line.is_empty() {
        text.put_line(sheet, entry);
    } else {
        line.put(sheet);
    }
}
