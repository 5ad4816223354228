//! `a429 forms PROFILE REC`: what each word of a recording is to the file transfer, a line for each.

ghost use Rattle.a429_word.specs.Sheet.{Says};
ghost use Rattle.a429_commands.specs.Ends.{Ends, heard, of_entries};
ghost use Rattle.a429_commands.specs.Output.{output};
ghost use Rattle.a429_commands.specs.Forms.{AreFormLines, TellsForms, form_line, form_lines};

use crate::engines::question::{Question, ask};
use crate::fault::RunFault;
use a429_profile::Profile;
use a429_record::{Entry, EntryText};
use a429_view::put_what;
use a429_word::{Sheet, Tally};
use std::alloc::Global;
use std::io::{Read, Write};

/// Writes what each word of a recording is to the file transfer of a profile, a line for each, and answers
/// status 0: its form with its numbers, why it is free, or that it has no form (ARINC 429 Part 3; the layout
/// is the profile's). `profile` is the bytes of its text. The recording is read to its end first: nothing is
/// written where the profile or the recording has a fault, or the reader fails.
pub fn run_forms<R: Read, W: Write>(
    alloc: Global,
    profile: &[u8],
    rec: &mut Tally<R>,
    out: &mut Tally<W>,
) -> Result<u8, RunFault>
    ensures { Ends (output W.contents out.old out.new) (of_entries profile.now (heard R.remaining rec.old rec.new) TellsForms AreFormLines) result }
{
    ask(alloc, Forms, profile, rec, out)
}

// What each word is to the transfer.
#[derive(Drop)]
struct Forms;

impl Question for Forms {
    ghost says = { TellsForms };

    ghost begins = { AreFormLines };

    fn put<W: Write>(&self, profile: &Profile, entries: &[Entry], sheet: &mut Sheet<'_, W>) -> u8 {
        put_lines(sheet, profile, entries);
        0
    }
}

// A line for each entry.
fn put_lines<W: Write>(sheet: &mut Sheet<'_, W>, profile: &Profile, entries: &[Entry])
    ensures { Says W.contents sheet.old sheet.new (form_lines profile.now.codes entries.now) }
{
    let mut text = EntryText::new();
    for entry in entries {
        if sheet.failed() {
            return;
        }
        put_entry(sheet, profile, &mut text, entry);
    }
}

fn put_entry<W: Write>(
    sheet: &mut Sheet<'_, W>,
    profile: &Profile,
    text: &mut EntryText,
    entry: &Entry,
)
    ensures { Says W.contents sheet.old sheet.new (form_line profile.now.codes entry.now) }
{
    text.put_parts(sheet, *entry, b' ', b' ');
    put_what(sheet, profile, entry);
    sheet.put(b"\n");
}
