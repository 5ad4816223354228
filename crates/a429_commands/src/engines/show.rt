//! `a429 show PROFILE REC`: the words of a recording, a line for each.

ghost use Rattle.a429_commands.specs.Ends.{Ends, heard, of_entries};
ghost use Rattle.a429_commands.specs.Output.{output};
ghost use Rattle.a429_commands.specs.Show.{Shows};
ghost use Rattle.a429_view.specs.Show.{AreFirstShowLines};

use crate::engines::question::{Question, ask};
use crate::fault::RunFault;
use a429_profile::Profile;
use a429_record::Entry;
use a429_view::put_shown_lines;
use a429_word::{Sheet, Tally};
use std::alloc::Global;
use std::io::{Read, Write};

/// Writes what each word of a recording shows by a profile, a line for each, and answers status 0.
/// `profile` is the bytes of its text. The recording is read to its end first: nothing is written where
/// the profile or the recording has a fault, or the reader fails.
pub fn run_show<R: Read, W: Write>(
    alloc: Global,
    profile: &[u8],
    rec: &mut Tally<R>,
    out: &mut Tally<W>,
) -> Result<u8, RunFault>
    ensures { Ends (output W.contents out.old out.new) (of_entries profile.now (heard R.remaining rec.old rec.new) Shows AreFirstShowLines) result }
{
    ask(alloc, Show, profile, rec, out)
}

// What each word shows.
#[derive(Drop)]
struct Show;

impl Question for Show {
    ghost says = { Shows };

    ghost begins = { AreFirstShowLines };

    fn put<W: Write>(&self, profile: &Profile, entries: &[Entry], sheet: &mut Sheet<'_, W>) -> u8 {
        put_shown_lines(sheet, profile, entries);
        0
    }
}
