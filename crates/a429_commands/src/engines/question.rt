//! Questions about a profile and the entries of a recording, which are read to their ends before the answer is written.

ghost use Rattle.std.specs.Prelude.{◌≡◌, ℕ, List, false, IfOk, IfErr};
ghost use Rattle.a429_word.specs.Sheet.{sheet_failed, SaysSome};
ghost use Rattle.a429_profile.specs.Profile.{Contents};
ghost use Rattle.a429_commands.specs.Ends.{AreHeard, Ends, heard, of_entries, unheard_causes};
ghost use Rattle.a429_commands.specs.Fault.{ComesBy};
ghost use Rattle.a429_commands.specs.Output.{output};

use crate::engines::profile::profile_of;
use crate::engines::recording::entries_of;
use crate::engines::text::{Text, write};
use crate::fault::RunFault;
use a429_profile::Profile;
use a429_record::Entry;
use a429_word::{Sheet, Tally};
use std::alloc::Global;
use std::io::{Read, Write};

/// What a command asks of a profile and the entries of a recording, and how the answer is written.
pub(crate) trait Question {
    ghost use Rattle.a429_record.specs.declared.entry.Entry.{Entry};

    // The answer's text, with a status.
    ghost says: { Contents → List Entry → ℕ → List ℕ → Type 0 };

    // A text of which a prefix may be written where the output fails.
    ghost begins: { Contents → List Entry → List ℕ → Type 0 };

    /// Puts the answer, and answers the status.
    fn put<W: Write>(&self, profile: &Profile, entries: &[Entry], sheet: &mut Sheet<'_, W>) -> u8
        ensures first { SaysSome W.contents sheet.old sheet.new (begins profile.now entries.now) }
        ensures all { sheet_failed sheet.new ≡ false → SaysSome W.contents sheet.old sheet.new (says profile.now entries.now result) };
}

// A question, and what it is about.
#[derive(Drop)]
struct Asked<Q> {
    question: Q,
    profile: Profile,
    entries: Vec<Entry>,
}

impl<Q: Question> Text for Asked<Q> {
    ghost says = { λ a. Q.says a.profile a.entries.items };

    ghost begins = { λ a. Q.begins a.profile a.entries.items };

    fn put<W: Write>(&self, sheet: &mut Sheet<'_, W>) -> u8 {
        self.question
            .put(&self.profile, self.entries.as_slice(), sheet)
    }
}

/// Writes the answer to a question, by the bytes of a profile's text and a recording.
pub(crate) fn ask<Q: Question + Drop, R: Read, W: Write>(
    alloc: Global,
    question: Q,
    profile: &[u8],
    rec: &mut Tally<R>,
    out: &mut Tally<W>,
) -> Result<u8, RunFault>
    ensures { Ends (output W.contents out.old out.new) (of_entries profile.now (heard R.remaining rec.old rec.new) Q.says Q.begins) result }
{
    write(alloc, read_input(alloc, question, profile, rec), out)
}

fn read_input<Q: Drop, R: Read>(
    alloc: Global,
    question: Q,
    profile: &[u8],
    rec: &mut Tally<R>,
) -> Result<Asked<Q>, RunFault>
    ensures ok { IfOk result (λ a. AreHeard profile.now (heard R.remaining rec.old rec.new) a.profile a.entries.items) }
    ensures err { IfErr result (ComesBy (unheard_causes profile.now (heard R.remaining rec.old rec.new))) }
{
    let profile = profile_of(alloc, profile)?;
    match entries_of(alloc, rec) {
        Ok(entries) => Ok(Asked {
            question,
            profile,
            entries,
        }),
        Err(fault) => {
            drop(profile);
            Err(fault)
        }
    }
}
