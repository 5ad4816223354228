//! What is written while a recording is read: the frame of commands that keep none of it.

ghost use Rattle.std.specs.Prelude.{◌≡◌, [], ℕ, List, false, IfOk, IfErr};
ghost use Rattle.a429_word.specs.Sheet.{sheet_failed, SaysSome};
ghost use Rattle.a429_profile.specs.Profile.{Contents};
ghost use Rattle.a429_parts.specs.Keeping.{Taken, taken};
ghost use Rattle.a429_commands.specs.Ends.{Ends, by_answer, of_stream, under};
ghost use Rattle.a429_commands.specs.Output.{output};
ghost use Rattle.a429_commands.specs.Streaming.{IsLinesFault};

use crate::engines::profile::profile_of;
use crate::fault::RunFault;
use a429_profile::Profile;
use a429_record::EntryReader;
use a429_word::{Page, Sheet, Tally};
use std::alloc::Global;
use std::io::{Read, Write};

/// What a command writes of the entries that come, under a profile.
pub(crate) trait Relay {
    ghost use Rattle.a429_commands.specs.declared.fault.RunFault.{RunFault};

    // The text, with a status.
    ghost says: { Contents → Taken → ℕ → List ℕ → Type 0 };

    // The text before a fault.
    ghost stops: { Contents → Taken → RunFault → List ℕ → Type 0 };

    // A text of which a prefix may be written where the output fails.
    ghost begins: { Contents → Taken → List ℕ → Type 0 };

    /// Puts the text, and answers the status. Where the sheet has failed, the answer does not matter.
    fn put<R: Read, W: Write>(
        &self,
        profile: &Profile,
        rec: &mut EntryReader<R>,
        sheet: &mut Sheet<'_, W>,
    ) -> Result<u8, RunFault>
        ensures first { SaysSome W.contents sheet.old sheet.new (begins profile.now (taken rec.old rec.new)) }
        ensures all { sheet_failed sheet.new ≡ false → SaysSome W.contents sheet.old sheet.new (by_answer (says profile.now (taken rec.old rec.new)) (stops profile.now (taken rec.old rec.new)) result) }
        ensures works { sheet_failed sheet.new ≡ false → IfOk result (λ status. status ≡ 0 → rec.new.failed ≡ false) }
        ensures err { IfErr result (IsLinesFault rec.old.to_come rec.new.failed (sheet_failed sheet.new)) };
}

/// Writes by the bytes of a profile's text, entry after entry.
pub(crate) fn write_while_reading<T: Relay, R: Read, W: Write>(
    alloc: Global,
    relay: &T,
    profile: &[u8],
    rec: &mut EntryReader<R>,
    out: &mut Tally<W>,
) -> Result<u8, RunFault>
    ensures { Ends (output W.contents out.old out.new) (of_stream profile.now (taken rec.old rec.new) rec.new.failed T.says T.stops T.begins) result }
{
    let profile = profile_of(alloc, profile)?;
    let page = Page::new(alloc)?;
    let status = put_under(page, relay, &profile, rec, out);
    drop(profile);
    status
}

// By an empty page.
fn put_under<T: Relay, R: Read, W: Write>(
    page: Page,
    relay: &T,
    profile: &Profile,
    rec: &mut EntryReader<R>,
    out: &mut Tally<W>,
) -> Result<u8, RunFault>
    requires { page ≡ [] }
    ensures { Ends (output W.contents out.old out.new) (under profile.now (taken rec.old rec.new) rec.new.failed T.says T.stops T.begins) result }
{
    let mut page = page;
    let mut sheet = Sheet::new(out, &mut page);
    let status = relay.put(profile, rec, &mut sheet);
    sheet.finish()?;
    status
}
