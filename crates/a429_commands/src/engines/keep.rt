//! `a429 keep PROFILE REC`: a recording, without the entries that its transfer does not need.

ghost use Rattle.a429_parts.specs.Keeping.{taken};
ghost use Rattle.a429_commands.specs.Ends.{Ends, of_stream};
ghost use Rattle.a429_commands.specs.Output.{output};
ghost use Rattle.a429_commands.specs.Keep.{KeepsRows, KeepsSomeRows, KeepsRowsUntil};

use crate::engines::relay::{Relay, write_while_reading};
use crate::engines::streaming::fault_of;
use crate::fault::RunFault;
use a429_parts::put_kept;
use a429_profile::Profile;
use a429_record::EntryReader;
use a429_word::{Sheet, Tally};
use std::alloc::Global;
use std::io::{Read, Write};

/// Writes the text recording of the entries whose words have the label that the transfer of a profile has on their
/// bus, in order, and answers status 0. Damaged and ignored words with that label are kept; the words left out are
/// free, whatever they are (ARINC 429 Part 3; which words are free is the profile's). `profile` is the bytes of its
/// text. The recording is read entry by entry, and none of them is kept in memory. Where the recording has a fault, the
/// rows of the entries before it are written, and nothing where there is none; after a failed reader or out of memory, those
/// of the entries that came before.
pub fn run_keep<R: Read, W: Write>(
    alloc: Global,
    profile: &[u8],
    rec: &mut EntryReader<R>,
    out: &mut Tally<W>,
) -> Result<u8, RunFault>
    ensures { Ends (output W.contents out.old out.new) (of_stream profile.now (taken rec.old rec.new) rec.new.failed KeepsRows KeepsRowsUntil KeepsSomeRows) result }
{
    write_while_reading(alloc, &Keeping, profile, rec, out)
}

// The rows of the entries that are kept.
#[derive(Drop)]
struct Keeping;

impl Relay for Keeping {
    ghost says = { KeepsRows };

    ghost stops = { KeepsRowsUntil };

    ghost begins = { KeepsSomeRows };

    fn put<R: Read, W: Write>(
        &self,
        profile: &Profile,
        rec: &mut EntryReader<R>,
        sheet: &mut Sheet<'_, W>,
    ) -> Result<u8, RunFault> {
        match put_kept(profile, rec, sheet) {
            Ok(()) => Ok(0),
            Err(fault) => Err(fault_of(fault)),
        }
    }
}
