//! `a429 history PROFILE REC DIR`: what is sure of a recording that need not be of one run.

ghost use Rattle.std.specs.Prelude.{◌≡◌, false, IfOk, IfErr, OnOk};
ghost use Rattle.a429_parts.specs.Keeping.{taken};
ghost use Rattle.a429_sink.specs.Pieces.{IsBetweenPieces};
ghost use Rattle.a429_sink.specs.Splitting.{SplitsAll};
ghost use Rattle.a429_commands.specs.Ends.{Ends};
ghost use Rattle.a429_commands.specs.History.{AreUntold, IsHistory, history_status, of_history, put_in};
ghost use Rattle.a429_commands.specs.Output.{output};

use crate::engines::profile::profile_of;
use crate::engines::streaming::fault_of;
use crate::engines::text::{Text, write};
use crate::fault::RunFault;
use a429_profile::Profile;
use a429_record::EntryReader;
use a429_sink::{PieceSummary, Pieces, put_pieces};
use a429_view::put_history;
use a429_word::{Sheet, Tally};
use std::alloc::Global;
use std::io::{Read, Write};

/// Puts the pieces of a recording, each of which may be the end of a run, with the files that are sure of it, as it is read; and writes,
/// at the end of the recording, what is said of each (`put_pieces` of a429_sink). The status is 1 where a piece stops at a word that no
/// run records after those of the piece before it, else 0. That a piece ends where it does is an assumption: a unit was restarted, or
/// words are missing. `profile` is the bytes of its text. The recording is read entry by entry. Nothing is written where the profile
/// or the recording has a fault, or reader or pieces fail.
pub fn run_history<R: Read, P: Pieces, W: Write>(
    alloc: Global,
    profile: &[u8],
    rec: &mut EntryReader<R>,
    pieces: &mut P,
    out: &mut Tally<W>,
) -> Result<u8, RunFault>
    requires { IsBetweenPieces (P.known pieces.old) }
    ensures { Ends (output W.contents out.old out.new) (of_history profile.now (taken rec.old rec.new) rec.new.failed (put_in P.known P.failed pieces.old pieces.new)) result }
{
    write(alloc, told(alloc, profile, rec, pieces), out)
}

// What is said of the pieces, and the profile by which it is said.
#[derive(Drop)]
struct History {
    profile: Profile,
    told: Vec<PieceSummary>,
}

impl Text for History {
    ghost use Rattle.std.specs.Prelude.{◌≡◌, ◌++◌};
    ghost use Rattle.a429_view.specs.History.{caveat, history_text};
    ghost use Rattle.a429_commands.specs.History.{history_status};

    ghost says = { λ h status text. (status ≡ history_status h.told.items) × (text ≡ history_text h.profile.codes 1 h.told.items ++ caveat) };

    ghost begins = { λ h text. text ≡ history_text h.profile.codes 1 h.told.items ++ caveat };

    fn put<W: Write>(&self, sheet: &mut Sheet<'_, W>) -> u8 {
        put_history(sheet, &self.profile, self.told.as_slice());
        status_of(self.told.as_slice())
    }
}

// Puts the pieces.
fn told<R: Read, P: Pieces>(
    alloc: Global,
    profile: &[u8],
    rec: &mut EntryReader<R>,
    pieces: &mut P,
) -> Result<History, RunFault>
    requires { IsBetweenPieces (P.known pieces.old) }
    ensures ok { IfOk result (λ h. IsHistory profile.now (taken rec.old rec.new) (put_in P.known P.failed pieces.old pieces.new) h.profile h.told.items) }
    ensures works { OnOk result ((rec.new.failed ≡ false) × (P.failed pieces.new ≡ false)) }
    ensures err { IfErr result (AreUntold profile.now (taken rec.old rec.new) rec.new.failed (put_in P.known P.failed pieces.old pieces.new)) }
{
    let profile = profile_of(alloc, profile)?;
    match put_pieces(alloc, &profile, rec, pieces) {
        Ok(told) => Ok(History { profile, told }),
        Err(fault) => Err(fault_of(fault)),
    }
}

// Whether a piece stops.
fn status_of(told: &[PieceSummary]) -> u8
    ensures { result ≡ history_status told.now }
{
    for place in 0..told.len() {
        if told[place].stop.is_some() {
            return 1;
        }
    }
    0
}
