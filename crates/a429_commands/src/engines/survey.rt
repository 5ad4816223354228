//! `a429 survey PROFILE REC`: what a recording has, counted.

ghost use Rattle.std.specs.Prelude.{◌≡◌, false, IfOk, IfErr, OnOk};
ghost use Rattle.a429_view.specs.Survey.{text_of};
ghost use Rattle.a429_commands.specs.Ends.{Ends};
ghost use Rattle.a429_commands.specs.Fault.{ComesBy};
ghost use Rattle.a429_commands.specs.Output.{output};
ghost use Rattle.a429_commands.specs.Streaming.{IsNextFault};
ghost use Rattle.a429_commands.specs.Survey.{Counts, Surveys, of_survey, survey_causes};

use crate::engines::profile::profile_of;
use crate::engines::streaming::next_entry;
use crate::engines::text::{Text, write};
use crate::fault::RunFault;
use a429_profile::Profile;
use a429_record::EntryReader;
use a429_view::{Survey, put_survey};
use a429_word::{Sheet, Tally};
use std::alloc::Global;
use std::io::{Read, Write};

/// Writes what a recording has, counted, and answers status 0: its entries, its times, and for each bus the
/// entries, the kinds of words and the labels (the layout is the profile's). `profile` is the bytes of its text. The
/// recording is read entry by entry, and none of them is kept. Nothing is written where the profile or the
/// recording has a fault, or the reader fails.
pub fn run_survey<R: Read, W: Write>(
    alloc: Global,
    profile: &[u8],
    rec: &mut EntryReader<R>,
    out: &mut Tally<W>,
) -> Result<u8, RunFault>
    ensures { Ends (output W.contents out.old out.new) (of_survey profile.now rec.old.to_come rec.new.failed) result }
{
    write(alloc, counted(alloc, profile, rec), out)
}

impl Text for Survey {
    ghost use Rattle.std.specs.Prelude.{◌≡◌};
    ghost use Rattle.a429_view.specs.Survey.{text_of};

    ghost says = { λ s status text. (status ≡ 0) × (text ≡ text_of s) };

    ghost begins = { λ s text. text ≡ text_of s };

    fn put<W: Write>(&self, sheet: &mut Sheet<'_, W>) -> u8 {
        put_survey(sheet, self);
        0
    }
}

fn counted<R: Read>(
    alloc: Global,
    profile: &[u8],
    rec: &mut EntryReader<R>,
) -> Result<Survey, RunFault>
    ensures ok { IfOk result (λ s. Surveys profile.now rec.old.to_come (text_of s)) }
    ensures works { OnOk result (rec.new.failed ≡ false) }
    ensures err { IfErr result (ComesBy (survey_causes profile.now rec.old.to_come rec.new.failed)) }
{
    let profile = profile_of(alloc, profile)?;
    let survey = survey_of(&profile, rec);
    drop(profile);
    survey
}

// What the entries have that come.
fn survey_of<R: Read>(profile: &Profile, rec: &mut EntryReader<R>) -> Result<Survey, RunFault>
    ensures ok { IfOk result (Counts profile.now.codes rec.old.to_come) }
    ensures device { OnOk result (rec.new.failed ≡ false) }
    ensures err { IfErr result (IsNextFault rec.old.to_come rec.new.failed) }
{
    let mut survey = Survey::new();
    'entries: loop {
        match next_entry(rec) {
            Ok(Some(entry)) => survey.add(profile, &entry),
            Ok(None) => return Ok(survey),
            Err(fault) => return Err(fault),
        }
    }
}
