//! The certificate of a run that is guessed.

ghost use Rattle.std.specs.Prelude.{◌≡◌, ◌≢◌, ℕ, List, IfOk, IfErr};
ghost use Rattle.a429_profile.specs.Profile.{IsProfile};
ghost use Rattle.a429_link.specs.declared.seen.Seen.{Seen};
ghost use Rattle.a429_cert.specs.Explained.{items_of, IsExplained, AreInEveryRun};
ghost use Rattle.a429_explain.specs.Explanation.{HasNoFault, HasLeastVersion, IsExplanationOf, IsWhyNotWritten};
ghost use Rattle.a429_explain.specs.Guess.{decoded, IsGuess, IsOfCrossing};
ghost use Rattle.a429_explain.specs.Scribe.{Wrote};

use crate::certificate::Certificate;
use crate::guess::Guess;
use crate::plan::take_plan;
use crate::scribe::Scribe;
use a429_cert::{BlockText, Verified, seen};
use a429_link::StepFault;
use a429_profile::Profile;
use a429_record::Entry;
use std::alloc::Global;

/// A certificate that explains a recording, and the files that are delivered in every run that records its words.
#[derive(Drop)]
pub struct Explanation {
    pub certificate: Certificate,
    pub files: Verified,
}

/// Why no certificate is written for a guess.
#[derive(Clone, Copy, Debug)]
pub enum Refusal {
    /// The guessed steps record the entries before this one, counted from 0, and those of this one cannot be made.
    NotReplayed { entry: usize },
    OutOfMemory,
}

/// Writes the certificate of a guess: it makes the steps on a link, entry after entry, and writes a line for each. The guess
/// is not trusted: at a step that the link refuses it returns `NotReplayed`.
pub fn explain_by(
    alloc: Global,
    profile: &Profile,
    entries: &[Entry],
    guess: Guess,
) -> Result<Explanation, Refusal>
    requires { IsGuess profile.now (items_of entries.now) guess }
    ensures explained { IfOk result (λ e. IsExplained profile.now e.certificate (items_of entries.now) e.files) }
    ensures every { IfOk result (λ e. AreInEveryRun profile.now (items_of entries.now) e.files) }
    ensures accepted { IfOk result (λ e. HasNoFault profile.now e.certificate (items_of entries.now)) }
    ensures version { IfOk result (λ e. HasLeastVersion profile.now e.certificate (items_of entries.now)) }
    ensures refused { IfErr result (IsWhyNotWritten profile.now (items_of entries.now) guess) }
    ensures without_loss { IsOfCrossing (decoded profile.now (items_of entries.now)) guess → IfErr result (λ r. r ≡ Refusal.OutOfMemory) }
{
    // (for the proof: the profile is sound)
    let _codes = profile.codes();
    let Guess {
        first_file,
        roles,
        mut plans,
    } = guess;
    let Ok(block) = BlockText::new(alloc) else {
        return Err(Refusal::OutOfMemory);
    };
    let mut scribe = Scribe::new(alloc, profile, block, first_file);
    for at in 0..entries.len() {
        let role = roles[at];
        let plan = take_plan(&mut plans, role, at);
        match scribe.write_entry(seen(entries[at]), role, plan) {
            Ok(()) => {}
            Err(fault) => return Err(refused_at(at, fault)),
        }
    }
    Ok(explanation_of(scribe))
}

/// What a scribe has written, where it has written each entry.
pub(crate) fn explanation_of(scribe: Scribe<'_>) -> Explanation
    ensures { (first : ℕ) (items : List Seen) → IsProfile scribe.entry.link.profile → Wrote first items scribe.entry → IsExplanationOf scribe.entry.link.profile items result }
{
    let (certificate, files) = scribe.into_parts();
    Explanation {
        certificate,
        files: Verified::new(files),
    }
}

/// Why the steps of an entry are not made.
pub(crate) fn refused_at(entry: usize, fault: StepFault) -> Refusal
    ensures memory { fault ≡ StepFault.OutOfMemory → result ≡ Refusal.OutOfMemory }
    ensures step { fault ≢ StepFault.OutOfMemory → result ≡ Refusal.NotReplayed entry }
{
    match fault {
        StepFault::OutOfMemory => Refusal::OutOfMemory,
        StepFault::NotAllowed | StepFault::WordDiffers => Refusal::NotReplayed { entry },
    }
}
