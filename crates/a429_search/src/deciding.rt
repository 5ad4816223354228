//! The decision on a recording: the check, then what its words contradict, and where no certificate is known a search for a run, or for
//! the first word at which no run goes on.

ghost use Rattle.std.specs.Prelude.{◌≡◌, ℕ, true, Ok, IfOk, IfSome, is_some, length};
ghost use Rattle.a429_cert.specs.Explained.{items_of};
ghost use Rattle.a429_explain.specs.Verdict.{IsSoundVerdict, IsOfSomeRun, IsAccepted, IsOfLeastVersion, IsDoubted, HasNoForm, IsImpossibility, IsExplanation};
ghost use Rattle.a429_explain.specs.Walk.{AreAllowedUpTo};
ghost use Rattle.a429_explain.specs.WithoutLoss.{IsWithoutLoss};
ghost use Rattle.a429_link.specs.Run.{BeginsARun};
ghost use Rattle.a429_search.specs.Deciding.{IsExact, IsImpossibleBy, IsImpossibleUpTo, IsJudged, IsLookedBefore, IsOfCheck, IsReasonAt, IsSearchedBefore, IsWritten};

use crate::searching::{Found, search_for_run};
use a429_cert::OutOfMemory;
use a429_contradiction::laws::what_contradicts_has_no_run;
use a429_contradiction::{Contradiction, first_contradiction};
use a429_explain::walk::walk;
use a429_explain::{Doubt, Explanation, Guess, Reason, Refusal, Verdict, check, explain_by};
use a429_merge::Cut;
use a429_profile::Profile;
use a429_record::Entry;
use std::alloc::Global;

/// What `decide` says of a recording.
#[derive(Drop)]
pub struct Decision {
    pub verdict: Verdict,
    /// Where the search for a run was cut short, and by which limit, which was reached there. Only then the doubt is `OutOfSteps`, and only
    /// then an entry before one that is impossible may be so, too.
    pub cut: Option<Cut>,
}

// What is found of words that are allowed.
#[derive(Drop)]
enum Judged {
    // No run's words begin with those up to this entry. Where the search was not cut short, some run's words begin with those before it.
    NoRun {
        found: Contradiction,
        cut: Option<Cut>,
    },
    // What is guessed of a run, and where the search was cut short, if it is not sure that there is one.
    Guessed {
        guess: Guess,
        unsure: Option<Cut>,
    },
    // Neither: the search was cut short.
    CutShort(Cut),
}

// What is found of words that are allowed, once the run that was guessed is written down.
#[derive(Drop)]
enum Written {
    NoRun {
        found: Contradiction,
        cut: Option<Cut>,
    },
    Run(Explanation),
    // Some run's words begin with these, and the steps that were guessed cannot be made at this entry.
    Begun(usize),
    CutShort(Cut),
}

// What is found before an entry: one with which no run goes on, if there is one. Where the search was not cut short, some run's words begin
// with those before that entry, or, without one, with all.
#[derive(Clone, Copy)]
struct Before {
    found: Option<Contradiction>,
    cut: Option<Cut>,
}

/// The verdict on a recording, under the profile of its bench: that of `check`, where it explains the recording. Else the
/// recording is impossible from the first word on that those before it do not allow, or that contradicts them, by the
/// first of `BadBlock`, `WrongNumber` and `OtherBlock` that holds; or from an earlier word on, by `NoRun`, at which a search finds that
/// no run goes on. Where there is no such word, the certificate of a run that the search finds explains the recording. Else the
/// doubt is `OutOfSteps`, at the request of the attempt at which the search was cut short by a limit that it had reached; or `NotReplayed`, where some run's words begin so, at the entry at which the steps that the search guessed cannot be made.
pub fn decide(alloc: Global, profile: &Profile, entries: &[Entry]) -> Result<Decision, OutOfMemory>
    ensures exact { IfOk result (λ d. IsExact profile.now (items_of entries.now) d.cut d.verdict) }
    ensures explained { IfOk result (λ d. IsSoundVerdict profile.now (items_of entries.now) d.verdict) }
    ensures some_run { IfOk result (λ d. IsOfSomeRun profile.now (items_of entries.now) d.verdict) }
    ensures accepted { IfOk result (λ d. IsAccepted profile.now (items_of entries.now) d.verdict) }
    ensures version { IfOk result (λ d. IsOfLeastVersion profile.now (items_of entries.now) d.verdict) }
    ensures impossible { IfOk result (λ d. IsImpossibleBy profile.now (items_of entries.now) d.verdict) }
    ensures first { (i : ℕ) (reason : Reason) → IsReasonAt profile.now (items_of entries.now) i reason → IfOk result (λ d. IsImpossibleUpTo i d.verdict) }
    ensures doubted { IfOk result (λ d. IsDoubted profile.now (items_of entries.now) d.verdict) }
    ensures of_check { IfOk result (λ d. IsOfCheck profile.now (items_of entries.now) d.verdict) }
    ensures no_form { HasNoForm profile.now.codes (items_of entries.now) → IfOk result (λ d. IsImpossibility d.verdict) }
    ensures without_loss { IsWithoutLoss profile.now (items_of entries.now) → IfOk result (λ d. IsExplanation d.verdict) }
{
    what_contradicts_has_no_run();
    let _codes = profile.codes(); // (for the proof: the profile is sound)
    match check(alloc, profile, entries)? {
        Verdict::Explained { certificate, files } => Ok(Decision {
            verdict: Verdict::Explained { certificate, files },
            cut: None,
        }),
        Verdict::Impossible { entry, reason } => {
            let Before { found, cut } = look_before(alloc, profile, &entries[..entry])?;
            match found {
                Some(Contradiction { entry, reason }) => {
                    let verdict = Verdict::Impossible { entry, reason };
                    Ok(Decision { verdict, cut })
                }
                None => {
                    let verdict = Verdict::Impossible { entry, reason };
                    Ok(Decision { verdict, cut })
                }
            }
        }
        Verdict::Unexplained { .. } => match write_down(alloc, profile, entries)? {
            Written::NoRun { found, cut } => {
                let Contradiction { entry, reason } = found;
                let verdict = Verdict::Impossible { entry, reason };
                Ok(Decision { verdict, cut })
            }
            Written::Run(Explanation { certificate, files }) => Ok(Decision {
                verdict: Verdict::Explained { certificate, files },
                cut: None,
            }),
            Written::Begun(entry) => {
                let doubt = Doubt::NotReplayed;
                let verdict = Verdict::Unexplained { entry, doubt };
                Ok(Decision { verdict, cut: None })
            }
            Written::CutShort(cut) => {
                let (entry, doubt) = (cut.entry(), Doubt::OutOfSteps);
                let verdict = Verdict::Unexplained { entry, doubt };
                let cut = Some(cut);
                Ok(Decision { verdict, cut })
            }
        },
    }
}

/// Whether some run's words begin with these: `decide` explains them, or its search is sure. `false` says nothing: it was not found. Of the
/// words before an entry that is impossible `true` says that no earlier entry is.
pub fn begins_a_run(
    alloc: Global,
    profile: &Profile,
    entries: &[Entry],
) -> Result<bool, OutOfMemory>
    ensures { result ≡ Ok true → BeginsARun profile.now (items_of entries.now) }
{
    match decide(alloc, profile, entries)?.verdict {
        Verdict::Explained { .. } => Ok(true),
        Verdict::Unexplained { doubt, .. } => match doubt {
            Doubt::NotReplayed => Ok(true),
            Doubt::NeverWhole | Doubt::NotOneBlock | Doubt::OutOfSteps => Ok(false),
        },
        Verdict::Impossible { .. } => Ok(false),
    }
}

// The word at which no run goes on, where there is one among words that are allowed.
fn look_before(alloc: Global, profile: &Profile, entries: &[Entry]) -> Result<Before, OutOfMemory>
    requires { AreAllowedUpTo profile.now (items_of entries.now) (length (items_of entries.now)) }
    ensures { IfOk result (IsLookedBefore profile.now (items_of entries.now)) }
{
    match look_closer(alloc, profile, entries)? {
        Judged::NoRun { found, cut } => {
            let found = Some(found);
            Ok(Before { found, cut })
        }
        Judged::Guessed { unsure, .. } => Ok(Before {
            found: None,
            cut: unsure,
        }),
        Judged::CutShort(cut) => {
            let cut = Some(cut);
            Ok(Before { found: None, cut })
        }
    }
}

// The same as `look_closer`, with the run that is guessed written down.
fn write_down(alloc: Global, profile: &Profile, entries: &[Entry]) -> Result<Written, OutOfMemory>
    requires { AreAllowedUpTo profile.now (items_of entries.now) (length (items_of entries.now)) }
    ensures { IfOk result (IsWritten profile.now (items_of entries.now)) }
{
    match look_closer(alloc, profile, entries)? {
        Judged::NoRun { found, cut } => Ok(Written::NoRun { found, cut }),
        Judged::Guessed { guess, unsure } => {
            match explain_by(alloc, profile, entries, guess) {
                Ok(explanation) => Ok(Written::Run(explanation)),
                Err(Refusal::NotReplayed { entry }) => match unsure {
                    Some(cut) => Ok(Written::CutShort(cut)),
                    None => Ok(Written::Begun(entry)),
                },
                Err(Refusal::OutOfMemory) => Err(OutOfMemory),
            }
        }
        Judged::CutShort(cut) => Ok(Written::CutShort(cut)),
    }
}

// The first word that contradicts those before it, or an earlier one at which no run goes on; without one what is guessed of a run.
fn look_closer(alloc: Global, profile: &Profile, entries: &[Entry]) -> Result<Judged, OutOfMemory>
    requires { AreAllowedUpTo profile.now (items_of entries.now) (length (items_of entries.now)) }
    ensures { IfOk result (IsJudged profile.now (items_of entries.now)) }
{
    let Ok(decoded) = walk(alloc, profile, entries) else {
        unreachable!();
    };
    let Ok(found) = first_contradiction(alloc, &decoded) else {
        return Err(OutOfMemory);
    };
    if let Some(found) = found {
        let before = search_before(alloc, profile, &entries[..found.entry])?;
        let cut = before.cut;
        return match before.found {
            Some(earlier) => Ok(Judged::NoRun {
                found: earlier,
                cut,
            }),
            None => Ok(Judged::NoRun { found, cut }),
        };
    }
    match search_for_run(alloc, &decoded) {
        Ok(Found::Run { guess, unsure }) => Ok(Judged::Guessed { guess, unsure }),
        Ok(Found::NoRun { entry, cut }) => {
            let reason = Reason::NoRun;
            let found = Contradiction { entry, reason };
            Ok(Judged::NoRun { found, cut })
        }
        Ok(Found::CutShort(cut)) => Ok(Judged::CutShort(cut)),
        Err(_) => Err(OutOfMemory),
    }
}

// The first word at which a search finds that no run goes on.
fn search_before(alloc: Global, profile: &Profile, entries: &[Entry]) -> Result<Before, OutOfMemory>
    requires { AreAllowedUpTo profile.now (items_of entries.now) (length (items_of entries.now)) }
    ensures { IfOk result (IsSearchedBefore profile.now (items_of entries.now)) }
{
    let Ok(decoded) = walk(alloc, profile, entries) else {
        unreachable!();
    };
    match search_for_run(alloc, &decoded) {
        Ok(Found::NoRun { entry, cut }) => {
            let reason = Reason::NoRun;
            let found = Some(Contradiction { entry, reason });
            Ok(Before { found, cut })
        }
        Ok(Found::Run { unsure, .. }) => Ok(Before {
            found: None,
            cut: unsure,
        }),
        Ok(Found::CutShort(cut)) => {
            let cut = Some(cut);
            Ok(Before { found: None, cut })
        }
        Err(_) => Err(OutOfMemory),
    }
}
