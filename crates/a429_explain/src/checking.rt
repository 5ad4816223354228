//! The check of a recording.

ghost use Rattle.std.specs.Prelude.{◌≡◌, ◌<◌, IfOk, IfErr, length};
ghost use Rattle.a429_cert.specs.Explained.{items_of};
ghost use Rattle.a429_explain.specs.Attempts.{roles as roles_of};
ghost use Rattle.a429_explain.specs.Decoded.{forms_of};
ghost use Rattle.a429_explain.specs.Explanation.{IsExplanationOf};
ghost use Rattle.a429_explain.specs.Guess.{first_place, HasNoDoubt, IsFirstStop};
ghost use Rattle.a429_explain.specs.Planner.{with_roles, IsPlannedTo};
ghost use Rattle.a429_explain.specs.Stop.{IsStop};
ghost use Rattle.a429_explain.specs.Verdict.{IsSoundVerdict, IsOfSomeRun, IsAccepted, IsOfLeastVersion, IsImpossible, IsDoubted, IsFirst, HasNoForm, IsImpossibility, IsExplanation};
ghost use Rattle.a429_explain.specs.WithoutLoss.{IsWithoutLoss};

use crate::attempts::{Role, roles};
use crate::decoded::Decoded;
use crate::explanation::{Explanation, Refusal, explanation_of, refused_at};
use crate::guess::first_file;
use crate::planner::Planner;
use crate::scribe::Scribe;
use crate::stop::Stop;
use crate::verdict::{Doubt, Verdict};
use crate::walk::{Halt, walk};
use a429_cert::{BlockText, OutOfMemory};
use a429_profile::Profile;
use a429_record::Entry;
use std::alloc::Global;

/// The verdict on a recording under the profile of its bench, by the rule of `check` (docs/CHECKER.md): impossible, at the
/// first word that those before it do not allow, so that no run of source and sink records it there; explained, with the
/// certificate of a run that records all words; or unexplained, where none is found. `verify` accepts the certificate, which
/// is of version 2 exactly where its run gives a file up.
pub fn check(alloc: Global, profile: &Profile, entries: &[Entry]) -> Result<Verdict, OutOfMemory>
    ensures explained { IfOk result (λ v. IsSoundVerdict profile.now (items_of entries.now) v) }
    ensures some_run { IfOk result (λ v. IsOfSomeRun profile.now (items_of entries.now) v) }
    ensures accepted { IfOk result (λ v. IsAccepted profile.now (items_of entries.now) v) }
    ensures version { IfOk result (λ v. IsOfLeastVersion profile.now (items_of entries.now) v) }
    ensures impossible { IfOk result (λ v. IsImpossible profile.now (items_of entries.now) v) }
    ensures doubted { IfOk result (λ v. IsDoubted profile.now (items_of entries.now) v) }
    ensures first { IfOk result (λ v. IsFirst profile.now (items_of entries.now) v) }
    ensures no_form { HasNoForm profile.now.codes (items_of entries.now) → IfOk result IsImpossibility }
    ensures without_loss { IsWithoutLoss profile.now (items_of entries.now) → IfOk result IsExplanation }
{
    match walk(alloc, profile, entries) {
        Ok(decoded) => match explain(alloc, &decoded) {
            Ok(Explanation { certificate, files }) => Ok(Verdict::Explained { certificate, files }),
            Err(Stop::Unexplained { entry, doubt }) => Ok(Verdict::Unexplained { entry, doubt }),
            Err(Stop::OutOfMemory) => Err(OutOfMemory),
        },
        Err(Halt { entry, reason }) => Ok(Verdict::Impossible { entry, reason }),
    }
}

// The certificate of the run that is guessed for a recording of which no word is refused; or the first doubt of its groups,
// or else that of its steps. Each group is planned where it begins, and its plan is not kept.
fn explain(alloc: Global, decoded: &Decoded) -> Result<Explanation, Stop>
    ensures ok { IfOk result (IsExplanationOf decoded.now.profile decoded.now.items) }
    ensures groups { IfOk result (λ e. HasNoDoubt decoded.now.profile decoded.now.items) }
    ensures fits { IfErr result (IsStop decoded.now.profile.codes decoded.now.items) }
    ensures first { IfErr result (IsFirstStop decoded.now.profile decoded.now.items) }
    ensures without_loss { IsWithoutLoss decoded.now.profile decoded.now.items → IfErr result (λ s. s ≡ Stop.OutOfMemory) }
{
    let profile = decoded.profile();
    let Ok(roles) = roles(alloc, decoded) else {
        return Err(Stop::OutOfMemory);
    };
    let Ok(block) = BlockText::new(alloc) else {
        return Err(Stop::OutOfMemory);
    };
    let first_file = first_file(decoded);
    let mut planner = Planner::new(profile, first_file);
    let mut scribe = Scribe::new(alloc, profile, block, first_file);
    for at in 0..decoded.len() {
        let plan = match planner.plan_at(alloc, decoded, roles.as_slice(), at) {
            Ok(plan) => plan,
            Err(stop) => return Err(stop),
        };
        match scribe.write_entry(decoded.seen(at), roles[at], plan) {
            Ok(()) => {}
            Err(fault) => match refused_at(at, fault) {
                Refusal::NotReplayed { .. } => {
                    return Err(not_replayed(alloc, decoded, roles.as_slice(), planner, at));
                }
                Refusal::OutOfMemory => return Err(Stop::OutOfMemory),
            },
        }
    }
    Ok(explanation_of(scribe))
}

// The first doubt of the groups after this entry, whose steps cannot be made; or else that of the steps.
fn not_replayed(
    alloc: Global,
    decoded: &Decoded,
    roles: &[Role],
    planner: Planner,
    entry: usize,
) -> Stop
    requires roles { roles.now ≡ roles_of (forms_of decoded.now.profile.codes decoded.now.items) }
    requires inside { entry < length decoded.now.items }
    requires past { entry < planner.next }
    requires planned { IsPlannedTo (with_roles decoded.now) (first_place decoded.now.profile decoded.now.items) planner }
    ensures fits { IsStop decoded.now.profile.codes decoded.now.items result }
    ensures first { IsFirstStop decoded.now.profile decoded.now.items result }
{
    let mut planner = planner;
    for at in entry + 1..decoded.len() {
        match planner.plan_at(alloc, decoded, roles, at) {
            Ok(_) => {}
            Err(stop) => return stop,
        }
    }
    Stop::Unexplained {
        entry,
        doubt: Doubt::NotReplayed,
    }
}
