//! The data words of several attempts, by a list that has them all.

ghost use Rattle.std.specs.Prelude.{◌≡◌, IfOk, IfSome, IfNone};
ghost use Rattle.a429_merge.specs.Order.{lists_of, HasEach};
ghost use Rattle.a429_merge.specs.Fill.{AreDataOf, CanBeCompleted};

use crate::budget::Budget;
use crate::fill::{Wanted, completed};
use a429_profile::Profile;
use a429_word::Word;
use std::alloc::{AllocError, Global};

/// How many steps a data word counts for where data words are completed, mostly for check words, or a link data unit is copied.
pub const STEPS_A_WORD: usize = 64;

/// The wanted data words, which have a list that has each of these.
pub(crate) fn completed_merge(
    alloc: Global,
    profile: &Profile,
    lists: &[Vec<Word>],
    merged: &[Word],
    wanted: Wanted,
    budget: &mut Budget,
) -> Result<Option<Vec<Word>>, AllocError>
    requires { HasEach merged.now (lists_of lists.now) }
    ensures some { IfOk result (λ found. IfSome found (λ v. AreDataOf profile.now wanted.count wanted.check (lists_of lists.now) v.items)) }
    ensures none { IfOk result (λ found. IfNone found (¬ CanBeCompleted profile.now wanted.count wanted.check merged.now)) }
    ensures cut { budget.new.cut ≡ budget.old.cut }
    ensures entry { budget.new.entry ≡ budget.old.entry }
{
    let _lists = lists;
    budget.spend(wanted.count.saturating_mul(STEPS_A_WORD));
    completed(alloc, profile, merged, wanted)
}
