//! The data words of several attempts, by one that has all of them.

ghost use Rattle.std.specs.Prelude.{◌≡◌, ◌<◌, ◌↔◌, length, IfOk, IfSome, IfNone, IsTrue, EachIndex};
ghost use Rattle.a429_merge.specs.Order.{lists_of, words_at, HasEach};
ghost use Rattle.a429_merge.specs.Fill.{AreDataOf, CanBeCompleted};

use crate::budget::Budget;
use crate::fill::Wanted;
use crate::merged::completed_merge;
use crate::order::words_at;
use crate::subsequence::is_subsequence;
use a429_profile::Profile;
use a429_word::Word;
use std::alloc::{AllocError, Global};

/// The wanted data words by a longest attempt, which has each of the others in its order: its own, where it was recorded
/// whole, else filled up. `None` only where no such attempt can be completed.
pub(crate) fn complete_longest(
    alloc: Global,
    profile: &Profile,
    lists: &[Vec<Word>],
    wanted: Wanted,
    budget: &mut Budget,
) -> Result<Option<Vec<Word>>, AllocError>
    ensures some { IfOk result (λ found. IfSome found (λ v. AreDataOf profile.now wanted.count wanted.check (lists_of lists.now) v.items)) }
    ensures none { IfOk result (λ found. IfNone found (EachIndex lists.now (λ i. HasEach (words_at (lists_of lists.now) i) (lists_of lists.now)
        → ¬ CanBeCompleted profile.now wanted.count wanted.check (words_at (lists_of lists.now) i)))) }
    ensures cut { budget.new.cut ≡ budget.old.cut }
    ensures entry { budget.new.entry ≡ budget.old.entry }
{
    for i in 0..lists.len() {
        match complete_by(alloc, profile, lists, i, wanted, budget)? {
            Some(words) => return Ok(Some(words)),
            None => {}
        }
    }
    Ok(None)
}

// The wanted data words by this attempt, where it has each of the others.
fn complete_by(
    alloc: Global,
    profile: &Profile,
    lists: &[Vec<Word>],
    i: usize,
    wanted: Wanted,
    budget: &mut Budget,
) -> Result<Option<Vec<Word>>, AllocError>
    requires { i < length lists.now }
    ensures some { IfOk result (λ found. IfSome found (λ v. AreDataOf profile.now wanted.count wanted.check (lists_of lists.now) v.items)) }
    ensures none { IfOk result (λ found. IfNone found (HasEach (words_at (lists_of lists.now) i) (lists_of lists.now)
        → ¬ CanBeCompleted profile.now wanted.count wanted.check (words_at (lists_of lists.now) i))) }
    ensures cut { budget.new.cut ≡ budget.old.cut }
    ensures entry { budget.new.entry ≡ budget.old.entry }
{
    let list = words_at(lists, i);
    if !has_each(list, lists, budget) {
        return Ok(None);
    }
    completed_merge(alloc, profile, lists, list, wanted, budget)
}

// Whether the words have each list in its order.
fn has_each(words: &[Word], lists: &[Vec<Word>], budget: &mut Budget) -> bool
    ensures is { IsTrue result ↔ HasEach words.now (lists_of lists.now) }
    ensures cut { budget.new.cut ≡ budget.old.cut }
    ensures entry { budget.new.entry ≡ budget.old.entry }
{
    for i in 0..lists.len() {
        budget.spend(words.len());
        if !is_subsequence(words_at(lists, i), words) {
            return false;
        }
    }
    true
}
