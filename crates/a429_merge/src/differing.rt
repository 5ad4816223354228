//! The attempts of a group that differ.

ghost use Rattle.std.specs.Prelude.{◌≡◌, None, true, ◌+◌, ◌≤◌, ◌<◌, ◌↔◌, ℕ, List, IfOk, IfSome, IfNone, OnErr, OnOk, IsTrue, IsSome, IsSomeAnd, EachIndex, SomeIndex, length};
ghost use Rattle.a429_link.specs.Run.{IsSubsequenceOf};
ghost use Rattle.a429_merge.specs.declared.budget.Limit.TheVariants.{Attempts};
ghost use Rattle.a429_merge.specs.Order.{lists_of, words_at, HasEach};

use crate::budget::{Budget, Limit};
use crate::order::words_at;
use crate::subsequence::is_subsequence;
use a429_word::Word;
use std::alloc::{AllocError, Global};

/// The most attempts of a group that are merged: those whose data words no other of them has. Each recorded word is
/// compared with the words of at most so many attempts.
pub const MOST_ATTEMPTS: usize = 16;

/// At most `MOST_ATTEMPTS` lists: what has each of them in its order has each of these, and the other way round. `None` where
/// there would be more, and then a search is cut short.
pub(crate) fn differing(
    alloc: Global,
    lists: &[Vec<Word>],
    budget: &mut Budget,
) -> Result<Option<Vec<Vec<Word>>>, AllocError>
    ensures all { IfOk result (λ found. IfSome found (λ kept. (zs : List ℕ) → HasEach zs (lists_of kept.items) → HasEach zs (lists_of lists.now))) }
    ensures only { IfOk result (λ found. IfSome found (λ kept. (zs : List ℕ) → HasEach zs (lists_of lists.now) → HasEach zs (lists_of kept.items))) }
    ensures few { IfOk result (λ found. IfSome found (λ kept. length kept.items ≤ 16)) }
    ensures most { IfOk result (λ found. IfSome found (λ kept. length kept.items ≤ length lists.now)) }
    ensures none { IfOk result (λ found. IfNone found (16 < length lists.now)) }
    ensures too_many { IfOk result (λ found. IfNone found (IsSomeAnd budget.new.cut (λ r. r.limit ≡ Attempts (length lists.now)))) }
    ensures uncut { IfOk result (λ found. IfSome found (λ kept. budget.new.cut ≡ budget.old.cut)) }
    ensures err { OnErr result (budget.new.cut ≡ budget.old.cut) }
    ensures cut { budget.new.cut ≡ None → budget.old.cut ≡ None }
    ensures entry { budget.new.entry ≡ budget.old.entry }
{
    let mut kept = Vec::new(alloc);
    for list in lists {
        budget.spend(MOST_ATTEMPTS.saturating_mul(list.len()));
        if is_in_some(list, &kept) {
            continue;
        }
        keep(&mut kept, Vec::from_slice(alloc, list)?)?;
        if kept.len() > MOST_ATTEMPTS {
            let recorded = lists.len();
            budget.cut_short(Limit::Attempts { recorded });
            return Ok(None);
        }
    }
    Ok(Some(kept))
}

/// The same of these lists and one more, which is new or not: where it is not, it is some list's own. `None` only of `MOST_ATTEMPTS`
/// lists and more.
pub fn lists_with(
    alloc: Global,
    lists: &[Vec<Word>],
    list: &[Word],
    is_new: bool,
    budget: &mut Budget,
) -> Result<Option<Vec<Vec<Word>>>, AllocError>
    ensures all { IfOk result (λ found. IfSome found (λ kept. (zs : List ℕ) → HasEach zs (lists_of kept.items) → HasEach zs (lists_of lists.now) × (is_new ≡ true → IsSubsequenceOf list.now zs))) }
    ensures only { IfOk result (λ found. IfSome found (λ kept. (zs : List ℕ) → HasEach zs (lists_of lists.now) → IsSubsequenceOf list.now zs → HasEach zs (lists_of kept.items))) }
    ensures none { IfOk result (λ found. IfNone found (16 ≤ length lists.now)) }
    ensures too_many { IfOk result (λ found. IfNone found (IsSome budget.new.cut)) }
    ensures uncut { IfOk result (λ found. IfSome found (λ kept. budget.new.cut ≡ budget.old.cut)) }
    ensures err { OnErr result (budget.new.cut ≡ budget.old.cut) }
    ensures cut { budget.new.cut ≡ None → budget.old.cut ≡ None }
    ensures entry { budget.new.entry ≡ budget.old.entry }
{
    let Some(mut kept) = differing(alloc, lists, budget)? else {
        return Ok(None);
    };
    if !is_new {
        return Ok(Some(kept));
    }
    keep(&mut kept, Vec::from_slice(alloc, list)?)?;
    if kept.len() > MOST_ATTEMPTS {
        let recorded = lists.len() + 1;
        budget.cut_short(Limit::Attempts { recorded });
        return Ok(None);
    }
    Ok(Some(kept))
}

// Keeps one list more, in place of the first that it has.
fn keep(kept: &mut Vec<Vec<Word>>, list: Vec<Word>) -> Result<(), AllocError>
    ensures all { OnOk result ((zs : List ℕ) → HasEach zs (lists_of kept.new.items) → HasEach zs (lists_of kept.old.items) × IsSubsequenceOf list.items zs) }
    ensures only { OnOk result ((zs : List ℕ) → HasEach zs (lists_of kept.old.items) → IsSubsequenceOf list.items zs → HasEach zs (lists_of kept.new.items)) }
    ensures count { OnOk result (length kept.new.items ≤ length kept.old.items + 1) }
{
    if let Some(at) = first_within(kept, &list) {
        kept[at] = list;
        return Ok(());
    }
    kept.push(list)?;
    Ok(())
}

/// Whether some list has these words in their order.
pub fn is_in_some(words: &[Word], lists: &[Vec<Word>]) -> bool
    ensures { IsTrue result ↔ SomeIndex lists.now (λ i. IsSubsequenceOf words.now (words_at (lists_of lists.now) i)) }
{
    for list in lists {
        if is_subsequence(words, list) {
            return true;
        }
    }
    false
}

// The first list that these words have in its order.
fn first_within(lists: &[Vec<Word>], words: &[Word]) -> Option<usize>
    ensures some { IfSome result (λ i. (i < length lists.now) × IsSubsequenceOf (words_at (lists_of lists.now) i) words.now) }
    ensures none { IfNone result (EachIndex lists.now (λ i. ¬ IsSubsequenceOf (words_at (lists_of lists.now) i) words.now)) }
{
    for i in 0..lists.len() {
        if is_subsequence(words_at(lists, i), words) {
            return Some(i);
        }
    }
    None
}
