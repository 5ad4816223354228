//! One list that has several, where one order keeps them all.

ghost use Rattle.std.specs.Prelude.{◌≡◌, ◌≢◌, ◌↔◌, ℕ, ◌+◌, ◌<◌, ◌≤◌, List, length, slice_index, slice_index_or, slice_get, IsTrue, IfOk, IfSome, IfNone, None, EachIndex, SomeIndex};
ghost use Rattle.a429_merge.specs.Order.{lists_of, words_at, HasEach, HasNoneTwice, AreTheirs, IsNext, IsLater, IsFree, passed_with, IsAllPassed};

use crate::budget::Budget;
use a429_word::Word;
use std::alloc::{AllocError, Global};

/// A list that has each of these in its order, no word twice, and none but theirs; `None` where there is no list that has
/// each and no word twice. The budget is only counted.
pub fn merge_in_one_order(
    alloc: Global,
    lists: &[Vec<Word>],
    budget: &mut Budget,
) -> Result<Option<Vec<Word>>, AllocError>
    ensures kept { IfOk result (λ merged. IfSome merged (λ v. HasEach v.items (lists_of lists.now))) }
    ensures once { IfOk result (λ merged. IfSome merged (λ v. HasNoneTwice v.items)) }
    ensures own { IfOk result (λ merged. IfSome merged (λ v. AreTheirs v.items (lists_of lists.now))) }
    ensures none { IfOk result (λ merged. IfNone merged ((zs : List ℕ) → HasNoneTwice zs → ¬ HasEach zs (lists_of lists.now))) }
    ensures cut { budget.new.cut ≡ budget.old.cut }
    ensures entry { budget.new.entry ≡ budget.old.entry }
{
    let mut passed = vec![in alloc; 0usize; lists.len()]?;
    let mut merged = Vec::new(alloc);
    while let Some(word) = free_word(lists, &passed, budget) {
        merged.push(word)?;
        pass(lists, &mut passed, word);
    }
    if are_passed(lists, &passed) {
        Ok(Some(merged))
    } else {
        Ok(None)
    }
}

// A word that is next in some list, and comes later in none.
fn free_word(lists: &[Vec<Word>], passed: &[usize], budget: &mut Budget) -> Option<Word>
    requires { length passed.now ≡ length lists.now }
    ensures next { IfSome result (λ w. SomeIndex lists.now (λ i. IsNext (lists_of lists.now) passed.now i w)) }
    ensures free { IfSome result (IsFree (lists_of lists.now) passed.now) }
    ensures none { IfNone result (EachIndex lists.now (λ i. (w : ℕ) → IsNext (lists_of lists.now) passed.now i w → ¬ IsFree (lists_of lists.now) passed.now w)) }
    ensures cut { budget.new.cut ≡ budget.old.cut }
    ensures entry { budget.new.entry ≡ budget.old.entry }
{
    for i in 0..lists.len() {
        let Some(word) = next_word(words_at(lists, i), passed[i]) else {
            continue;
        };
        if is_free(lists, passed, word, budget) {
            return Some(word);
        }
    }
    None
}

// The word comes later in none of the lists.
fn is_free(lists: &[Vec<Word>], passed: &[usize], word: Word, budget: &mut Budget) -> bool
    requires { length passed.now ≡ length lists.now }
    ensures is { IsTrue result ↔ IsFree (lists_of lists.now) passed.now word }
    ensures cut { budget.new.cut ≡ budget.old.cut }
    ensures entry { budget.new.entry ≡ budget.old.entry }
{
    for i in 0..lists.len() {
        if comes_later(words_at(lists, i), passed[i], word, budget) {
            return false;
        }
    }
    true
}

/// Passes the word in each list where it is next.
pub(crate) fn pass(lists: &[Vec<Word>], passed: &mut [usize], word: Word)
    requires { length passed.old ≡ length lists.now }
    ensures { EachIndex passed.new (λ i. slice_index passed.new i ≡ passed_with (words_at (lists_of lists.now) i) (slice_index passed.old i) word) }
{
    for i in 0..lists.len() {
        if next_word(words_at(lists, i), passed[i]) == Some(word) {
            passed[i] += 1;
        }
    }
}

/// No word is left of any list.
pub(crate) fn are_passed(lists: &[Vec<Word>], passed: &[usize]) -> bool
    requires { length passed.now ≡ length lists.now }
    ensures { IsTrue result ↔ IsAllPassed (lists_of lists.now) passed.now }
{
    for i in 0..lists.len() {
        if passed[i] < words_at(lists, i).len() {
            return false;
        }
    }
    true
}

/// The words of a list.
pub(crate) fn words_at(lists: &[Vec<Word>], i: usize) -> &[Word]
    requires { i < length lists.now }
    ensures { result.now ≡ words_at (lists_of lists.now) i }
{
    lists[i].as_slice()
}

/// The next word: the first that is not passed.
pub(crate) fn next_word(words: &[Word], passed: usize) -> Option<Word>
    ensures { result ≡ slice_get words.now passed }
{
    words.get(passed).copied()
}

// The word comes after the next one.
fn comes_later(words: &[Word], passed: usize, word: Word, budget: &mut Budget) -> bool
    ensures is { IsTrue result ↔ IsLater words.now passed word }
    ensures cut { budget.new.cut ≡ budget.old.cut }
    ensures entry { budget.new.entry ≡ budget.old.entry }
{
    budget.spend(words.len().saturating_sub(passed));
    passed < words.len() && words[passed + 1..].contains(&word)
}
