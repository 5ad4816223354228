//! The data words of several attempts, by a search with a budget.

ghost use Rattle.std.specs.Prelude.{◌≡◌, ◌≤◌, ◌<◌, ◌↔◌, ℕ, List, All, None, Ok, IfOk, IfSome, IfNone, IsTrue, SomeIndex, length};
ghost use Rattle.a429_merge.specs.Order.{lists_of, words_at, IsNext};
ghost use Rattle.a429_merge.specs.Fill.{AreDataOf};
ghost use Rattle.a429_merge.specs.Bounded.{IsPair, ArePassed, HasPassed, HasRests, IsStep, IsBoundedStep, HasStepOf, AreSteps, IsHopeless};

use crate::budget::{Budget, Limit};
use crate::fill::Wanted;
use crate::merged::completed_merge;
use crate::order::{are_passed, next_word, pass, words_at};
use crate::pair::{length_from, merged_lengths};
use a429_ldu::MOST_DATA_WORDS;
use a429_profile::Profile;
use a429_word::Word;
use std::alloc::{AllocError, Global};

/// The most places at which one search chooses a next word, or looks at a list.
pub const MOST_NODES: usize = 3_000_000;

// How many steps a pair of lists counts for when the bound is computed: its table is seldom in a cache.
const STEPS_A_PAIR: usize = 4;

/// The wanted data words that have each of these lists in its order. The search goes depth first: it takes a word that is
/// next in some list and passes it in each list where it is next. Where all words are passed it completes the list of those
/// taken; where that fails, or a shortest list for what is left of two lists is too long, it goes back. `None` where it
/// finds none at `MOST_NODES` places, or before the budget is spent, or where one of two or more lists has more than 253
/// words. Where it was not cut short there are none.
pub fn search_words(
    alloc: Global,
    profile: &Profile,
    lists: &[Vec<Word>],
    wanted: Wanted,
    budget: &mut Budget,
) -> Result<Option<Vec<Word>>, AllocError>
    ensures some { IfOk result (λ found. IfSome found (λ v. AreDataOf profile.now wanted.count wanted.check (lists_of lists.now) v.items)) }
    ensures none { result ≡ Ok None → budget.new.cut ≡ None → wanted.count ≤ 253
        → (words : List ℕ) → ¬ AreDataOf profile.now wanted.count wanted.check (lists_of lists.now) words }
    ensures cut { budget.new.cut ≡ None → budget.old.cut ≡ None }
    ensures entry { budget.new.entry ≡ budget.old.entry }
{
    let Some(pairs) = pairs_of(alloc, lists, budget)? else {
        return Ok(None);
    };
    let search = Search {
        profile,
        lists,
        pairs,
        wanted,
    };
    let passed = vec![in alloc; 0usize; lists.len()]?;
    let mut path = Path {
        merged: Vec::new(alloc),
        nodes: MOST_NODES,
    };
    extend(alloc, &search, &passed, &mut path, budget)
}

/// Two of the lists, and the length of a shortest list that has what is left of them, by `merged_lengths`.
#[derive(Drop)]
pub(crate) struct Pair {
    pub left: usize,
    pub right: usize,
    pub rows: Vec<Vec<u16>>,
}

// Lists, each pair of them, and the data words that are wanted.
#[derive(Drop)]
struct Search<'a> {
    profile: &'a Profile,
    lists: &'a [Vec<Word>],
    pairs: Vec<Pair>,
    wanted: Wanted,
    ghost are_pairs: { All (IsPair (lists_of lists.now)) pairs.items },
}

// The words that are merged so far, and at how many places more a word may be chosen.
#[derive(Drop)]
struct Path {
    merged: Vec<Word>,
    nodes: usize,
}

// Each pair of lists. `None` where one has more words than a link data unit can have.
fn pairs_of(
    alloc: Global,
    lists: &[Vec<Word>],
    budget: &mut Budget,
) -> Result<Option<Vec<Pair>>, AllocError>
    ensures some { IfOk result (λ found. IfSome found (λ pairs. All (IsPair (lists_of lists.now)) pairs.items)) }
    ensures none { IfOk result (λ found. IfNone found (SomeIndex lists.now (λ i. 253 < length (words_at (lists_of lists.now) i)))) }
    ensures cut { budget.new.cut ≡ budget.old.cut }
    ensures entry { budget.new.entry ≡ budget.old.entry }
{
    let mut pairs = Vec::new(alloc);
    for right in 0..lists.len() {
        for left in 0..right {
            match pair_of(alloc, lists, left, right, budget)? {
                Some(pair) => pairs.push(pair)?,
                None => return Ok(None),
            }
        }
    }
    Ok(Some(pairs))
}

fn pair_of(
    alloc: Global,
    lists: &[Vec<Word>],
    left: usize,
    right: usize,
    budget: &mut Budget,
) -> Result<Option<Pair>, AllocError>
    requires in_left { left < length lists.now }
    requires in_right { right < length lists.now }
    ensures some { IfOk result (λ found. IfSome found (IsPair (lists_of lists.now))) }
    ensures none { IfOk result (λ found. IfNone found (SomeIndex lists.now (λ i. 253 < length (words_at (lists_of lists.now) i)))) }
    ensures cut { budget.new.cut ≡ budget.old.cut }
    ensures entry { budget.new.entry ≡ budget.old.entry }
{
    let lefts = words_at(lists, left);
    let rights = words_at(lists, right);
    if lefts.len() > MOST_DATA_WORDS || rights.len() > MOST_DATA_WORDS {
        return Ok(None);
    }
    budget.spend(lefts.len() * rights.len());
    let rows = merged_lengths(alloc, lefts, rights)?;
    Ok(Some(Pair { left, right, rows }))
}

// A bound: no list that has what is left of each list has fewer words.
fn least_left(search: &Search, passed: &[usize]) -> usize
    requires { ArePassed (lists_of search.now.lists.now) passed.now }
    ensures { (zs : List ℕ) → HasRests (lists_of search.now.lists.now) passed.now zs → result ≤ length zs }
{
    let mut least = 0;
    for pair in &search.pairs {
        let left = words_at(search.lists, pair.left);
        let right = words_at(search.lists, pair.right);
        let both = length_from(
            &pair.rows,
            left,
            right,
            passed[pair.left],
            passed[pair.right],
        );
        least = usize::from(both).max(least);
    }
    least
}

// A word that is next in some list, how many words of each list are passed with it, and a bound for what is left then.
#[derive(Drop)]
pub(crate) struct Step {
    pub word: Word,
    pub passed: Vec<usize>,
    pub left: usize,
}

// The words that are next in some list, each once. Those that leave the bound as low as it can be come first.
fn steps_from(
    alloc: Global,
    search: &Search,
    passed: &[usize],
    budget: &mut Budget,
) -> Result<Vec<Step>, AllocError>
    requires { ArePassed (lists_of search.now.lists.now) passed.now }
    ensures are { IfOk result (λ steps. AreSteps (lists_of search.now.lists.now) passed.now steps.items) }
    ensures every { IfOk result (λ steps. (i : ℕ) → i < length search.now.lists.now → (w : ℕ) → IsNext (lists_of search.now.lists.now) passed.now i w → HasStepOf w steps.items) }
    ensures cut { budget.new.cut ≡ budget.old.cut }
    ensures entry { budget.new.entry ≡ budget.old.entry }
{
    let least = least_left(search, passed);
    let mut steps = Vec::new(alloc);
    let mut others = Vec::new(alloc);
    for i in 0..search.lists.len() {
        budget.spend(search.pairs.len().saturating_mul(STEPS_A_PAIR));
        let Some(next) = step_at(alloc, search.lists, passed, i)? else {
            continue;
        };
        let left = least_left(search, &next.passed);
        let step = Step {
            word: next.word,
            passed: next.passed,
            left,
        };
        if left < least {
            steps.push(step)?;
        } else {
            others.push(step)?;
        }
    }
    steps.append(&mut others)?;
    Ok(steps)
}

// A word that is next in some list, and how many words of each list are passed with it.
#[derive(Drop)]
struct Next {
    word: Word,
    passed: Vec<usize>,
}

// The next word of a list, and how many words of each list are passed with it; `None` where no word of it is left, or it is next in
// an earlier list, too.
fn step_at(
    alloc: Global,
    lists: &[Vec<Word>],
    passed: &[usize],
    i: usize,
) -> Result<Option<Next>, AllocError>
    requires inside { i < length lists.now }
    requires passed { ArePassed (lists_of lists.now) passed.now }
    ensures some { IfOk result (λ found. IfSome found (λ s. IsStep (lists_of lists.now) passed.now i s.word s.passed.items)) }
    ensures none { IfOk result (λ found. IfNone found ((w : ℕ) → IsNext (lists_of lists.now) passed.now i w → (j : ℕ) × (j < i) × IsNext (lists_of lists.now) passed.now j w)) }
{
    let Some(word) = next_word(words_at(lists, i), passed[i]) else {
        return Ok(None);
    };
    if !is_first(lists, passed, i, word) {
        return Ok(None);
    }
    let mut after = Vec::from_slice(alloc, passed)?;
    pass(lists, &mut after, word);
    Ok(Some(Next {
        word,
        passed: after,
    }))
}

// The word is next in no list before this one.
fn is_first(lists: &[Vec<Word>], passed: &[usize], i: usize, word: Word) -> bool
    requires inside { i < length lists.now }
    requires counted { length passed.now ≡ length lists.now }
    ensures { IsTrue result ↔ ((j : ℕ) → j < i → ¬ IsNext (lists_of lists.now) passed.now j word) }
{
    for j in 0..i {
        if next_word(words_at(lists, j), passed[j]) == Some(word) {
            return false;
        }
    }
    true
}

// The wanted data words that have the path, and then what is left of each list; where none are found, the path is as
// before.
fn extend(
    alloc: Global,
    search: &Search,
    passed: &[usize],
    path: &mut Path,
    budget: &mut Budget,
) -> Result<Option<Vec<Word>>, AllocError>
    requires passed { ArePassed (lists_of search.now.lists.now) passed.now }
    requires merged { HasPassed (lists_of search.now.lists.now) passed.now path.old.merged.items }
    requires short { length path.old.merged.items ≤ search.now.wanted.count }
    ensures some { IfOk result (λ found. IfSome found (λ v. AreDataOf search.now.profile.now search.now.wanted.count search.now.wanted.check (lists_of search.now.lists.now) v.items)) }
    ensures back { result ≡ Ok None → path.new.merged.items ≡ path.old.merged.items }
    ensures none { result ≡ Ok None → budget.new.cut ≡ None
        → IsHopeless search.now.profile.now search.now.wanted.count search.now.wanted.check (lists_of search.now.lists.now) passed.now path.old.merged.items }
    ensures cut { budget.new.cut ≡ None → budget.old.cut ≡ None }
    ensures entry { budget.new.entry ≡ budget.old.entry }
{
    if budget.runs_out() {
        return Ok(None);
    }
    if path.nodes == 0 {
        budget.cut_short(Limit::Places { left: path.nodes });
        return Ok(None);
    }
    path.nodes -= 1;
    if are_passed(search.lists, passed) {
        let merged = path.merged.as_slice();
        let words = completed_merge(
            alloc,
            search.profile,
            search.lists,
            merged,
            search.wanted,
            budget,
        )?;
        // (only where the polynomial is even: other words may do)
        if words.is_none() && path.merged.len() < search.wanted.count {
            budget.cut_short(Limit::Fillings {
                merged: path.merged.len(),
                wanted: search.wanted.count,
            });
        }
        return Ok(words);
    }
    let steps = steps_from(alloc, search, passed, budget)?;
    for step in &steps {
        if step.left >= search.wanted.count - path.merged.len() {
            continue;
        }
        path.merged.push(step.word)?;
        let found = extend(alloc, search, &step.passed, path, budget)?;
        if found.is_some() {
            return Ok(found);
        }
        path.merged.pop();
    }
    Ok(None)
}
