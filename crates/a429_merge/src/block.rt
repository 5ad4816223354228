//! The link data unit of a group.

ghost use Rattle.std.specs.Prelude.{◌≡◌, ℕ, List, Ok, None, ◌↔◌, ◌≤◌, ◌+◌, IfOk, IfSome, IfNone, IsSome, IsTrue, EachIndex, length};
ghost use Rattle.a429_ldu.specs.Carried.{bytes_in};
ghost use Rattle.a429_ldu.specs.CheckWord.{check_of};
ghost use Rattle.a429_ldu.specs.Ldu.{LduValue, HasLength, IsLdu};
ghost use Rattle.a429_merge.specs.Order.{lists_of, words_at, HasEach};
ghost use Rattle.a429_merge.specs.Fill.{Fits, AreDataOf, CanBeCompleted};
ghost use Rattle.a429_merge.specs.Block.{check_wanted, HaveCheckWord, IsUnitOf, MayBeUnitOf, GivesUnit};

use crate::bounded::search_words;
use crate::budget::Budget;
use crate::differing::differing;
use crate::fill::Wanted;
use crate::longest::complete_longest;
use crate::merged::completed_merge;
use crate::one_by_one::merge_one_by_one;
use crate::order::merge_in_one_order;
use crate::pieces::{EndWord, GroupPieces};
use a429_ldu::{Ldu, LduFault, bytes_of, check_word_by};
use a429_profile::Profile;
use a429_word::Word;
use std::alloc::{AllocError, Global};

/// A link data unit that has all that was recorded of a group. A longest attempt is taken, where it has all others; else the
/// attempts are merged in one order, or one after the other, or by a search, as long as the budget lasts. Missing data words
/// are filled in. The first of these steps that gives a unit is taken; other units may do as well. Where no start word was
/// recorded its general format identifier is 0; where no end word was, its flags are 0, and its check word is that of its
/// bytes. `None` where no step gives one, and then there may be a unit all the same, but none of a longest attempt that has
/// all others.
pub fn unit_of_pieces(
    alloc: Global,
    profile: &Profile,
    pieces: &GroupPieces,
    budget: &mut Budget,
) -> Result<Option<Ldu>, AllocError>
    requires count { 3 ≤ pieces.now.count }
    requires gfi { IfSome pieces.now.gfi (λ n. n ≤ 15) }
    requires flags { IfSome pieces.now.end (λ e. e.flags ≤ 15) }
    ensures some { IfOk result (λ found. IfSome found (λ u. IsUnitOf profile.now pieces.now u)) }
    ensures none { IfOk result (λ found. IfNone found (EachIndex pieces.now.attempts.items (λ i. ¬ GivesUnit profile.now pieces.now (words_at (lists_of pieces.now.attempts.items) i)))) }
    ensures exact { result ≡ Ok None → budget.new.cut ≡ None → pieces.now.count ≤ 255 → (u : LduValue) → ¬ MayBeUnitOf profile.now pieces.now u }
    ensures cut { budget.new.cut ≡ None → budget.old.cut ≡ None }
    ensures entry { budget.new.entry ≡ budget.old.entry }
{
    // (for the proof: the profile is sound)
    let _codes = profile.codes();
    let wanted = Wanted {
        count: usize::from(pieces.count) - 2,
        check: check_wanted(profile, pieces.end),
    };
    match data_words(alloc, profile, &pieces.attempts, wanted, budget)? {
        Some(words) => unit_with(alloc, profile, pieces, &words),
        None => Ok(None),
    }
}

// The check word that the data words must have.
fn check_wanted(profile: &Profile, end: Option<EndWord>) -> Option<u16>
    ensures { result ≡ check_wanted profile.now end }
{
    match end {
        Some(end) if profile.check().compare => Some(end.check),
        _ => None,
    }
}

// Data words that have those of each attempt. `None` only where no longest attempt gives them.
fn data_words(
    alloc: Global,
    profile: &Profile,
    attempts: &[Vec<Word>],
    wanted: Wanted,
    budget: &mut Budget,
) -> Result<Option<Vec<Word>>, AllocError>
    ensures some { IfOk result (λ found. IfSome found (λ v. AreDataOf profile.now wanted.count wanted.check (lists_of attempts.now) v.items)) }
    ensures none { IfOk result (λ found. IfNone found (EachIndex attempts.now (λ i. HasEach (words_at (lists_of attempts.now) i) (lists_of attempts.now)
        → ¬ CanBeCompleted profile.now wanted.count wanted.check (words_at (lists_of attempts.now) i)))) }
    ensures exact { result ≡ Ok None → budget.new.cut ≡ None → wanted.count ≤ 253 → (words : List ℕ) → ¬ AreDataOf profile.now wanted.count wanted.check (lists_of attempts.now) words }
    ensures cut { budget.new.cut ≡ None → budget.old.cut ≡ None }
    ensures entry { budget.new.entry ≡ budget.old.entry }
{
    let found = complete_longest(alloc, profile, attempts, wanted, budget)?;
    if found.is_some() {
        return Ok(found);
    }
    if budget.runs_out() {
        return Ok(None);
    }
    match differing(alloc, attempts, budget)? {
        Some(lists) => words_of(alloc, profile, &lists, wanted, budget),
        None => Ok(None),
    }
}

// Data words that have those of each list, by the first step that gives some.
fn words_of(
    alloc: Global,
    profile: &Profile,
    lists: &[Vec<Word>],
    wanted: Wanted,
    budget: &mut Budget,
) -> Result<Option<Vec<Word>>, AllocError>
    ensures some { IfOk result (λ found. IfSome found (λ v. AreDataOf profile.now wanted.count wanted.check (lists_of lists.now) v.items)) }
    ensures exact { result ≡ Ok None → budget.new.cut ≡ None → wanted.count ≤ 253 → (words : List ℕ) → ¬ AreDataOf profile.now wanted.count wanted.check (lists_of lists.now) words }
    ensures cut { budget.new.cut ≡ None → budget.old.cut ≡ None }
    ensures entry { budget.new.entry ≡ budget.old.entry }
{
    if let Some(merged) = merge_in_one_order(alloc, lists, budget)? {
        let found = completed_merge(alloc, profile, lists, &merged, wanted, budget)?;
        if found.is_some() {
            return Ok(found);
        }
    }
    if budget.runs_out() {
        return Ok(None);
    }
    if let Some(merged) = merge_one_by_one(alloc, lists, budget)? {
        let found = completed_merge(alloc, profile, lists, &merged, wanted, budget)?;
        if found.is_some() {
            return Ok(found);
        }
    }
    search_words(alloc, profile, lists, wanted, budget)
}

// The link data unit of these data words.
fn unit_with(
    alloc: Global,
    profile: &Profile,
    pieces: &GroupPieces,
    words: &[Word],
) -> Result<Option<Ldu>, AllocError>
    requires gfi { IfSome pieces.now.gfi (λ n. n ≤ 15) }
    requires flags { IfSome pieces.now.end (λ e. e.flags ≤ 15) }
    requires long { HasLength words.now }
    requires count { length words.now + 2 ≡ pieces.now.count }
    requires each { HasEach words.now (lists_of pieces.now.attempts.items) }
    requires fits { Fits profile.now (check_wanted profile.now pieces.now.end) words.now }
    ensures unit { IfOk result (λ found. IfSome found (λ u. IsUnitOf profile.now pieces.now u)) }
    ensures found { IfOk result IsSome }
{
    // (for the proof: the profile is sound)
    let _codes = profile.codes();
    let gfi = pieces.gfi.unwrap_or(0);
    let Some(end) = end_word(alloc, profile, pieces.end, words)? else {
        return Ok(None);
    };
    match Ldu::new(alloc, profile, gfi, end.flags, end.check, words) {
        Ok(unit) => Ok(Some(unit)),
        Err(fault) if is_out_of_memory(&fault) => Err(AllocError),
        // Never: the data words fit.
        Err(_) => Ok(None),
    }
}

fn is_out_of_memory(fault: &LduFault) -> bool
    ensures { IsTrue result ↔ (fault.now ≡ LduFault.OutOfMemory) }
{
    matches!(fault, LduFault::OutOfMemory)
}

// The end word that was recorded, or else one of flags 0 with the check word of the data words.
fn end_word(
    alloc: Global,
    profile: &Profile,
    recorded: Option<EndWord>,
    words: &[Word],
) -> Result<Option<EndWord>, AllocError>
    requires flags { IfSome recorded (λ e. e.flags ≤ 15) }
    requires fits { Fits profile.now (check_wanted profile.now recorded) words.now }
    ensures found { IfOk result IsSome }
    ensures check { IfOk result (λ found. IfSome found (λ e. HaveCheckWord profile.now words.now e.check)) }
    ensures recorded { IfOk result (λ found. IfSome found (λ e. IfSome recorded (λ r. e ≡ r))) }
    ensures made { IfOk result (λ found. IfSome found (λ e. IfNone recorded ((e.flags ≡ 0) × (e.check ≡ check_of profile.now.check (bytes_in profile.now.codes words.now))))) }
    ensures flags { IfOk result (λ found. IfSome found (λ e. e.flags ≤ 15)) }
{
    // (for the proof: the profile is sound)
    let _codes = profile.codes();
    if recorded.is_some() {
        return Ok(recorded);
    }
    let Some(bytes) = bytes_of(alloc, profile, words)? else {
        return Ok(None);
    };
    let check = check_word_by(profile.check_tables(), &bytes);
    Ok(Some(EndWord { flags: 0, check }))
}
