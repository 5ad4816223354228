//! Groups: attempts of one link data unit.

ghost use Rattle.std.specs.Prelude.{◌≡◌, ◌≤◌, ℕ, Ok, None, true, false, IfNone, IfOk, IfSome, IsSome, IsTrue, OnErr, SomeIndex, length};
ghost use Rattle.a429_link.specs.Run.{IsSubsequenceOf};
ghost use Rattle.a429_merge.specs.Order.{lists_of, words_at};
ghost use Rattle.a429_profile.specs.Profile.{Contents};
ghost use Rattle.a429_ldu.specs.Ldu.{IsLdu, LduValue};
ghost use Rattle.a429_merge.specs.Block.{MayBeUnitOf};
ghost use Rattle.a429_search.specs.Recorded.{Agree, MayBeOf};

use crate::attempts::Attempt;
use a429_ldu::{Ldu, LduFault};
use a429_merge::{Budget, EndWord, GroupPieces, is_in_some, lists_with, unit_of_pieces};
use a429_profile::Profile;
use std::alloc::{AllocError, Global};

/// Attempts one after the other, and a link data unit that each of them may have been of.
#[derive(Drop)]
pub(crate) struct Group {
    /// The entry of the first request, counted from 0.
    pub at: usize,
    /// What was recorded. An attempt is left out where another one has all its data words in their order.
    pub pieces: GroupPieces,
    /// The link data unit.
    pub unit: Ldu,
}

impl Group {
    /// The group that an attempt begins; `None` where no link data unit is found for it. Where there may be one all the same the
    /// budget says that a search was cut short.
    pub(crate) fn begin(
        alloc: Global,
        profile: &Profile,
        attempt: &Attempt,
        budget: &mut Budget,
    ) -> Result<Option<Group>, AllocError>
        ensures covers { IfOk result (λ found. IfSome found (λ g. (u : LduValue) → MayBeOf profile.now attempt.now u → MayBeUnitOf profile.now g.pieces u)) }
        ensures only { IfOk result (λ found. IfSome found (λ g. (u : LduValue) → MayBeUnitOf profile.now g.pieces u → MayBeOf profile.now attempt.now u)) }
        ensures unit { IfOk result (λ found. IfSome found (λ g. MayBeUnitOf profile.now g.pieces g.unit)) }
        ensures none { result ≡ Ok None → budget.new.cut ≡ None → (u : LduValue) → ¬ MayBeOf profile.now attempt.now u }
        ensures cut { budget.new.cut ≡ None → budget.old.cut ≡ None }
        ensures entry { budget.new.entry ≡ budget.old.entry }
    {
        let mut attempts = Vec::new(alloc);
        attempts.push(Vec::from_slice(alloc, &attempt.words)?)?;
        let pieces = GroupPieces {
            count: attempt.count,
            gfi: attempt.gfi(),
            end: attempt.end,
            attempts,
        };
        let at = attempt.at;
        match unit_found(alloc, profile, &pieces, budget)? {
            Some(unit) => Ok(Some(Group { at, pieces, unit })),
            None => Ok(None),
        }
    }

    /// The group with one more attempt; `None` where no link data unit is found for all. Where there may be one all the same the budget
    /// says that a search was cut short.
    pub(crate) fn with(
        &self,
        alloc: Global,
        profile: &Profile,
        attempt: &Attempt,
        budget: &mut Budget,
    ) -> Result<Option<Group>, AllocError>
        ensures covers { IfOk result (λ found. IfSome found (λ g. (u : LduValue) → MayBeUnitOf profile.now self.now.pieces u → MayBeOf profile.now attempt.now u → MayBeUnitOf profile.now g.pieces u)) }
        ensures only { IfOk result (λ found. IfSome found (λ g. (u : LduValue) → MayBeUnitOf profile.now g.pieces u → MayBeUnitOf profile.now self.now.pieces u × MayBeOf profile.now attempt.now u)) }
        ensures unit { MayBeUnitOf profile.now self.now.pieces self.now.unit → IfOk result (λ found. IfSome found (λ g. MayBeUnitOf profile.now g.pieces g.unit)) }
        ensures none { result ≡ Ok None → budget.new.cut ≡ None → (u : LduValue) → MayBeUnitOf profile.now self.now.pieces u → ¬ MayBeOf profile.now attempt.now u }
        ensures cut { budget.new.cut ≡ None → budget.old.cut ≡ None }
        ensures entry { budget.new.entry ≡ budget.old.entry }
    {
        if self.contradicts(attempt) {
            return Ok(None);
        }
        if budget.runs_out() {
            return Ok(None);
        }
        budget.spend(self.steps_to_compare());
        let is_new = !is_in_some(&attempt.words, &self.pieces.attempts);
        let Some(pieces) = self.pieces_with(alloc, attempt, is_new, budget)? else {
            return Ok(None);
        };
        let at = self.at;
        let says_more = is_new || !have_same_words(&pieces, &self.pieces);
        if !says_more && let Some(unit) = copied(alloc, profile, &self.unit)? {
            return Ok(Some(Group { at, pieces, unit }));
        }
        match unit_found(alloc, profile, &pieces, budget)? {
            Some(unit) => Ok(Some(Group { at, pieces, unit })),
            None => Ok(None),
        }
    }

    // Count, general format identifier or end word of the attempt are not the group's.
    fn contradicts(&self, attempt: &Attempt) -> bool
        ensures other { IsTrue result → (p : Contents) (u : LduValue) → MayBeUnitOf p self.now.pieces u → ¬ MayBeOf p attempt.now u }
        ensures agree { result ≡ false → Agree self.now.pieces attempt.now }
    {
        self.pieces.count != attempt.count
            || are_other(self.pieces.gfi, attempt.gfi())
            || are_other_ends(self.pieces.end, attempt.end)
    }

    // How many words at most are compared to find out, and to leave attempts out.
    fn steps_to_compare(&self) -> usize {
        let many = self.pieces.attempts.len().saturating_mul(2);
        many.saturating_mul(usize::from(self.pieces.count))
    }

    // What was recorded, with one more attempt, whose data words are new or not. `None` where there would be too many, and then a search
    // is cut short.
    fn pieces_with(
        &self,
        alloc: Global,
        attempt: &Attempt,
        is_new: bool,
        budget: &mut Budget,
    ) -> Result<Option<GroupPieces>, AllocError>
        requires has { is_new ≡ false → SomeIndex self.now.pieces.attempts.items (λ i. IsSubsequenceOf attempt.now.words.items (words_at (lists_of self.now.pieces.attempts.items) i)) }
        ensures covers { IfOk result (λ found. IfSome found (λ g. (p : Contents) (u : LduValue) → MayBeUnitOf p self.now.pieces u → MayBeOf p attempt.now u → MayBeUnitOf p g u)) }
        ensures only { Agree self.now.pieces attempt.now → IfOk result (λ found. IfSome found (λ g. (p : Contents) (u : LduValue) → MayBeUnitOf p g u → MayBeUnitOf p self.now.pieces u × MayBeOf p attempt.now u)) }
        ensures same { is_new ≡ false → IfOk result (λ found. IfSome found (λ g. (g.gfi ≡ self.now.pieces.gfi) → (g.end ≡ self.now.pieces.end) → (p : Contents) (u : LduValue) → MayBeUnitOf p self.now.pieces u → MayBeUnitOf p g u)) }
        ensures none { IfOk result (λ found. IfNone found (16 ≤ length self.now.pieces.attempts.items)) }
        ensures too_many { IfOk result (λ found. IfNone found (IsSome budget.new.cut)) }
        ensures uncut { IfOk result (λ found. IfSome found (λ g. budget.new.cut ≡ budget.old.cut)) }
        ensures err { OnErr result (budget.new.cut ≡ budget.old.cut) }
        ensures cut { budget.new.cut ≡ None → budget.old.cut ≡ None }
        ensures entry { budget.new.entry ≡ budget.old.entry }
    {
        let taken = &self.pieces.attempts;
        let Some(attempts) = lists_with(alloc, taken, &attempt.words, is_new, budget)? else {
            return Ok(None);
        };
        Ok(Some(GroupPieces {
            count: self.pieces.count,
            gfi: self.pieces.gfi.or(attempt.gfi()),
            end: self.pieces.end.or(attempt.end),
            attempts,
        }))
    }
}

// The same is known of their start words and of their end words.
fn have_same_words(one: &GroupPieces, other: &GroupPieces) -> bool
    ensures gfi { IsTrue result → one.now.gfi ≡ other.now.gfi }
    ensures end { IsTrue result → one.now.end ≡ other.now.end }
{
    one.gfi == other.gfi && one.end == other.end
}

// Both are known, and they differ.
fn are_other(one: Option<u8>, other: Option<u8>) -> bool
    ensures other { IsTrue result → (n : ℕ) → IfSome one (λ m. n ≡ m) → ¬ IfSome other (λ m. n ≡ m) }
    ensures agree { result ≡ false → IfSome one (λ m. IfSome other (λ n. m ≡ n)) }
{
    match (one, other) {
        (Some(one), Some(other)) => one != other,
        _ => false,
    }
}

// The same of end words.
fn are_other_ends(one: Option<EndWord>, other: Option<EndWord>) -> bool
    ensures other { IsTrue result → (flags check : ℕ) → IfSome one (λ e. (flags ≡ e.flags) × (check ≡ e.check)) → ¬ IfSome other (λ e. (flags ≡ e.flags) × (check ≡ e.check)) }
    ensures agree { result ≡ false → IfSome one (λ e. IfSome other (λ f. (e.flags ≡ f.flags) × (e.check ≡ f.check))) }
{
    match (one, other) {
        (Some(one), Some(other)) => one.flags != other.flags || one.check != other.check,
        _ => false,
    }
}

// A link data unit that has all that was recorded, as long as the budget lasts. Where none is found there is none, or a search was
// cut short.
fn unit_found(
    alloc: Global,
    profile: &Profile,
    pieces: &GroupPieces,
    budget: &mut Budget,
) -> Result<Option<Ldu>, AllocError>
    ensures some { IfOk result (λ found. IfSome found (MayBeUnitOf profile.now pieces.now)) }
    ensures exact { result ≡ Ok None → budget.new.cut ≡ None → (u : LduValue) → ¬ MayBeUnitOf profile.now pieces.now u }
    ensures cut { budget.new.cut ≡ None → budget.old.cut ≡ None }
    ensures entry { budget.new.entry ≡ budget.old.entry }
{
    if budget.runs_out() {
        return Ok(None);
    }
    if !are_in_range(pieces) {
        return Ok(None);
    }
    unit_of_pieces(alloc, profile, pieces, budget)
}

// What every link data unit has: three words or more, and a general format identifier and flags of four bits.
fn are_in_range(pieces: &GroupPieces) -> bool
    ensures count { result ≡ true → 3 ≤ pieces.now.count }
    ensures gfi { result ≡ true → IfSome pieces.now.gfi (λ n. n ≤ 15) }
    ensures flags { result ≡ true → IfSome pieces.now.end (λ e. e.flags ≤ 15) }
    ensures out { result ≡ false → (p : Contents) (u : LduValue) → ¬ MayBeUnitOf p pieces.now u }
{
    let gfi = match pieces.gfi {
        Some(gfi) => gfi <= 15,
        None => true,
    };
    let flags = match pieces.end {
        Some(end) => end.flags <= 15,
        None => true,
    };
    pieces.count >= 3 && gfi && flags
}

/// The same link data unit once more: it is one of the profile.
pub(crate) fn copied(
    alloc: Global,
    profile: &Profile,
    unit: &Ldu,
) -> Result<Option<Ldu>, AllocError>
    ensures unit { IfOk result (λ found. IfSome found (λ u. IsLdu profile.now u)) }
    ensures same { IfOk result (λ found. IfSome found (λ u. u ≡ unit.now)) }
{
    match Ldu::new(
        alloc,
        profile,
        unit.gfi(),
        unit.flags(),
        unit.check(),
        unit.words(),
    ) {
        Ok(unit) => Ok(Some(unit)),
        Err(LduFault::OutOfMemory) => Err(AllocError),
        Err(_) => Ok(None),
    }
}
