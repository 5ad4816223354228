//! The search for a run that recorded the words of a recording with losses, or for the first word at which no run goes on.

ghost use Rattle.std.specs.Prelude.{◌≡◌, ◌⊎◌, ◌<◌, ◌≤◌, ◌+◌, ℕ, [], Ok, Option, None, Some, true, false, IfOk, IfSome, IsSomeAnd, IsTrue, OnOk, List, is_some, length, slice_get};
ghost use Rattle.a429_profile.specs.Profile.{Contents};
ghost use Rattle.a429_ldu.specs.Ldu.{LduValue};
ghost use Rattle.a429_link.specs.Assignment.{Assigned, IsSound};
ghost use Rattle.a429_explain.specs.Guess.{IsGuess};
ghost use Rattle.a429_explain.specs.Walk.{AreAllowedUpTo};
ghost use Rattle.a429_merge.specs.Block.{MayBeUnitOf};
ghost use Rattle.a429_search.specs.Frontier.{AddCarried, AreAt, AreCarried, AreCovered, AreCuts, AreHeard, AreKept, AreReal, AreSame, CarriesOn, Covers, FitsGroup, FitsNone, FitsSome, GoOnFrom, HasFewest, IsAmong, IsFound, IsReal, IsRefused, IsStart, TakesOn, leaves_nothing_out};
ghost use Rattle.a429_search.specs.Recorded.{HasNoRequestBetween, IsRequestAt, IsWhole, IsWholeIfHeard, MayBeOf, MayBeTo, number_of};
ghost use Rattle.a429_search.specs.Standing.{Begins, IsAt, MakeNothingUp, Stands, StandsLater};

use crate::attempts::{Attempt, attempt_of, first_request, next_request};
use crate::groups::Group;
use crate::standing::{Standing, Ways};
use crate::trail::{Course, Trail, with_heard};
use a429_explain::{Decoded, Guess, roles};
use a429_link::laws::attempts::runs_record_what_can_be_assigned;
use a429_link::{UnitNumber, is_final};
use a429_merge::{Budget, Cut, STEPS_A_WORD};
use a429_profile::Profile;
use std::alloc::{AllocError, Global};

/// A way in which the source may have come to the last attempt: how the attempts so far are cut into groups, each to send one link data
/// unit.
#[derive(Drop)]
pub(crate) struct Hypothesis {
    pub standing: Standing,
    /// The present group; none yet where the source has just heard an acknowledgement.
    pub group: Option<Group>,
    /// How many files were given up right before it.
    pub before: u8,
    /// The group before it, by its place in the trail.
    pub closed: Option<usize>,
}

/// What a search finds.
#[derive(Drop)]
pub(crate) enum Found {
    /// What is guessed of a run, and where the search was cut short, if it is not sure that some run's words begin with these.
    Run { guess: Guess, unsure: Option<Cut> },
    /// No run's words begin with those up to this entry. Where the search was not cut short, some run's words begin with those before it.
    NoRun { entry: usize, cut: Option<Cut> },
    /// Neither: the search was cut short.
    CutShort(Cut),
}

// Where an attempt stops fitting hypotheses.
#[derive(Clone, Copy)]
struct Misfit {
    // The entry with which it fits none of them.
    entry: usize,
    // Up to before that entry it fits one of them, unless a search was cut short.
    cut: Option<Cut>,
}

// Whether an attempt fits one of some hypotheses.
#[derive(Clone, Copy)]
enum Fit {
    One,
    None,
    // A search was cut short.
    Open(Cut),
}

// What carries hypotheses on: the groups that they have closed, and the steps that are left.
#[derive(Drop)]
struct Carrier<'a> {
    alloc: Global,
    trail: Trail<'a>,
    budget: Budget,
}

// A search, as far as it has come.
#[derive(Drop)]
struct Search<'a> {
    hypotheses: Vec<Hypothesis>,
    // Where the search was cut short, if the hypotheses may leave something out that the source may have done.
    left_out: Option<Cut>,
    // And if they may make something up: that what each of them says the source can have done is not sure.
    unsure: Option<Cut>,
    carrier: Carrier<'a>,
}

/// Carries hypotheses on from attempt to attempt. Where none is left at one, and nothing was left out before, no run goes on there:
/// the answer is an entry of it with which none is left, found by halving. Else what the hypothesis with the fewest files given up
/// says of a run.
pub(crate) fn search_for_run(alloc: Global, decoded: &Decoded) -> Result<Found, AllocError>
    requires { AreAllowedUpTo decoded.now.profile decoded.now.items (length decoded.now.items) }
    ensures { IfOk result (IsFound decoded.now) }
{
    runs_record_what_can_be_assigned();
    let profile = decoded.profile();
    let mut search = Search::new(alloc, decoded)?;
    let mut from = first_request(decoded);
    'attempts: while from < decoded.len() {
        let to = next_request(decoded, from);
        let attempt = attempt_of(alloc, decoded, from, to)?;
        if !search.take(profile, &attempt)? {
            let unsure = search.unsure;
            let misfit = search.misfit(decoded, from, to)?;
            let entry = misfit.entry;
            let cut = unsure.or(misfit.cut);
            return Ok(Found::NoRun { entry, cut });
        }
        from = to;
    }
    let Search {
        left_out,
        unsure,
        ..
    } = search;
    match search.guess(decoded)? {
        Some(guess) => Ok(Found::Run { guess, unsure }),
        None => match left_out {
            Some(cut) => Ok(Found::CutShort(cut)),
            None => unreachable!(),
        },
    }
}

impl<'a> Search<'a> {
    fn new(alloc: Global, decoded: &Decoded<'a>) -> Result<Search<'a>, AllocError>
        ensures start { IfOk result (λ s. IsStart s.hypotheses.items) }
        ensures uncut { IfOk result (λ s. (s.left_out ≡ None) × (s.unsure ≡ None)) }
    {
        let mut hypotheses = Vec::new(alloc);
        hypotheses.push(Hypothesis {
            standing: Standing::START,
            group: None,
            before: 0,
            closed: None,
        })?;
        Ok(Search {
            hypotheses,
            left_out: None,
            unsure: None,
            carrier: Carrier {
                alloc,
                trail: Trail::new(alloc, decoded.profile()),
                budget: Budget::of_entries(decoded.len()),
            },
        })
    }

    // Carries the hypotheses on to an attempt. `false`, and they stay, where it fits none of them.
    fn take(&mut self, profile: &Profile, attempt: &Attempt) -> Result<bool, AllocError>
        requires whole { IsWholeIfHeard attempt.now }
        ensures refused { IfOk result (λ goes_on. goes_on ≡ false → (self.new.hypotheses ≡ self.old.hypotheses) × (self.new.unsure ≡ self.old.unsure) × (self.old.left_out ≡ None) × FitsNone profile.now self.old.hypotheses.items attempt.now) }
        ensures covers { IfOk result (λ goes_on. goes_on ≡ true → self.new.left_out ≡ None → GoOnFrom profile.now (leaves_nothing_out self.old.left_out) self.old.hypotheses.items attempt.now self.new.hypotheses.items) }
        ensures sure { IfOk result (λ goes_on. goes_on ≡ true → self.new.unsure ≡ None → (self.old.unsure ≡ None) × TakesOn profile.now self.old.hypotheses.items attempt.now self.new.hypotheses.items) }
        ensures some { IfOk result (λ goes_on. goes_on ≡ true → self.new.left_out ≡ None → self.new.hypotheses.items ≡ [] → ⊥) }
        ensures cuts { IfOk result (λ goes_on. AreCuts self.old.left_out self.old.unsure attempt.now.at self.new.left_out × AreCuts self.old.left_out self.old.unsure attempt.now.at self.new.unsure) }
    {
        let next = self.carrier.carried(profile, &self.hypotheses, attempt)?;
        let left_out = self.cut();
        let is_whole = left_out.is_none();
        if is_whole && are_none(&next) {
            return Ok(false);
        }
        if attempt.acknowledged.is_none() {
            self.left_out = left_out;
            self.hypotheses = self.carrier.trail.leave_out(next)?;
            return Ok(true);
        }
        let heard = self.carrier.heard(profile, &next, is_whole, attempt)?;
        let Some(heard) = heard else {
            // (where no search was cut short, no link data unit is that of the attempt)
            let Some(cut) = self.cut() else {
                return Ok(false);
            };
            self.left_out = Some(cut);
            self.hypotheses = next;
            return Ok(true);
        };
        self.unsure = self.unsure.or(left_out);
        self.left_out = None;
        self.hypotheses = self.carrier.trail.leave_out(heard)?;
        Ok(true)
    }

    // The first entry with which the attempt from one entry up to before another fits none of the hypotheses, as all of it does.
    fn misfit(&mut self, decoded: &Decoded, from: usize, to: usize) -> Result<Misfit, AllocError>
        requires some { from < to }
        requires inside { to ≤ length decoded.now.items }
        requires request { IsRequestAt decoded.now.profile decoded.now.items from }
        requires between { HasNoRequestBetween decoded.now.profile decoded.now.items from to }
        requires left { self.old.hypotheses.items ≡ [] → ⊥ }
        requires refused { IsRefused decoded.now.profile decoded.now.items self.old.hypotheses.items from to }
        ensures inside { IfOk result (λ m. m.entry < to) }
        ensures refused { IfOk result (λ m. IsRefused decoded.now.profile decoded.now.items self.old.hypotheses.items from (m.entry + 1)) }
        ensures fits { IfOk result (λ m. m.cut ≡ None → FitsSome decoded.now.profile decoded.now.items self.old.hypotheses.items from m.entry) }
    {
        let hypotheses = &self.hypotheses;
        self.carrier.misfit(decoded, hypotheses, from, to)
    }

    // Where the search was cut short, if something was left out before, or at the last attempt.
    fn cut(&self) -> Option<Cut>
        ensures whole { result ≡ None → self.now.left_out ≡ None }
        ensures uncut { result ≡ None → self.now.carrier.budget.cut ≡ None }
        ensures at { IfSome result (λ c. (c.entry ≡ self.now.carrier.budget.entry) ⊎ (self.now.left_out ≡ Some c)) }
    {
        self.left_out.or(self.carrier.budget.cut())
    }

    // What is guessed by the hypothesis with the fewest files given up; `None` where none is left.
    fn guess(self, decoded: &Decoded) -> Result<Option<Guess>, AllocError>
        ensures guess { IfOk result (λ found. IfSome found (IsGuess decoded.now.profile decoded.now.items)) }
        ensures some { IfOk result (λ found. IfSome found (λ g. (k : ℕ) × (h : Hypothesis) × (slice_get self.entry.hypotheses.items k ≡ Some h))) }
        ensures none { result ≡ Ok None → self.entry.hypotheses.items ≡ [] }
    {
        let Search {
            hypotheses,
            carrier,
            ..
        } = self;
        let Carrier {
            alloc,
            mut trail,
            ..
        } = carrier;
        let Some(place) = fewest(&hypotheses) else {
            return Ok(None);
        };
        let best = &hypotheses[place];
        let last = trail.close(best, None)?;
        let Course {
            plans,
            heard: entries,
        } = trail.course(decoded.profile(), last)?;
        let roles = roles(alloc, decoded)?;
        let roles = with_heard(alloc, &roles, entries)?;
        Ok(Some(Guess {
            first_file: best.standing.first_file,
            roles,
            plans,
        }))
    }
}

impl<'a> Carrier<'a> {
    // The hypotheses carried on to an attempt, in each way in which the source may have come to it.
    fn carried(
        &mut self,
        profile: &Profile,
        hypotheses: &[Hypothesis],
        attempt: &Attempt,
    ) -> Result<Vec<Hypothesis>, AllocError>
        ensures covers { IfOk result (λ next. self.new.budget.cut ≡ None → CarriesOn profile.now hypotheses.now attempt.now next.items) }
        ensures at { IfOk result (λ next. AreAt (number_of attempt.now.start) next.items) }
        ensures only { IfOk result (λ next. AreReal profile.now hypotheses.now → AreCarried profile.now hypotheses.now attempt.now next.items) }
        ensures entry { OnOk result (self.new.budget.entry ≡ attempt.now.at) }
    {
        self.budget = self.budget.afresh(attempt.at);
        let mut next = Vec::new(self.alloc);
        for place in 0..hypotheses.len() {
            self.carry_on(profile, &hypotheses[place], attempt, &mut next)?;
        }
        Ok(next)
    }

    // The same of these hypotheses: the entry is found by halving.
    fn misfit(
        &mut self,
        decoded: &Decoded,
        hypotheses: &[Hypothesis],
        from: usize,
        to: usize,
    ) -> Result<Misfit, AllocError>
        requires some { from < to }
        requires inside { to ≤ length decoded.now.items }
        requires request { IsRequestAt decoded.now.profile decoded.now.items from }
        requires between { HasNoRequestBetween decoded.now.profile decoded.now.items from to }
        requires left { hypotheses.now ≡ [] → ⊥ }
        requires refused { IsRefused decoded.now.profile decoded.now.items hypotheses.now from to }
        ensures inside { IfOk result (λ m. m.entry < to) }
        ensures refused { IfOk result (λ m. IsRefused decoded.now.profile decoded.now.items hypotheses.now from (m.entry + 1)) }
        ensures fits { IfOk result (λ m. m.cut ≡ None → FitsSome decoded.now.profile decoded.now.items hypotheses.now from m.entry) }
    {
        let mut fits = from;
        let mut refused = to;
        let mut cut = None;
        'halving: while refused - fits > 1 {
            let half = fits + (refused - fits) / 2;
            match self.fits(decoded, hypotheses, from, half)? {
                Fit::None => refused = half,
                Fit::One => {
                    fits = half;
                    cut = None;
                }
                Fit::Open(limit) => {
                    fits = half;
                    cut = Some(limit);
                }
            }
        }
        Ok(Misfit { entry: fits, cut })
    }

    // Whether the attempt from one entry up to before another fits one of the hypotheses.
    fn fits(
        &mut self,
        decoded: &Decoded,
        hypotheses: &[Hypothesis],
        from: usize,
        to: usize,
    ) -> Result<Fit, AllocError>
        requires some { from < to }
        requires inside { to ≤ length decoded.now.items }
        requires request { IsRequestAt decoded.now.profile decoded.now.items from }
        requires between { HasNoRequestBetween decoded.now.profile decoded.now.items from to }
        ensures refused { result ≡ Ok Fit.None → IsRefused decoded.now.profile decoded.now.items hypotheses.now from to }
        ensures fits { result ≡ Ok Fit.One → FitsSome decoded.now.profile decoded.now.items hypotheses.now from to }
    {
        let attempt = attempt_of(self.alloc, decoded, from, to)?;
        let next = self.carried(decoded.profile(), hypotheses, &attempt)?;
        if !are_none(&next) {
            return Ok(Fit::One);
        }
        match self.budget.cut() {
            Some(cut) => Ok(Fit::Open(cut)),
            None => Ok(Fit::None),
        }
    }

    // Puts a hypothesis carried on to an attempt to the others, in each way in which the source may have come to it.
    fn carry_on(
        &mut self,
        profile: &Profile,
        hypothesis: &Hypothesis,
        attempt: &Attempt,
        next: &mut Vec<Hypothesis>,
    ) -> Result<(), AllocError>
        ensures covers { OnOk result (self.new.budget.cut ≡ None → (t : Assigned) → IsSound profile.now t → MayBeTo profile.now attempt.now t → Covers profile.now hypothesis.now t → AreCovered profile.now next.new.items t) }
        ensures kept { OnOk result (AreKept next.old.items next.new.items) }
        ensures at { OnOk result (AreAt (number_of attempt.now.start) next.old.items → AreAt (number_of attempt.now.start) next.new.items) }
        ensures only { OnOk result (IsReal profile.now hypothesis.now.standing hypothesis.now.group → AddCarried profile.now hypothesis.now attempt.now next.old.items next.new.items) }
        ensures cut { self.new.budget.cut ≡ None → self.old.budget.cut ≡ None }
        ensures entry { self.new.budget.entry ≡ self.old.budget.entry }
    {
        let first_ldu = profile.codes().first_ldu;
        let has_group = hypothesis.group.is_some();
        let standing = hypothesis.standing;
        let ways = standing.ways(first_ldu, attempt.number(), has_group);
        let joins = self.join(profile, hypothesis, attempt, &ways, next)?;
        if joins && ways.begin_last {
            return Ok(());
        }
        self.begin(profile, hypothesis, attempt, &ways, next)?;
        Ok(())
    }

    // Puts a hypothesis with the attempt in its present group to the others, where the source may come so and the attempt fits.
    fn join(
        &mut self,
        profile: &Profile,
        hypothesis: &Hypothesis,
        attempt: &Attempt,
        ways: &Ways,
        next: &mut Vec<Hypothesis>,
    ) -> Result<bool, AllocError>
        ensures covers { IfOk result (λ joins. self.new.budget.cut ≡ None → (t : Assigned) → MayBeOf profile.now attempt.now t.unit → FitsGroup profile.now hypothesis.now.group t.unit → IfSome ways.now.join (λ j. IsAmong profile.now.codes.first_ldu j t → AreCovered profile.now next.new.items t)) }
        ensures later { IfOk result (λ joins. joins ≡ true → (t : Assigned) → IfSome ways.now.join (λ j. StandsLater profile.now.codes.first_ldu j t.number t.give_ups) → AreCovered profile.now next.new.items t) }
        ensures kept { OnOk result (AreKept next.old.items next.new.items) }
        ensures only { OnOk result (MakeNothingUp profile.now.codes.first_ldu hypothesis.now.standing (number_of attempt.now.start) (is_some hypothesis.now.group) ways.now → IsReal profile.now hypothesis.now.standing hypothesis.now.group → AddCarried profile.now hypothesis.now attempt.now next.old.items next.new.items) }
        ensures at { OnOk result ((start : Option UnitNumber) → IfSome start (λ n. IfSome ways.now.join (IsAt n)) → AreAt start next.old.items → AreAt start next.new.items) }
        ensures cut { self.new.budget.cut ≡ None → self.old.budget.cut ≡ None }
        ensures entry { self.new.budget.entry ≡ self.old.budget.entry }
    {
        let Some(standing) = ways.join else {
            return Ok(false);
        };
        let Some(group) = self.joined(profile, hypothesis, attempt)? else {
            return Ok(false);
        };
        next.push(Hypothesis {
            standing,
            group: Some(group),
            before: hypothesis.before,
            closed: hypothesis.closed,
        })?;
        Ok(true)
    }

    // Puts a hypothesis whose present group begins with the attempt to the others, where the source may come so and the attempt is one.
    fn begin(
        &mut self,
        profile: &Profile,
        hypothesis: &Hypothesis,
        attempt: &Attempt,
        ways: &Ways,
        next: &mut Vec<Hypothesis>,
    ) -> Result<(), AllocError>
        ensures covers { OnOk result (self.new.budget.cut ≡ None → (t : Assigned) → MayBeOf profile.now attempt.now t.unit → Begins ways.now (λ b. Stands profile.now.codes.first_ldu b t.number t.give_ups) → AreCovered profile.now next.new.items t) }
        ensures kept { OnOk result (AreKept next.old.items next.new.items) }
        ensures only { OnOk result (MakeNothingUp profile.now.codes.first_ldu hypothesis.now.standing (number_of attempt.now.start) (is_some hypothesis.now.group) ways.now → IsReal profile.now hypothesis.now.standing hypothesis.now.group → AddCarried profile.now hypothesis.now attempt.now next.old.items next.new.items) }
        ensures at { OnOk result ((start : Option UnitNumber) → IfSome start (λ n. IfSome ways.now.begin (λ b. IsAt n b.1)) → AreAt start next.old.items → AreAt start next.new.items) }
        ensures cut { self.new.budget.cut ≡ None → self.old.budget.cut ≡ None }
        ensures entry { self.new.budget.entry ≡ self.old.budget.entry }
    {
        let Some((before, standing)) = ways.begin else {
            return Ok(());
        };
        let begun = Group::begin(self.alloc, profile, attempt, &mut self.budget)?;
        let Some(group) = begun else {
            return Ok(());
        };
        let closed = self.close(hypothesis, None)?;
        next.push(Hypothesis {
            standing,
            group: Some(group),
            before,
            closed,
        })?;
        Ok(())
    }

    // The present group of a hypothesis with the attempt, or, where it has none, the group that the attempt begins.
    fn joined(
        &mut self,
        profile: &Profile,
        hypothesis: &Hypothesis,
        attempt: &Attempt,
    ) -> Result<Option<Group>, AllocError>
        ensures covers { IfOk result (λ found. IfSome found (λ g. (u : LduValue) → FitsGroup profile.now hypothesis.now.group u → MayBeOf profile.now attempt.now u → MayBeUnitOf profile.now g.pieces u)) }
        ensures only { IfOk result (λ found. IfSome found (λ g. (u : LduValue) → MayBeUnitOf profile.now g.pieces u → FitsGroup profile.now hypothesis.now.group u × MayBeOf profile.now attempt.now u)) }
        ensures unit { IfSome hypothesis.now.group (λ g. MayBeUnitOf profile.now g.pieces g.unit) → IfOk result (λ found. IfSome found (λ g. MayBeUnitOf profile.now g.pieces g.unit)) }
        ensures none { result ≡ Ok None → self.new.budget.cut ≡ None → (u : LduValue) → FitsGroup profile.now hypothesis.now.group u → ¬ MayBeOf profile.now attempt.now u }
        ensures cut { self.new.budget.cut ≡ None → self.old.budget.cut ≡ None }
        ensures entry { self.new.budget.entry ≡ self.old.budget.entry }
    {
        match &hypothesis.group {
            Some(group) => group.with(self.alloc, profile, attempt, &mut self.budget),
            None => Group::begin(self.alloc, profile, attempt, &mut self.budget),
        }
    }

    // Closes the present group of a hypothesis, as `close` of a trail does: its link data unit is copied.
    fn close(
        &mut self,
        hypothesis: &Hypothesis,
        heard: Option<usize>,
    ) -> Result<Option<usize>, AllocError>
        ensures cut { self.new.budget.cut ≡ self.old.budget.cut }
        ensures entry { self.new.budget.entry ≡ self.old.budget.entry }
    {
        if let Some(group) = &hypothesis.group {
            self.budget
                .spend(usize::from(group.pieces.count) * STEPS_A_WORD);
        }
        self.trail.close(hypothesis, heard)
    }

    // After an attempt that was acknowledged: all hypotheses are one, that with the fewest files given up, since the block was recorded whole.
    // Beside it comes that of a source that has heard the acknowledgement. Where something was left out before, nothing is any more: the
    // attempt says at which number the source is. `None` where no link data unit is found for it.
    fn heard(
        &mut self,
        profile: &Profile,
        next: &[Hypothesis],
        is_whole: bool,
        attempt: &Attempt,
    ) -> Result<Option<Vec<Hypothesis>>, AllocError>
        requires at { AreAt (number_of attempt.now.start) next.now }
        requires whole { IsWhole attempt.now }
        ensures some { IfOk result (λ found. IfSome found (λ heard. heard.items ≡ [] → ⊥)) }
        ensures none { result ≡ Ok None → self.new.budget.cut ≡ None → (u : LduValue) → ¬ MayBeOf profile.now attempt.now u }
        ensures covers { IfOk result (λ found. IfSome found (λ heard. GoOnFrom profile.now is_whole next.now attempt.now heard.items)) }
        ensures only { IfOk result (λ found. IfSome found (λ heard. is_whole ≡ true → (next.now ≡ [] → ⊥) → (hyps : List Hypothesis) → AreCarried profile.now hyps attempt.now next.now → AreHeard profile.now next.now heard.items)) }
        ensures entry { self.new.budget.entry ≡ self.old.budget.entry }
    {
        let (Some(start), Some(end)) = (attempt.start, attempt.end) else {
            unreachable!();
        };
        let begun = Group::begin(self.alloc, profile, attempt, &mut self.budget)?;
        let Some(group) = begun else {
            return Ok(None);
        };
        let one = merged(next, is_whole, start.number, group);
        let known = start.number.next(profile, is_final(profile, end.flags));
        let closed = self.close(&one, attempt.acknowledged)?;
        let heard = Hypothesis {
            standing: one.standing.heard(known),
            group: None,
            before: 0,
            closed,
        };
        let mut hypotheses = Vec::new(self.alloc);
        hypotheses.push(one)?;
        hypotheses.push(heard)?;
        Ok(Some(hypotheses))
    }
}

// One hypothesis for these, which are all at this number, with another group: that with the fewest files given up. Where something was
// left out before, none is given up.
fn merged(next: &[Hypothesis], is_whole: bool, number: UnitNumber, group: Group) -> Hypothesis
    ensures at { IsAt number result.standing }
    ensures group { IsSomeAnd result.group (λ g. (g.pieces ≡ group.pieces) × (g.unit ≡ group.unit)) }
    ensures one_of { is_whole ≡ true → (next.now ≡ []) ⊎ ((k : ℕ) × (h : Hypothesis) × (slice_get next.now k ≡ Some h) × (result.standing.give_ups ≡ h.standing.give_ups)) }
    ensures few { is_whole ≡ true → (k : ℕ) (h : Hypothesis) → slice_get next.now k ≡ Some h → IsAt number h.standing → result.standing.give_ups ≤ h.standing.give_ups }
    ensures none { is_whole ≡ false → result.standing.give_ups ≡ 0 }
{
    let Some(place) = fewest(next) else {
        return Hypothesis {
            standing: Standing::START.at(number, 0),
            group: Some(group),
            before: 0,
            closed: None,
        };
    };
    let best = &next[place];
    let at = match &best.group {
        Some(old) => old.at,
        None => group.at,
    };
    let give_ups = if is_whole { best.standing.give_ups } else { 0 };
    Hypothesis {
        standing: best.standing.at(number, give_ups),
        group: Some(Group { at, ..group }),
        before: best.before,
        closed: best.closed,
    }
}

// None is left.
fn are_none(hypotheses: &[Hypothesis]) -> bool
    ensures none { IsTrue result → hypotheses.now ≡ [] }
    ensures some { result ≡ false → hypotheses.now ≡ [] → ⊥ }
{
    hypotheses.is_empty()
}

// The place of the hypothesis with the fewest files given up.
fn fewest(hypotheses: &[Hypothesis]) -> Option<usize>
    ensures some { IfSome result (λ place. HasFewest hypotheses.now place) }
    ensures none { result ≡ None → hypotheses.now ≡ [] }
{
    if hypotheses.is_empty() {
        return None;
    }
    let mut best = 0;
    for place in 0..hypotheses.len() {
        if hypotheses[place].standing.all_give_ups() < hypotheses[best].standing.all_give_ups() {
            best = place;
        }
    }
    Some(best)
}
