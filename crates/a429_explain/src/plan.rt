//! What the source does before a group of attempts.

ghost use Rattle.std.specs.Prelude.{◌≡◌};
ghost use Rattle.a429_explain.specs.Plan.{place_from, give_ups_from, place_after, begins_at, plan_for, plans_left};

use crate::attempts::{Role, StartNumbers};
use a429_ldu::Ldu;
use a429_link::UnitNumber;
use a429_profile::Profile;
use std::collections::VecDeque;

/// What the source does before it sends the first request of a group: it gives up so many files, one after the
/// other, and loads this link data unit.
#[derive(Drop)]
pub struct Plan {
    /// The entry of that request, counted from 0.
    pub at: usize,
    pub give_ups: u8,
    pub unit: Ldu,
}

/// Takes the plan for this entry from the plans that come next: at a request the first of them, if it is for this entry.
pub(crate) fn take_plan(plans: &mut VecDeque<Plan>, role: Role, at: usize) -> Option<Plan>
    ensures taken { result ≡ plan_for role at plans.old.items }
    ensures left { plans.new.items ≡ plans_left role at plans.old.items }
{
    match role {
        Role::Request { .. } if begins_at(plans, at) => plans.pop_front(),
        _ => None,
    }
}

// The first plan is one for this entry.
fn begins_at(plans: &VecDeque<Plan>, at: usize) -> bool
    ensures { result ≡ begins_at at plans.now.items }
{
    match plans.front() {
        Some(plan) => plan.at == at,
        None => false,
    }
}

/// The numbers of a group, where the source comes to it with those of `place`, and its first start word has those of
/// `start`: where that has another file, those of the first unit of that file.
pub(crate) fn place_from(
    profile: &Profile,
    place: UnitNumber,
    start: Option<StartNumbers>,
) -> UnitNumber
    ensures { result ≡ place_from profile.now.codes place start }
{
    match start {
        Some(start) if start.file != place.file => UnitNumber::first(profile, start.file),
        _ => place,
    }
}

/// How many files the source gives up before that group, 0 to 255.
pub(crate) fn give_ups_from(place: UnitNumber, start: Option<StartNumbers>) -> u8
    ensures { result ≡ give_ups_from place start }
{
    match start {
        Some(start) => start.file.wrapping_sub(place.file),
        None => 0,
    }
}

/// The numbers with which the source leaves a group of this link data unit.
pub(crate) fn place_after(
    profile: &Profile,
    place: UnitNumber,
    unit: &Ldu,
    is_settled: bool,
) -> UnitNumber
    ensures { result ≡ place_after profile.now.codes place unit.now is_settled }
{
    if is_settled {
        place.after(profile, unit)
    } else {
        place
    }
}
