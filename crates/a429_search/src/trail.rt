//! The groups that hypotheses have closed.

ghost use Rattle.std.specs.Prelude.{◌≡◌, IfOk, IfSome, OnOk, length};
ghost use Rattle.a429_profile.specs.Profile.{Contents};
ghost use Rattle.a429_link.specs.Assignment.{Assigned};
ghost use Rattle.a429_explain.specs.Plan.{ArePlans};
ghost use Rattle.a429_search.specs.Frontier.{AreCovered, AreSame};

use crate::groups::copied;
use crate::searching::Hypothesis;
use a429_explain::{Plan, Role};
use a429_ldu::Ldu;
use a429_profile::Profile;
use std::alloc::{AllocError, Global};
use std::collections::VecDeque;
use std::mem;

/// A group after which another one begins, or whose acknowledgement the source has heard.
#[derive(Drop)]
pub(crate) struct Closed {
    /// The group closed before it, by its place in the trail.
    pub before: Option<usize>,
    /// How many files were given up between both.
    pub give_ups: u8,
    /// The entry of its first request, counted from 0.
    pub at: usize,
    /// Its link data unit.
    pub unit: Ldu,
    /// The entry of the acknowledgement by which it ended, where it ended by one.
    pub heard: Option<usize>,
}

/// How many groups may be closed, beside twice those that hypotheses need, until the others are left out.
const SPARE_GROUPS: usize = 1_000;

/// The groups that were closed by a hypothesis that is still carried, and some that no hypothesis needs any more.
#[derive(Drop)]
pub(crate) struct Trail<'a> {
    alloc: Global,
    profile: &'a Profile,
    closed: Vec<Closed>,
    // With how many of them those that no hypothesis needs are left out.
    most: usize,
}

/// What the source does before each group, and the entries of the acknowledgements that it hears, last first.
#[derive(Drop)]
pub(crate) struct Course {
    pub plans: VecDeque<Plan>,
    pub heard: Vec<usize>,
}

impl<'a> Trail<'a> {
    pub(crate) fn new(alloc: Global, profile: &'a Profile) -> Trail<'a> {
        Trail {
            alloc,
            profile,
            closed: Vec::new(alloc),
            most: SPARE_GROUPS,
        }
    }

    /// Closes the present group of a hypothesis, where it has one, by the acknowledgement of this entry or without one.
    /// Answers the place of the group that was closed last.
    pub(crate) fn close(
        &mut self,
        hypothesis: &Hypothesis,
        heard: Option<usize>,
    ) -> Result<Option<usize>, AllocError> {
        let Some(group) = &hypothesis.group else {
            return Ok(hypothesis.closed);
        };
        let Some(unit) = copied(self.alloc, self.profile, &group.unit)? else {
            return Ok(hypothesis.closed);
        };
        let place = self.closed.len();
        self.closed.push(Closed {
            before: hypothesis.closed,
            give_ups: hypothesis.before,
            at: group.at,
            unit,
            heard,
        })?;
        Ok(Some(place))
    }

    /// The same hypotheses; once there are many groups, those that none of them needs are left out. The places of the others change, and
    /// with them those in the hypotheses.
    pub(crate) fn leave_out(
        &mut self,
        hypotheses: Vec<Hypothesis>,
    ) -> Result<Vec<Hypothesis>, AllocError>
        ensures covers { IfOk result (λ same. (p : Contents) (t : Assigned) → AreCovered p hypotheses.items t → AreCovered p same.items t) }
        ensures same { IfOk result (λ same. AreSame hypotheses.items same.items) }
        ensures many { IfOk result (λ same. length same.items ≡ length hypotheses.items) }
    {
        if self.closed.len() < self.most {
            return Ok(hypotheses);
        }
        let places = self.new_places(&hypotheses)?;
        self.keep_placed(&places)?;
        let mut moved = Vec::new(self.alloc);
        for hypothesis in hypotheses.into_iter() {
            let closed = place_in(&places, hypothesis.closed);
            moved.push(Hypothesis {
                closed,
                ..hypothesis
            })?;
        }
        Ok(moved)
    }

    // Leaves out the groups that have no new place.
    fn keep_placed(&mut self, places: &[Option<usize>]) -> Result<(), AllocError> {
        let closed = mem::replace(&mut self.closed, Vec::new(self.alloc));
        for (place, group) in closed.into_iter().enumerate() {
            if place_in(places, Some(place)).is_some() {
                let mut kept = group;
                kept.before = place_in(places, kept.before);
                self.closed.push(kept)?;
            }
        }
        self.most = self
            .closed
            .len()
            .saturating_mul(2)
            .saturating_add(SPARE_GROUPS);
        Ok(())
    }

    // The new place of each group; none of a group that none of these hypotheses needs.
    fn new_places(&self, hypotheses: &[Hypothesis]) -> Result<Vec<Option<usize>>, AllocError> {
        let mut places = vec![in self.alloc; None; self.closed.len()]?;
        for hypothesis in hypotheses {
            self.need(&mut places, hypothesis.closed);
        }
        let mut next = 0_usize;
        for place in places.iter_mut() {
            if place.is_some() {
                *place = Some(next);
                next = next.saturating_add(1);
            }
        }
        Ok(places)
    }

    // Gives a place to each group from the last one back to the first, or to one that has a place already.
    fn need(&self, places: &mut [Option<usize>], last: Option<usize>) {
        let mut next = last;
        for _ in 0..self.closed.len() {
            let Some(place) = next else {
                break;
            };
            if !is_marked(places, place) {
                break;
            }
            next = match self.closed.get(place) {
                Some(group) => group.before,
                None => None,
            };
        }
    }

    /// What the source does up to the group at this place of the trail.
    pub(crate) fn course(
        &self,
        profile: &Profile,
        last: Option<usize>,
    ) -> Result<Course, AllocError>
        ensures { IfOk result (λ course. ArePlans profile.now course.plans.items) }
    {
        let mut plans = VecDeque::new(self.alloc);
        let mut heard = Vec::new(self.alloc);
        let mut next = last;
        // (a group is later in the trail than the one before it, so that no more groups than these are met)
        for _ in 0..self.closed.len() {
            let Some(closed) = self.at(next) else {
                break;
            };
            put_plan(self.alloc, profile, closed, &mut plans)?;
            if let Some(entry) = closed.heard {
                heard.push(entry)?;
            }
            next = closed.before;
        }
        Ok(Course { plans, heard })
    }

    // The group at a place.
    fn at(&self, place: Option<usize>) -> Option<&Closed> {
        match place {
            Some(place) => self.closed.get(place),
            None => None,
        }
    }
}

// Gives the group at a place a place, and answers whether it had none before.
fn is_marked(places: &mut [Option<usize>], at: usize) -> bool {
    match places.get_mut(at) {
        Some(place) => {
            let is_new = place.is_none();
            *place = Some(at);
            is_new
        }
        None => false,
    }
}

// The new place of the group at a place.
fn place_in(places: &[Option<usize>], place: Option<usize>) -> Option<usize> {
    match place {
        Some(at) => match places.get(at) {
            Some(found) => *found,
            None => None,
        },
        None => None,
    }
}

// Puts the plan of a closed group before those of the groups after it.
fn put_plan(
    alloc: Global,
    profile: &Profile,
    closed: &Closed,
    plans: &mut VecDeque<Plan>,
) -> Result<(), AllocError>
    requires { ArePlans profile.now plans.old.items }
    ensures { OnOk result (ArePlans profile.now plans.new.items) }
{
    if let Some(unit) = copied(alloc, profile, &closed.unit)? {
        plans.push_front(Plan {
            at: closed.at,
            give_ups: closed.give_ups,
            unit,
        })?;
    }
    Ok(())
}

/// The roles of the entries, with the acknowledgements that the source hears, their entries last first.
pub(crate) fn with_heard(
    alloc: Global,
    roles: &[Role],
    mut heard: Vec<usize>,
) -> Result<Vec<Role>, AllocError>
    ensures { IfOk result (λ found. length found.items ≡ length roles.now) }
{
    let mut found = Vec::with_capacity(alloc, roles.len())?;
    let mut next = heard.pop();
    for at in 0..roles.len() {
        let is_heard = next == Some(at);
        if is_heard {
            next = heard.pop();
        }
        found.push(answered(roles[at], is_heard))?;
    }
    Ok(found)
}

// The same role, of an acknowledgement with whether the source hears it.
fn answered(role: Role, is_heard: bool) -> Role {
    match role {
        Role::Acknowledged { .. } => Role::Acknowledged {
            ends_group: is_heard,
        },
        role => role,
    }
}
