//! The plans of a recording's groups, each made where its group begins.

ghost use Rattle.std.specs.Prelude.{◌≡◌, ◌<◌, ◌≤◌, IfOk, IfErr, OnOk, length};
ghost use Rattle.a429_link.specs.Number.{first_number};
ghost use Rattle.a429_cert.specs.Change.{change};
ghost use Rattle.a429_explain.specs.Attempts.{roles as roles_of};
ghost use Rattle.a429_explain.specs.Decoded.{forms_of};
ghost use Rattle.a429_explain.specs.Groups.{group_from};
ghost use Rattle.a429_explain.specs.Planner.{with_roles, PlansAt, PlansGroup, StopsAt};
ghost use Rattle.a429_explain.specs.Stop.{IsStop};
ghost use Rattle.a429_explain.specs.Whole.{IsRequestOf};

use crate::attempts::Role;
use crate::block::matched_unit;
use crate::decoded::Decoded;
use crate::groups::{Request, asked, group_at, group_start, is_settled};
use crate::plan::{Plan, give_ups_from, place_after, place_from};
use crate::stop::Stop;
use a429_link::UnitNumber;
use a429_profile::Profile;
use std::alloc::Global;

/// How far the groups of a recording are planned. It keeps no plan.
#[derive(Clone, Copy)]
pub(crate) struct Planner {
    // The numbers with which the source comes to the next group.
    place: UnitNumber,
    // The entry from which on that group is looked for.
    next: usize,
}

impl Planner {
    /// Before the first group: the source begins with the first link data unit of this file.
    pub(crate) fn new(profile: &Profile, first_file: u8) -> Planner
        ensures { result ≡ record { place = first_number profile.now.codes first_file; next = 0 } }
    {
        Planner {
            place: UnitNumber::first(profile, first_file),
            next: 0,
        }
    }

    /// What the source does before this entry, if a group begins there, or the first doubt of that group. It is called at each entry,
    /// in their order. Of a recording without loss the source gives nothing up, and loads the link data units that crossed.
    #[inline(always)]
    pub(crate) fn plan_at(
        &mut self,
        alloc: Global,
        decoded: &Decoded,
        roles: &[Role],
        at: usize,
    ) -> Result<Option<Plan>, Stop>
        requires roles { roles.now ≡ roles_of (forms_of decoded.now.profile.codes decoded.now.items) }
        requires inside { at < length decoded.now.items }
        ensures planned { IfOk result (λ plan. PlansAt (with_roles decoded.now) at plan (change self.old self.new)) }
        ensures past { OnOk result (at < self.new.next) }
        ensures stopped { IfErr result (StopsAt (with_roles decoded.now) at self.old) }
        ensures fits { IfErr result (IsStop decoded.now.profile.codes decoded.now.items) }
    {
        // (for the proof: the entry after this one has a number)
        let _length = decoded.len();
        if at < self.next {
            return Ok(None);
        }
        let Some(count) = asked(roles[at]) else {
            self.next = at + 1;
            return Ok(None);
        };
        let group = group_at(roles, at);
        match self.plan_group(alloc, decoded, roles, Request { group, count }) {
            Ok(plan) => Ok(Some(plan)),
            Err(stop) => Err(stop),
        }
    }

    // The plan of this group, or its first doubt. Never inlined: `plan_at` is called at each entry, and has few locals without it.
    #[inline(never)]
    fn plan_group(
        &mut self,
        alloc: Global,
        decoded: &Decoded,
        roles: &[Role],
        request: Request,
    ) -> Result<Plan, Stop>
        requires roles { roles.now ≡ roles_of (forms_of decoded.now.profile.codes decoded.now.items) }
        requires request { IsRequestOf decoded.now request }
        requires group { request.group ≡ group_from roles.now request.group.from }
        requires follows { self.old.next ≤ request.group.from }
        ensures planned { IfOk result (λ plan. PlansGroup (with_roles decoded.now) request.group.from plan (change self.old self.new)) }
        ensures next { OnOk result (self.new.next ≡ request.group.to) }
        ensures stopped { IfErr result (StopsAt (with_roles decoded.now) request.group.from self.old) }
        ensures fits { IfErr result (IsStop decoded.now.profile.codes decoded.now.items) }
    {
        let profile = decoded.profile();
        let group = request.group;
        let start = group_start(roles, group);
        let give_ups = give_ups_from(self.place, start);
        let numbers = place_from(profile, self.place, start);
        let unit = match matched_unit(alloc, decoded, roles, request, numbers) {
            Ok(unit) => unit,
            Err(stop) => return Err(stop),
        };
        self.place = place_after(profile, numbers, &unit, is_settled(roles, group));
        self.next = group.to;
        Ok(Plan {
            at: group.from,
            give_ups,
            unit,
        })
    }
}
