//! The link data unit of a group.

ghost use Rattle.std.specs.Prelude.{◌≡◌, ◌≤◌, ℕ, Some, Err, IfOk, IfErr, IfSome, length};
ghost use Rattle.a429_ldu.specs.Ldu.{LduValue};
ghost use Rattle.a429_explain.specs.declared.verdict.Doubt.TheVariants as doubt;
ghost use Rattle.a429_explain.specs.Stop.{IsDoubtAt, IsStop};
ghost use Rattle.a429_explain.specs.Attempts.{roles as roles_of};
ghost use Rattle.a429_explain.specs.Decoded.{HeardValue, forms_of};
ghost use Rattle.a429_explain.specs.Whole.{IsRequestOf};
ghost use Rattle.a429_explain.specs.Block.{other_for, IsUnitFor, IsWhyNoUnit, IsMatchedUnit, IsStopIn, HasCrossed};

use crate::attempts::Role;
use crate::decoded::Decoded;
use crate::filled::filled_unit;
use crate::groups::{Request, asked};
use crate::matching::first_unmatched;
use crate::stop::Stop;
use crate::verdict::Doubt;
use crate::whole::whole_unit;
use a429_ldu::Ldu;
use a429_link::UnitNumber;
use std::alloc::Global;

/// The link data unit of a group, whose words are some of its block under these numbers; or the group's first doubt.
pub(crate) fn matched_unit(
    alloc: Global,
    decoded: &Decoded,
    roles: &[Role],
    request: Request,
    place: UnitNumber,
) -> Result<Ldu, Stop>
    requires roles { roles.now ≡ roles_of (forms_of decoded.now.profile.codes decoded.now.items) }
    requires request { IsRequestOf decoded.now request }
    ensures unit { IfOk result (λ u. IsMatchedUnit decoded.now request place u) }
    ensures fits { IfErr result (λ s. IsStop decoded.now.profile.codes decoded.now.items s) }
    ensures first { IfErr result (λ s. IsStopIn decoded.now request place s) }
    ensures other { (i : ℕ) → other_for decoded.now request ≡ Some i → result ≡ Err (Stop.Unexplained i doubt.NotOneBlock) }
    ensures crossed { (u : LduValue) → HasCrossed decoded.now request place u → IfOk result (λ v. v ≡ u) }
    ensures crossed_err { (u : LduValue) → HasCrossed decoded.now request place u → IfErr result (λ s. s ≡ Stop.OutOfMemory) }
{
    // (for the proof: the profile is sound)
    let _profile = decoded.profile();
    let unit = match unit_of(alloc, decoded, roles, request) {
        Ok(unit) => unit,
        Err(stop) => return Err(stop),
    };
    match first_unmatched(decoded, roles, request.group, &unit, place) {
        Some(entry) => {
            let doubt = Doubt::NotOneBlock;
            Err(Stop::Unexplained { entry, doubt })
        }
        None => Ok(unit),
    }
}

// The link data unit of a group whose first request asks for so many words: that of its first whole attempt. Where
// there is none, and no end word was recorded, it is made of the data words of the last attempt that recorded any,
// and of filler words after them.
fn unit_of(alloc: Global, decoded: &Decoded, roles: &[Role], request: Request) -> Result<Ldu, Stop>
    requires roles { roles.now ≡ roles_of (forms_of decoded.now.profile.codes decoded.now.items) }
    requires request { IsRequestOf decoded.now request }
    ensures ok { IfOk result (λ u. IsUnitFor decoded.now request u) }
    ensures err { IfErr result (λ s. IsWhyNoUnit decoded.now request s × IsStop decoded.now.profile.codes decoded.now.items s) }
{
    if let Some(entry) = other_request(roles, request) {
        let doubt = Doubt::NotOneBlock;
        return Err(Stop::Unexplained { entry, doubt });
    }
    let Ok(whole) = whole_unit(alloc, decoded, roles, request) else {
        return Err(Stop::OutOfMemory);
    };
    if let Some(unit) = whole {
        return Ok(unit);
    }
    let Ok(filled) = filled_unit(alloc, decoded, request) else {
        return Err(Stop::OutOfMemory);
    };
    match filled {
        Some(unit) => Ok(unit),
        None => Err(Stop::Unexplained {
            entry: request.group.from,
            doubt: Doubt::NeverWhole,
        }),
    }
}

// The first request of a group that asks for another number of words than its first one.
fn other_request(roles: &[Role], request: Request) -> Option<usize>
    requires { request.group.to ≤ length roles.now }
    ensures first { (h : HeardValue) → roles.now ≡ roles_of (forms_of h.profile.codes h.items) → result ≡ other_for h request }
    ensures fits { (h : HeardValue) → roles.now ≡ roles_of (forms_of h.profile.codes h.items)
        → IfSome result (λ i. IsDoubtAt h.profile.codes h.items i doubt.NotOneBlock) }
{
    for at in request.group.from..request.group.to {
        if let Some(count) = asked(roles[at]) {
            if count != request.count {
                return Some(at);
            }
        }
    }
    None
}
