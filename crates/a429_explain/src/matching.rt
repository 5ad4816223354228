//! The words of a group, held against the block of its link data unit.

ghost use Rattle.std.specs.Prelude.{◌≡◌, ◌<◌, ◌≤◌, ◌-◌, ◌+◌, None, IfSome, length, slice_range};
ghost use Rattle.a429_ldu.specs.Ldu.{count_of};
ghost use Rattle.a429_explain.specs.Attempts.{roles as roles_of};
ghost use Rattle.a429_explain.specs.Decoded.{forms_of};
ghost use Rattle.a429_explain.specs.Matching.{is_word, passed_with, passing_by, AreMatched};
ghost use Rattle.a429_explain.specs.declared.verdict.Doubt.TheVariants as doubt;
ghost use Rattle.a429_explain.specs.Stop.{IsDoubtAt};

use crate::attempts::Role;
use crate::decoded::Decoded;
use crate::groups::Group;
use a429_ldu::Ldu;
use a429_link::UnitNumber;
use a429_profile::Profile;
use a429_word::Word;

/// The first start, data or end word of a group that is not matched with a word of this link data unit's block: in each
/// attempt the recorded words have to be some of the block, in their order.
pub(crate) fn first_unmatched(
    decoded: &Decoded,
    roles: &[Role],
    group: Group,
    unit: &Ldu,
    place: UnitNumber,
) -> Option<usize>
    requires roles { roles.now ≡ roles_of (forms_of decoded.now.profile.codes decoded.now.items) }
    requires some { group.from ≤ group.to }
    requires inside { group.to ≤ length decoded.now.items }
    ensures fits { IfSome result (λ i. IsDoubtAt decoded.now.profile.codes decoded.now.items i doubt.NotOneBlock) }
    ensures within { IfSome result (λ i. i < group.to) }
    ensures none { result ≡ None → AreMatched decoded.now.profile.codes unit.now place (slice_range decoded.now.items group.from group.to) }
    ensures before { IfSome result (λ i. AreMatched decoded.now.profile.codes unit.now place (slice_range decoded.now.items group.from i)) }
    ensures unmatched { IfSome result (λ i. ¬ AreMatched decoded.now.profile.codes unit.now place
        (slice_range decoded.now.items group.from (i + 1))) }
{
    let profile = decoded.profile();
    let mut passed = 0;
    for at in group.from..group.to {
        let word = decoded.seen(at).word;
        match passing(profile, unit, place, passed, roles[at], word) {
            Some(more) => passed = more,
            None => return Some(at),
        }
    }
    None
}

// How many words of the block are passed with this word, which has this role, where `passed` are passed before it; none where it
// is not matched.
fn passing(
    profile: &Profile,
    unit: &Ldu,
    place: UnitNumber,
    passed: u8,
    role: Role,
    word: Word,
) -> Option<u8>
    requires { passed ≤ count_of unit.now }
    ensures passed { result ≡ passing_by role (passed_with (is_word profile.now.codes unit.now place word) passed (count_of unit.now - passed)) passed }
    ensures inside { IfSome result (λ more. more ≤ count_of unit.now) }
    ensures fits { result ≡ None → role ≡ Role.OfBlock }
{
    match role {
        Role::Request { .. } => Some(0),
        Role::OfBlock => passed_with(profile, unit, place, passed, word),
        Role::Clear { .. } | Role::Acknowledged { .. } | Role::Refused => Some(passed),
        Role::Free => Some(passed),
    }
}

// How many words of the block are passed with a word of a block, where so many are passed before it.
fn passed_with(
    profile: &Profile,
    unit: &Ldu,
    place: UnitNumber,
    passed: u8,
    word: Word,
) -> Option<u8>
    requires { passed ≤ count_of unit.now }
    ensures place { result ≡ passed_with (is_word profile.now.codes unit.now place word) passed (count_of unit.now - passed) }
    ensures inside { IfSome result (λ more. more ≤ count_of unit.now) }
{
    for k in passed..unit.count() {
        if is_word(profile, unit, place, k, word) {
            return Some(k + 1);
        }
    }
    None
}

// The word is word k of the block.
fn is_word(profile: &Profile, unit: &Ldu, place: UnitNumber, k: u8, word: Word) -> bool
    requires { k < count_of unit.now }
    ensures { result ≡ is_word profile.now.codes unit.now place word k }
{
    let ldu = (place.ldu % 256) as u8;
    (place.ldu <= 255 || k != 0) && word == unit.word(profile, k, place.file, ldu)
}
