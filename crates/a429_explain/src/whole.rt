//! The first whole attempt of a group.

ghost use Rattle.std.specs.Prelude.{◌≡◌, ◌≤◌, IfOk, IfSome, OnOk, length};
ghost use Rattle.a429_ldu.specs.Form.{IsInRange};
ghost use Rattle.a429_ldu.specs.Ldu.{IsLdu, count_of};
ghost use Rattle.a429_explain.specs.Attempts.{roles as roles_of};
ghost use Rattle.a429_explain.specs.Decoded.{forms_of};
ghost use Rattle.a429_explain.specs.Whole.{nothing_yet, gathered_with, is_of_attempt, unit_made, ended_by, first_whole, words_for};

use crate::attempts::Role;
use crate::decoded::{Decoded, DecodedWord};
use crate::groups::Request;
use a429_ldu::{Form, Ldu, LduFault};
use a429_profile::Profile;
use a429_word::Word;
use std::alloc::{AllocError, Global};
use std::marker::Model;

/// The link data unit of the first whole attempt of a group whose requests ask for so many words; `None` where no attempt
/// is whole.
pub(crate) fn whole_unit(
    alloc: Global,
    decoded: &Decoded,
    roles: &[Role],
    request: Request,
) -> Result<Option<Ldu>, AllocError>
    requires roles { roles.now ≡ roles_of (forms_of decoded.now.profile.codes decoded.now.items) }
    requires inside { request.group.to ≤ length decoded.now.items }
    ensures first { IfOk result (λ found. found ≡ first_whole decoded.now.profile request.count (words_for decoded.now request) nothing_yet) }
    ensures unit { IfOk result (λ found. IfSome found (λ u. IsLdu decoded.now.profile u)) }
    ensures count { IfOk result (λ found. IfSome found (λ u. count_of u ≡ request.count)) }
{
    let profile = decoded.profile();
    let mut attempt = Attempt::new(alloc);
    for at in request.group.from..request.group.to {
        if !is_of_attempt(roles[at]) {
            continue;
        }
        let word = decoded.word(at);
        match attempt.ended_by(alloc, profile, &word.form, request.count) {
            Ok(Some(unit)) => return Ok(Some(unit)),
            Ok(None) => {}
            Err(error) => return Err(error),
        }
        attempt.take(word)?;
    }
    Ok(None)
}

// A word of this role is a request or a word of a block.
fn is_of_attempt(role: Role) -> bool
    ensures { result ≡ is_of_attempt role }
{
    matches!(role, Role::Request { .. } | Role::OfBlock)
}

// What an attempt has recorded: the general format identifier of its start word, and its data words.
#[derive(Drop)]
struct Attempt {
    start: Option<u8>,
    words: Vec<Word>,
}

impl Model for Attempt {
    ghost use Rattle.std.specs.Prelude.{◌≤◌, IfSome};
    ghost use Rattle.a429_explain.specs.Whole.{Recorded};

    ghost Value = { Recorded };

    ghost view = { λ a. record { start = a.start; words = a.words.items } };

    ghost invariant = { λ a. IfSome a.start (λ gfi. gfi ≤ 15) };
}

impl Attempt {
    fn new(alloc: Global) -> Attempt
        ensures { result ≡ nothing_yet }
    {
        Attempt {
            start: None,
            words: Vec::new(alloc),
        }
    }

    // Takes one more word.
    fn take(&mut self, decoded: DecodedWord) -> Result<(), AllocError>
        requires { IfSome decoded.form IsInRange }
        ensures { OnOk result (self.new ≡ gathered_with decoded.form decoded.word self.old) }
    {
        match decoded.form {
            Some(Form::Rts { .. }) => {
                self.start = None;
                self.words.clear();
            }
            Some(Form::Sot { gfi, .. }) => self.start = Some(gfi),
            Some(Form::Part(_)) => self.words.push(decoded.word)?,
            _ => {}
        }
        Ok(())
    }

    // The link data unit that a word of this form ends, with the words before it.
    fn ended_by(
        &self,
        alloc: Global,
        profile: &Profile,
        form: &Option<Form>,
        count: u8,
    ) -> Result<Option<Ldu>, AllocError>
        requires { IfSome form.now IsInRange }
        ensures made { IfOk result (λ found. found ≡ ended_by profile.now count form.now self.now) }
        ensures unit { IfOk result (λ found. IfSome found (λ u. IsLdu profile.now u)) }
        ensures count { IfOk result (λ found. IfSome found (λ u. count_of u ≡ count)) }
    {
        match *form {
            Some(Form::Eot { flags, check }) => {
                let ends = Ends {
                    start: self.start,
                    flags,
                    check,
                };
                unit_with(alloc, profile, ends, self.words.as_slice(), count)
            }
            _ => Ok(None),
        }
    }
}

/// The general format identifier of the start word, where there is one, and flags and check word of the end word.
#[derive(Clone, Copy)]
pub(crate) struct Ends {
    pub start: Option<u8>,
    pub flags: u8,
    pub check: u16,
}

/// The link data unit that a start word, data words and an end word make, where the request asks for as many words;
/// `None` where they make none. The error is out of memory.
pub(crate) fn unit_with(
    alloc: Global,
    profile: &Profile,
    ends: Ends,
    words: &[Word],
    count: u8,
) -> Result<Option<Ldu>, AllocError>
    requires start { IfSome ends.start (λ gfi. gfi ≤ 15) }
    requires flags { ends.flags ≤ 15 }
    ensures made { IfOk result (λ found. found ≡ unit_made profile.now count ends words.now) }
    ensures unit { IfOk result (λ found. IfSome found (λ u. IsLdu profile.now u)) }
    ensures count { IfOk result (λ found. IfSome found (λ u. count_of u ≡ count)) }
{
    // (for the proof: the profile is sound)
    let _codes = profile.codes();
    let Some(gfi) = ends.start else {
        return Ok(None);
    };
    if words.len() + 2 != usize::from(count) {
        return Ok(None);
    }
    match Ldu::new(alloc, profile, gfi, ends.flags, ends.check, words) {
        Ok(unit) => Ok(Some(unit)),
        Err(fault) if fault == LduFault::OutOfMemory => Err(AllocError),
        Err(_) => Ok(None),
    }
}
