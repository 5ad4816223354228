//! The first word of a recording that contradicts those before it.

ghost use Rattle.std.specs.Prelude.{◌≡◌, ◌↔◌, [], Ok, Some, None, IfOk, IfSome, IsTrue, OnOk, length};
ghost use Rattle.a429_explain.specs.Walk.{AreAllowedUpTo};
ghost use Rattle.a429_ldu.specs.Form.{form_of};
ghost use Rattle.a429_link.specs.Observer.{at_first, sees, Allows};
ghost use Rattle.a429_link.specs.Contradiction.{none_so_far, so_far_after};
ghost use Rattle.a429_explain.specs.declared.verdict.Reason.{Reason};
ghost use Rattle.a429_link.specs.WholeBlock.{IsHalfForm, data_words};
ghost use Rattle.a429_contradiction.specs.SoFar.{data_after, unheard};
ghost use Rattle.a429_contradiction.specs.Contradiction.{Contradicts, HasNoContradiction, HasNoneBefore, HasNoRun, IsFirstContradiction};

use crate::data_words::DataWords;
use crate::laws::what_contradicts_has_no_run;
use crate::so_far::SoFar;
use a429_explain::{Decoded, Reason};
use a429_ldu::Form;
use a429_link::{Observer, Seen};
use a429_profile::Profile;
use a429_word::Bus;
use std::alloc::{AllocError, Global};

/// A word that contradicts those before it.
#[derive(Clone, Copy, Debug)]
pub struct Contradiction {
    /// Its entry, counted from 0.
    pub entry: usize,
    /// `BadBlock`, `WrongNumber` or `OtherBlock`.
    pub reason: Reason,
}

// What the words so far have shown: an observer that takes each of them, the link data unit whose start word came last, and the
// data words of the attempt.
#[derive(Drop)]
pub(crate) struct Witness {
    pub(crate) observer: Observer,
    pub(crate) so_far: SoFar,
    pub(crate) parts: DataWords,
}

/// The first word that contradicts those before it: no run records it after those. Where two reasons hold, it is the first
/// in the order `BadBlock`, `WrongNumber`, `OtherBlock`. `None` where none does. Each word is looked at once.
pub fn first_contradiction(
    alloc: Global,
    decoded: &Decoded,
) -> Result<Option<Contradiction>, AllocError>
    requires { AreAllowedUpTo decoded.now.profile decoded.now.items (length decoded.now.items) }
    ensures first { IfOk result (λ found. IfSome found (IsFirstContradiction decoded.now.profile decoded.now.items)) }
    ensures impossible { IfOk result (λ found. IfSome found (λ c. HasNoRun decoded.now.profile decoded.now.items c.entry)) }
    ensures none { result ≡ Ok None → HasNoContradiction decoded.now.profile decoded.now.items (length decoded.now.items) }
{
    what_contradicts_has_no_run();
    let profile = decoded.profile();
    let mut witness = Witness::new(alloc);
    for entry in 0..decoded.len() {
        let seen = decoded.seen(entry);
        let form = decoded.word(entry).form;
        if let Some(reason) = witness.look(profile, &seen, form)? {
            return Ok(Some(Contradiction { entry, reason }));
        }
    }
    Ok(None)
}

impl Witness {
    pub(crate) fn new(alloc: Global) -> Witness
        ensures observer { result.observer ≡ at_first }
        ensures so_far { result.so_far ≡ none_so_far }
        ensures parts { result.parts ≡ [] }
    {
        Witness {
            observer: Observer::new(alloc),
            so_far: SoFar::new(alloc),
            parts: DataWords::new(alloc),
        }
    }

    // Why the next word, which has this form or none, contradicts those before it; where it does not, the word is taken.
    pub(crate) fn look(
        &mut self,
        profile: &Profile,
        seen: &Seen,
        form: Option<Form>,
    ) -> Result<Option<Reason>, AllocError>
        requires form { form ≡ form_of profile.now.codes seen.now.bus seen.now.word }
        requires parts { self.old.parts ≡ data_words profile.now.codes self.old.so_far.attempt.words }
        ensures some { IfOk result (λ found. IfSome found (Contradicts profile.now self.old.observer self.old.so_far seen.now.bus seen.now.word form)) }
        ensures ranked { IfOk result (λ found. IfSome found (HasNoneBefore (Contradicts profile.now self.old.observer self.old.so_far seen.now.bus seen.now.word form))) }
        ensures none { result ≡ Ok None → (reason : Reason) → ¬ Contradicts profile.now self.old.observer self.old.so_far seen.now.bus seen.now.word form reason }
        ensures observer { result ≡ Ok None → Allows profile.now self.old.observer seen.now → self.new.observer ≡ sees profile.now seen.now self.old.observer }
        ensures so_far { result ≡ Ok None → unheard self.new.so_far ≡ unheard (so_far_after seen.now.bus seen.now.word form self.old.so_far) }
        ensures parts { result ≡ Ok None → self.new.parts ≡ data_after seen.now.bus seen.now.word form self.old.parts }
    {
        let Some(form) = form else {
            return Ok(None);
        };
        self.parts.take(*seen, &form)?;
        if let Some(reason) = self.reason(profile, seen, &form) {
            return Ok(Some(reason));
        }
        self.take(profile, seen, &form)?;
        Ok(None)
    }

    // Why a word of this form, whose data words are taken with it, contradicts those before it.
    fn reason(&self, profile: &Profile, seen: &Seen, form: &Form) -> Option<Reason>
        requires { self.now.parts ≡ data_after seen.now.bus seen.now.word (Some form.now) (data_words profile.now.codes self.now.so_far.attempt.words) }
        ensures some { IfSome result (Contradicts profile.now self.now.observer self.now.so_far seen.now.bus seen.now.word (Some form.now)) }
        ensures ranked { IfSome result (HasNoneBefore (Contradicts profile.now self.now.observer self.now.so_far seen.now.bus seen.now.word (Some form.now))) }
        ensures none { result ≡ None → (reason : Reason) → ¬ Contradicts profile.now self.now.observer self.now.so_far seen.now.bus seen.now.word (Some form.now) reason }
    {
        if self.observer.ends_bad(profile, seen.bus, form) || self.is_half(profile, seen, form) {
            return Some(Reason::BadBlock);
        }
        let comes = self.observer.number_comes(profile, seen.bus, form);
        if !comes || self.so_far.is_wrong(seen.bus, form) {
            return Some(Reason::WrongNumber);
        }
        if self.so_far.is_other(*seen, form) {
            return Some(Reason::OtherBlock);
        }
        None
    }

    // A word of this form is the last data word of a block, of which each data word is recorded, and they carry no bytes.
    fn is_half(&self, profile: &Profile, seen: &Seen, form: &Form) -> bool
        requires { self.now.parts ≡ data_after seen.now.bus seen.now.word (Some form.now) (data_words profile.now.codes self.now.so_far.attempt.words) }
        ensures { IsTrue result ↔ IsHalfForm profile.now.codes seen.now.bus seen.now.word (Some form.now) self.now.so_far.attempt }
    {
        match (seen.bus, *form) {
            (Bus::A, Form::Part(_)) => self.parts.are_half(profile, self.so_far.count()),
            _ => false,
        }
    }

    // Takes the next word, which has this form.
    fn take(&mut self, profile: &Profile, seen: &Seen, form: &Form) -> Result<(), AllocError>
        ensures observer { OnOk result (Allows profile.now self.old.observer seen.now → self.new.observer ≡ sees profile.now seen.now self.old.observer) }
        ensures so_far { OnOk result (unheard self.new.so_far ≡ unheard (so_far_after seen.now.bus seen.now.word (Some form.now) self.old.so_far)) }
        ensures parts { self.new.parts ≡ self.old.parts }
    {
        let _ = self.observer.see(profile, *seen);
        self.so_far.take(*seen, form)
    }
}
