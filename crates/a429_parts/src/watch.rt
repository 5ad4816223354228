//! Where a recording may be cut, found word by word.

ghost use Rattle.std.specs.Prelude.{◌≡◌, ◌↔◌, ◌+◌, ◌<◌, ◌^◌, IsTrue, Some, None, option_map};
ghost use Rattle.a429_ldu.specs.Form.{form_of};
ghost use Rattle.a429_link.specs.Observer.{at_first};
ghost use Rattle.a429_parts.specs.Cutting.{IsRequest};
ghost use Rattle.a429_parts.specs.Watch.{FollowsWord, SeesWord, Settles, TakesWord, doubt_crossed, doubt_lost, doubt_refused, place_of};

use crate::doubt::{Doubt, Outcome};
use crate::follower::{Follower, Refused};
use a429_ldu::{Form, Sight, form, form_if_full};
use a429_link::{Seen, UnitNumber};
use a429_profile::Profile;
use a429_word::Bus;
use std::alloc::Global;
use std::marker::Model;

/// Where the recording may be cut, by the words so far.
#[derive(Drop)]
pub(crate) struct Watch {
    alloc: Global,
    count: usize,
    follower: Follower,
    // A word was refused, and the sink has not begun anew since.
    is_lost: bool,
    doubt: Option<Doubt>,
}

impl Model for Watch {
    ghost use Rattle.std.specs.Prelude.{Some, None, if◌then◌else◌};
    ghost use Rattle.a429_parts.specs.Watch.{Watched};

    ghost Value = { Watched };

    ghost view = { λ w. record { count = w.count; observer = if w.is_lost then None else Some w.follower; doubt = w.doubt } };
}

impl Watch {
    /// No word has come.
    pub(crate) fn new(alloc: Global) -> Watch
        ensures { result ≡ record { count = 0; observer = Some at_first; doubt = None } }
    {
        Watch {
            alloc,
            count: 0,
            follower: Follower::new(alloc),
            is_lost: false,
            doubt: None,
        }
    }

    /// How many words have come.
    pub(crate) fn count(&self) -> usize
        ensures { result ≡ self.now.count }
    {
        self.count
    }

    /// The place in doubt, counted in the words before it.
    pub(crate) fn place_in_doubt(&self) -> Option<usize>
        ensures { result ≡ option_map place_of self.now.doubt }
    {
        match self.doubt {
            Some(doubt) => Some(doubt.place()),
            None => None,
        }
    }

    /// Takes the next word, and answers the place to cut that it makes certain, counted in the words before it.
    #[inline(always)]
    pub(crate) fn take(&mut self, profile: &Profile, seen: &Seen) -> Option<usize>
        requires room { self.old.count + 1 < 2 ^ 64 }
        ensures counts { self.new.count ≡ self.old.count + 1 }
        ensures takes { TakesWord profile.now seen.now self.old self.new result }
    {
        let place = self.see(profile, seen);
        self.count += 1;
        place
    }

    // The same, and the word is not counted yet. Full data words are looked for first, since most words of a recording are
    // such: the code that follows is made for them alone then.
    #[inline(always)]
    fn see(&mut self, profile: &Profile, seen: &Seen) -> Option<usize>
        requires room { self.old.count + 1 < 2 ^ 64 }
        ensures counts { self.new.count ≡ self.old.count }
        ensures sees { SeesWord profile.now seen.now self.old self.new result }
    {
        match form_if_full(profile, seen.bus, seen.word) {
            Some(form) => self.see_form(profile, seen, &form),
            None => self.see_any(profile, seen),
        }
    }

    // The same of any word.
    #[inline(never)]
    fn see_any(&mut self, profile: &Profile, seen: &Seen) -> Option<usize>
        requires room { self.old.count + 1 < 2 ^ 64 }
        ensures counts { self.new.count ≡ self.old.count }
        ensures sees { SeesWord profile.now seen.now self.old self.new result }
    {
        match form(profile, seen.bus, seen.word) {
            Sight::Free => None,
            Sight::NoForm => {
                self.refuse();
                None
            }
            Sight::Form(form) => self.see_form(profile, seen, &form),
        }
    }

    // The same of a word that has this form.
    #[inline(always)]
    fn see_form(&mut self, profile: &Profile, seen: &Seen, form: &Form) -> Option<usize>
        requires form { form_of profile.now.codes seen.now.bus seen.now.word ≡ Some form.now }
        requires room { self.old.count + 1 < 2 ^ 64 }
        ensures counts { self.new.count ≡ self.old.count }
        ensures sees { SeesWord profile.now seen.now self.old self.new result }
    {
        let place = self.settle(profile, form);
        self.follow(profile, seen, form);
        place
    }

    // A word that no run records comes.
    fn refuse(&mut self)
        ensures { self.new ≡ record { count = self.old.count; observer = None; doubt = doubt_refused self.old.observer self.old.doubt } }
    {
        if !self.is_lost {
            self.lose();
        }
    }

    // The place in doubt that a word of this form makes certain. A place that it rules out is forgotten.
    #[inline(always)]
    fn settle(&mut self, profile: &Profile, form: &Form) -> Option<usize>
        ensures counts { self.new.count ≡ self.old.count }
        ensures settles { Settles profile.now.codes (Some form.now) self.old self.new result }
    {
        let Some(doubt) = self.doubt else {
            return None;
        };
        match doubt.outcome(profile, form) {
            Outcome::Open => None,
            Outcome::IsPlace => {
                self.doubt = None;
                Some(doubt.place())
            }
            Outcome::IsNone => {
                self.doubt = None;
                if doubt.is_anew() {
                    self.is_lost = true;
                    return None;
                }
                None
            }
        }
    }

    // Follows the next word, which has this form.
    #[inline(always)]
    fn follow(&mut self, profile: &Profile, seen: &Seen, form: &Form)
        requires form { form_of profile.now.codes seen.now.bus seen.now.word ≡ Some form.now }
        requires room { self.old.count + 1 < 2 ^ 64 }
        ensures counts { self.new.count ≡ self.old.count }
        ensures follows { FollowsWord profile.now seen.now self.old self.new }
    {
        if self.is_lost {
            if is_request(seen, form) {
                self.begin(profile, seen, form);
            }
            return;
        }
        match self.follower.see(profile, seen, form) {
            Ok(Some(unit)) => self.cross(unit),
            Ok(None) => {}
            Err(Refused) => self.lose(),
        }
    }

    // A file has crossed by an acknowledgement of this number.
    fn cross(&mut self, unit: UnitNumber)
        requires room { self.old.count + 1 < 2 ^ 64 }
        ensures { self.new ≡ record { count = self.old.count; observer = self.old.observer; doubt = doubt_crossed (self.old.count + 1) unit self.old.doubt } }
    {
        if let Some(Doubt::Anew { .. }) = self.doubt {
            return;
        }
        let place = self.count + 1;
        self.doubt = Some(Doubt::AfterUnit { place, unit });
    }

    // A word was refused.
    fn lose(&mut self)
        ensures { self.new ≡ record { count = self.old.count; observer = None; doubt = doubt_lost self.old.doubt } }
    {
        self.is_lost = true;
        if let Some(Doubt::AfterUnit { .. }) = self.doubt {
            self.doubt = None;
        }
    }

    // A request, which may begin the sink anew.
    #[inline(never)]
    fn begin(&mut self, profile: &Profile, seen: &Seen, form: &Form)
        requires form { form_of profile.now.codes seen.now.bus seen.now.word ≡ Some form.now }
        requires request { IsRequest seen.now.bus (Some form.now) }
        requires lost { self.old.observer ≡ None }
        ensures counts { self.new.count ≡ self.old.count }
        ensures follows { FollowsWord profile.now seen.now self.old self.new }
    {
        self.follower = Follower::new(self.alloc);
        let _ = self.follower.see(profile, seen, form);
        self.is_lost = false;
        self.doubt = Some(Doubt::Anew { place: self.count });
    }
}

// Whether a word of this form is a request.
fn is_request(seen: &Seen, form: &Form) -> bool
    ensures { IsTrue result ↔ IsRequest seen.now.bus (Some form.now) }
{
    seen.bus == Bus::A && matches!(form, Form::Rts { .. })
}
