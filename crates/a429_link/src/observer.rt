//! The observer of a recording.

ghost use Rattle.std.specs.Prelude.{◌≡◌, ◌↔◌, false, Some, IsTrue, IsOk, IfOk, IfErr, OnOk, OnErr};
ghost use Rattle.a429_ldu.specs.Sight.{sight_of};
ghost use Rattle.a429_link.specs.Observer as model;
ghost use Rattle.a429_link.specs.Observer.{at_first, sees, sees_form, Allows, AllowsForm};
ghost use Rattle.a429_link.specs.WholeBlock.{ComesForm, EndsBadForm};

use crate::implied::ImpliedSink;
use crate::seen::Seen;
use a429_ldu::{Form, Sight, form};
use a429_profile::Profile;
use a429_word::{Bus, Word};
use std::alloc::Global;
use std::marker::Model;

/// A sink that takes each recorded word of bus A, and gives each recorded answer of bus B, at the moment
/// it is recorded. It says which words a recording can go on with. It keeps the block that it is in, and
/// no files.
#[derive(Drop)]
pub struct Observer {
    sink: ImpliedSink,
}

impl Model for Observer {
    ghost use Rattle.std.specs.Prelude.{◌≡◌};
    ghost use Rattle.a429_link.specs.Observer as model;
    ghost use Rattle.a429_link.specs.Sink.{nothing_received};
    ghost use Rattle.a429_link.specs.Implied.{observer_of};

    ghost Value = { model.Observer };

    ghost view = { λ o. observer_of o.sink };

    ghost invariant = { λ o. o.sink.sink.received ≡ nothing_received };
}

impl Observer {
    /// The observer of a recording at its start.
    pub fn new(alloc: Global) -> Observer
        ensures { result ≡ at_first }
    {
        Observer {
            sink: ImpliedSink::new(alloc),
        }
    }

    /// Takes the next recorded word where the words before it allow it, and answers what it is. Where they do
    /// not, the error is what it is, and the observer is unchanged: no run records this word after those.
    pub fn see(&mut self, profile: &Profile, seen: Seen) -> Result<Sight, Sight>
        ensures allowed { IsOk result ↔ Allows profile.now self.old seen }
        ensures taken { OnOk result (self.new ≡ sees profile.now seen self.old) }
        ensures unchanged { OnErr result (self.new ≡ self.old) }
        ensures ok { IfOk result (λ sight. sight ≡ sight_of profile.now.codes seen.bus seen.word) }
        ensures err { IfErr result (λ sight. sight ≡ sight_of profile.now.codes seen.bus seen.word) }
    {
        let sight = form(profile, seen.bus, seen.word);
        match &sight {
            Sight::Free => Ok(sight),
            Sight::NoForm => Err(sight),
            Sight::Form(form) => {
                if self.see_form(profile, seen.bus, seen.word, form) {
                    Ok(sight)
                } else {
                    Err(sight)
                }
            }
        }
    }

    /// Takes the next recorded word, of which the caller knows that it is not free and has this form, where the words
    /// before it allow it. It answers whether they do; where they do not, the observer is unchanged.
    #[inline(always)]
    pub fn see_form(&mut self, profile: &Profile, bus: Bus, word: Word, form: &Form) -> bool
        ensures allowed { IsTrue result ↔ AllowsForm self.old bus (Some form.now) }
        ensures taken { IsTrue result → self.new ≡ sees_form profile.now bus word (Some form.now) self.old }
        ensures unchanged { result ≡ false → self.new ≡ self.old }
    {
        if !self.sink.allows(bus, form) {
            return false;
        }
        self.take(profile, bus, word, form);
        true
    }

    /// A word of this form ends a block that was recorded whole, and makes no link data unit of it.
    pub fn ends_bad(&self, profile: &Profile, bus: Bus, form: &Form) -> bool
        ensures { IsTrue result ↔ EndsBadForm profile.now bus (Some form.now) self.now.phase self.now.count }
    {
        self.sink.ends_bad(profile, bus, form)
    }

    /// If a word of this form is a start word, its number is that of the link data unit accepted last, or in sequence with it, or,
    /// where none was accepted, the number of a file's first.
    pub fn number_comes(&self, profile: &Profile, bus: Bus, form: &Form) -> bool
        ensures { IsTrue result ↔ ComesForm profile.now.codes bus (Some form.now) self.now.last }
    {
        self.sink.number_comes(profile, bus, form)
    }

    #[inline(always)]
    fn take(&mut self, profile: &Profile, bus: Bus, word: Word, form: &Form)
        requires { AllowsForm self.old bus (Some form.now) }
        ensures { self.new ≡ sees_form profile.now bus word (Some form.now) self.old }
    {
        match bus {
            Bus::A => {
                self.sink.take_word(profile, word, form);
            }
            Bus::B => self.sink.take_unfiled(profile, form),
        }
    }
}
