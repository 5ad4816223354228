//! An observer that also says by which acknowledgement a file crosses.

ghost use Rattle.std.specs.Prelude.{◌≡◌, ◌↔◌, IsOk, IfOk, OnOk, OnErr, Some, None};
ghost use Rattle.a429_ldu.specs.Form.{form_of};
ghost use Rattle.a429_link.specs.Observer.{Allows, at_first, sees};
ghost use Rattle.a429_parts.specs.Cutting.{crossing};

use a429_ldu::Form;
use a429_link::{Observer, Seen, UnitNumber, is_final};
use a429_profile::Profile;
use std::alloc::Global;
use std::marker::Model;

/// The words before this one do not allow it: no run records it after them.
#[derive(Clone, Copy)]
pub(crate) struct Refused;

/// An observer that remembers what it has to know of the last end word and of the last acknowledgement.
#[derive(Drop)]
pub(crate) struct Follower {
    observer: Observer,
    // The number of the link data unit that was accepted last.
    last: Option<UnitNumber>,
    // The flags of the last end word.
    flags: u8,
}

impl Model for Follower {
    ghost use Rattle.a429_link.specs.Observer as model;
    ghost use Rattle.a429_parts.specs.Follower.{Remembers};

    ghost Value = { model.Observer };

    ghost view = { λ f. f.observer };

    ghost invariant = { λ f. Remembers f.last f.flags f.observer };
}

impl Follower {
    /// That of a recording at its start.
    pub(crate) fn new(alloc: Global) -> Follower
        ensures { result ≡ at_first }
    {
        Follower {
            observer: Observer::new(alloc),
            last: None,
            flags: 0,
        }
    }

    /// Takes the next recorded word, which has this form, where the words before it allow it, and answers the number of an
    /// acknowledgement by which a file crosses.
    #[inline(always)]
    pub(crate) fn see(
        &mut self,
        profile: &Profile,
        seen: &Seen,
        form: &Form,
    ) -> Result<Option<UnitNumber>, Refused>
        requires form { form_of profile.now.codes seen.now.bus seen.now.word ≡ Some form.now }
        ensures allowed { IsOk result ↔ Allows profile.now self.old seen.now }
        ensures taken { OnOk result (self.new ≡ sees profile.now seen.now self.old) }
        ensures crossed { IfOk result (λ n. n ≡ crossing profile.now self.old seen.now) }
    {
        if !self.observer.see_form(profile, seen.bus, seen.word, form) {
            return Err(Refused);
        }
        match *form {
            Form::Eot { flags, .. } => {
                self.flags = flags;
                Ok(None)
            }
            Form::Ack { file, ldu } => {
                let number = UnitNumber {
                    file,
                    ldu: u16::from(ldu),
                };
                let crosses = self.last != Some(number) && is_final(profile, self.flags);
                self.last = Some(number);
                Ok(if crosses { Some(number) } else { None })
            }
            _ => Ok(None),
        }
    }
}
