//! To whom the steps of a certificate are reported, one after the other.

ghost use Rattle.std.specs.Prelude.{IsOk, false};

use crate::act::Act;
use a429_ldu::Ldu;
use a429_link::UnitNumber;
use a429_profile::Profile;
use a429_record::Entry;
use a429_word::{Failing, Trouble};

/// To whom the steps of a certificate are reported, each once its line is accepted. With a yes it has heard a whole run; at a
/// fault of the certificate or the recording the steps before it; where a device fails or memory is refused it was given some
/// reports, and nothing else has changed it.
pub trait Listener: Failing {
    ghost use Rattle.std.specs.Prelude.{◌≡◌, IsErrOf, OnOk, true};
    ghost use Rattle.a429_profile.specs.Profile.{Contents};
    ghost use Rattle.a429_cert.specs.Report.{Report, Loads, Makes};

    // Relates the listener before something is reported to it, under a profile, and the listener after it.
    ghost hears: { Contents → Self → Report → Self → Type 0 };

    // The same, whether it takes the report or fails at it.
    ghost tries: { Contents → Self → Report → Self → Type 0 };

    /// A link data unit is loaded at the source, under this number.
    fn load(&mut self, profile: &Profile, number: UnitNumber, unit: &Ldu) -> Result<(), Trouble>
        ensures heard { OnOk result (hears profile.now self.old (Loads number unit.now) self.new) }
        ensures tried { tries profile.now self.old (Loads number unit.now) self.new }
        ensures device { IsErrOf result Trouble.Device → Self.failed self.new ≡ true };

    /// Another step is made. It records this entry, which has this number, counted from 0; `None` where it records none.
    fn make(
        &mut self,
        profile: &Profile,
        act: Act,
        entry: Option<(usize, Entry)>,
    ) -> Result<(), Trouble>
        ensures heard { OnOk result (hears profile.now self.old (Makes act entry) self.new) }
        ensures tried { tries profile.now self.old (Makes act entry) self.new }
        ensures device { IsErrOf result Trouble.Device → Self.failed self.new ≡ true };
}

/// A listener that does not listen.
#[derive(Drop)]
pub struct NoListener;

impl Failing for NoListener {
    ghost failed = { λ s. false };

    fn failed(&self) -> bool {
        false
    }
}

impl Listener for NoListener {
    ghost use Rattle.std.specs.Prelude.{⊤};

    ghost hears = { λ _ _ _ _. ⊤ };

    ghost tries = { λ _ _ _ _. ⊤ };

    fn load(&mut self, _: &Profile, _: UnitNumber, _: &Ldu) -> Result<(), Trouble>
        ensures reports { IsOk result }
    {
        Ok(())
    }

    fn make(&mut self, _: &Profile, _: Act, _: Option<(usize, Entry)>) -> Result<(), Trouble>
        ensures reports { IsOk result }
    {
        Ok(())
    }
}
