//! A place that depends on the words that come.

ghost use Rattle.std.specs.Prelude.{◌≡◌, ◌↔◌, Some, IsTrue};
ghost use Rattle.a429_parts.specs.Watch.{IsAnew, Leaves, MakesCertain, RulesOut, place_of};

use a429_ldu::Form;
use a429_link::UnitNumber;
use a429_profile::Profile;

/// A place that may be one to cut at: the words after it decide. It is counted in the words before it.
#[derive(Clone, Copy)]
pub(crate) enum Doubt {
    /// After an acknowledgement of this number: if the next start word has another.
    AfterUnit { place: usize, unit: UnitNumber },
    /// Before a request, after a word that no run records: if its start word begins a file.
    Anew { place: usize },
}

/// What the next word decides of a place in doubt.
#[derive(Clone, Copy)]
pub(crate) enum Outcome {
    Open,
    IsPlace,
    IsNone,
}

impl Doubt {
    /// The place.
    pub(crate) fn place(&self) -> usize
        ensures { result ≡ place_of self.now }
    {
        match *self {
            Doubt::AfterUnit { place, .. } | Doubt::Anew { place } => place,
        }
    }

    /// The sink begins anew there.
    pub(crate) fn is_anew(&self) -> bool
        ensures { IsTrue result ↔ IsAnew self.now }
    {
        matches!(self, Doubt::Anew { .. })
    }

    /// What a word of this form decides.
    #[inline(always)]
    pub(crate) fn outcome(&self, profile: &Profile, form: &Form) -> Outcome
        ensures open { result ≡ Outcome.Open → Leaves (Some form.now) (Some self.now) }
        ensures place { result ≡ Outcome.IsPlace → MakesCertain profile.now.codes self.now (Some form.now) }
        ensures none { result ≡ Outcome.IsNone → RulesOut profile.now.codes self.now (Some form.now) }
    {
        match (*self, *form) {
            (Doubt::AfterUnit { unit, .. }, Form::Sot { file, ldu, .. }) => {
                if unit == number(file, ldu) {
                    Outcome::IsNone
                } else {
                    Outcome::IsPlace
                }
            }
            (Doubt::Anew { .. }, Form::Sot { ldu, .. }) => {
                if ldu == profile.codes().first_ldu {
                    Outcome::IsPlace
                } else {
                    Outcome::IsNone
                }
            }
            (Doubt::Anew { .. }, Form::Rts { .. }) => Outcome::IsNone,
            _ => Outcome::Open,
        }
    }
}

// The number of a start word.
fn number(file: u8, ldu: u8) -> UnitNumber
    ensures { result ≡ record { file = file; ldu = ldu } }
{
    UnitNumber {
        file,
        ldu: u16::from(ldu),
    }
}
