//! Which entries of a recording are those of a link data unit.

ghost use Rattle.std.specs.Prelude.{◌≡◌, option_map};
ghost use Rattle.a429_cert.specs.Report.{Makes};
ghost use Rattle.a429_view.specs.Units.{is_ack, is_ack_form, moment_of, moment_at};
ghost use Rattle.a429_view.specs.UnitSteps.{spanned};

use crate::units::counts::form_at;
use a429_cert::Act;
use a429_ldu::Form;
use a429_profile::Profile;
use a429_record::Entry;

/// A recorded word: its entry, counted from 0, and its time in microseconds.
#[derive(Clone, Copy)]
pub struct Moment {
    pub entry: usize,
    pub time: u64,
}

/// The first and the last word of the transfer that were recorded since a unit was loaded, and whether its
/// acknowledgement was.
#[derive(Clone, Copy)]
pub struct UnitSpan {
    pub first: Option<Moment>,
    pub last: Option<Moment>,
    pub crossed: bool,
}

impl UnitSpan {
    /// Nothing was recorded.
    pub const NONE: UnitSpan = UnitSpan {
        first: None,
        last: None,
        crossed: false,
    };

    /// Takes one more step into account.
    pub fn note(&mut self, profile: &Profile, act: Act, entry: &Option<(usize, Entry)>)
        ensures { self.new ≡ spanned profile.now.codes (Makes act entry.now) self.old }
    {
        if let Some(moment) = moment_of(act, entry) {
            if self.first.is_none() {
                self.first = Some(moment);
            }
            self.last = Some(moment);
        }
        self.crossed = self.crossed || is_ack(profile, act, entry);
    }
}

// The entry of a recorded word of the transfer.
fn moment_of(act: Act, entry: &Option<(usize, Entry)>) -> Option<Moment>
    ensures { result ≡ moment_of (Makes act entry.now) }
{
    match act {
        Act::Sent | Act::Answered => moment_at(entry),
        _ => None,
    }
}

fn moment_at(entry: &Option<(usize, Entry)>) -> Option<Moment>
    ensures { result ≡ option_map moment_at entry.now }
{
    match entry {
        Some((number, entry)) => Some(Moment {
            entry: *number,
            time: entry.time,
        }),
        None => None,
    }
}

// Whether an acknowledgement is recorded.
fn is_ack(profile: &Profile, act: Act, entry: &Option<(usize, Entry)>) -> bool
    ensures { result ≡ is_ack profile.now.codes (Makes act entry.now) }
{
    match act {
        Act::Answered => is_ack_form(form_at(profile, entry)),
        _ => false,
    }
}

/// An acknowledgement.
pub(crate) fn is_ack_form(form: Option<Form>) -> bool
    ensures { result ≡ is_ack_form form }
{
    matches!(form, Some(Form::Ack { .. }))
}
