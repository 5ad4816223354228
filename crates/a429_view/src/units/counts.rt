//! What has happened to a link data unit, counted.

ghost use Rattle.std.specs.Prelude.{◌≡◌, OnOk};
ghost use Rattle.a429_ldu.specs.Form.{form_of};
ghost use Rattle.a429_cert.specs.Report.{Makes};
ghost use Rattle.a429_view.specs.Units.{form_at, is_rts, is_nak_form};
ghost use Rattle.a429_view.specs.UnitSteps.{more, recounted, no_counts};

use a429_cert::{Act, OutOfMemory};
use a429_ldu::{Form, form};
use a429_profile::Profile;
use a429_record::Entry;

/// How often it happened since a unit was loaded.
#[derive(Clone, Copy)]
pub struct UnitCounts {
    /// A request was recorded.
    pub requests: u64,
    /// A word of the source was lost before the recorder.
    pub lost: u64,
    /// The sink left out an answer.
    pub unanswered: u64,
    /// An answer was lost after the recorder.
    pub unheard: u64,
    /// A negative answer was recorded.
    pub naks: u64,
    /// The source waited no longer.
    pub timeouts: u64,
}

impl UnitCounts {
    /// Nothing has happened.
    pub const NONE: UnitCounts = UnitCounts {
        requests: 0,
        lost: 0,
        unanswered: 0,
        unheard: 0,
        naks: 0,
        timeouts: 0,
    };

    /// Counts one more step. A count that 64 bits do not hold, which no certificate has, would be reported as
    /// out of memory.
    pub fn count(
        &mut self,
        profile: &Profile,
        act: Act,
        entry: &Option<(usize, Entry)>,
    ) -> Result<(), OutOfMemory>
        ensures { OnOk result (self.new ≡ recounted profile.now.codes (Makes act entry.now) self.old) }
    {
        match act {
            Act::Sent => count_if(&mut self.requests, is_rts(form_at(profile, entry))),
            Act::SentLost => count_if(&mut self.lost, true),
            Act::Silent => count_if(&mut self.unanswered, true),
            Act::LoseAnswer => count_if(&mut self.unheard, true),
            Act::Answered => count_if(&mut self.naks, is_nak(form_at(profile, entry))),
            Act::TimeOut => count_if(&mut self.timeouts, true),
            Act::TakeAnswer | Act::SinkTakes | Act::FreeSeen | Act::GiveUp => Ok(()),
        }
    }
}

// Counts one more where it is so.
fn count_if(count: &mut u64, is_so: bool) -> Result<(), OutOfMemory>
    ensures { OnOk result (count.new ≡ more is_so count.old) }
{
    if is_so {
        *count = count.checked_add(1).ok_or(OutOfMemory)?;
    }
    Ok(())
}

/// The form of a recorded word, where it has one.
pub(crate) fn form_at(profile: &Profile, entry: &Option<(usize, Entry)>) -> Option<Form>
    ensures { result ≡ form_at profile.now.codes entry.now }
{
    match entry {
        Some((_, entry)) => form_of(profile, entry),
        None => None,
    }
}

/// The form of the word of an entry, where it has one.
pub(crate) fn form_of(profile: &Profile, entry: &Entry) -> Option<Form>
    ensures { result ≡ form_of profile.now.codes entry.now.bus entry.now.word }
{
    form(profile, entry.bus, entry.word).form()
}

fn is_rts(form: Option<Form>) -> bool
    ensures { result ≡ is_rts form }
{
    matches!(form, Some(Form::Rts { .. }))
}

fn is_nak(form: Option<Form>) -> bool
    ensures { result ≡ is_nak_form form }
{
    matches!(form, Some(Form::Nak { .. }))
}
