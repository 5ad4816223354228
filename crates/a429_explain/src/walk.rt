//! A recording, up to the first word that no run records.

ghost use Rattle.std.specs.Prelude.{◌≡◌, ◌↔◌, IsOk, IfOk, IfErr, OnOk, length};
ghost use Rattle.a429_word.specs.Screening.{screened};
ghost use Rattle.a429_profile.specs.Profile.{IsProfile};
ghost use Rattle.a429_ldu.specs.Sight.{sight_in, sight_of};
ghost use Rattle.a429_link.specs.Observer.{Allows, sees};
ghost use Rattle.a429_cert.specs.Explained.{items_of};
ghost use Rattle.a429_explain.specs.Verdict.{HasNoForm};
ghost use Rattle.a429_explain.specs.WithoutLoss.{IsWithoutLoss};
ghost use Rattle.a429_explain.specs.Walk.{AreAllowedUpTo, IsHalt, IsRefusable, FitsSight};

use crate::decoded::Decoded;
use crate::screening::Screening;
use crate::verdict::Reason;
use a429_cert::seen;
use a429_ldu::{Form, Sight};
use a429_link::laws::refused_is_impossible;
use a429_link::{Observer, Seen};
use a429_profile::Profile;
use a429_record::Entry;
use a429_word::{Bus, THIS_LABEL};
use std::alloc::Global;

/// The first entry, counted from 0, whose word those before it do not allow, and the reason.
#[derive(Clone, Copy)]
pub struct Halt {
    pub entry: usize,
    pub reason: Reason,
}

/// A recording under a profile, where each word is allowed after those before it; else the first entry whose word is not,
/// which no run records there, and why. Each word is looked at once, and no memory is taken.
pub fn walk<'a>(
    alloc: Global,
    profile: &'a Profile,
    entries: &'a [Entry],
) -> Result<Decoded<'a>, Halt>
    ensures decoded { IfOk result (λ h. h ≡ record { profile = profile.now; items = items_of entries.now }) }
    ensures allowed { IfOk result (λ h. AreAllowedUpTo profile.now (items_of entries.now) (length (items_of entries.now))) }
    ensures formed { IfOk result (λ h. ¬ HasNoForm profile.now.codes (items_of entries.now)) }
    ensures halt { IfErr result (IsHalt profile.now (items_of entries.now)) }
    ensures without_loss { IsWithoutLoss profile.now (items_of entries.now) → IsOk result }
{
    refused_is_impossible();
    let mut screening = screening_of(profile, entries);
    let mut observer = Observer::new(alloc);
    for entry in 0..entries.len() {
        let answer = screening.answer(entry);
        match see_screened(&mut observer, profile, seen(entries[entry]), answer) {
            Ok(()) => {}
            Err(sight) => {
                let reason = reason_of(sight.form());
                return Err(Halt { entry, reason });
            }
        }
    }
    Ok(Decoded::new(profile, entries))
}

// The entries of a recording, whose words are screened by the label of bus A.
fn screening_of<'a>(profile: &Profile, entries: &'a [Entry]) -> Screening<'a>
    ensures sound { IsProfile profile.now }
    ensures screening { result ≡ record { entries = entries.now; label = profile.now.codes.to_sink } }
{
    Screening::new(entries, profile.codes().to_sink)
}

// Takes the next recorded word, as an observer does; the error is what the word is. `answer` is what `screen` returns for it by
// the label of bus A: that alone shows most free words of that bus.
fn see_screened(
    observer: &mut Observer,
    profile: &Profile,
    seen: Seen,
    answer: u8,
) -> Result<(), Sight>
    requires { answer ≡ screened profile.now.codes.to_sink seen.word }
    ensures allowed { IsOk result ↔ Allows profile.now observer.old seen }
    ensures taken { OnOk result (observer.new ≡ sees profile.now seen observer.old) }
    ensures err { IfErr result (λ sight. sight ≡ sight_of profile.now.codes seen.bus seen.word) }
{
    if seen.bus == Bus::A && answer != THIS_LABEL {
        return Ok(());
    }
    match observer.see(profile, seen) {
        Ok(_) => Ok(()),
        Err(sight) => Err(sight),
    }
}

/// Why a word is refused that is not free and has this form, or none.
pub fn reason_of(form: Option<Form>) -> Reason
    requires { IsRefusable (sight_in form) }
    ensures { FitsSight (sight_in form) result }
{
    match form {
        Some(Form::Sot { .. } | Form::Part(_) | Form::Eot { .. }) => Reason::NotGranted,
        Some(_) => Reason::WrongAnswer,
        None => Reason::NoForm,
    }
}
