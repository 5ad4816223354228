//! The sink of a recording that begins anywhere.

ghost use Rattle.std.specs.Prelude.{ℕ, ◌≡◌, true, false, None, Some, IfOk, IfErr, IsErrOf, OnOk, OnErr, option_map};
ghost use Rattle.a429_sink.specs.declared.fault.SinkFault.TheVariants as fault;
ghost use Rattle.a429_ldu.specs.Form.{form_of};
ghost use Rattle.a429_link.specs.Implied.{implies_form, observer_of};
ghost use Rattle.a429_link.specs.Observer.{AllowsForm};
ghost use Rattle.a429_link.specs.Sink.{IsAck, latest_number, number_in, with_last};
ghost use Rattle.a429_sink.specs.Anywhere.{GlimpseAllows, GlimpseAllowsForm, glimpse_at_first, glimpses, glimpses_form, glimpses_known, unknown};
ghost use Rattle.a429_sink.specs.Glimpsed.{FollowsForm, FollowsWord, IsGlimpseFault, IsGlimpseFaultOf, IsKnownOf, assumed_at_end, assumed_for, step_to, glimpse_of, is_whole_with};

use crate::fault::SinkFault;
use crate::lone::{grant_anew, take_allowed};
use a429_ldu::{Form, Sight, form};
use a429_link::{FileBytes, ImpliedSink, Latest, Seen, UnitNumber};
use a429_profile::Profile;
use a429_word::{Bus, Word};
use std::alloc::{AllocError, Global};

/// A link data unit that is accepted, and did not come before.
#[derive(Drop)]
pub(crate) struct Accepted {
    pub(crate) unit: Latest,
    /// The file that crosses by it, if all its bytes are known.
    pub(crate) files: Vec<FileBytes>,
}

// How the bytes of a link data unit that is accepted come to those of its file.
#[derive(Clone, Copy)]
pub(crate) enum UnitStep {
    /// It comes again.
    Again,
    /// It is the first of its file.
    First,
    /// It goes on with a file of which all bytes are known.
    Next,
    /// Bytes of its file are not known.
    Unknown,
}

impl UnitStep {
    // All bytes of the file are known with it.
    fn is_whole(self) -> bool
        ensures { result ≡ is_whole_with self }
    {
        matches!(self, UnitStep::First | UnitStep::Next)
    }
}

/// The sink of a recording of which it is not known what came before: its phase is known from the first request or clear answer on, the
/// link data unit accepted last from the first acknowledgement on, and the bytes of a file from its first unit on.
#[derive(Drop)]
pub(crate) struct GlimpsedSink {
    // What it accepted last is only assumed: `last` says what is known of it.
    implied: ImpliedSink,
    is_known: bool,
    last: Option<Latest>,
    // All bytes of the file under way are known.
    is_whole: bool,
}

impl GlimpsedSink {
    /// That of a recording of no entries.
    pub(crate) fn new(alloc: Global) -> GlimpsedSink
        ensures glimpse { glimpse_of result ≡ glimpse_at_first }
        ensures known { IsKnownOf unknown result }
    {
        GlimpsedSink {
            implied: ImpliedSink::new(alloc),
            is_known: false,
            last: None,
            is_whole: false,
        }
    }

    /// Takes the next recorded word, where some run may record it after the words before it, whatever came before those, and answers
    /// which link data unit is accepted by it. Else it is refused, and nothing changes. So it is where an acknowledgement wants memory and
    /// there is none.
    pub(crate) fn see(
        &mut self,
        alloc: Global,
        profile: &Profile,
        seen: Seen,
    ) -> Result<Option<Accepted>, SinkFault>
        ensures allowed { OnOk result (GlimpseAllows profile.now (glimpse_of self.old) seen) }
        ensures taken { OnOk result (glimpse_of self.new ≡ glimpses profile.now seen (glimpse_of self.old)) }
        ensures follows { IfOk result (FollowsWord profile.now seen self.old self.new) }
        ensures fault { IfErr result (IsGlimpseFault profile.now (glimpse_of self.old) seen) }
        ensures unchanged { IsErrOf result fault.Refused → self.new ≡ self.old }
    {
        match form(profile, seen.bus, seen.word) {
            Sight::Form(form) => self.see_form(alloc, profile, seen, &form),
            Sight::Free => Ok(None),
            Sight::NoForm => Err(SinkFault::Refused),
        }
    }

    // Takes a word of this form.
    fn see_form(
        &mut self,
        alloc: Global,
        profile: &Profile,
        seen: Seen,
        form: &Form,
    ) -> Result<Option<Accepted>, SinkFault>
        ensures allowed { OnOk result (GlimpseAllowsForm self.old.is_known (glimpse_of self.old).observer seen.bus (Some form.now)) }
        ensures taken { OnOk result (glimpse_of self.new ≡ glimpses_form profile.now seen.bus seen.word (Some form.now) (glimpse_of self.old)) }
        ensures follows { IfOk result (FollowsForm profile.now seen.bus seen.word (Some form.now) self.old self.new) }
        ensures fault { IfErr result (IsGlimpseFaultOf self.old.is_known (glimpse_of self.old) seen.bus form.now) }
        ensures unchanged { IsErrOf result fault.Refused → self.new ≡ self.old }
    {
        if !self.is_known {
            self.begin(alloc, profile, seen.bus, form);
            return Ok(None);
        }
        if !self.implied.allows(seen.bus, form) {
            return Err(SinkFault::Refused);
        }
        match self.take(alloc, profile, seen, form) {
            Ok(accepted) => Ok(accepted),
            Err(_) => Err(SinkFault::OutOfMemory),
        }
    }

    // Takes a word of this form where nothing is known yet: only a request and a clear answer say what the sink does.
    fn begin(&mut self, alloc: Global, profile: &Profile, bus: Bus, form: &Form)
        requires { self.old.is_known ≡ false }
        ensures taken { (w : ℕ) → glimpse_of self.new ≡ glimpses_form profile.now bus w (Some form.now) (glimpse_of self.old) }
        ensures follows { (w : ℕ) → FollowsForm profile.now bus w (Some form.now) self.old self.new None }
    {
        match (bus, *form) {
            (Bus::A, Form::Rts { count }) => self.request(alloc, profile, count),
            (Bus::B, Form::Cts { count }) => {
                self.request(alloc, profile, count);
                grant_anew(&mut self.implied, alloc, profile, count);
            }
            _ => {}
        }
    }

    // Takes a request, in whatever phase.
    fn request(&mut self, alloc: Global, profile: &Profile, count: u8)
        ensures { self.new ≡ record (self.old) { is_known = true; implied = implies_form profile.now Bus.A 0 (Some (Form.Rts count)) self.old.implied } }
    {
        let form = Form::Rts { count };
        take_allowed(&mut self.implied, alloc, profile, Word::from_u32(0), &form);
        self.is_known = true;
    }

    // Takes a word of this form, which is allowed, where the phase is known.
    fn take(
        &mut self,
        alloc: Global,
        profile: &Profile,
        seen: Seen,
        form: &Form,
    ) -> Result<Option<Accepted>, AllocError>
        requires known { self.old.is_known ≡ true }
        requires allowed { AllowsForm (observer_of self.old.implied) seen.bus (Some form.now) }
        ensures taken { OnOk result (glimpse_of self.new ≡ glimpses_form profile.now seen.bus seen.word (Some form.now) (glimpse_of self.old)) }
        ensures follows { IfOk result (FollowsForm profile.now seen.bus seen.word (Some form.now) self.old self.new) }
        ensures unchanged { OnErr result (glimpse_of self.new ≡ glimpse_of self.old) }
        ensures memory { OnErr result (IsAck (Some form.now)) }
    {
        match seen.bus {
            Bus::A => {
                self.take_word(alloc, profile, seen.word, form);
                Ok(None)
            }
            Bus::B => self.take_answer(alloc, profile, form),
        }
    }

    // Takes a word of bus A.
    fn take_word(&mut self, alloc: Global, profile: &Profile, word: Word, form: &Form)
        requires known { self.old.is_known ≡ true }
        requires allowed { AllowsForm (observer_of self.old.implied) Bus.A (Some form.now) }
        ensures taken { glimpse_of self.new ≡ glimpses_form profile.now Bus.A word (Some form.now) (glimpse_of self.old) }
        ensures follows { FollowsForm profile.now Bus.A word (Some form.now) self.old self.new None }
    {
        if let Form::Eot { .. } = *form {
            self.assume_for_end();
        }
        take_allowed(&mut self.implied, alloc, profile, word, form);
    }

    // Before an end word: the unit accepted last is the one that is known, or that of the block.
    fn assume_for_end(&mut self)
        ensures { self.new ≡ record (self.old) {
          implied = record (self.old.implied) {
            sink = with_last (assumed_at_end (option_map latest_number self.old.last) (number_in self.old.implied.sink.phase)) self.old.implied.sink;
          };
        } }
    {
        let block = self.implied.block();
        self.implied.assume_last(assumed_at_end(self.last, block));
    }

    // Takes an answer.
    fn take_answer(
        &mut self,
        alloc: Global,
        profile: &Profile,
        form: &Form,
    ) -> Result<Option<Accepted>, AllocError>
        requires known { self.old.is_known ≡ true }
        requires allowed { AllowsForm (observer_of self.old.implied) Bus.B (Some form.now) }
        ensures taken { OnOk result ((w : ℕ) → glimpse_of self.new ≡ glimpses_form profile.now Bus.B w (Some form.now) (glimpse_of self.old)) }
        ensures follows { IfOk result (λ said. (w : ℕ) → FollowsForm profile.now Bus.B w (Some form.now) self.old self.new said) }
        ensures unchanged { OnErr result (glimpse_of self.new ≡ glimpse_of self.old) }
        ensures memory { OnErr result (IsAck (Some form.now)) }
    {
        if let Form::Ack { file, ldu } = *form {
            return self.acknowledge(alloc, profile, file, ldu);
        }
        let seen = Seen {
            bus: Bus::B,
            word: Word::from_u32(0),
        };
        match self.implied.take(alloc, profile, seen, form) {
            Ok(_) => Ok(None),
            Err(fault) => Err(fault),
        }
    }

    // How the bytes of the unit of this number come to those of its file.
    fn step_to(&self, profile: &Profile, number: UnitNumber) -> UnitStep
        ensures { result ≡ step_to profile.now.codes self.now.is_whole (option_map latest_number self.now.last) number }
    {
        let is_first = number.ldu == u16::from(profile.codes().first_ldu);
        let Some(last) = self.last else {
            return if is_first {
                UnitStep::First
            } else {
                UnitStep::Unknown
            };
        };
        if last.number == number {
            UnitStep::Again
        } else if is_first {
            UnitStep::First
        } else if self.is_whole && last.number.file == number.file {
            UnitStep::Next
        } else {
            UnitStep::Unknown
        }
    }

    // Takes the acknowledgement that the sink owes.
    fn acknowledge(
        &mut self,
        alloc: Global,
        profile: &Profile,
        file: u8,
        ldu: u8,
    ) -> Result<Option<Accepted>, AllocError>
        requires known { self.old.is_known ≡ true }
        requires allowed { AllowsForm (observer_of self.old.implied) Bus.B (Some (Form.Ack file ldu)) }
        ensures taken { OnOk result ((w : ℕ) → glimpse_of self.new ≡ glimpses_form profile.now Bus.B w (Some (Form.Ack file ldu)) (glimpse_of self.old)) }
        ensures follows { IfOk result (λ said. (w : ℕ) → FollowsForm profile.now Bus.B w (Some (Form.Ack file ldu)) self.old self.new said) }
        ensures unchanged { OnErr result (glimpse_of self.new ≡ glimpse_of self.old) }
    {
        let Some(unit) = self.implied.owed_unit(profile) else {
            // It owes this acknowledgement.
            return Ok(None);
        };
        let step = self.step_to(profile, unit.number);
        self.implied.assume_last(assumed_for(self.last, unit, step));
        let files = self.implied.hand_out(alloc, profile, file, ldu)?;
        self.last = Some(unit);
        if let UnitStep::Again = step {
            return Ok(None);
        }
        self.is_whole = step.is_whole() && !unit.is_final;
        Ok(Some(Accepted { unit, files }))
    }
}

// The unit accepted last is the one that is known, else that of the block.
fn assumed_at_end(last: Option<Latest>, block: Option<UnitNumber>) -> Option<Latest>
    ensures { option_map latest_number result ≡ assumed_at_end (option_map latest_number last) block }
{
    if last.is_some() {
        return last;
    }
    let number = block?;
    Some(Latest {
        number,
        is_final: false,
    })
}

// Which unit is taken for the one accepted last, so that this one comes to its file's bytes as it should.
fn assumed_for(last: Option<Latest>, unit: Latest, step: UnitStep) -> Option<Latest>
    ensures { option_map latest_number result ≡ assumed_for (option_map latest_number last) (latest_number unit) step }
{
    match step {
        UnitStep::Again => Some(unit),
        UnitStep::First => None,
        UnitStep::Next => last,
        UnitStep::Unknown => Some(unit),
    }
}
