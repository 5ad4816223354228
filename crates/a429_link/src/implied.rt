//! What a recording implies of its sink.

ghost use Rattle.std.specs.Prelude.{◌≡◌, ◌↔◌, ◌+◌, nat_lt, Some, option_map, IsTrue, IfOk, OnOk, OnErr};
ghost use Rattle.a429_link.specs.Observer.{AllowsForm, sees_form};
ghost use Rattle.a429_link.specs.Sink.{IsAck, answers, latest_number, number_in, owed_unit, unfiled, with_last};
ghost use Rattle.a429_link.specs.Allowed.{kinds_allowed, kinds_of_next};
ghost use Rattle.a429_link.specs.WholeBlock.{ComesForm, EndsBadForm};
ghost use Rattle.a429_link.specs.Implied.{crossing_in, does, implied_at_first, implies_form, observer_of, why_at, with_counts};

use crate::doing::{Crossing, Doing};
use crate::file::FileBytes;
use crate::next::Next;
use crate::number::UnitNumber;
use crate::seen::Seen;
use crate::sink::{Latest, Sink};
use crate::why::Why;
use a429_ldu::Form;
use a429_profile::Profile;
use a429_word::{Bus, Word};
use std::alloc::{AllocError, Global};
use std::marker::Model;

/// The sink that a recording implies, whatever its source did: it takes each recorded word of bus A, and gives each
/// recorded answer of bus B, at the moment it is recorded. Of the files it keeps the bytes of the one that is not whole,
/// and no others.
#[derive(Drop)]
pub struct ImpliedSink {
    sink: Sink,
    begun: bool,
    parts: u8,
}

impl Model for ImpliedSink {
    ghost use Rattle.std.specs.Prelude.{◌≡◌, []};
    ghost use Rattle.a429_link.specs.Implied as model;
    ghost use Rattle.a429_link.specs.Observer.{KeepsRecorded};

    ghost Value = { model.Implied };

    ghost view = { λ s. record { sink = s.sink.sink; begun = s.begun; parts = s.parts } };

    ghost invariant = { λ s. (s.sink.sink.received.files ≡ []) × (s.sink.to_sink ≡ []) × KeepsRecorded s.sink.sink.phase s.parts };
}

impl ImpliedSink {
    /// That of a recording at its start.
    pub fn new(alloc: Global) -> ImpliedSink
        ensures { result ≡ implied_at_first }
    {
        ImpliedSink {
            sink: Sink::new(alloc),
            begun: false,
            parts: 0,
        }
    }

    /// Whether the words so far allow a word of this form on a bus. Where they do not, no run records it after those.
    #[inline(always)]
    pub fn allows(&self, bus: Bus, form: &Form) -> bool
        ensures { IsTrue result ↔ AllowsForm (observer_of self.now) bus (Some form.now) }
    {
        match (bus, *form) {
            (Bus::A, Form::Rts { .. }) => true,
            (Bus::A, Form::Sot { .. }) => self.sink.has_grant() && !self.begun,
            (Bus::A, Form::Part(_)) => self.sink.has_grant() && self.wants_data(),
            (Bus::A, Form::Eot { .. }) => self.sink.has_grant(),
            (Bus::A, Form::Cts { .. } | Form::Ack { .. } | Form::Nak { .. }) => false,
            (Bus::B, _) => self.sink.may_answer(form),
        }
    }

    /// What the words so far allow next, free words aside, which may always come.
    pub fn next(&self) -> Next
        ensures { kinds_of_next result ≡ kinds_allowed (observer_of self.now) }
    {
        match self.sink.doing(None) {
            Doing::OwesClear(count) => Next::Clear(count),
            Doing::Granted(_) | Doing::InBlock { .. } => Next::Block {
                start: !self.begun,
                data: self.wants_data(),
            },
            Doing::OwesAck { file, ldu } => Next::Ack { file, ldu },
            Doing::OwesNak(_) => Next::Nak,
            Doing::Quiet | Doing::Accepts { .. } | Doing::Again { .. } => Next::Request,
        }
    }

    // Fewer data words were recorded since the clear answer than were asked for.
    fn wants_data(&self) -> bool
        ensures { result ≡ nat_lt (self.now.parts + 2) self.now.sink.count }
    {
        u16::from(self.parts) + 2 < u16::from(self.sink.count())
    }

    /// The number of the block that it is in.
    pub fn block(&self) -> Option<UnitNumber>
        ensures { result ≡ number_in self.now.sink.phase }
    {
        self.sink.block()
    }

    /// The link data unit that it owes an acknowledgement for.
    pub fn owed_unit(&self, profile: &Profile) -> Option<Latest>
        ensures { option_map latest_number result ≡ owed_unit profile.now.codes self.now.sink.phase }
    {
        self.sink.owed_unit(profile)
    }

    /// It is as if this were the link data unit accepted last, or none were: for a recording that does not say so.
    pub fn assume_last(&mut self, last: Option<Latest>)
        ensures { self.new ≡ record (self.old) { sink = with_last (option_map latest_number last) self.old.sink } }
    {
        self.sink.assume_last(last);
    }

    /// Takes a word of this form, which the words so far allow, and answers what the sink does then. An acknowledgement alone
    /// may want memory; where there is none, it is unchanged.
    #[inline(always)]
    pub fn take(
        &mut self,
        alloc: Global,
        profile: &Profile,
        seen: Seen,
        form: &Form,
    ) -> Result<Doing, AllocError>
        requires { AllowsForm (observer_of self.old) seen.bus (Some form.now) }
        ensures taken { OnOk result (self.new ≡ implies_form profile.now seen.bus seen.word (Some form.now) self.old) }
        ensures does { IfOk result (λ doing. doing ≡ does profile.now seen.bus seen.word form.now self.old.sink) }
        ensures unchanged { OnErr result (self.new ≡ self.old) }
        ensures memory { OnErr result (IsAck (Some form.now)) }
    {
        match seen.bus {
            Bus::A => {
                let why = self.take_word(profile, seen.word, form);
                Ok(self.sink.doing(why))
            }
            Bus::B => self.take_answer(alloc, profile, form),
        }
    }

    /// A word of this form ends a block that was recorded whole, and makes no link data unit of it.
    pub(crate) fn ends_bad(&self, profile: &Profile, bus: Bus, form: &Form) -> bool
        ensures { IsTrue result ↔ EndsBadForm profile.now bus (Some form.now) self.now.sink.phase self.now.sink.count }
    {
        match (bus, *form) {
            (Bus::A, Form::Eot { check, .. }) => self.sink.ends_bad(profile, check),
            _ => false,
        }
    }

    /// If a word of this form is a start word, its number is that of the link data unit accepted last, or in sequence with it, or,
    /// where none was accepted, the number of a file's first.
    pub(crate) fn number_comes(&self, profile: &Profile, bus: Bus, form: &Form) -> bool
        ensures { IsTrue result ↔ ComesForm profile.now.codes bus (Some form.now) self.now.sink.last }
    {
        match (bus, *form) {
            (Bus::A, Form::Sot { file, ldu, .. }) => {
                let ldu = u16::from(ldu);
                self.sink.number_may_come(profile, UnitNumber { file, ldu })
            }
            _ => true,
        }
    }

    /// Takes a word of bus A that has this form, and answers why it ends a block that is not good; `None` where it ends
    /// none, or a good one.
    #[inline(always)]
    pub(crate) fn take_word(&mut self, profile: &Profile, word: Word, form: &Form) -> Option<Why>
        requires { AllowsForm (observer_of self.old) Bus.A (Some form.now) }
        ensures taken { self.new ≡ implies_form profile.now Bus.A word (Some form.now) self.old }
        ensures why { result ≡ why_at profile.now form.now self.old.sink }
    {
        let count = self.sink.count();
        self.sink.push(word);
        let why = self.sink.take(profile, form);
        match *form {
            Form::Sot { .. } => self.begun = true,
            Form::Part(_) => {
                self.begun = true;
                if self.parts < count {
                    self.parts += 1;
                }
            }
            _ => {}
        }
        why
    }

    // Gives an answer of this form.
    fn take_answer(
        &mut self,
        alloc: Global,
        profile: &Profile,
        form: &Form,
    ) -> Result<Doing, AllocError>
        ensures taken { OnOk result (self.new ≡ implies_form profile.now Bus.B 0 (Some form.now) self.old) }
        ensures does { IfOk result (λ doing. doing ≡ does profile.now Bus.B 0 form.now self.old.sink) }
        ensures unchanged { OnErr result (self.new ≡ self.old) }
        ensures memory { OnErr result (IsAck (Some form.now)) }
    {
        if let Form::Ack { file, ldu } = *form {
            return self.acknowledge(alloc, profile, file, ldu);
        }
        self.take_unfiled(profile, form);
        Ok(self.sink.doing(None))
    }

    // Gives the acknowledgement of this link data unit, and says which file crosses.
    fn acknowledge(
        &mut self,
        alloc: Global,
        profile: &Profile,
        file: u8,
        ldu: u8,
    ) -> Result<Doing, AllocError>
        ensures taken { OnOk result (self.new ≡ implies_form profile.now Bus.B 0 (Some (Form.Ack file ldu)) self.old) }
        ensures does { IfOk result (λ doing. doing ≡ does profile.now Bus.B 0 (Form.Ack file ldu) self.old.sink) }
        ensures unchanged { OnErr result (self.new ≡ self.old) }
    {
        let is_again = self.sink.accepted_last(file, ldu);
        let files = self.hand_out(alloc, profile, file, ldu)?;
        if is_again {
            return Ok(Doing::Again { file, ldu });
        }
        let crossing = crossing_in(files.as_slice());
        Ok(Doing::Accepts {
            file,
            ldu,
            crossing,
        })
    }

    /// Gives the acknowledgement of this link data unit, and hands out the files that cross: one at most. Where it wants memory and there
    /// is none, it is unchanged.
    pub fn hand_out(
        &mut self,
        alloc: Global,
        profile: &Profile,
        file: u8,
        ldu: u8,
    ) -> Result<Vec<FileBytes>, AllocError>
        ensures taken { OnOk result (self.new ≡ implies_form profile.now Bus.B 0 (Some (Form.Ack file ldu)) self.old) }
        ensures files { IfOk result (λ files. files.items ≡ (answers profile.now.codes (Form.Ack file ldu) self.old.sink).received.files) }
        ensures unchanged { OnErr result (self.new ≡ self.old) }
    {
        self.sink.answer(alloc, profile, &Form::Ack { file, ldu })?;
        Ok(self.sink.take_delivered(alloc))
    }

    /// Gives an answer of this form, and leaves the files as they are.
    #[inline(always)]
    pub(crate) fn take_unfiled(&mut self, profile: &Profile, form: &Form)
        ensures { self.new ≡ with_counts (sees_form profile.now Bus.B 0 (Some form.now) (observer_of self.old)) (unfiled self.old.sink (answers profile.now.codes form.now self.old.sink)) }
    {
        self.sink.answer_unfiled(profile, form);
        if let Form::Cts { .. } = *form {
            self.begun = false;
            self.parts = 0;
        }
    }
}

// The first of the files that cross.
fn crossing_in(files: &[FileBytes]) -> Option<Crossing>
    ensures { result ≡ crossing_in files.now }
{
    let file = files.first()?;
    Some(Crossing {
        number: file.number,
        bytes: file.bytes.as_slice().len(),
    })
}
