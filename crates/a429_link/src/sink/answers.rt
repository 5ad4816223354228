//! The answers of the sink of a file transfer, and what it accepts by them.

ghost use Rattle.std.specs.Prelude.{◌≡◌, ◌≤◌, ◌↔◌, Some, IsTrue, OnOk, OnErr};
ghost use Rattle.a429_link.specs.Sink as model;
ghost use Rattle.a429_link.specs.Sink.{in_phase, put, received_for, accepts_block, with_received, unfiled, answers, IsAck, MayAnswer, held_count};

use crate::number::is_final;
use crate::sink::{Latest, Phase, Sink, is_last, is_last_file};
use a429_ldu::{Form, block_bytes};
use a429_profile::Profile;
use std::alloc::{AllocError, Global};

impl Sink {
    /// It may give an answer of this form now.
    pub(crate) fn may_answer(&self, answer: &Form) -> bool
        ensures { IsTrue result ↔ MayAnswer self.now.sink.count self.now.sink.phase answer.now }
    {
        match (self.phase, *answer) {
            (Phase::OwesClear, Form::Cts { count }) => count == self.count,
            (Phase::OwesAck { start, .. }, Form::Ack { file, ldu }) => {
                file == start.file && ldu == start.ldu
            }
            (Phase::OwesAck { .. } | Phase::OwesNak, Form::Nak { .. }) => true,
            _ => false,
        }
    }

    /// Gives an answer of this form.
    pub(crate) fn answer(
        &mut self,
        alloc: Global,
        profile: &Profile,
        answer: &Form,
    ) -> Result<(), AllocError>
        requires { held_count self.old.sink.phase ≤ 255 }
        ensures done { OnOk result (self.new ≡ record (self.old) { sink = answers profile.now.codes answer.now self.old.sink }) }
        ensures unchanged { OnErr result (self.new ≡ self.old) }
        ensures memory { OnErr result (IsAck (Some answer.now)) }
    {
        match *answer {
            Form::Cts { .. } => self.enter(Phase::Granted),
            Form::Ack { .. } => {
                self.accept(alloc, profile)?;
                self.enter(Phase::Quiet);
            }
            Form::Nak { .. } => self.enter(Phase::Quiet),
            Form::Rts { .. } | Form::Sot { .. } | Form::Part(_) | Form::Eot { .. } => {}
        }
        Ok(())
    }

    // Accepts the block that an acknowledgement is owed for. One that comes again is not put again.
    fn accept(&mut self, alloc: Global, profile: &Profile) -> Result<(), AllocError>
        requires { held_count self.old.sink.phase ≤ 255 }
        ensures done { OnOk result (self.new ≡ record (self.old) { sink = accepts_block profile.now.codes self.old.sink }) }
        ensures unchanged { OnErr result (self.new ≡ self.old) }
    {
        let Phase::OwesAck { start, flags } = self.phase else {
            return Ok(());
        };
        let number = start.number();
        if is_last(&self.last, number) {
            return Ok(());
        }
        let is_final = is_final(profile, flags);
        match block_bytes(profile, self.lane.taken()) {
            Some(bytes) => self.put(alloc, number.file, bytes.as_slice(), is_final)?,
            None => self.put(alloc, number.file, &[], is_final)?,
        }
        self.last = Some(Latest { number, is_final });
        Ok(())
    }

    // Puts the bytes of a link data unit of this file after those received, and drops those of another file that is not whole.
    fn put(
        &mut self,
        alloc: Global,
        file: u8,
        bytes: &[u8],
        is_final: bool,
    ) -> Result<(), AllocError>
        ensures done { OnOk result (self.new ≡ record (self.old) {
          sink = with_received
              (put file bytes.now is_final (received_for self.old.sink.last file self.old.sink.received)) self.old.sink;
        }) }
        ensures unchanged { OnErr result (self.new ≡ self.old) }
    {
        if is_last_file(&self.last, file) {
            self.received.put(alloc, file, bytes, is_final)
        } else {
            self.received.put_first(alloc, file, bytes, is_final)
        }
    }

    /// Gives an answer of this form, and leaves the files as they are.
    pub(crate) fn answer_unfiled(&mut self, profile: &Profile, answer: &Form)
        ensures { self.new ≡ record (self.old) { sink = unfiled self.old.sink (answers profile.now.codes answer.now self.old.sink) } }
    {
        match *answer {
            Form::Cts { .. } => self.enter(Phase::Granted),
            Form::Ack { .. } => {
                self.accept_unfiled(profile);
                self.enter(Phase::Quiet);
            }
            Form::Nak { .. } => self.enter(Phase::Quiet),
            Form::Rts { .. } | Form::Sot { .. } | Form::Part(_) | Form::Eot { .. } => {}
        }
    }

    // Accepts the block that an acknowledgement is owed for, without its bytes.
    fn accept_unfiled(&mut self, profile: &Profile)
        ensures { self.new ≡ record (self.old) { sink = unfiled self.old.sink (accepts_block profile.now.codes self.old.sink) } }
    {
        let Phase::OwesAck { start, flags } = self.phase else {
            return;
        };
        let number = start.number();
        if !is_last(&self.last, number) {
            let is_final = is_final(profile, flags);
            self.last = Some(Latest { number, is_final });
        }
    }

    /// Leaves its answer out.
    pub(crate) fn silence(&mut self)
        ensures { self.new ≡ record (self.old) { sink = in_phase model.Quiet self.old.sink } }
    {
        self.enter(Phase::Quiet);
    }
}
