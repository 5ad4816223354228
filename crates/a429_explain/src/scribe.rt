//! The lines of a certificate, each written as a link makes its step.

ghost use Rattle.std.specs.Prelude.{◌≡◌, ◌≢◌, ◌++◌, ◌∷◌, [], Ok, None, Some, true, IfErr, IfSome, IsSome, OnOk, false};
ghost use Rattle.a429_ldu.specs.Ldu.{IsLdu};
ghost use Rattle.a429_link.specs.Carry.{on_a};
ghost use Rattle.a429_link.specs.declared.step.Step.TheVariants as step;
ghost use Rattle.a429_link.specs.Sink.{Listens};
ghost use Rattle.a429_link.specs.Source.{IsIdle};
ghost use Rattle.a429_link.specs.Step.{Can, LoadsLdu, label};
ghost use Rattle.a429_link.specs.State.{start};
ghost use Rattle.a429_cert.specs.declared.line.CertLine.TheVariants.{Moved};
ghost use Rattle.a429_cert.specs.Line.{IsHeld};
ghost use Rattle.a429_explain.specs.Note.{in_version, line_after};
ghost use Rattle.a429_explain.specs.Scribe.{Wrote, WritesNext, link_after, CanMake, OnlyLacksMemory, sent, answered, unheard, IsAtRest, CannotWrite, giving_up, begin_steps, IsClosing, ClosesOn, HasAsked, IsReadyWord, MakesLossless};
ghost use Rattle.a429_cert.specs.Act.{letter_of};
ghost use Rattle.a429_cert.specs.Change.{change};
ghost use Rattle.a429_cert.specs.Version.{is_give_up};

use crate::attempts::Role;
use crate::certificate::Certificate;
use crate::lines::Lines;
use crate::plan::Plan;
use a429_cert::{BlockText, MovedLine, OutOfMemory, letter_of};
use a429_ldu::Ldu;
use a429_link::{FileBytes, Link, NextWord, Seen, SinkState, SourceState, Step, StepFault};
use a429_profile::Profile;
use a429_word::Bus;
use std::alloc::Global;

/// A certificate that is being written, and the link on which its lines' steps are made.
#[derive(Drop)]
pub(crate) struct Scribe<'a> {
    link: Link<'a>,
    lines: Lines,
    // The source has given a file up.
    gave_up: bool,
}

impl<'a> Scribe<'a> {
    /// A certificate of two lines, the second with the number of the first file.
    pub(crate) fn new(
        alloc: Global,
        profile: &'a Profile,
        block: BlockText,
        first_file: u8,
    ) -> Scribe<'a>
        ensures start { result.link ≡ record { profile = profile.now; state = start profile.now first_file } }
        ensures written { Wrote first_file [] result }
    {
        Scribe {
            link: Link::start(alloc, profile, first_file),
            lines: Lines::new(alloc, block, first_file),
            gave_up: false,
        }
    }

    /// The certificate of the lines, of the version that they need, and the files that the link has delivered.
    pub(crate) fn into_parts(self) -> (Certificate, Vec<FileBytes>)
        ensures text { result.0 ≡ in_version self.entry.gave_up self.entry.lines }
        ensures files { result.1.items ≡ self.entry.link.state.sink.received.files }
    {
        let Scribe {
            mut link,
            lines,
            gave_up,
        } = self;
        let files = link.take_delivered();
        (Certificate::new(gave_up, lines), files)
    }

    /// Writes the lines of the next entry. Before a request that begins a group the source does what the plan says; at
    /// a request without a plan it asks again for the link data unit that it has. Fails at a step that cannot be made,
    /// or out of memory.
    #[inline(always)]
    pub(crate) fn write_entry(
        &mut self,
        seen: Seen,
        role: Role,
        plan: Option<Plan>,
    ) -> Result<(), StepFault>
        requires { IfSome plan (λ q. IsLdu self.old.link.profile q.unit) }
        ensures profile { self.new.link.profile ≡ self.old.link.profile }
        ensures written { OnOk result (WritesNext (Some seen) self.old self.new) }
        ensures lossless { MakesLossless role seen plan (change self.old.link self.new.link) result }
        ensures asked { OnOk result (HasAsked role seen plan self.old.link self.new.link) }
        ensures refused { IfErr result (λ e. e ≢ StepFault.OutOfMemory → CannotWrite role seen plan self.old.link) }
    {
        match role {
            Role::Free => self.make(Step::FreeSeen(seen)),
            Role::Request { .. } => {
                self.close()?;
                match self.begin(plan) {
                    Ok(()) => self.send(seen),
                    Err(fault) => Err(fault),
                }
            }
            Role::OfBlock => self.send_of_block(seen),
            Role::Clear { is_used } => self.answer(seen, is_used),
            Role::Refused => self.answer(seen, true),
            Role::Acknowledged { ends_group } => self.answer(seen, ends_group),
        }
    }

    // Ends the attempt before a request: what is left of the block is lost, and the answer is left out.
    fn close(&mut self) -> Result<(), StepFault>
        ensures profile { self.new.link.profile ≡ self.old.link.profile }
        ensures written { OnOk result (WritesNext None self.old self.new) }
        ensures closed { OnOk result (ClosesOn self.old.link self.new.link) }
        ensures idle { IsAtRest self.old.link → (result ≡ Ok tt) × (self.new.link ≡ self.old.link) }
    {
        if self.is_sending() {
            self.lose_rest()?;
        }
        if self.owes_answer() {
            self.make(Step::Silent)?;
        }
        if self.waits() {
            self.make(Step::TimeOut)?;
        }
        Ok(())
    }

    // The source has words of a block to send.
    fn is_sending(&self) -> bool
        ensures { result ≡ true → ¬ IsIdle self.now.link.state.source.phase }
    {
        matches!(self.link.states().source, SourceState::Sending(_))
    }

    // The source waits for an answer.
    fn waits(&self) -> bool
        ensures { result ≡ true → ¬ IsIdle self.now.link.state.source.phase }
    {
        matches!(
            self.link.states().source,
            SourceState::Awaiting | SourceState::Waiting
        )
    }

    // The sink owes an answer.
    fn owes_answer(&self) -> bool
        ensures { result ≡ true → ¬ Listens self.now.link.state.sink.phase }
    {
        matches!(
            self.link.states().sink,
            SinkState::OwesClear | SinkState::OwesAck | SinkState::OwesNak
        )
    }

    // Loses the words of a block that the source has still to send.
    fn lose_rest(&mut self) -> Result<(), StepFault>
        ensures profile { self.new.link.profile ≡ self.old.link.profile }
        ensures written { OnOk result (WritesNext None self.old self.new) }
        ensures closed { OnOk result (ClosesOn self.old.link self.new.link) }
    {
        let before = self.link.states();
        let SourceState::Sending(sent) = before.source else {
            return Ok(());
        };
        let words = self.link.lose_rest();
        if words == 0 {
            return Ok(());
        }
        match self.lines.put_losses(before, sent + 1, sent + words) {
            Ok(()) => Ok(()),
            Err(OutOfMemory) => Err(StepFault::OutOfMemory),
        }
    }

    // A word of the source is recorded, and the sink takes it.
    fn send(&mut self, seen: Seen) -> Result<(), StepFault>
        ensures profile { self.new.link.profile ≡ self.old.link.profile }
        ensures written { OnOk result (WritesNext (Some seen) self.old self.new) }
        ensures lossless { CanMake (sent seen) self.old.link → OnlyLacksMemory result }
        ensures reached { OnOk result (self.new.link ≡ link_after (sent seen) self.old.link) }
    {
        match self.make(Step::Sent(seen)) {
            Ok(()) => self.make(Step::SinkTakes),
            Err(fault) => Err(fault),
        }
    }

    // A word of a block is recorded, and the sink takes it. The words of the block before it are lost.
    fn send_of_block(&mut self, seen: Seen) -> Result<(), StepFault>
        ensures profile { self.new.link.profile ≡ self.old.link.profile }
        ensures written { OnOk result (WritesNext (Some seen) self.old self.new) }
        ensures lossless { CanMake (sent seen) self.old.link → OnlyLacksMemory result }
        ensures reached { CanMake (sent seen) self.old.link → OnOk result (self.new.link ≡ link_after (sent seen) self.old.link) }
    {
        let bus = seen.bus;
        let word = seen.word;
        match self.next_word(Seen { bus, word }) {
            Some(next) => self.carry(next),
            None => self.send_some(seen),
        }
    }

    // The data word that the source sends next, where the sink has taken all words before it, nothing is on its way, and
    // this one is recorded.
    fn next_word(&self, seen: Seen) -> Option<NextWord>
        ensures { IfSome result (λ next. IsReadyWord self.now.link next × (seen ≡ on_a next.word)) }
    {
        let next = self.link.next_word()?;
        if next.place < 254 && seen.bus == Bus::A && seen.word == next.word {
            Some(next)
        } else {
            None
        }
    }

    // This data word is sent, and the sink takes it.
    fn carry(&mut self, next: NextWord) -> Result<(), StepFault>
        requires { IsReadyWord self.old.link next }
        ensures profile { self.new.link.profile ≡ self.old.link.profile }
        ensures written { OnOk result (WritesNext (Some (on_a next.word)) self.old self.new) }
        ensures lossless { OnlyLacksMemory result }
        ensures reached { self.new.link ≡ link_after (sent (on_a next.word)) self.old.link }
    {
        let place = next.place;
        self.link.carry(next);
        match self.lines.put_word_lines(place) {
            Ok(()) => Ok(()),
            Err(OutOfMemory) => Err(StepFault::OutOfMemory),
        }
    }

    // A word of a block is recorded, and the sink takes it, one step after the other. The words of the block before it are lost.
    fn send_some(&mut self, seen: Seen) -> Result<(), StepFault>
        ensures profile { self.new.link.profile ≡ self.old.link.profile }
        ensures written { OnOk result (WritesNext (Some seen) self.old self.new) }
        ensures lossless { CanMake (sent seen) self.old.link → OnlyLacksMemory result }
        ensures reached { CanMake (sent seen) self.old.link → OnOk result (self.new.link ≡ link_after (sent seen) self.old.link) }
    {
        let bus = seen.bus;
        let word = seen.word;
        match self.make(Step::Sent(Seen { bus, word })) {
            Ok(()) => self.make(Step::SinkTakes),
            Err(StepFault::WordDiffers) => self.send_later(seen),
            Err(fault) => Err(fault),
        }
    }

    // Loses words of a block until this one comes.
    fn send_later(&mut self, seen: Seen) -> Result<(), StepFault>
        ensures profile { self.new.link.profile ≡ self.old.link.profile }
        ensures written { OnOk result (WritesNext (Some seen) self.old self.new) }
    {
        let bus = seen.bus;
        let word = seen.word;
        for _ in 0..=u8::MAX {
            self.make(Step::SentLost)?;
            match self.make(Step::Sent(Seen { bus, word })) {
                Ok(()) => return self.make(Step::SinkTakes),
                Err(StepFault::WordDiffers) => {}
                Err(fault) => return Err(fault),
            }
        }
        Err(StepFault::NotAllowed)
    }

    // An answer of the sink is recorded, and the source takes it, or it is lost after the recorder.
    fn answer(&mut self, seen: Seen, is_taken: bool) -> Result<(), StepFault>
        ensures profile { self.new.link.profile ≡ self.old.link.profile }
        ensures written { OnOk result (WritesNext (Some seen) self.old self.new) }
        ensures lossless { is_taken ≡ true → CanMake (answered seen) self.old.link → OnlyLacksMemory result }
        ensures lost { is_taken ≡ false → CanMake (unheard seen) self.old.link → OnlyLacksMemory result }
        ensures reached { is_taken ≡ true → OnOk result (self.new.link ≡ link_after (answered seen) self.old.link) }
    {
        self.make(Step::Answered(seen))?;
        if is_taken {
            self.make(Step::TakeAnswer)
        } else {
            self.make(Step::LoseAnswer)
        }
    }

    // Where a group begins, the source gives up the files of its plan, and loads its link data unit.
    fn begin(&mut self, plan: Option<Plan>) -> Result<(), StepFault>
        requires { IfSome plan (λ q. IsLdu self.old.link.profile q.unit) }
        ensures profile { self.new.link.profile ≡ self.old.link.profile }
        ensures written { OnOk result (WritesNext None self.old self.new) }
        ensures lossless { CanMake (begin_steps plan) self.old.link → OnlyLacksMemory result }
        ensures reached { OnOk result (self.new.link ≡ link_after (begin_steps plan) self.old.link) }
    {
        match plan {
            Some(Plan { give_ups, unit, .. }) => match self.give_up(give_ups) {
                Ok(()) => self.load(unit),
                Err(fault) => Err(fault),
            },
            None => Ok(()),
        }
    }

    // The source gives so many files up.
    fn give_up(&mut self, files: u8) -> Result<(), StepFault>
        ensures profile { self.new.link.profile ≡ self.old.link.profile }
        ensures written { OnOk result (WritesNext None self.old self.new) }
        ensures lossless { CanMake (giving_up files) self.old.link → OnlyLacksMemory result }
        ensures reached { OnOk result (self.new.link ≡ link_after (giving_up files) self.old.link) }
    {
        let mut left = files;
        while left > 0 {
            left -= 1;
            self.make(Step::GiveUp)?;
        }
        Ok(())
    }

    // The source loads a link data unit.
    fn load(&mut self, unit: Ldu) -> Result<(), StepFault>
        requires { IsLdu self.old.link.profile unit }
        ensures profile { self.new.link.profile ≡ self.old.link.profile }
        ensures written { OnOk result (WritesNext None self.old self.new) }
        ensures lossless { Can self.old.link.profile (step.Load unit) self.old.link.state → OnlyLacksMemory result }
        ensures reached { OnOk result (self.new.link ≡ link_after (step.Load unit ∷ []) self.old.link) }
    {
        match self.lines.put_load(&unit) {
            Ok(()) => self.link.apply(Step::Load(unit)),
            Err(OutOfMemory) => Err(StepFault::OutOfMemory),
        }
    }

    // Makes a step, and writes its line with the state that it leads to.
    fn make(&mut self, step: Step) -> Result<(), StepFault>
        requires loads { LoadsLdu self.old.link.profile step }
        requires letter { IsSome (letter_of step) }
        ensures profile { self.new.link.profile ≡ self.old.link.profile }
        ensures written { OnOk result (WritesNext (label step) self.old self.new) }
        ensures reached { OnOk result (self.new.link ≡ link_after (step ∷ []) self.old.link) }
        ensures closed { IsClosing step → OnOk result (ClosesOn self.old.link self.new.link) }
        ensures lossless { Can self.old.link.profile step self.old.link.state → OnlyLacksMemory result }
        ensures unchanged { IfErr result (λ e. e ≢ StepFault.OutOfMemory → self.new ≡ self.old) }
    {
        let Some(act) = letter_of(&step) else {
            return Err(StepFault::OutOfMemory);
        };
        let gives_up = is_give_up(&step);
        self.link.apply(step)?;
        self.gave_up |= gives_up;
        let states = self.link.states();
        self.write(MovedLine { act, states })
    }

    // Writes the line of a step that is no load.
    fn write(&mut self, line: MovedLine) -> Result<(), StepFault>
        ensures link { self.new.link ≡ self.old.link }
        ensures gave_up { self.new.gave_up ≡ self.old.gave_up }
        ensures ok { OnOk result (self.new.lines ≡ self.old.lines ++ line_after (Moved line)) }
        ensures held { IsHeld (Moved line) }
        ensures err { IfErr result (λ e. e ≡ StepFault.OutOfMemory) }
    {
        match self.lines.put_move(line) {
            Ok(()) => Ok(()),
            Err(OutOfMemory) => Err(StepFault::OutOfMemory),
        }
    }
}

fn is_give_up(step: &Step) -> bool
    ensures { result ≡ is_give_up step.now }
{
    matches!(*step, Step::GiveUp)
}
