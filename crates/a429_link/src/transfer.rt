//! The source, the sink, and the recorded words between them.

ghost use Rattle.std.specs.Prelude.{◌≡◌, ◌≤◌, ◌↔◌, IsTrue, IfSome, IfNone, length};
ghost use Rattle.a429_profile.specs.Profile.{Contents, IsProfile};
ghost use Rattle.a429_ldu.specs.Ldu.{IsLdu, LduValue};
ghost use Rattle.a429_link.specs.declared.carry.NextWord.{NextWord};
ghost use Rattle.a429_link.specs.declared.step.Step.TheVariants as step;
ghost use Rattle.a429_link.specs.Carry.{IsAtWord, SendsNext, after_both};
ghost use Rattle.a429_link.specs.Losses.{words_left, with_rest_lost};
ghost use Rattle.a429_link.specs.Sink.{held_count};
ghost use Rattle.a429_link.specs.Step.{LoadsLdu};
ghost use Rattle.a429_link.specs.State.{start, sink_state_of};
ghost use Rattle.a429_link.specs.Transfer.{Applies, IsReadyStep, LeadsToBounded};
ghost use Rattle.a429_link.specs.GiveUps.{MayGiveUp};
ghost use Rattle.a429_link.specs.Run.{IsBounded};
ghost use Rattle.a429_link.specs.declared.seen.Seen.{Seen};
ghost use Rattle.a429_link.specs.Link.{handed_out};

use crate::carry::NextWord;
use crate::fault::StepFault;
use crate::file::FileBytes;
use crate::number::UnitNumber;
use crate::reading::{form_of, is_free};
use crate::seen::Seen;
use crate::sink::Sink;
use crate::source::Source;
use crate::state::{SinkState, SourceState};
use crate::step::Step;
use a429_ldu::Ldu;
use a429_profile::Profile;
use a429_word::{Bus, Word};
use std::alloc::Global;
use std::marker::Model;

/// The source, the sink, and the words of each bus that are recorded and not yet taken.
#[derive(Drop)]
pub(crate) struct Transfer {
    source: Source,
    // It has the words on their way to it.
    sink: Sink,
    to_source: Option<Word>,
}

impl Model for Transfer {
    ghost use Rattle.std.specs.Option.{option_to_list};
    ghost use Rattle.a429_link.specs.State.{State};

    ghost Value = { State };

    ghost view = { λ t. record {
      source = t.source;
      sink = t.sink.sink;
      to_sink = t.sink.to_sink;
      to_source = option_to_list t.to_source;
    } };
}

impl Transfer {
    /// Nothing has happened, and the first file has this number.
    pub(crate) fn start(alloc: Global, profile: &Profile, first_file: u8) -> Transfer
        ensures state { result ≡ start profile.now first_file }
        ensures sound { IsProfile profile.now }
    {
        // (for the proof: the profile is sound)
        let _codes = profile.codes();
        Transfer {
            source: Source::new(UnitNumber::first(profile, first_file)),
            sink: Sink::new(alloc),
            to_source: None,
        }
    }

    /// A word may be sent now.
    #[inline(always)]
    pub(crate) fn may_send(&self) -> bool
        ensures { (p : Contents) (i : Seen) → IsTrue result ↔ IsReadyStep p (step.Sent i) self.now }
    {
        self.source.sends()
    }

    /// An answer may be given now.
    #[inline(always)]
    pub(crate) fn may_answer(&self) -> bool
        ensures { (p : Contents) (i : Seen) → IsTrue result ↔ IsReadyStep p (step.Answered i) self.now }
    {
        self.sink.owes()
    }

    /// A link data unit may be loaded now.
    pub(crate) fn may_load(&self, profile: &Profile) -> bool
        ensures { (u : LduValue) → IsLdu profile.now u → (IsTrue result ↔ IsReadyStep profile.now (step.Load u) self.now) }
    {
        self.source.may_load(profile.codes().first_ldu)
    }

    /// So many files may be given up now, one after the other.
    pub(crate) fn may_give_up(&self, files: u8) -> bool
        ensures { IsTrue result ↔ MayGiveUp self.now files }
    {
        self.source.may_give_up(files)
    }

    /// Makes a step, or refuses it and changes nothing.
    #[inline(always)]
    pub(crate) fn apply(
        &mut self,
        alloc: Global,
        profile: &Profile,
        step: Step,
    ) -> Result<(), StepFault>
        requires unit { LoadsLdu profile.now step }
        requires bound { IsBounded self.old }
        requires next { LeadsToBounded profile.now step self.old }
        ensures { Applies profile.now step self.old self.new result }
    {
        match step {
            Step::Load(unit) => self.load(profile, unit),
            Step::Sent(seen) => self.sent(profile, seen),
            Step::SentLost => self.sent_lost(profile),
            Step::TimeOut => self.time_out(profile),
            Step::TakeAnswer => self.take_answer(profile),
            Step::LoseAnswer => self.lose_answer(profile),
            Step::SinkTakes => self.sink_takes(profile),
            Step::Silent => self.silent(profile),
            Step::Answered(seen) => self.answered(alloc, profile, seen),
            Step::FreeSeen(seen) => self.free_seen(profile, seen),
            Step::GiveUp => self.give_up(profile),
        }
    }

    /// The word of its block that the source sends next, where one more comes after it, the sink has taken all words before
    /// it, and nothing is on its way.
    #[inline(always)]
    pub(crate) fn next_word(&self, profile: &Profile) -> Option<NextWord>
        ensures some { IfSome result (λ next. SendsNext profile.now next self.now) }
        ensures none { IfNone result ((next : NextWord) → SendsNext profile.now next self.now → ⊥) }
    {
        let Some(place) = self.source.place() else {
            return None;
        };
        if self.to_source.is_some() || !self.sink.has_taken(place) {
            return None;
        }
        match self.source.next(profile) {
            Some(word) => Some(NextWord { place, word }),
            None => None,
        }
    }

    /// Such a word, which is a data word, is sent and taken.
    #[inline(always)]
    pub(crate) fn carry(&mut self, profile: &Profile, next: NextWord)
        requires { IsAtWord profile.now next self.old }
        ensures { self.new ≡ after_both profile.now next.word self.old }
    {
        self.sink.push(next.word);
        self.sink.add_word();
        self.source.go_on(profile);
    }

    /// The words of its block that the source has still to send are lost. Answers how many.
    pub(crate) fn lose_rest(&mut self) -> u8
        ensures count { result ≡ words_left self.old.source }
        ensures lost { self.new ≡ record (self.old) { source = with_rest_lost self.old.source } }
    {
        self.source.pass_rest()
    }

    fn load(&mut self, profile: &Profile, unit: Ldu) -> Result<(), StepFault>
        requires { IsLdu profile.now unit }
        ensures { Applies profile.now (step.Load unit) self.old self.new result }
    {
        if !self.source.may_load(profile.codes().first_ldu) {
            return Err(StepFault::NotAllowed);
        }
        self.source.load(unit);
        Ok(())
    }

    fn sent(&mut self, profile: &Profile, seen: Seen) -> Result<(), StepFault>
        requires { LeadsToBounded profile.now (step.Sent seen) self.old }
        ensures { Applies profile.now (step.Sent seen) self.old self.new result }
    {
        let Some(next) = self.source.next(profile) else {
            return Err(StepFault::NotAllowed);
        };
        if seen.bus != Bus::A || seen.word != next {
            return Err(StepFault::WordDiffers);
        }
        self.sink.push(seen.word);
        self.source.go_on(profile);
        Ok(())
    }

    fn sent_lost(&mut self, profile: &Profile) -> Result<(), StepFault>
        ensures { Applies profile.now step.SentLost self.old self.new result }
    {
        if !self.source.sends() {
            return Err(StepFault::NotAllowed);
        }
        self.source.go_on(profile);
        Ok(())
    }

    fn time_out(&mut self, profile: &Profile) -> Result<(), StepFault>
        ensures { Applies profile.now step.TimeOut self.old self.new result }
    {
        let nothing_on_its_way = self.sink.first().is_none() && self.to_source.is_none();
        if !self.source.waits() || !self.sink.listens() || !nothing_on_its_way {
            return Err(StepFault::NotAllowed);
        }
        self.source.time_out();
        Ok(())
    }

    fn take_answer(&mut self, profile: &Profile) -> Result<(), StepFault>
        ensures { Applies profile.now step.TakeAnswer self.old self.new result }
    {
        let Some(word) = self.to_source.take() else {
            return Err(StepFault::NotAllowed);
        };
        if let Some(answer) = form_of(profile, Bus::B, word) {
            self.source.hear(profile, &answer);
        }
        Ok(())
    }

    fn lose_answer(&mut self, profile: &Profile) -> Result<(), StepFault>
        ensures { Applies profile.now step.LoseAnswer self.old self.new result }
    {
        if self.to_source.is_none() {
            return Err(StepFault::NotAllowed);
        }
        self.to_source = None;
        Ok(())
    }

    fn sink_takes(&mut self, profile: &Profile) -> Result<(), StepFault>
        ensures { Applies profile.now step.SinkTakes self.old self.new result }
    {
        if !self.sink.listens() {
            return Err(StepFault::NotAllowed);
        }
        let Some(word) = self.sink.first() else {
            return Err(StepFault::NotAllowed);
        };
        match form_of(profile, Bus::A, word) {
            Some(form) => {
                self.sink.take(profile, &form);
            }
            None => self.sink.pass(),
        }
        Ok(())
    }

    fn silent(&mut self, profile: &Profile) -> Result<(), StepFault>
        ensures { Applies profile.now step.Silent self.old self.new result }
    {
        if !self.sink.owes() {
            return Err(StepFault::NotAllowed);
        }
        self.sink.silence();
        Ok(())
    }

    fn answered(&mut self, alloc: Global, profile: &Profile, seen: Seen) -> Result<(), StepFault>
        requires bound { IsBounded self.old }
        requires next { LeadsToBounded profile.now (step.Answered seen) self.old }
        ensures { Applies profile.now (step.Answered seen) self.old self.new result }
    {
        if !self.sink.owes() {
            return Err(StepFault::NotAllowed);
        }
        let Some(answer) = form_of(profile, Bus::B, seen.word) else {
            return Err(StepFault::WordDiffers);
        };
        if seen.bus != Bus::B || !self.sink.may_answer(&answer) {
            return Err(StepFault::WordDiffers);
        }
        if self.sink.answer(alloc, profile, &answer).is_err() {
            return Err(StepFault::OutOfMemory);
        }
        self.to_source = Some(seen.word);
        Ok(())
    }

    fn free_seen(&self, profile: &Profile, seen: Seen) -> Result<(), StepFault>
        ensures { Applies profile.now (step.FreeSeen seen) self.now self.now result }
    {
        if is_free(profile, seen.bus, seen.word) {
            Ok(())
        } else {
            Err(StepFault::WordDiffers)
        }
    }

    fn give_up(&mut self, profile: &Profile) -> Result<(), StepFault>
        ensures { Applies profile.now step.GiveUp self.old self.new result }
    {
        if !self.source.may_give_up(1) {
            return Err(StepFault::NotAllowed);
        }
        self.source.give_up(profile);
        Ok(())
    }

    /// What the source is doing.
    pub(crate) fn source(&self) -> SourceState
        ensures { result ≡ self.now.source.phase }
    {
        self.source.state()
    }

    /// The number of the source's link data unit, current or next.
    pub(crate) fn number(&self) -> UnitNumber
        ensures { result ≡ self.now.source.number }
    {
        self.source.number()
    }

    /// What the sink is doing.
    pub(crate) fn sink(&self) -> SinkState
        requires { held_count self.now.sink.phase ≤ 255 }
        ensures { result ≡ sink_state_of self.now.sink.phase }
    {
        self.sink.state()
    }

    /// How many words are on their way to the sink.
    pub(crate) fn to_sink(&self) -> usize
        ensures { result ≡ length self.now.to_sink }
    {
        self.sink.coming()
    }

    /// How many answers are on their way to the source.
    pub(crate) fn to_source(&self) -> usize
        ensures { result ≡ length self.now.to_source }
    {
        usize::from(self.to_source.is_some())
    }

    /// The files delivered since they were last taken.
    pub(crate) fn delivered(&self) -> &[FileBytes]
        ensures { result.now ≡ self.now.sink.received.files }
    {
        self.sink.delivered()
    }

    /// Hands these files out.
    pub(crate) fn take_delivered(&mut self, alloc: Global) -> Vec<FileBytes>
        ensures files { result.items ≡ self.old.sink.received.files }
        ensures rest { self.new ≡ handed_out self.old }
    {
        self.sink.take_delivered(alloc)
    }
}
