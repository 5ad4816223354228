//! The source of a file transfer.

ghost use Rattle.std.specs.Prelude.{ℕ, ◌≡◌, ◌≤◌, ◌+◌, ◌↔◌, IsTrue, IsSome, IfSome, IfNone, None, Some};
ghost use Rattle.a429_profile.specs.Profile.{Contents};
ghost use Rattle.a429_ldu.specs.Ldu.{IsLdu};
ghost use Rattle.a429_link.specs.Carry.{SendsMore};
ghost use Rattle.a429_link.specs.Losses.{words_left, with_rest_lost};
ghost use Rattle.a429_link.specs.Source as model;
ghost use Rattle.a429_link.specs.Source.{next_word, with_answer, IsIdle, Waits, with_word_sent, next_word_of, given_up};

use crate::number::UnitNumber;
use crate::state::SourceState;
use a429_ldu::{Form, Ldu, word_of};
use a429_profile::Profile;
use a429_word::Word;
use std::marker::Model;

/// The source: the number of the link data unit that is current or next, this one if it is loaded, what
/// the source is doing, and how many files it has given up since its last acknowledgement.
#[derive(Drop)]
pub(crate) struct Source {
    number: UnitNumber,
    current: Option<Ldu>,
    state: SourceState,
    give_ups: u8,
}

impl Model for Source {
    ghost use Rattle.std.specs.Prelude.{◌≤◌, IsSome};
    ghost use Rattle.a429_link.specs.Source as model;

    ghost Value = { model.Source };

    ghost view = { λ s. record { number = s.number; current = s.current; phase = s.state; give_ups = s.give_ups } };

    ghost invariant = { λ s. (s.number.ldu ≤ 256) × (IsSome s.current → s.number.ldu ≤ 255) };
}

impl Source {
    /// A source that has loaded nothing, and whose first link data unit has this number.
    pub(crate) fn new(number: UnitNumber) -> Source
        requires { number.ldu ≤ 255 }
        ensures { result ≡ record { number = number; current = None; phase = SourceState.Idle; give_ups = 0 } }
    {
        Source {
            number,
            current: None,
            state: SourceState::Idle,
            give_ups: 0,
        }
    }

    pub(crate) fn state(&self) -> SourceState
        ensures { result ≡ self.now.phase }
    {
        self.state
    }

    /// The number of the link data unit that is current or next.
    pub(crate) fn number(&self) -> UnitNumber
        ensures { result ≡ self.now.number }
    {
        self.number
    }

    /// It waits for an answer.
    pub(crate) fn waits(&self) -> bool
        ensures { IsTrue result ↔ Waits self.now.phase }
    {
        matches!(self.state, SourceState::Awaiting | SourceState::Waiting)
    }

    /// It can load a link data unit.
    pub(crate) fn may_load(&self, first_ldu: u8) -> bool
        ensures { IsTrue result ↔ (IsIdle self.now.phase × (self.now.current ≡ None) × (self.now.number.ldu ≤ first_ldu + 254)) }
    {
        self.state == SourceState::Idle
            && self.current.is_none()
            && self.number.ldu <= u16::from(first_ldu) + 254
    }

    /// Loads a link data unit.
    pub(crate) fn load(&mut self, unit: Ldu)
        requires { self.old.number.ldu ≤ 255 }
        ensures { self.new ≡ record (self.old) { current = Some unit } }
    {
        self.current = Some(unit);
    }

    /// It can give up so many files, its own and the next ones, one after the other.
    pub(crate) fn may_give_up(&self, files: u8) -> bool
        ensures { IsTrue result ↔ (IsIdle self.now.phase × (self.now.give_ups + files ≤ 127)) }
    {
        self.state == SourceState::Idle && files <= 127 && self.give_ups <= 127 - files
    }

    /// Gives its file up, with what it has loaded, and goes on to the next file.
    pub(crate) fn give_up(&mut self, profile: &Profile)
        requires { self.old.give_ups ≤ 126 }
        ensures { self.new ≡ given_up profile.now.codes self.old }
    {
        let file = self.number.file.wrapping_add(1);
        self.pass_to(UnitNumber::first(profile, file));
        self.give_ups += 1;
    }

    // It is at this number, with nothing loaded.
    fn pass_to(&mut self, number: UnitNumber)
        requires { number.ldu ≤ 256 }
        ensures { self.new ≡ record (self.old) { number = number; current = None } }
    {
        self.number = number;
        self.current = None;
    }

    /// It sends a word now.
    #[inline(always)]
    pub(crate) fn sends(&self) -> bool
        ensures { (p : Contents) → IsTrue result ↔ IsSome (next_word_of p self.now) }
    {
        let Some(unit) = &self.current else {
            return false;
        };
        match self.state {
            SourceState::Idle => true,
            SourceState::Sending(sent) => sent < unit.count(),
            SourceState::Awaiting | SourceState::Waiting => false,
        }
    }

    /// The place in its block, counted from 0, of the word that it sends next, where one more comes after it.
    #[inline(always)]
    pub(crate) fn place(&self) -> Option<u8>
        ensures some { IfSome result (SendsMore self.now) }
        ensures none { IfNone result ((place : ℕ) → SendsMore self.now place → ⊥) }
    {
        let Some(unit) = &self.current else {
            return None;
        };
        match self.state {
            SourceState::Sending(sent) => {
                if sent < unit.count() - 1 {
                    Some(sent)
                } else {
                    None
                }
            }
            SourceState::Idle | SourceState::Awaiting | SourceState::Waiting => None,
        }
    }

    /// Its next word, if it sends one now.
    #[inline(always)]
    pub(crate) fn next(&self, profile: &Profile) -> Option<Word>
        ensures { result ≡ next_word_of profile.now self.now }
    {
        let Some(unit) = &self.current else {
            return None;
        };
        match self.state {
            SourceState::Idle => {
                let count = unit.count();
                Some(word_of(profile, &Form::Rts { count }))
            }
            SourceState::Sending(sent) => {
                if sent >= unit.count() {
                    return None;
                }
                Some(unit.word(profile, sent, self.number.file, self.number.ldu as u8))
            }
            SourceState::Awaiting | SourceState::Waiting => None,
        }
    }

    /// Goes on after its next word.
    pub(crate) fn go_on(&mut self, profile: &Profile)
        requires { IsSome (next_word_of profile.now self.old) }
        ensures { self.new ≡ with_word_sent self.old }
    {
        let Some(unit) = &self.current else {
            return;
        };
        match self.state {
            SourceState::Idle => self.state = SourceState::Awaiting,
            SourceState::Sending(sent) => {
                let count = unit.count();
                self.state = if sent + 1 == count {
                    SourceState::Waiting
                } else {
                    SourceState::Sending(sent + 1)
                };
            }
            SourceState::Awaiting | SourceState::Waiting => {}
        }
    }

    /// Goes on after all words of its block, and answers how many it had still to send.
    pub(crate) fn pass_rest(&mut self) -> u8
        ensures count { result ≡ words_left self.old }
        ensures rest { self.new ≡ with_rest_lost self.old }
    {
        let Some(unit) = &self.current else {
            return 0;
        };
        let SourceState::Sending(sent) = self.state else {
            return 0;
        };
        let count = unit.count();
        if sent >= count {
            return 0;
        }
        self.state = SourceState::Waiting;
        count - sent
    }

    /// It no longer waits, and keeps its link data unit.
    pub(crate) fn time_out(&mut self)
        ensures { self.new ≡ record (self.old) { phase = SourceState.Idle } }
    {
        self.state = SourceState::Idle;
    }

    /// Takes an answer of this form.
    pub(crate) fn hear(&mut self, profile: &Profile, answer: &Form)
        ensures { self.new ≡ with_answer profile.now.codes self.old.current self.old.phase answer.now self.old }
    {
        let Some(unit) = &self.current else {
            return;
        };
        match (self.state, *answer) {
            (SourceState::Awaiting, Form::Cts { count }) => {
                if count == unit.count() {
                    self.state = SourceState::Sending(0);
                }
            }
            (SourceState::Waiting, Form::Ack { file, ldu }) => {
                if file == self.number.file && u16::from(ldu) == self.number.ldu {
                    let next = self.number.after(profile, unit);
                    self.pass_to(next);
                    self.state = SourceState::Idle;
                    self.give_ups = 0;
                }
            }
            (SourceState::Waiting, Form::Nak { .. }) => self.state = SourceState::Idle,
            _ => {}
        }
    }
}
