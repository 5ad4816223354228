//! What a recording has shown so far of the link data unit whose start word came last.

ghost use Rattle.std.specs.Prelude.{◌≡◌, ◌⊎◌, ◌↔◌, ℕ, List, Option, Some, IfSome, IsTrue, OnOk};
ghost use Rattle.a429_link.specs.Contradiction.{none_so_far, sends, so_far_after, with_start, with_ack, IsOtherEnd, IsOtherForm, IsWrongForm};
ghost use Rattle.a429_link.specs.Group.{IsFurther};
ghost use Rattle.a429_contradiction.specs.Against.{GoesOnIn, block_so_far, count_so_far, ending_so_far, number_so_far, start_so_far};
ghost use Rattle.a429_contradiction.specs.SoFar.{kept_with, unheard, with_end_word};

use crate::attempt_words::AttemptWords;
use a429_ldu::Form;
use a429_link::{Seen, UnitNumber};
use a429_word::{Bus, Word};
use std::alloc::{AllocError, Global};
use std::marker::Model;

/// A link data unit, by what was recorded of it.
#[derive(Clone, Copy)]
pub(crate) struct UnitKept {
    /// The number in its start word.
    pub number: UnitNumber,
    /// Its start word.
    pub start: Word,
    /// How many words its first request asks for.
    pub count: u8,
    /// Its end word, where one was recorded.
    pub ending: Option<Word>,
}

/// The attempt that is under way, and the link data unit whose start word came last, unless another number was acknowledged
/// since.
#[derive(Drop)]
pub(crate) struct SoFar {
    // How many words the request of the attempt asks for.
    count: u8,
    // Those since its clear answer, and the block of the unit, where an attempt was recorded whole.
    words: AttemptWords,
    unit: Option<UnitKept>,
}

impl Model for SoFar {
    ghost use Rattle.std.specs.Prelude.{None};
    ghost use Rattle.a429_link.specs.Contradiction as model;
    ghost use Rattle.a429_contradiction.specs.SoFar.{unit_with};

    ghost Value = { model.SoFar };

    ghost view = { λ s. record { attempt = record { count = s.count; words = s.words.words; acked = None }; unit = unit_with s.words.block s.unit } };
}

impl SoFar {
    /// Before all words.
    pub(crate) fn new(alloc: Global) -> SoFar
        ensures { result ≡ none_so_far }
    {
        SoFar {
            count: 0,
            words: AttemptWords::new(alloc),
            unit: None,
        }
    }

    /// How many words the request of the attempt asks for.
    pub(crate) fn count(&self) -> u8
        ensures { result ≡ self.now.attempt.count }
    {
        self.count
    }

    /// The unit, as it is kept.
    pub(crate) fn unit(&self) -> Option<UnitKept>
        ensures number { IfSome result (λ u. number_so_far self.now.unit ≡ Some u.number) }
        ensures start { IfSome result (λ u. start_so_far self.now.unit ≡ Some u.start) }
        ensures count { IfSome result (λ u. count_so_far self.now.unit ≡ Some u.count) }
        ensures ending { IfSome result (λ u. ending_so_far self.now.unit ≡ u.ending) }
    {
        match self.unit {
            Some(unit) => Some(unit),
            None => None,
        }
    }

    /// The next word of the unit's block, where the words of the attempt are some of it, in order, and with one more word they
    /// are not.
    pub(crate) fn next(&self, word: Word) -> Option<Word>
        ensures { IfSome result (λ next. GoesOnIn self.now.attempt.words word next (block_so_far self.now.unit)) }
    {
        match self.unit {
            Some(_) => self.words.next(word),
            None => None,
        }
    }

    /// A start word of this form has a number that is neither that of the start word before it nor a further one.
    pub(crate) fn is_wrong(&self, bus: Bus, form: &Form) -> bool
        ensures { IsTrue result ↔ IsWrongForm bus (Some form.now) self.now }
    {
        match (bus, *form, self.unit) {
            (Bus::A, Form::Sot { file, ldu, .. }, Some(unit)) if self.words.len() == 0 => {
                !follows(unit.number, number_of(file, ldu))
            }
            _ => false,
        }
    }

    /// A word of this form contradicts what was recorded of the same link data unit.
    pub(crate) fn is_other(&self, seen: Seen, form: &Form) -> bool
        ensures { IsTrue result ↔ IsOtherForm seen.bus seen.word (Some form.now) self.now }
    {
        let Some(unit) = self.unit else {
            return false;
        };
        match (seen.bus, *form) {
            (Bus::A, Form::Sot { file, ldu, .. }) => {
                let is_again = self.words.len() == 0 && unit.number == number_of(file, ldu);
                is_again && (seen.word != unit.start || self.count != unit.count)
            }
            (Bus::A, Form::Part(_)) => self.sends(unit) && self.words.is_outside(seen.word),
            (Bus::A, Form::Eot { .. }) => {
                let is_other = unit.has_other_end(seen.word) || self.words.is_outside(seen.word);
                self.sends(unit) && is_other
            }
            _ => false,
        }
    }

    // The attempt is one to send the unit: its first word is the unit's start word.
    fn sends(&self, unit: UnitKept) -> bool
        ensures { (block : Option (List ℕ)) → result ≡ sends (kept_with block unit) self.now.attempt.words }
    {
        match self.words.first() {
            Some(word) => word == unit.start,
            None => false,
        }
    }

    /// Takes the next word, which has this form.
    pub(crate) fn take(&mut self, seen: Seen, form: &Form) -> Result<(), AllocError>
        ensures { OnOk result (unheard self.new ≡ unheard (so_far_after seen.bus seen.word (Some form.now) self.old)) }
    {
        match seen.bus {
            Bus::A => self.take_word(seen.word, form),
            Bus::B => {
                self.take_answer(form);
                Ok(())
            }
        }
    }

    fn take_word(&mut self, word: Word, form: &Form) -> Result<(), AllocError>
        ensures { OnOk result (unheard self.new ≡ unheard (so_far_after Bus.A word (Some form.now) self.old)) }
    {
        match *form {
            Form::Rts { count } => {
                self.count = count;
                self.words.clear();
                Ok(())
            }
            Form::Sot { file, ldu, .. } => {
                self.start(number_of(file, ldu), word);
                self.words.push(word)
            }
            Form::Part(_) => self.words.push(word),
            Form::Eot { .. } => self.end(word),
            Form::Cts { .. } | Form::Ack { .. } | Form::Nak { .. } => Ok(()),
        }
    }

    fn take_answer(&mut self, form: &Form)
        ensures { (word : ℕ) → unheard self.new ≡ unheard (so_far_after Bus.B word (Some form.now) self.old) }
    {
        match *form {
            Form::Cts { .. } => self.words.clear(),
            Form::Ack { file, ldu } => self.hear(number_of(file, ldu)),
            Form::Rts { .. }
            | Form::Nak { .. }
            | Form::Sot { .. }
            | Form::Part(_)
            | Form::Eot { .. } => {}
        }
    }

    // At a start word: where it is the first word of its attempt, the unit with its number is begun, unless it is there.
    fn start(&mut self, number: UnitNumber, word: Word)
        ensures { self.new ≡ record (self.old) { unit = with_start self.old.attempt self.old.attempt.words number word self.old.unit } }
    {
        let is_there = match self.unit {
            Some(unit) => unit.number == number,
            None => false,
        };
        if self.words.len() == 0 && !is_there {
            self.unit = Some(UnitKept {
                number,
                start: word,
                count: self.count,
                ending: None,
            });
            self.words.forget();
        }
    }

    // Takes an end word: the unit has it, and where the attempt is whole, the attempt is its block.
    fn end(&mut self, word: Word) -> Result<(), AllocError>
        ensures { OnOk result (self.new ≡ with_end_word word self.old) }
    {
        let is_sent = match self.unit {
            Some(unit) => self.sends(unit),
            None => false,
        };
        self.words.push(word)?;
        if let Some(unit) = self.unit
            && is_sent
        {
            self.unit = Some(UnitKept {
                ending: Some(word),
                ..unit
            });
            if self.words.len() == usize::from(self.count) {
                self.words.keep()?;
            }
        }
        Ok(())
    }

    // At an acknowledgement: of another number the unit is left.
    fn hear(&mut self, number: UnitNumber)
        ensures { self.new ≡ record (self.old) { unit = with_ack number self.old.unit } }
    {
        if let Some(unit) = self.unit
            && unit.number != number
        {
            self.unit = None;
        }
    }
}

impl UnitKept {
    // An end word is known, and it is another one.
    fn has_other_end(&self, word: Word) -> bool
        ensures { IsTrue result ↔ IsOtherEnd word self.now.ending }
    {
        match self.ending {
            Some(ending) => word != ending,
            None => false,
        }
    }
}

// The number in a start word or an acknowledgement.
pub(crate) fn number_of(file: u8, ldu: u8) -> UnitNumber
    ensures { result ≡ record { file = file; ldu = ldu } }
{
    let ldu = u16::from(ldu);
    UnitNumber { file, ldu }
}

// The second number is the first, a later one of the same file, or one of a file that is 1 to 128 past.
fn follows(number: UnitNumber, later: UnitNumber) -> bool
    ensures { IsTrue result ↔ ((later ≡ number) ⊎ IsFurther number later) }
{
    let past = later.file.wrapping_sub(number.file);
    if past == 0 {
        number.ldu <= later.ldu
    } else {
        past <= 128
    }
}
