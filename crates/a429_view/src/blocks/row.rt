//! The row of an attempt.

ghost use Rattle.std.specs.Prelude.{◌≡◌, Some};
ghost use Rattle.a429_view.specs.Blocks.{acknowledged_by};
ghost use Rattle.a429_view.specs.BlockSteps.{begun, counted, noted, passed};

use crate::units::span::Moment;
use a429_ldu::Form;
use a429_link::{Doing, UnitNumber, Why};

/// An answer of the sink in an attempt (ARINC 429 Part 3).
#[derive(Clone, Copy)]
pub enum Answer {
    /// The clear answer.
    Clear,
    /// The acknowledgement of a block that the sink accepts.
    Accepted,
    /// The acknowledgement of the block that it accepted last, once more.
    Again,
    /// The negative answer.
    Negative,
}

/// What is known of an attempt: a request, with what was recorded after it.
#[derive(Clone, Copy)]
pub struct AttemptRow {
    /// The request.
    pub first: Moment,
    /// The last word with the transfer's label of its bus.
    pub last: Moment,
    /// The number of the start word.
    pub unit: Option<UnitNumber>,
    /// How many words were asked for.
    pub asked: u8,
    /// How many words of the block were recorded.
    pub got: u64,
    /// How many words of bus A with the transfer's label have wrong parity.
    pub damaged: u64,
    /// The last answer.
    pub answer: Option<Answer>,
    /// Why the block is not good.
    pub why: Option<Why>,
}

impl AttemptRow {
    /// That of a request for so many words.
    pub fn new(first: Moment, asked: u8) -> AttemptRow
        ensures { result ≡ begun first asked }
    {
        AttemptRow {
            first,
            last: first,
            unit: None,
            asked,
            got: 0,
            damaged: 0,
            answer: None,
            why: None,
        }
    }

    /// Notes a free word with the transfer's label.
    pub fn pass(&mut self, moment: Moment, damaged: bool)
        ensures { self.new ≡ passed moment damaged self.old }
    {
        self.last = moment;
        count_if(&mut self.damaged, damaged);
    }

    /// Notes a word of this form, after which the sink does this.
    pub fn note(&mut self, moment: Moment, form: &Form, doing: &Doing)
        ensures { self.new ≡ noted moment form.now doing.now self.old }
    {
        self.last = moment;
        match *form {
            Form::Rts { .. } => {}
            Form::Cts { .. } => self.answer = Some(Answer::Clear),
            Form::Ack { .. } => self.answer = Some(acknowledged(doing)),
            Form::Nak { .. } => self.answer = Some(Answer::Negative),
            Form::Sot { file, ldu, .. } => {
                self.unit = Some(UnitNumber {
                    file,
                    ldu: u16::from(ldu),
                });
                count_if(&mut self.got, true);
            }
            Form::Part(_) => count_if(&mut self.got, true),
            Form::Eot { .. } => {
                count_if(&mut self.got, true);
                if let Doing::OwesNak(why) = *doing {
                    self.why = Some(why);
                }
            }
        }
    }
}

// An acknowledgement, by what the sink does then.
fn acknowledged(doing: &Doing) -> Answer
    ensures { result ≡ acknowledged_by doing.now }
{
    match doing {
        Doing::Again { .. } => Answer::Again,
        _ => Answer::Accepted,
    }
}

// Counts one more where it is so. The greatest count stays as it is.
fn count_if(count: &mut u64, is_so: bool)
    ensures { count.new ≡ counted is_so count.old }
{
    if is_so {
        *count = count.saturating_add(1);
    }
}
