//! The steps of a transfer that a certificate's lines name.

ghost use Rattle.std.specs.Prelude.{◌≡◌, [], ◌∷◌};
ghost use Rattle.a429_cert.specs.Act.{act_text, act_in, letter_of, step_with, uses_of};

use a429_link::{Seen, Step};

/// A step of the source, of the sink or of the buses between them (profile). A certificate writes it
/// as one letter.
#[derive(Clone, Copy, Debug)]
pub enum Act {
    /// `a`: a word of the source is recorded and on its way.
    Sent,
    /// `l`: a word of the source is lost before it is recorded.
    SentLost,
    /// `t`: the source waits no longer.
    TimeOut,
    /// `g`: the source takes an answer.
    TakeAnswer,
    /// `d`: an answer is lost after it was recorded.
    LoseAnswer,
    /// `k`: the sink takes a word.
    SinkTakes,
    /// `s`: the sink leaves out the answer that it owes.
    Silent,
    /// `b`: an answer of the sink is recorded and on its way.
    Answered,
    /// `n`: a word that is no word of the transfer is recorded.
    FreeSeen,
    /// `x`: the source gives its file up. No certificate of version 1 says so.
    GiveUp,
}

/// The name of a step, an `Act`, and not the letter that a certificate writes for it. `None` where a link data unit is loaded,
/// since that has a line of its own.
pub fn letter_of(step: &Step) -> Option<Act>
    ensures { result ≡ letter_of step.now }
{
    match step {
        Step::Load(_) => None,
        Step::Sent(_) => Some(Act::Sent),
        Step::SentLost => Some(Act::SentLost),
        Step::TimeOut => Some(Act::TimeOut),
        Step::TakeAnswer => Some(Act::TakeAnswer),
        Step::LoseAnswer => Some(Act::LoseAnswer),
        Step::SinkTakes => Some(Act::SinkTakes),
        Step::Silent => Some(Act::Silent),
        Step::Answered(_) => Some(Act::Answered),
        Step::FreeSeen(_) => Some(Act::FreeSeen),
        Step::GiveUp => Some(Act::GiveUp),
    }
}

/// The step of a letter with the next entry, and none where it wants one and none is left.
pub(crate) fn step_with(act: Act, next: Option<Seen>) -> Option<Step>
    ensures { result ≡ step_with act next }
{
    match act {
        Act::Sent => Some(Step::Sent(next?)),
        Act::SentLost => Some(Step::SentLost),
        Act::TimeOut => Some(Step::TimeOut),
        Act::TakeAnswer => Some(Step::TakeAnswer),
        Act::LoseAnswer => Some(Step::LoseAnswer),
        Act::SinkTakes => Some(Step::SinkTakes),
        Act::Silent => Some(Step::Silent),
        Act::Answered => Some(Step::Answered(next?)),
        Act::FreeSeen => Some(Step::FreeSeen(next?)),
        Act::GiveUp => Some(Step::GiveUp),
    }
}

/// How many entries a step of this letter uses.
pub(crate) fn used_by(act: Act) -> usize
    ensures { result ≡ uses_of act }
{
    match act {
        Act::Sent | Act::Answered | Act::FreeSeen => 1,
        _ => 0,
    }
}

/// The letter of a step.
pub(crate) fn act_letter(act: Act) -> u8
    ensures { result ∷ [] ≡ act_text act }
{
    match act {
        Act::Sent => b'a',
        Act::SentLost => b'l',
        Act::TimeOut => b't',
        Act::TakeAnswer => b'g',
        Act::LoseAnswer => b'd',
        Act::SinkTakes => b'k',
        Act::Silent => b's',
        Act::Answered => b'b',
        Act::FreeSeen => b'n',
        Act::GiveUp => b'x',
    }
}

/// The step of a letter.
#[inline(always)]
pub(crate) fn act_of(letter: u8) -> Option<Act>
    ensures { result ≡ act_in letter }
{
    match letter {
        b'a' => Some(Act::Sent),
        b'l' => Some(Act::SentLost),
        b't' => Some(Act::TimeOut),
        b'g' => Some(Act::TakeAnswer),
        b'd' => Some(Act::LoseAnswer),
        b'k' => Some(Act::SinkTakes),
        b's' => Some(Act::Silent),
        b'b' => Some(Act::Answered),
        b'n' => Some(Act::FreeSeen),
        b'x' => Some(Act::GiveUp),
        _ => None,
    }
}
