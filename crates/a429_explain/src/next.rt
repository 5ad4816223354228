//! The line of a certificate that is likely after another.

ghost use Rattle.std.specs.Prelude.{◌≡◌, ◌<◌, ◌≤◌, true, IfSome};
ghost use Rattle.a429_explain.specs.Next.{carried, sending, moves, sends, after_answer, takes, after_taking, after_loss, lost, next_after, next_line, BeginWords};

use a429_cert::{Act, MovedLine};
use a429_link::{SinkState, SourceState, States};

/// The line that is likely after this one: what comes next where no word is lost, and the words before it were those of
/// a long block. Another one may come.
#[inline(always)]
pub(crate) fn next_line(line: MovedLine) -> MovedLine
    ensures { result ≡ next_line line }
{
    let States { source, sink, .. } = line.states;
    match line.act {
        Act::Sent => moves(Act::SinkTakes, source, takes(source, sink), 0, 0),
        Act::SinkTakes => after_taking(source, sink),
        Act::Answered => moves(Act::TakeAnswer, after_answer(source), sink, 0, 0),
        Act::TakeAnswer | Act::TimeOut => moves(Act::Sent, sends(source), sink, 1, 0),
        Act::SentLost => after_loss(source, sink),
        Act::LoseAnswer | Act::Silent => moves(Act::TimeOut, SourceState::Idle, sink, 0, 0),
        Act::FreeSeen | Act::GiveUp => line,
    }
}

// The line of this step, with these states after it.
fn moves(act: Act, source: SourceState, sink: SinkState, to_sink: u8, to_source: u8) -> MovedLine
    ensures { result ≡ moves act source sink to_sink to_source }
{
    let states = States {
        source,
        sink,
        to_sink,
        to_source,
    };
    MovedLine { act, states }
}

// The source, once it has sent one word more.
fn sends(source: SourceState) -> SourceState
    ensures { result ≡ sends source }
{
    match source {
        SourceState::Idle | SourceState::Awaiting => SourceState::Awaiting,
        SourceState::Sending(sent) if sent < 254 => SourceState::Sending(sent + 1),
        SourceState::Sending(_) | SourceState::Waiting => SourceState::Waiting,
    }
}

// The source, once it has taken the answer that it waits for.
fn after_answer(source: SourceState) -> SourceState
    ensures { result ≡ after_answer source }
{
    match source {
        SourceState::Awaiting => SourceState::Sending(0),
        SourceState::Idle | SourceState::Sending(_) | SourceState::Waiting => SourceState::Idle,
    }
}

// The sink, once it has taken the word that the source sent last.
fn takes(source: SourceState, sink: SinkState) -> SinkState
    ensures { result ≡ takes source sink }
{
    match (source, sink) {
        (SourceState::Awaiting, _) => SinkState::OwesClear,
        (SourceState::Waiting, _) => SinkState::OwesAck,
        (_, SinkState::InBlock(taken)) if taken < 254 => SinkState::InBlock(taken + 1),
        _ => SinkState::InBlock(1),
    }
}

// What comes after a word that the sink has taken: its answer, or the next word.
fn after_taking(source: SourceState, sink: SinkState) -> MovedLine
    ensures { result ≡ after_taking source sink }
{
    match sink {
        SinkState::OwesClear => moves(Act::Answered, source, SinkState::Granted, 0, 1),
        SinkState::OwesAck | SinkState::OwesNak => moves(
            Act::Answered,
            source,
            SinkState::Quiet,
            0,
            1,
        ),
        SinkState::Quiet | SinkState::Granted | SinkState::InBlock(_) => moves(
            Act::Sent,
            sends(source),
            sink,
            1,
            0,
        ),
    }
}

// What comes after a word that is lost: the next one is lost too, and after the last the source waits no longer.
fn after_loss(source: SourceState, sink: SinkState) -> MovedLine
    ensures { result ≡ after_loss source sink }
{
    match source {
        SourceState::Waiting => moves(Act::TimeOut, SourceState::Idle, sink, 0, 0),
        SourceState::Idle | SourceState::Awaiting | SourceState::Sending(_) => moves(
            Act::SentLost,
            sends(source),
            sink,
            0,
            0,
        ),
    }
}

/// The line of a word of a block that is lost, after which the source is in this state. The sink and the words on their way are as in
/// these states.
pub(crate) fn lost(at: States, source: SourceState) -> MovedLine
    ensures { result ≡ lost at source }
{
    moves(Act::SentLost, source, at.sink, at.to_sink, at.to_source)
}

/// The line with which word `place` of a block is sent, counted from 0, with nothing else on its way.
pub(crate) fn sending(place: u8) -> MovedLine
    requires { place < 254 }
    ensures { result ≡ sending place }
{
    moves(
        Act::Sent,
        SourceState::Sending(place + 1),
        SinkState::InBlock(place),
        1,
        0,
    )
}

/// The line with which the sink takes the last of the first `words` words of a block, with nothing else on its way.
pub(crate) fn carried(words: u8) -> MovedLine
    ensures { result ≡ carried words }
{
    moves(
        Act::SinkTakes,
        SourceState::Sending(words),
        SinkState::InBlock(words),
        0,
        0,
    )
}

/// The line with which the source takes the answer to a block that the sink has taken.
pub(crate) fn acknowledged() -> MovedLine
    ensures { result ≡ moves Act.TakeAnswer SourceState.Idle SinkState.Quiet 0 0 }
{
    moves(Act::TakeAnswer, SourceState::Idle, SinkState::Quiet, 0, 0)
}

/// Words of a block, each sent and then taken: so many from this place on, counted from 0.
#[derive(Clone, Copy)]
pub(crate) struct BlockWords {
    pub place: u8,
    pub count: u8,
}

/// The words of a block that are likely sent and taken in the next `left` lines after this one.
pub(crate) fn words_after(line: MovedLine, left: u8) -> Option<BlockWords>
    ensures { IfSome result (λ words. BeginWords line words left) }
{
    if !is_act(line.act, Act::SinkTakes) {
        return None;
    }
    let SinkState::InBlock(place) = line.states.sink else {
        return None;
    };
    if place >= 254 || left < 2 || !is_same(line, carried(place)) {
        return None;
    }
    let room = 254 - place;
    let pairs = left / 2;
    let count = if pairs < room { pairs } else { room };
    Some(BlockWords { place, count })
}

/// Whether two lines are the same. A no is no promise.
pub(crate) fn is_same(one: MovedLine, other: MovedLine) -> bool
    ensures { result ≡ true → one ≡ other }
{
    is_act(one.act, other.act) && are_states(one.states, other.states)
}

pub(crate) fn is_act(one: Act, other: Act) -> bool
    ensures { result ≡ true → one ≡ other }
{
    one == other
}

fn are_states(one: States, other: States) -> bool
    ensures { result ≡ true → one ≡ other }
{
    one == other
}
