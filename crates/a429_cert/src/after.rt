//! The states that a step mostly leads to.

use crate::act::Act;
use a429_link::{SinkState, SourceState, States};

/// The states that a step of this name mostly leads to from these, where its line has this letter for the source. Nothing
/// rests on it: where it is wrong, the line is read.
#[inline(always)]
pub(crate) fn likely_after(act: Act, before: States, source: u8) -> States {
    let ends = source == b'W';
    match act {
        Act::Sent => States {
            source: likely_source(before.source, ends),
            to_sink: before.to_sink.wrapping_add(1),
            ..before
        },
        Act::SentLost => States {
            source: likely_source(before.source, ends),
            ..before
        },
        Act::SinkTakes => States {
            sink: likely_sink(before.sink, ends),
            to_sink: before.to_sink.wrapping_sub(1),
            ..before
        },
        Act::Answered => States {
            sink: answered(before.sink),
            to_source: before.to_source.wrapping_add(1),
            ..before
        },
        Act::TakeAnswer => States {
            source: after_answer(before.source),
            to_source: before.to_source.wrapping_sub(1),
            ..before
        },
        Act::TimeOut => States {
            source: SourceState::Idle,
            ..before
        },
        Act::LoseAnswer => States {
            to_source: before.to_source.wrapping_sub(1),
            ..before
        },
        Act::Silent => States {
            sink: SinkState::Quiet,
            ..before
        },
        Act::FreeSeen | Act::GiveUp => before,
    }
}

// The source, with one more word sent, which may end its block.
#[inline(always)]
fn likely_source(source: SourceState, ends: bool) -> SourceState {
    match source {
        SourceState::Idle | SourceState::Awaiting => SourceState::Awaiting,
        SourceState::Sending(_) | SourceState::Waiting if ends => SourceState::Waiting,
        SourceState::Sending(sent) => SourceState::Sending(sent.wrapping_add(1)),
        SourceState::Waiting => SourceState::Waiting,
    }
}

// The sink, with one more word taken, which ends its block where the source waits.
#[inline(always)]
fn likely_sink(sink: SinkState, ends: bool) -> SinkState {
    match sink {
        SinkState::InBlock(_) if ends => SinkState::OwesAck,
        SinkState::InBlock(taken) => SinkState::InBlock(taken.wrapping_add(1)),
        SinkState::Granted => SinkState::InBlock(1),
        SinkState::Quiet | SinkState::OwesClear => SinkState::OwesClear,
        SinkState::OwesAck | SinkState::OwesNak => sink,
    }
}

// The sink, once it has answered.
#[inline(always)]
fn answered(sink: SinkState) -> SinkState {
    match sink {
        SinkState::OwesClear => SinkState::Granted,
        _ => SinkState::Quiet,
    }
}

// The source, once it has taken an answer.
#[inline(always)]
fn after_answer(source: SourceState) -> SourceState {
    match source {
        SourceState::Awaiting => SourceState::Sending(0),
        _ => SourceState::Idle,
    }
}
