//! The states that a line writes, read.

ghost use Rattle.std.specs.Prelude.{◌≡◌, option_map};
ghost use Rattle.a429_cert.specs.States.{sending_in, source_in, block_in, sink_in, states_in};
ghost use Rattle.a429_cert.specs.Field.{decimal_in, with_rest};

use crate::field::{after_space, decimal_at, decimal_of, last_decimal_at};
use a429_link::{SinkState, SourceState, States};

// The source's state, and what comes after it.
#[inline(always)]
fn source_of(field: &[u8]) -> Option<(SourceState, &[u8])>
    ensures { option_map (λ x. (x.0, x.1.now)) result ≡ source_in field.now }
{
    match field {
        [b'S', sent @ ..] => sending_of(sent),
        [b'I', rest @ ..] => Some((SourceState::Idle, rest)),
        [b'C', rest @ ..] => Some((SourceState::Awaiting, rest)),
        [b'W', rest @ ..] => Some((SourceState::Waiting, rest)),
        _ => None,
    }
}

// The source sends, and has sent so many words.
#[inline(always)]
fn sending_of(count: &[u8]) -> Option<(SourceState, &[u8])>
    ensures { option_map (λ x. (x.0, x.1.now)) result ≡ sending_in (decimal_in count.now) }
{
    let (sent, rest) = decimal_of(count)?;
    if sent <= 254 {
        Some((SourceState::Sending(sent), rest))
    } else {
        None
    }
}

// The sink's state, and what comes after it.
#[inline(always)]
fn sink_of(field: &[u8]) -> Option<(SinkState, &[u8])>
    ensures { option_map (λ x. (x.0, x.1.now)) result ≡ sink_in field.now }
{
    match field {
        [b'B', taken @ ..] => block_of(taken),
        [b'Q', rest @ ..] => Some((SinkState::Quiet, rest)),
        [b'c', rest @ ..] => Some((SinkState::OwesClear, rest)),
        [b'G', rest @ ..] => Some((SinkState::Granted, rest)),
        [b'A', rest @ ..] => Some((SinkState::OwesAck, rest)),
        [b'N', rest @ ..] => Some((SinkState::OwesNak, rest)),
        _ => None,
    }
}

// The sink is in a block, of which it has taken so many words.
#[inline(always)]
fn block_of(count: &[u8]) -> Option<(SinkState, &[u8])>
    ensures { option_map (λ x. (x.0, x.1.now)) result ≡ block_in (decimal_in count.now) }
{
    let (taken, rest) = decimal_of(count)?;
    if 1 <= taken && taken <= 254 {
        Some((SinkState::InBlock(taken), rest))
    } else {
        None
    }
}

// The source's state in the next field, and what comes after it.
#[inline(always)]
fn source_at(text: &[u8]) -> Option<(SourceState, &[u8])>
    ensures { option_map (λ x. (x.0, x.1.now)) result ≡ with_rest source_in text.now }
{
    source_of(after_space(text)?)
}

// The sink's state in the next field, and what comes after it.
#[inline(always)]
fn sink_at(text: &[u8]) -> Option<(SinkState, &[u8])>
    ensures { option_map (λ x. (x.0, x.1.now)) result ≡ with_rest sink_in text.now }
{
    sink_of(after_space(text)?)
}

/// The states in the next fields, where nothing comes after them.
#[inline(never)]
#[tactic(auto, unfolding(crate::specs::States::states_in))]
pub fn states_at(text: &[u8]) -> Option<States>
    ensures { result ≡ states_in text.now }
{
    let (source, rest) = source_at(text)?;
    let (sink, rest) = sink_at(rest)?;
    let (to_sink, rest) = decimal_at(rest)?;
    let to_source = last_decimal_at(rest)?;
    Some(States {
        source,
        sink,
        to_sink,
        to_source,
    })
}
