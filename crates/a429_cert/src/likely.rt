//! Lines that are likely the next, and the texts of those inside a block, written before they are needed.

ghost use Rattle.std.specs.Prelude.{◌≡◌, ◌≢◌, ◌<◌, ◌≤◌, IfOk, IfSome};
ghost use Rattle.a429_cert.specs.declared.line.CertLine.TheVariants.{Moved};
ghost use Rattle.a429_cert.specs.Field.{field};
ghost use Rattle.a429_cert.specs.States.{source_text, IsSource};
ghost use Rattle.a429_cert.specs.Likely.{pair_text, sending_field, sent_line, sink_after, taken_line, values_below, ways_fields};
ghost use Rattle.a429_cert.specs.LikelyLine.{IsLikelyLine, IsWays};

use crate::act::{Act, act_letter, act_of};
use crate::after::likely_after;
use crate::fault::OutOfMemory;
use crate::line::MovedLine;
use crate::short::ShortText;
use crate::writing::push_moved;
use a429_link::{SinkState, SourceState, States};
use std::alloc::Global;

// How many words of a block have such lines. The first has others: its lines are there for the places of the rest.
const WORDS: usize = 254;

/// A line that is likely the next, and its text in three pieces.
#[derive(Clone, Copy, Drop)]
pub struct LikelyLine<'a> {
    pub line: MovedLine,
    /// The letter of its step.
    pub letter: u8,
    /// The source.
    pub source: &'a [u8],
    /// The sink, and how many words are on their way.
    pub ways: &'a [u8],
}

/// The lines of each word of a block that is sent and then taken, with nothing else on its way, and the pieces of those of which
/// words were lost before.
#[derive(Drop)]
pub struct WordLines {
    pairs: Vec<ShortText>,
    sources: Vec<ShortText>,
    // with no word on its way to the sink, and with one
    idle: Vec<ShortText>,
    busy: Vec<ShortText>,
    ghost pairs_all: { pairs.items ≡ values_below pair_text 254 },
    ghost sources_all: { sources.items ≡ values_below sending_field 255 },
    ghost idle_all: { idle.items ≡ values_below (ways_fields 0) 255 },
    ghost busy_all: { busy.items ≡ values_below (ways_fields 1) 255 },
}

impl WordLines {
    ghost use Rattle.a429_cert.specs.Likely.{pair_text, sending_field, ways_fields, values_below};

    pub fn new(alloc: Global) -> Result<WordLines, OutOfMemory> {
        let mut pairs = Vec::with_capacity(alloc, WORDS)?;
        'words: for k in 0..WORDS {
            pairs.push(both_lines(k as u8))?;
        }
        let sources = sources(alloc)?;
        let idle = ways(alloc, 0)?;
        let busy = ways(alloc, 1)?;
        Ok(WordLines {
            pairs,
            sources,
            idle,
            busy,
        })
    }

    /// Both lines of the word at this place of its block, one after the other, each with its line feed.
    #[inline(always)]
    pub fn pair(&self, place: u8) -> Option<&[u8]>
        ensures { IfSome result (λ text. (text.now ≡ pair_text place) × (place < 254)) }
    {
        if place >= 254 {
            return None;
        }
        Some(self.pairs[place as usize].as_slice())
    }

    /// The line that is likely the next in these states, where it begins with this letter and has this one for the source.
    #[inline(always)]
    pub fn likely(&self, before: States, letter: u8, source: u8) -> Option<LikelyLine<'_>>
        ensures { IfSome result IsLikelyLine }
    {
        if letter == b'l' && source == b'S' {
            if let SourceState::Sending(sent) = before.source {
                return self.lost_line(before, sent);
            }
        }
        match act_of(letter) {
            Some(Act::GiveUp) | None => None,
            Some(act) => self.line(act, likely_after(act, before, source)),
        }
    }

    // The line of a word that is lost, inside a block of which so many were sent before.
    #[inline(always)]
    fn lost_line(&self, before: States, sent: u8) -> Option<LikelyLine<'_>>
        ensures { IfSome result IsLikelyLine }
    {
        let source = SourceState::Sending(sent.wrapping_add(1));
        self.line(Act::SentLost, States { source, ..before })
    }

    // The line of this step, with these states after it, where its pieces are there.
    #[inline(always)]
    fn line(&self, act: Act, states: States) -> Option<LikelyLine<'_>>
        requires { act ≢ Act.GiveUp }
        ensures { IfSome result IsLikelyLine }
    {
        let source = self.source(states.source)?;
        let ways = self.ways(states)?;
        Some(LikelyLine {
            line: MovedLine { act, states },
            letter: act_letter(act),
            source,
            ways,
        })
    }

    // The field of the source.
    #[inline(always)]
    fn source(&self, source: SourceState) -> Option<&[u8]>
        ensures { IfSome result (λ text. (text.now ≡ field (source_text source)) × IsSource source) }
    {
        match source {
            SourceState::Idle => Some(b" I".as_slice()),
            SourceState::Awaiting => Some(b" C".as_slice()),
            SourceState::Waiting => Some(b" W".as_slice()),
            SourceState::Sending(sent) if sent <= 254 => Some(
                self.sources[sent as usize].as_slice(),
            ),
            SourceState::Sending(_) => None,
        }
    }

    // The fields of the sink and of the words on their way.
    #[inline(always)]
    fn ways(&self, states: States) -> Option<&[u8]>
        ensures { IfSome result (λ text. IsWays states text.now) }
    {
        match states.sink {
            SinkState::Granted if states.to_source == 0 => self.block_ways(0, states.to_sink),
            SinkState::InBlock(taken) if 1 <= taken && states.to_source == 0 => self.block_ways(
                taken,
                states.to_sink,
            ),
            _ => other_ways(states),
        }
    }

    // The same of a sink that has granted a block, and taken so many of its words.
    #[inline(always)]
    fn block_ways(&self, taken: u8, to_sink: u8) -> Option<&[u8]>
        ensures { IfSome result (λ text. (text.now ≡ ways_fields to_sink taken) × (taken ≤ 254) × (to_sink ≤ 1)) }
    {
        if taken > 254 {
            return None;
        }
        match to_sink {
            0 => Some(self.idle[taken as usize].as_slice()),
            1 => Some(self.busy[taken as usize].as_slice()),
            _ => None,
        }
    }
}

// The fields of a sink that takes no word of a block, and of the words on their way.
fn other_ways(states: States) -> Option<&'static [u8]>
    ensures { IfSome result (λ text. IsWays states text.now) }
{
    match (states.sink, states.to_sink, states.to_source) {
        (SinkState::Quiet, 0, 0) => Some(b" Q 0 0".as_slice()),
        (SinkState::Quiet, 0, 1) => Some(b" Q 0 1".as_slice()),
        (SinkState::Quiet, 1, 0) => Some(b" Q 1 0".as_slice()),
        (SinkState::OwesClear, 0, 0) => Some(b" c 0 0".as_slice()),
        (SinkState::Granted, 0, 1) => Some(b" G 0 1".as_slice()),
        (SinkState::OwesAck, 0, 0) => Some(b" A 0 0".as_slice()),
        (SinkState::OwesNak, 0, 0) => Some(b" N 0 0".as_slice()),
        _ => None,
    }
}

// The fields of the source that sends a block, by how many words it has sent.
fn sources(alloc: Global) -> Result<Vec<ShortText>, OutOfMemory>
    ensures { IfOk result (λ texts. texts.items ≡ values_below sending_field 255) }
{
    let mut texts = Vec::with_capacity(alloc, WORDS + 1)?;
    'words: for k in 0..WORDS + 1 {
        let mut text = ShortText::new();
        text.push_source(SourceState::Sending(k as u8));
        texts.push(text)?;
    }
    Ok(texts)
}

// The fields of the sink that takes a block, by how many words it has taken, with those of the words on their way.
fn ways(alloc: Global, to_sink: u8) -> Result<Vec<ShortText>, OutOfMemory>
    ensures { IfOk result (λ texts. texts.items ≡ values_below (ways_fields to_sink) 255) }
{
    let mut texts = Vec::with_capacity(alloc, WORDS + 1)?;
    'words: for k in 0..WORDS + 1 {
        let mut text = ShortText::new();
        text.push_sink(sink_after(k as u8));
        text.push_number(to_sink);
        text.push_number(0);
        texts.push(text)?;
    }
    Ok(texts)
}

// The sink that has granted a block, and taken so many of its words.
#[inline(always)]
fn sink_after(taken: u8) -> SinkState
    ensures { result ≡ sink_after taken }
{
    if taken == 0 {
        SinkState::Granted
    } else {
        SinkState::InBlock(taken)
    }
}

// The line of word k, counted from 0, that is sent.
pub(crate) fn sent_line(k: u8) -> MovedLine
    requires { k < 254 }
    ensures { Moved result ≡ sent_line k }
{
    MovedLine {
        act: Act::Sent,
        states: States {
            source: SourceState::Sending(k + 1),
            sink: SinkState::InBlock(k),
            to_sink: 1,
            to_source: 0,
        },
    }
}

// Both lines of word k, each with its line feed.
fn both_lines(k: u8) -> ShortText
    requires { k < 254 }
    ensures { result ≡ pair_text k }
{
    let mut text = ShortText::new();
    push_moved(&mut text, sent_line(k));
    text.push(b'\n');
    push_moved(&mut text, taken_line(k));
    text.push(b'\n');
    text
}

// The line of the same word, which is taken.
pub(crate) fn taken_line(k: u8) -> MovedLine
    requires { k < 254 }
    ensures { Moved result ≡ taken_line k }
{
    MovedLine {
        act: Act::SinkTakes,
        states: States {
            source: SourceState::Sending(k + 1),
            sink: SinkState::InBlock(k + 1),
            to_sink: 0,
            to_source: 0,
        },
    }
}
