//! The sink of a file transfer.

ghost use Rattle.std.specs.Prelude.{ℕ, true, ◌≡◌, ◌≤◌, ◌+◌, ◌&&◌, ◌↔◌, [], ◌∷◌, ◌++◌, length, slice_index, Some, None, is_some, option_map, IfSome, IsNone, IsTrue};
ghost use Rattle.a429_link.specs.Carry.{HasTaken};
ghost use Rattle.a429_link.specs.Sink as model;
ghost use Rattle.a429_link.specs.Sink.{takes, takes_request, takes_start, takes_part, takes_end, in_phase, number_in, owed_unit, with_last, is_same, is_same_file, may_come, block_with, phase_of, kept_words, without_files, Listens, Owes, held_count, latest_number, HasRoom, nothing_received};
ghost use Rattle.a429_link.specs.State.{sink_state_of, IsNonEmpty, rest, past_first};
ghost use Rattle.a429_link.specs.Observer.{HasGrant};
ghost use Rattle.a429_link.specs.Implied.{why_at};
ghost use Rattle.a429_link.specs.Why.{MakesNoUnit, block_in, why_bad};
ghost use Rattle.a429_link.specs.WholeBlock.{EndsBadForm};

mod answers;
mod doing;

use crate::file::FileBytes;
use crate::lane::Lane;
use crate::number::{UnitNumber, is_final};
use crate::received::Received;
use crate::state::SinkState;
use crate::why::Why;
use a429_ldu::{Form, agrees, block_bytes, check_word_by, count_semis};
use a429_profile::Profile;
use a429_word::{Bus, Word};
use std::alloc::Global;
use std::marker::Model;

/// The number of the link data unit accepted last, and whether it was its file's last.
#[derive(Clone, Copy, Debug)]
pub struct Latest {
    pub number: UnitNumber,
    pub is_final: bool,
}

/// The numbers of a start word.
#[derive(Clone, Copy)]
pub(crate) struct StartWord {
    pub gfi: u8,
    pub file: u8,
    pub ldu: u8,
}

impl StartWord {
    /// The number of the link data unit that it begins.
    fn number(self) -> UnitNumber
        ensures { result ≡ record { file = self.file; ldu = self.ldu } }
    {
        UnitNumber {
            file: self.file,
            ldu: u16::from(self.ldu),
        }
    }
}

/// What the sink is doing (ARINC 429 Part 3).
#[derive(Clone, Copy)]
pub(crate) enum Phase {
    Quiet,
    OwesClear,
    Granted,
    /// The block began with this start word.
    InBlock(StartWord),
    /// It did, and its end word had these flags.
    OwesAck { start: StartWord, flags: u8 },
    OwesNak,
}

/// The sink: what it accepted last, its files, the count of the last request, and what it is doing; and the
/// words on their way to it.
#[derive(Drop)]
pub(crate) struct Sink {
    last: Option<Latest>,
    received: Received,
    count: u8,
    phase: Phase,
    // What was taken are the data words of its block.
    lane: Lane,
}

impl Model for Sink {
    ghost use Rattle.std.specs.Prelude.{◌≡◌, option_map};
    ghost use Rattle.a429_link.specs.Sink as model;
    ghost use Rattle.a429_link.specs.Sink.{latest_number, phase_of, kept_words};

    ghost Value = { model.SinkSide };

    ghost view = { λ s. record {
      sink = record { last = option_map latest_number s.last; received = s.received; count = s.count; phase = phase_of s.phase s.lane.taken };
      to_sink = s.lane.coming;
    } };

    ghost invariant = { λ s. s.lane.taken ≡ kept_words (phase_of s.phase s.lane.taken) };
}

// The block comes again, or in sequence.
fn may_come(profile: &Profile, last: &Option<Latest>, number: UnitNumber) -> bool
    ensures { result ≡ may_come profile.now.codes (option_map latest_number last.now) number }
{
    let Some(last) = last else {
        return number.ldu == u16::from(profile.codes().first_ldu);
    };
    let goes_on = !last.is_final && last.number.goes_on(profile, number);
    last.number == number || last.number.begins_file(profile, number) || goes_on
}

// The number is that of the link data unit accepted last.
fn is_last(last: &Option<Latest>, number: UnitNumber) -> bool
    ensures { result ≡ is_same (option_map latest_number last.now) number }
{
    match last {
        None => false,
        Some(last) => last.number == number,
    }
}

// The link data unit accepted last was one of the file with this number.
fn is_last_file(last: &Option<Latest>, file: u8) -> bool
    ensures { result ≡ is_same_file (option_map latest_number last.now) file }
{
    match last {
        None => false,
        Some(last) => last.number.file == file,
    }
}

impl Sink {
    /// A sink that has taken nothing, and no word is on its way to it.
    pub(crate) fn new(alloc: Global) -> Sink
        ensures { result ≡ record { sink = record { last = None; received = nothing_received; count = 0; phase = model.Quiet }; to_sink = [] } }
    {
        Sink {
            last: None,
            received: Received::new(alloc),
            count: 0,
            phase: Phase::Quiet,
            lane: Lane::new(),
        }
    }

    /// It takes words.
    pub(crate) fn listens(&self) -> bool
        ensures { IsTrue result ↔ Listens self.now.sink.phase }
    {
        matches!(
            self.phase,
            Phase::Quiet | Phase::Granted | Phase::InBlock(_)
        )
    }

    /// It owes an answer.
    pub(crate) fn owes(&self) -> bool
        ensures { IsTrue result ↔ Owes self.now.sink.phase }
    {
        matches!(
            self.phase,
            Phase::OwesClear | Phase::OwesAck { .. } | Phase::OwesNak
        )
    }

    /// What it is doing, with the count of words of its block.
    pub(crate) fn state(&self) -> SinkState
        requires { held_count self.now.sink.phase ≤ 255 }
        ensures { result ≡ sink_state_of self.now.sink.phase }
    {
        match self.phase {
            Phase::Quiet => SinkState::Quiet,
            Phase::OwesClear => SinkState::OwesClear,
            Phase::Granted => SinkState::Granted,
            Phase::InBlock(_) => SinkState::InBlock(self.lane.taken().len() as u8 + 1),
            Phase::OwesAck { .. } => SinkState::OwesAck,
            Phase::OwesNak => SinkState::OwesNak,
        }
    }

    /// It has taken so many words of a block, its start word among them, and no word is on its way to it.
    #[inline(always)]
    pub(crate) fn has_taken(&self, place: u8) -> bool
        ensures { IsTrue result ↔ HasTaken self.now.sink.phase self.now.to_sink place }
    {
        match self.phase {
            Phase::InBlock(_) => {
                self.lane.first().is_none() && self.lane.taken().len() + 1 == usize::from(place)
            }
            _ => false,
        }
    }

    /// How many words are on their way to it.
    pub(crate) fn coming(&self) -> usize
        ensures { result ≡ length self.now.to_sink }
    {
        self.lane.coming()
    }

    /// The first word on its way to it.
    pub(crate) fn first(&self) -> Option<Word>
        ensures some { IfSome result (λ w. self.now.to_sink ≡ w ∷ rest self.now.to_sink) }
        ensures none { IsNone result ↔ (self.now.to_sink ≡ []) }
    {
        self.lane.first()
    }

    /// One more word is on its way to it.
    pub(crate) fn push(&mut self, word: Word)
        requires { HasRoom self.old }
        ensures { self.new ≡ record (self.old) { to_sink = self.old.to_sink ++ word ∷ [] } }
    {
        self.lane.push(word);
    }

    /// Passes over the first word on its way.
    pub(crate) fn pass(&mut self)
        requires { IsNonEmpty self.old.to_sink }
        ensures { self.new ≡ record (self.old) { to_sink = rest self.old.to_sink } }
    {
        self.lane.drop_first();
    }

    /// Takes the first word on its way, a word of bus A that has this form, and answers why it ends a block that is not
    /// good; `None` where it ends none, or a good one.
    #[inline(always)]
    pub(crate) fn take(&mut self, profile: &Profile, form: &Form) -> Option<Why>
        requires { IsNonEmpty self.old.to_sink }
        ensures taken { self.new ≡ past_first self.old (takes profile.now (slice_index self.old.to_sink 0) form.now self.old.sink) }
        ensures why { result ≡ why_at profile.now form.now self.old.sink }
    {
        match *form {
            Form::Rts { count } => self.take_request(count),
            Form::Sot { gfi, file, ldu } => self.start_block(StartWord { gfi, file, ldu }),
            Form::Part(_) => self.add_word(),
            Form::Eot { flags, check } => return self.end_block(profile, flags, check),
            Form::Cts { .. } | Form::Ack { .. } | Form::Nak { .. } => self.pass(),
        }
        None
    }

    fn take_request(&mut self, count: u8)
        requires { IsNonEmpty self.old.to_sink }
        ensures { self.new ≡ past_first self.old (takes_request count self.old.sink) }
    {
        self.pass();
        self.count = count;
        self.enter(Phase::OwesClear);
    }

    fn start_block(&mut self, start: StartWord)
        requires { IsNonEmpty self.old.to_sink }
        ensures { self.new ≡ past_first self.old (takes_start (block_with start []) self.old.sink) }
    {
        self.pass();
        if matches!(self.phase, Phase::Granted | Phase::InBlock(_)) {
            self.enter(Phase::InBlock(start));
        }
    }

    /// Takes the first word on its way, which is a data word.
    #[inline(always)]
    pub(crate) fn add_word(&mut self)
        requires { IsNonEmpty self.old.to_sink }
        ensures { self.new ≡ past_first self.old (takes_part (slice_index self.old.to_sink 0) self.old.sink) }
    {
        if let Phase::InBlock(_) = self.phase {
            self.lane.take_first();
        } else {
            self.pass();
        }
    }

    fn end_block(&mut self, profile: &Profile, flags: u8, check: u16) -> Option<Why>
        requires { IsNonEmpty self.old.to_sink }
        ensures taken { self.new ≡ past_first self.old (takes_end profile.now flags check self.old.sink) }
        ensures why { result ≡ why_bad profile.now self.old.sink.last self.old.sink.count (block_in self.old.sink.phase) check }
    {
        self.pass();
        let why = self.why_bad(profile, check);
        match self.phase {
            Phase::Granted => self.enter(Phase::OwesNak),
            Phase::InBlock(start) => match why {
                None => self.phase = Phase::OwesAck { start, flags },
                Some(_) => self.enter(Phase::OwesNak),
            },
            Phase::Quiet | Phase::OwesClear | Phase::OwesAck { .. } | Phase::OwesNak => {}
        }
        why
    }

    // Why the block that it is in is not good, ended by a word with this check word; `None` exactly where it is. There
    // is none where it is in no block.
    fn why_bad(&self, profile: &Profile, check: u16) -> Option<Why>
        ensures { result ≡ why_bad profile.now self.now.sink.last self.now.sink.count (block_in self.now.sink.phase) check }
    {
        match self.phase {
            Phase::InBlock(start) => self.why_bad_from(profile, start, check),
            _ => Some(Why::NoStart),
        }
    }

    // The same of the block of this start word and the data words that it has taken.
    fn why_bad_from(&self, profile: &Profile, start: StartWord, check: u16) -> Option<Why>
        ensures { result ≡ why_bad profile.now self.now.sink.last self.now.sink.count (Some (block_with start (kept_words self.now.sink.phase))) check }
    {
        let count = self.count;
        let words = self.lane.taken();
        if words.len() + 2 != usize::from(count) {
            return Some(Why::OtherCount {
                words: words.len(),
                asked: count.saturating_sub(2),
            });
        }
        let Some(bytes) = block_bytes(profile, words) else {
            return Some(Why::HalfBytes(count_semis(profile, words)));
        };
        if !agrees(profile.check_tables(), bytes.as_slice(), check) {
            return Some(Why::OtherCheck(check_word_by(profile.check_tables(), bytes.as_slice())));
        }
        if !may_come(profile, &self.last, start.number()) {
            return Some(Why::OutOfSequence);
        }
        None
    }

    /// An end word with this check word ends a block that is whole, and makes no link data unit of it.
    pub(crate) fn ends_bad(&self, profile: &Profile, check: u16) -> bool
        ensures { (flags : ℕ) → IsTrue result ↔ EndsBadForm profile.now Bus.A (Some (Form.Eot flags check)) self.now.sink.phase self.now.sink.count }
    {
        makes_no_unit(self.why_bad(profile, check))
    }

    /// A block with this number comes again, or in sequence.
    pub(crate) fn number_may_come(&self, profile: &Profile, number: UnitNumber) -> bool
        ensures { result ≡ may_come profile.now.codes self.now.sink.last number }
    {
        may_come(profile, &self.last, number)
    }

    /// The number of the block that it is in.
    pub(crate) fn block(&self) -> Option<UnitNumber>
        ensures { result ≡ number_in self.now.sink.phase }
    {
        match self.phase {
            Phase::InBlock(start) => Some(start.number()),
            _ => None,
        }
    }

    /// The link data unit that it owes an acknowledgement for.
    pub(crate) fn owed_unit(&self, profile: &Profile) -> Option<Latest>
        ensures { option_map latest_number result ≡ owed_unit profile.now.codes self.now.sink.phase }
    {
        match self.phase {
            Phase::OwesAck { start, flags } => Some(Latest {
                number: start.number(),
                is_final: is_final(profile, flags),
            }),
            _ => None,
        }
    }

    /// It is as if this were the link data unit accepted last, or none were.
    pub(crate) fn assume_last(&mut self, last: Option<Latest>)
        ensures { self.new ≡ record (self.old) { sink = with_last (option_map latest_number last) self.old.sink } }
    {
        self.last = last;
    }

    // It drops what it has taken, and is then in this phase.
    fn enter(&mut self, phase: Phase)
        ensures { self.new ≡ record (self.old) { sink = in_phase (phase_of phase []) self.old.sink } }
    {
        self.lane.drop_taken();
        self.phase = phase;
    }

    /// It takes the words of a block.
    pub(crate) fn has_grant(&self) -> bool
        ensures { IsTrue result ↔ HasGrant self.now.sink.phase }
    {
        matches!(self.phase, Phase::Granted | Phase::InBlock(_))
    }

    /// The count of the last request.
    pub(crate) fn count(&self) -> u8
        ensures { result ≡ self.now.sink.count }
    {
        self.count
    }

    /// The files delivered since they were last taken.
    pub(crate) fn delivered(&self) -> &[FileBytes]
        ensures { result.now ≡ self.now.sink.received.files }
    {
        self.received.files()
    }

    /// Hands these files out.
    pub(crate) fn take_delivered(&mut self, alloc: Global) -> Vec<FileBytes>
        ensures files { result.items ≡ self.old.sink.received.files }
        ensures rest { self.new ≡ record (self.old) { sink = without_files self.old.sink } }
    {
        self.received.take_files(alloc)
    }
}

// The data words of a block carry no bytes, or with another check word.
fn makes_no_unit(why: Option<Why>) -> bool
    ensures { IsTrue result ↔ MakesNoUnit why }
{
    matches!(why, Some(Why::HalfBytes(_) | Why::OtherCheck(_)))
}
