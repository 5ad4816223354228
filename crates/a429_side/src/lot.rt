//! What becomes of each entry of a recording, where the words of one direction are wanted.

ghost use Rattle.std.specs.Prelude.{◌≡◌, if◌then◌else◌};
ghost use Rattle.a429_word.specs.Word.{HasOddParity, number_at};
ghost use Rattle.a429_cert.specs.Explained.{seen_of};
ghost use Rattle.a429_side.specs.Destination.{is_request};
ghost use Rattle.a429_side.specs.Direction.{direction_in};
ghost use Rattle.a429_side.specs.declared.direction.Direction.TheVariants.{This};
ghost use Rattle.a429_side.specs.Side.{addressed_to, is_answer_to, is_clear_answer, last_with, lot_in, lot_of, on_line, written};

use crate::direction::{Direction, direction_of};
use crate::fields::{code_of, destination_of, kind_of};
use a429_ldu::other_line;
use a429_link::Seen;
use a429_profile::{Codes, Profile};
use a429_record::Entry;
use a429_word::{Bus, Word};

/// Which words of a recording with two directions are wanted, besides the profile of their direction.
#[derive(Clone, Copy, Debug)]
pub struct Side {
    /// The line on which the files of the direction travel.
    pub line: Bus,
    /// The destination code in the clear answers of its sink, where that is another one than the profile's.
    pub answer: Option<u8>,
}

/// What becomes of an entry.
#[derive(Clone, Copy, Debug)]
pub enum Lot {
    /// It is written: it is free, or of this direction and of the profile's destination.
    Kept,
    /// The same, and its destination code becomes the profile's: it is a clear answer with the code of the sink.
    Renamed,
    /// It is written, though it is of no direction.
    OfNone,
    /// It is left out, since it is of the other direction.
    OfOther,
    /// It is left out, since it is of this direction and of another destination. It may be a request.
    Elsewhere { destination: u8, is_request: bool },
}

/// The entry as its direction names the lines: its files travel on line A.
#[inline(always)]
pub(crate) fn directed(line: Bus, entry: &Entry) -> Entry
    ensures { result ≡ on_line line entry.now }
{
    match line {
        Bus::A => *entry,
        Bus::B => Entry {
            time: entry.time,
            bus: other_line(entry.bus),
            word: entry.word,
        },
    }
}

/// What becomes of the next entry, after a last request to the destination `last`, which becomes that of this entry where it
/// is a request of this direction.
#[inline(always)]
pub(crate) fn next_lot(profile: &Profile, answer: Option<u8>, last: &mut u8, entry: &Entry) -> Lot
    ensures lot { result ≡ lot_of profile.now.codes answer last.old entry.now }
    ensures last { last.new ≡ last_with profile.now.codes last.old entry.now }
{
    let seen = Seen {
        bus: entry.bus,
        word: entry.word,
    };
    match direction_of(profile, seen) {
        Direction::This => lot_of_this(profile.codes(), answer, last, entry),
        Direction::Other => Lot::OfOther,
        Direction::Free => Lot::Kept,
        Direction::Neither => Lot::OfNone,
    }
}

// The same for an entry of this direction.
fn lot_of_this(codes: &Codes, answer: Option<u8>, last: &mut u8, entry: &Entry) -> Lot
    requires { direction_in codes.now (seen_of entry.now) ≡ This }
    ensures lot { result ≡ lot_of codes.now answer last.old entry.now }
    ensures last { last.new ≡ last_with codes.now last.old entry.now }
{
    let is_request = asks(codes, entry);
    *last = destination_after(is_request, *last, entry.word);
    if *last != codes.destination {
        Lot::Elsewhere {
            destination: *last,
            is_request,
        }
    } else if is_answer(codes, answer, entry) {
        Lot::Renamed
    } else {
        Lot::Kept
    }
}

// Whether an entry of this direction is a request.
fn asks(codes: &Codes, entry: &Entry) -> bool
    requires { direction_in codes.now (seen_of entry.now) ≡ This }
    ensures { result ≡ is_request codes.now (seen_of entry.now) }
{
    match entry.bus {
        Bus::A => kind_of(entry.word) == codes.protocol,
        Bus::B => false,
    }
}

// The destination of the last request, after a word that is one or is not.
fn destination_after(is_request: bool, last: u8, word: Word) -> u8
    ensures { result ≡ (if is_request then number_at word 17 8 else last) }
{
    if is_request {
        destination_of(word)
    } else {
        last
    }
}

// Whether an entry is a clear answer with this destination code.
fn is_answer(codes: &Codes, answer: Option<u8>, entry: &Entry) -> bool
    ensures { result ≡ is_answer_to codes.now answer entry.now }
{
    match answer {
        None => false,
        Some(code) => is_clear(codes, entry) && destination_of(entry.word) == code,
    }
}

// Whether an entry has the type and the code of a clear answer, and is on the line of answers.
fn is_clear(codes: &Codes, entry: &Entry) -> bool
    ensures { result ≡ is_clear_answer codes.now entry.now }
{
    match entry.bus {
        Bus::A => false,
        Bus::B => kind_of(entry.word) == codes.protocol && code_of(entry.word) == codes.cts,
    }
}

// The word with this destination code, and with the parity bit made anew.
fn readdressed(word: Word, destination: u8) -> Word
    ensures value { result ≡ addressed_to destination word }
    ensures parity { HasOddParity result }
{
    let number = word.to_u32();
    let lower = number & 0xFFFF;
    let upper = number >> 24 & 0x7F;
    Word::with_odd_parity(lower + u32::from(destination) * 0x1_0000 + upper * 0x100_0000)
}

/// What is written of an entry.
#[inline(always)]
pub(crate) fn entry_of(codes: &Codes, lot: Lot, entry: Entry) -> Option<Entry>
    ensures { result ≡ written codes.now lot entry }
{
    match lot {
        Lot::Kept | Lot::OfNone => Some(entry),
        Lot::Renamed => Some(Entry {
            word: readdressed(entry.word, codes.destination),
            ..entry
        }),
        Lot::OfOther | Lot::Elsewhere { .. } => None,
    }
}
