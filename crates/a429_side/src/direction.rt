//! Which direction a recorded word belongs to.

ghost use Rattle.std.specs.Prelude.{◌≡◌, false};
ghost use Rattle.a429_ldu.specs.Form.{fields_of, is_free};
ghost use Rattle.a429_side.specs.Direction.{direction_in, is_named};

use crate::fields::{code_of, kind_of};
use a429_ldu::{Sight, form, other_line};
use a429_link::Seen;
use a429_profile::{Codes, Profile};
use a429_word::{Bus, Word};

/// The direction that a recorded word belongs to, where two units send each other files on one pair of lines. A word has the label of the
/// unit that it goes to (ARINC 429 Part 3), so words of both directions have one label on one line; their types and codes say which
/// they are (profile).
#[derive(Clone, Copy, Debug)]
pub enum Direction {
    /// That of the profile, whose files travel on line A: a request, start word, data word or end word on line A, or an answer on line B.
    This,
    /// The other one, which has the same types and codes, and the labels the other way round: an answer on line A, or any of the
    /// others on line B.
    Other,
    /// Neither: the word is free.
    Free,
    /// Neither: its type or its code stands for nothing on this line.
    Neither,
}

/// The direction that a recorded word belongs to. Whether its destination, its count and its other numbers are good is not looked at.
#[inline(always)]
pub fn direction_of(profile: &Profile, seen: Seen) -> Direction
    ensures { result ≡ direction_in profile.now.codes seen }
{
    let codes = profile.codes();
    match form(profile, seen.bus, seen.word) {
        Sight::Free => Direction::Free,
        Sight::Form(_) => Direction::This,
        Sight::NoForm => named_direction(codes, seen),
    }
}

// The direction that a word belongs to which is not free.
fn named_direction(codes: &Codes, seen: Seen) -> Direction
    requires { is_free codes.now seen.bus seen.word ≡ false }
    ensures { result ≡ direction_in codes.now seen }
{
    if is_on_line(codes, other_line(seen.bus), seen.word) {
        Direction::Other
    } else if is_on_line(codes, seen.bus, seen.word) {
        Direction::This
    } else {
        Direction::Neither
    }
}

// Whether the type and the code of a word are those of a word that a direction has on this line.
fn is_on_line(codes: &Codes, line: Bus, word: Word) -> bool
    ensures { result ≡ is_named codes.now line (fields_of word) }
{
    let (kind, code) = (kind_of(word), code_of(word));
    match line {
        Bus::A => {
            if kind == codes.protocol {
                code == codes.rts
            } else {
                (kind == codes.sot)
                    | ((kind == codes.eot) | ((kind == codes.full) | (kind == codes.partial)))
            }
        }
        Bus::B => (kind == codes.protocol)
            & ((code == codes.cts) | ((code == codes.ack) | (code == codes.nak))),
    }
}
