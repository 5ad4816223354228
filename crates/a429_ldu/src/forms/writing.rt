//! The word of a form.

ghost use Rattle.std.specs.Prelude.{◌≡◌};
ghost use Rattle.a429_ldu.specs.Form.{fields_in, address_of, bus_of, row, data_row, IsInRange, IsForm, word_number};

use crate::forms::Form;
use crate::forms::fields::{Parts, word_with};
use crate::semis::Semis;
use a429_profile::{Codes, Profile};
use a429_word::{Bus, Word};

/// The word of a form (ARINC 429 Part 3; where its numbers are in it: profile). Its numbers lie in
/// the ranges that `Form` states. The word goes on the form's own bus.
pub fn word_of(profile: &Profile, form: &Form) -> Word
    requires { IsInRange form.now }
    ensures form { IsForm profile.now.codes (bus_of form.now) result form.now }
    ensures number { result ≡ word_number profile.now.codes form.now }
{
    let codes = profile.codes();
    word_with(address(codes, form.bus()), row(codes, form))
}

/// The address label of a bus.
pub(crate) fn address(codes: &Codes, bus: Bus) -> u8
    ensures { result ≡ address_of codes.now bus }
{
    match bus {
        Bus::A => codes.to_sink,
        Bus::B => codes.to_source,
    }
}

// The numbers in the word of a form.
fn row(codes: &Codes, form: &Form) -> Parts
    requires { IsInRange form.now }
    ensures { row codes.now form.now ≡ fields_in result }
{
    match form {
        Form::Rts { count } => protocol_row(codes, codes.rts, codes.destination, *count),
        Form::Cts { count } => protocol_row(codes, codes.cts, codes.destination, *count),
        Form::Ack { file, ldu } => protocol_row(codes, codes.ack, *file, *ldu),
        Form::Nak { bits } => protocol_row(codes, codes.nak, (bits >> 8) as u8, (bits & 255) as u8),
        Form::Sot { gfi, file, ldu } => Parts {
            kind: codes.sot,
            upper: *gfi,
            middle: *file,
            lower: *ldu,
        },
        Form::Part(semis) => data_row(codes, semis),
        Form::Eot { flags, check } => Parts {
            kind: codes.eot,
            upper: *flags,
            middle: (check >> 8) as u8,
            lower: (check & 255) as u8,
        },
    }
}

fn protocol_row(codes: &Codes, code: u8, middle: u8, lower: u8) -> Parts
    ensures { result ≡ record { kind = codes.now.protocol; upper = code; middle = middle; lower = lower } }
{
    Parts {
        kind: codes.protocol,
        upper: code,
        middle,
        lower,
    }
}

// The numbers in a data word.
fn data_row(codes: &Codes, semis: &Semis) -> Parts
    ensures { data_row codes.now semis.now ≡ fields_in result }
{
    let ([first, second, third, fourth, fifth], count) = semis.padded();
    let middle = third | fourth << 4;
    let lower = first | second << 4;
    if count == 5 {
        Parts {
            kind: codes.full,
            upper: fifth,
            middle,
            lower,
        }
    } else {
        Parts {
            kind: codes.partial,
            upper: codes.partial_codes[count as usize - 1],
            middle,
            lower,
        }
    }
}
