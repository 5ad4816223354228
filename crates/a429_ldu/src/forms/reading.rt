//! Which form the numbers in a transfer word have.

ghost use Rattle.std.specs.Prelude.{◌≡◌, ◌≤◌, ◌+◌, ◌*◌, ◌/◌, ◌%◌, [], ◌∷◌};
ghost use Rattle.a429_word.specs.declared.bus.Bus.TheVariants as bus;
ghost use Rattle.a429_ldu.specs.declared.forms.Form.TheVariants.{Part};
ghost use Rattle.a429_ldu.specs.Form.{fields_in, partial_on, form_on};
ghost use Rattle.a429_ldu.specs.Across.{with_destination};

use crate::forms::Form;
use crate::forms::fields::Parts;
use crate::semis::Semis;
use a429_profile::Codes;
use a429_word::Bus;

/// The form that a word of this bus with these numbers has, where requests and clear answers have this destination.
#[inline(never)]
pub(crate) fn form_on(codes: &Codes, destination: u8, bus: Bus, parts: Parts) -> Option<Form>
    requires { parts.upper ≤ 15 }
    ensures { result ≡ form_on (with_destination destination codes.now) bus (fields_in parts) }
{
    match bus {
        Bus::A => form_on_a(codes, destination, parts),
        Bus::B => form_on_b(codes, destination, parts),
    }
}

fn form_on_a(codes: &Codes, destination: u8, parts: Parts) -> Option<Form>
    requires { parts.upper ≤ 15 }
    ensures { result ≡ form_on (with_destination destination codes.now) bus.A (fields_in parts) }
{
    if parts.kind == codes.protocol {
        if parts.upper == codes.rts && parts.middle == destination && parts.lower >= 3 {
            Some(Form::Rts { count: parts.lower })
        } else {
            None
        }
    } else if parts.kind == codes.sot {
        Some(Form::Sot {
            gfi: parts.upper,
            file: parts.middle,
            ldu: parts.lower,
        })
    } else if parts.kind == codes.eot {
        Some(Form::Eot {
            flags: parts.upper,
            check: sixteen_bits(parts),
        })
    } else if parts.kind == codes.full {
        Some(full_form(parts))
    } else if parts.kind == codes.partial {
        partial_form(codes, parts)
    } else {
        None
    }
}

fn form_on_b(codes: &Codes, destination: u8, parts: Parts) -> Option<Form>
    ensures { result ≡ form_on (with_destination destination codes.now) bus.B (fields_in parts) }
{
    if parts.kind != codes.protocol {
        None
    } else if parts.upper == codes.cts && parts.middle == destination && parts.lower >= 3 {
        Some(Form::Cts { count: parts.lower })
    } else if parts.upper == codes.ack {
        Some(Form::Ack {
            file: parts.middle,
            ldu: parts.lower,
        })
    } else if parts.upper == codes.nak {
        Some(Form::Nak {
            bits: sixteen_bits(parts),
        })
    } else {
        None
    }
}

/// The form of a full word: its five semi-octets.
#[inline]
pub(crate) fn full_form(parts: Parts) -> Form
    requires { parts.upper ≤ 15 }
    ensures { result ≡ Part (parts.lower % 16 ∷ parts.lower / 16 ∷ parts.middle % 16 ∷ parts.middle / 16 ∷ parts.upper ∷ []) }
{
    let digits = [
        parts.lower % 16,
        parts.lower / 16,
        parts.middle % 16,
        parts.middle / 16,
        parts.upper,
    ];
    Form::Part(Semis::kept(digits, 5))
}

// The form of a partial word: its code says how many semi-octets it has, and the others have to be 0.
fn partial_form(codes: &Codes, parts: Parts) -> Option<Form>
    ensures { result ≡ partial_on codes.now (fields_in parts) }
{
    let low = [parts.lower % 16, parts.lower / 16];
    let middle = [parts.middle % 16, parts.middle / 16];
    if parts.upper == codes.partial_codes[0] && parts.middle == 0 && parts.lower <= 15 {
        Some(Form::Part(Semis::kept([parts.lower, 0, 0, 0, 0], 1)))
    } else if parts.upper == codes.partial_codes[1] && parts.middle == 0 {
        Some(Form::Part(Semis::kept([low[0], low[1], 0, 0, 0], 2)))
    } else if parts.upper == codes.partial_codes[2] && parts.middle <= 15 {
        let digits = [low[0], low[1], parts.middle, 0, 0];
        Some(Form::Part(Semis::kept(digits, 3)))
    } else if parts.upper == codes.partial_codes[3] {
        let digits = [low[0], low[1], middle[0], middle[1], 0];
        Some(Form::Part(Semis::kept(digits, 4)))
    } else {
        None
    }
}

// Bits 9 to 24 as one number.
fn sixteen_bits(parts: Parts) -> u16
    ensures { result ≡ parts.middle * 256 + parts.lower }
{
    u16::from(parts.middle) << 8 | u16::from(parts.lower)
}
