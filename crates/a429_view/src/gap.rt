//! Why a word that claims to be one of the transfer has no form in either direction.

ghost use Rattle.std.specs.Prelude.{◌≡◌};
ghost use Rattle.a429_ldu.specs.Form.{fields_of};
ghost use Rattle.a429_view.specs.Gap.{asking_code, fields_in, gap_of, gap_of_partial, gap_of_protocol, gap_text, is_partial};
ghost use Rattle.a429_view.specs.Line.{Adds, Fits};

use crate::forms::add_named;
use crate::line::Line;
use a429_profile::Codes;
use a429_word::{Bus, Word};

/// The first number in such a word that no form of the transfer has there (ARINC 429 Part 3; the numbers are the profile's).
#[derive(Clone, Copy)]
pub(crate) enum Gap {
    /// Its type, bits 29 to 31.
    Kind(u8),
    /// Its code, bits 25 to 28.
    Code(u8),
    /// The destination of a request or of a clear answer, bits 17 to 24.
    Destination(u8),
    /// The count of a request or of a clear answer, bits 9 to 16, which is below 3.
    Count(u8),
    /// A partial data word has other semi-octets than its code says.
    SemiOctets,
}

/// The numbers in a word: bits 29 to 31, 25 to 28, 17 to 24 and 9 to 16.
#[derive(Clone, Copy)]
pub(crate) struct Numbers {
    pub kind: u8,
    pub upper: u8,
    pub middle: u8,
    pub lower: u8,
}

/// The numbers in this word.
pub(crate) fn numbers_of(word: Word) -> Numbers
    ensures { fields_of word ≡ fields_in result }
{
    let number = word.to_u32();
    Numbers {
        kind: (number >> 28 & 7) as u8,
        upper: (number >> 24 & 15) as u8,
        middle: (number >> 16 & 255) as u8,
        lower: (number >> 8 & 255) as u8,
    }
}

/// The first of these numbers that no form has there, of a word of neither direction on this bus.
pub(crate) fn gap_of(codes: &Codes, bus: Bus, numbers: Numbers) -> Gap
    ensures { result ≡ gap_of codes.now bus (fields_in numbers) }
{
    if numbers.kind == codes.protocol {
        gap_of_protocol(codes, bus, numbers)
    } else if numbers.kind == codes.partial {
        gap_of_partial(codes, numbers.upper)
    } else {
        Gap::Kind(numbers.kind)
    }
}

// The same of a partial data word with this code.
fn gap_of_partial(codes: &Codes, code: u8) -> Gap
    ensures { result ≡ gap_of_partial codes.now code }
{
    if is_partial(codes, code) {
        Gap::SemiOctets
    } else {
        Gap::Code(code)
    }
}

// Whether it is one of the codes of partial data words.
fn is_partial(codes: &Codes, code: u8) -> bool
    ensures { result ≡ is_partial codes.now code }
{
    codes.partial_codes.iter().any(|known| *known == code)
}

// The same of a protocol word.
fn gap_of_protocol(codes: &Codes, bus: Bus, numbers: Numbers) -> Gap
    ensures { result ≡ gap_of_protocol codes.now bus (fields_in numbers) }
{
    if numbers.upper == asking_code(codes, bus) {
        if numbers.middle == codes.destination {
            Gap::Count(numbers.lower)
        } else {
            Gap::Destination(numbers.middle)
        }
    } else if numbers.upper == codes.rts || numbers.upper == codes.cts {
        Gap::Count(numbers.lower)
    } else {
        Gap::Code(numbers.upper)
    }
}

// The code of the protocol word in which a unit on this bus names a destination.
fn asking_code(codes: &Codes, bus: Bus) -> u8
    ensures { result ≡ asking_code codes.now bus }
{
    match bus {
        Bus::A => codes.rts,
        Bus::B => codes.cts,
    }
}

/// Adds which number it is.
pub(crate) fn add_gap(line: &mut Line, gap: Gap)
    requires { Fits line.old 16 }
    ensures { Adds line.old line.new 15 (gap_text gap) }
{
    match gap {
        Gap::Kind(number) => add_named(line, b"type ", number),
        Gap::Code(number) => add_named(line, b"code ", number),
        Gap::Destination(number) => add_named(line, b"destination ", number),
        Gap::Count(number) => add_named(line, b"count ", number),
        Gap::SemiOctets => line.put(b"semi-octets"),
    }
}
