//! The check word of bytes, by a register that takes eight bytes at a time.

ghost use Rattle.std.specs.Prelude.{◌≡◌, true, fold, if◌then◌else◌};
ghost use Rattle.std.specs.Int.{reverse_bits_onto};
ghost use Rattle.std.specs.List.{flat_map};
ghost use Rattle.a429_profile.specs.CheckTables.{turned, fed_down};
ghost use Rattle.a429_ldu.specs.CheckWord.{fed_bits, check_of, agrees};

use a429_profile::{Check, CheckTables, after_zero_byte};

/// The check word of bytes (ARINC 429 Part 3): their remainder in a cyclic redundancy check of 16 bits. The profile
/// has its polynomial, its start, its end and the order of bits. No table is made: `check_word_by` is faster.
pub fn check_word(check: &Check, bytes: &[u8]) -> u16
    ensures { result ≡ check_of check.now bytes.now }
{
    // The register keeps its bits in reverse order, so that the low bit of each byte comes first.
    let start = check.init.reverse_bits();
    let register = after_each(check.poly.reverse_bits(), check.low_first, start, bytes);
    finished(check.low_first, register) ^ check.xor
}

/// The same, by the tables of a profile.
pub fn check_word_by(tables: &CheckTables, bytes: &[u8]) -> u16
    ensures { result ≡ check_of tables.now bytes.now }
{
    let rule = tables.rule();
    let start = rule.init.reverse_bits();
    let register = after_bytes(tables, rule.low_first, start, bytes);
    finished(rule.low_first, register) ^ rule.xor
}

/// Whether this is the check word of the bytes, or the profile compares none (ARINC 429 Part 3).
pub fn agrees(tables: &CheckTables, bytes: &[u8], check: u16) -> bool
    ensures { result ≡ agrees tables.now bytes.now check }
{
    !tables.rule().compare || check == check_word_by(tables, bytes)
}

// The register after bytes, each fed bit by bit. Register and polynomial have their bits in reverse order.
fn after_each(poly: u16, low_first: bool, start: u16, bytes: &[u8]) -> u16
    ensures { result ≡ fold (fed_down poly) start (flat_map (fed_bits low_first) bytes.now) }
{
    let mut register = start;
    for byte in bytes {
        register = after_one(poly, register, ordered(low_first, *byte));
    }
    register
}

// The register after a byte, its lowest bit first.
fn after_one(poly: u16, register: u16, byte: u8) -> u16
    ensures { result ≡ fold (fed_down poly) register (fed_bits true byte) }
{
    after_zero_byte(poly, register ^ u16::from(byte))
}

// The register after bytes: eight at a time, and then those that are left.
fn after_bytes(check: &CheckTables, low_first: bool, start: u16, bytes: &[u8]) -> u16
    ensures { result ≡ fold (fed_down (turned check.now.poly)) start (flat_map (fed_bits low_first) bytes.now) }
{
    let mut register = start;
    let mut rest = bytes;
    while let [
        first,
        second,
        third,
        fourth,
        fifth,
        sixth,
        seventh,
        eighth,
        later @ ..,
    ] = rest
    {
        let eight = [
            *first, *second, *third, *fourth, *fifth, *sixth, *seventh, *eighth,
        ];
        register = after_eight(check, register, ordered_eight(low_first, eight));
        rest = later;
    }
    after_few(check, low_first, register, rest)
}

// The same, a byte at a time.
fn after_few(check: &CheckTables, low_first: bool, start: u16, bytes: &[u8]) -> u16
    ensures { result ≡ fold (fed_down (turned check.now.poly)) start (flat_map (fed_bits low_first) bytes.now) }
{
    let mut register = start;
    for byte in bytes {
        register = after_byte(check, register, ordered(low_first, *byte));
    }
    register
}

// The register after eight bytes, the lowest bit of each first: the exclusive or of what each makes, the first two
// together with what was in the register.
fn after_eight(check: &CheckTables, register: u16, bytes: [u8; 8]) -> u16
    ensures { result ≡ fold (fed_down (turned check.now.poly)) register (flat_map (fed_bits true) bytes) }
{
    let [first, second, third, fourth, fifth, sixth, seventh, eighth] = bytes;
    let low = (register & 255) as u8 ^ first;
    let high = (register >> 8) as u8 ^ second;
    check.after_zeros(8, low)
        ^ check.after_zeros(7, high)
        ^ check.after_zeros(6, third)
        ^ check.after_zeros(5, fourth)
        ^ check.after_zeros(4, fifth)
        ^ check.after_zeros(3, sixth)
        ^ check.after_zeros(2, seventh)
        ^ check.after_zeros(1, eighth)
}

// The register after a byte, its lowest bit first.
fn after_byte(check: &CheckTables, register: u16, byte: u8) -> u16
    ensures { result ≡ fold (fed_down (turned check.now.poly)) register (fed_bits true byte) }
{
    let lowest = (register & 255) as u8 ^ byte;
    check.after_zeros(1, lowest) ^ (register >> 8)
}

// The bytes whose bits, the lowest first, are those of these bytes in the order in which they are fed.
fn ordered_eight(low_first: bool, bytes: [u8; 8]) -> [u8; 8]
    ensures { flat_map (fed_bits true) result ≡ flat_map (fed_bits low_first) bytes }
{
    let [first, second, third, fourth, fifth, sixth, seventh, eighth] = bytes;
    [
        ordered(low_first, first),
        ordered(low_first, second),
        ordered(low_first, third),
        ordered(low_first, fourth),
        ordered(low_first, fifth),
        ordered(low_first, sixth),
        ordered(low_first, seventh),
        ordered(low_first, eighth),
    ]
}

// The same of one byte.
#[inline(always)]
fn ordered(low_first: bool, byte: u8) -> u8
    ensures { fed_bits true result ≡ fed_bits low_first byte }
{
    if low_first { byte } else { byte.reverse_bits() }
}

// The remainder that a register is.
fn finished(low_first: bool, register: u16) -> u16
    ensures { result ≡ (if low_first then register else reverse_bits_onto 16 register 0) }
{
    if low_first {
        register
    } else {
        register.reverse_bits()
    }
}
