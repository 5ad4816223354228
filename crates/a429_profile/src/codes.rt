//! The numbers of the file transfer, and of its check word.

ghost use Rattle.std.specs.Prelude.{◌≡◌};
ghost use Rattle.toml.specs.View.{table_view};
ghost use Rattle.a429_profile.specs.Fault.{Gives, GivesInMemory};
ghost use Rattle.a429_profile.specs.Value.{octal, number, numbers, truth};
ghost use Rattle.a429_profile.specs.Codes.{octal_at_key, number_at_key, numbers_at_key, truth_at_key, transfer_of, types_of, protocol_codes_of, check_rule, codes_of, partial_codes_of};
ghost use Rattle.a429_profile.specs.Key.{section_row, section_fault, first_section_fault, transfer_keys, type_keys, code_keys, partial_keys, check_keys, number_keys};

use crate::entry::Numbers;
use crate::fault::ProfileFault;
use crate::key::{Key, SectionKey};
use crate::value::{four_numbers, in_section, number, numbers, octal, small, truth};
use std::alloc::Global;
use toml::Table;

/// The numbers in the words of a file transfer (messages: ARINC 429 Part 3; the numbers are the bench's own: profile).
#[derive(Debug, Drop)]
pub struct Codes {
    /// The address label of words to the sink, on bus A.
    pub to_sink: u8,
    /// The address label of words to the source, on bus B.
    pub to_source: u8,
    /// The destination code in requests and clear answers.
    pub destination: u8,
    /// The number of a file's first link data unit, 0 or 1.
    pub first_ldu: u8,
    /// The bit of an end word that marks a file's last link data unit, 25 to 28.
    pub final_bit: u8,
    /// Bits 29 to 31, the type, 0 to 7: of full data words, and then of partial ones, of requests and answers, of start
    /// words and of end words.
    pub full: u8,
    pub partial: u8,
    pub protocol: u8,
    pub sot: u8,
    pub eot: u8,
    /// Bits 25 to 28, the code, 0 to 15: of requests to send, and then of the clear answer, of the acknowledgement and of
    /// the negative answer.
    pub rts: u8,
    pub cts: u8,
    pub ack: u8,
    pub nak: u8,
    /// Types of words over which the transfer passes.
    pub ignored_types: Numbers,
    /// Codes of protocol words over which the transfer passes.
    pub ignored_codes: Numbers,
    /// The codes of partial data words of 1, 2, 3 and 4 semi-octets, 0 to 15.
    pub partial_codes: [u8; 4],
}

/// How the check word of a link data unit is made: a cyclic redundancy check of 16 bits (ARINC 429 Part 3; the numbers are
/// the bench's own: profile).
#[derive(Clone, Copy, Debug)]
pub struct Check {
    /// The polynomial without its highest term.
    pub poly: u16,
    /// The bits with which the register starts.
    pub init: u16,
    /// The number that is exclusive-ored with the register at the end.
    pub xor: u16,
    /// Whether the lowest bit of each byte is fed in first, and the remainder is read with its first bit as the lowest.
    pub low_first: bool,
    /// Whether check words are compared. Where not, any check word is good.
    pub compare: bool,
}

// The section `transfer`.
#[derive(Clone, Copy)]
struct Transfer {
    to_sink: u8,
    to_source: u8,
    destination: u8,
    first_ldu: u8,
    final_bit: u8,
}

// The section `types`.
#[derive(Drop)]
struct Types {
    full: u8,
    partial: u8,
    protocol: u8,
    sot: u8,
    eot: u8,
    ignored: Numbers,
}

// The section `codes`.
#[derive(Drop)]
struct ProtocolCodes {
    rts: u8,
    cts: u8,
    ack: u8,
    nak: u8,
    ignored: Numbers,
}

fn octal_at(doc: &Table, key: SectionKey) -> Result<u8, ProfileFault>
    requires { (section_row key).rule ≡ octal }
    ensures { Gives (octal_at_key (table_view doc.now) key) (section_fault (table_view doc.now) key) result }
{
    let value = in_section(doc, key)?;
    octal(value, Key::Section(key))
}

fn small_at(doc: &Table, key: SectionKey, low: u8, high: u8) -> Result<u8, ProfileFault>
    requires { (section_row key).rule ≡ number low high }
    ensures { Gives (number_at_key (table_view doc.now) key) (section_fault (table_view doc.now) key) result }
{
    let value = in_section(doc, key)?;
    small(value, Key::Section(key), low, high)
}

// A number of 16 bits.
fn wide_at(doc: &Table, key: SectionKey) -> Result<u16, ProfileFault>
    requires { (section_row key).rule ≡ number 0 65535 }
    ensures { Gives (number_at_key (table_view doc.now) key) (section_fault (table_view doc.now) key) result }
{
    let value = in_section(doc, key)?;
    let number = number(value, Key::Section(key), 0, 65535)?;
    Ok(number as u16)
}

fn truth_at(doc: &Table, key: SectionKey) -> Result<bool, ProfileFault>
    requires { (section_row key).rule ≡ truth }
    ensures { Gives (truth_at_key (table_view doc.now) key) (section_fault (table_view doc.now) key) result }
{
    let value = in_section(doc, key)?;
    truth(value, Key::Section(key))
}

fn numbers_at(
    alloc: Global,
    doc: &Table,
    key: SectionKey,
    low: u8,
    high: u8,
) -> Result<Numbers, ProfileFault>
    requires { (section_row key).rule ≡ numbers low high }
    ensures { GivesInMemory (numbers_at_key (table_view doc.now) key) (section_fault (table_view doc.now) key) result }
{
    let value = in_section(doc, key)?;
    numbers(alloc, value, Key::Section(key), low, high)
}

fn read_transfer(doc: &Table) -> Result<Transfer, ProfileFault>
    ensures { Gives (transfer_of (table_view doc.now)) (first_section_fault (table_view doc.now) transfer_keys) result }
{
    let to_sink = octal_at(doc, SectionKey::ToSink)?;
    let to_source = octal_at(doc, SectionKey::ToSource)?;
    let destination = small_at(doc, SectionKey::Destination, 0, 255)?;
    let first_ldu = small_at(doc, SectionKey::FirstLdu, 0, 1)?;
    let final_bit = small_at(doc, SectionKey::FinalBit, 25, 28)?;
    Ok(Transfer {
        to_sink,
        to_source,
        destination,
        first_ldu,
        final_bit,
    })
}

fn read_types(alloc: Global, doc: &Table) -> Result<Types, ProfileFault>
    ensures { GivesInMemory (types_of (table_view doc.now)) (first_section_fault (table_view doc.now) type_keys) result }
{
    let full = small_at(doc, SectionKey::Full, 0, 7)?;
    let partial = small_at(doc, SectionKey::Partial, 0, 7)?;
    let protocol = small_at(doc, SectionKey::Protocol, 0, 7)?;
    let sot = small_at(doc, SectionKey::Sot, 0, 7)?;
    let eot = small_at(doc, SectionKey::Eot, 0, 7)?;
    let ignored = numbers_at(alloc, doc, SectionKey::IgnoredTypes, 0, 7)?;
    Ok(Types {
        full,
        partial,
        protocol,
        sot,
        eot,
        ignored,
    })
}

fn read_protocol_codes(alloc: Global, doc: &Table) -> Result<ProtocolCodes, ProfileFault>
    ensures { GivesInMemory (protocol_codes_of (table_view doc.now)) (first_section_fault (table_view doc.now) code_keys) result }
{
    let rts = small_at(doc, SectionKey::Rts, 0, 15)?;
    let cts = small_at(doc, SectionKey::Cts, 0, 15)?;
    let ack = small_at(doc, SectionKey::Ack, 0, 15)?;
    let nak = small_at(doc, SectionKey::Nak, 0, 15)?;
    let ignored = numbers_at(alloc, doc, SectionKey::IgnoredCodes, 0, 15)?;
    Ok(ProtocolCodes {
        rts,
        cts,
        ack,
        nak,
        ignored,
    })
}

fn read_partial_codes(doc: &Table) -> Result<[u8; 4], ProfileFault>
    ensures { Gives (partial_codes_of (table_view doc.now)) (first_section_fault (table_view doc.now) partial_keys) result }
{
    let key = SectionKey::PartialCodes;
    let value = in_section(doc, key)?;
    four_numbers(value, Key::Section(key), 0, 15)
}

pub(crate) fn read_check(doc: &Table) -> Result<Check, ProfileFault>
    ensures { Gives (check_rule (table_view doc.now)) (first_section_fault (table_view doc.now) check_keys) result }
{
    let poly = wide_at(doc, SectionKey::Poly)?;
    let init = wide_at(doc, SectionKey::Init)?;
    let xor = wide_at(doc, SectionKey::Xor)?;
    let low_first = truth_at(doc, SectionKey::LowFirst)?;
    let compare = truth_at(doc, SectionKey::Compare)?;
    Ok(Check {
        poly,
        init,
        xor,
        low_first,
        compare,
    })
}

/// The numbers of the file transfer, from four sections.
pub(crate) fn read_codes(alloc: Global, doc: &Table) -> Result<Codes, ProfileFault>
    ensures { GivesInMemory (codes_of (table_view doc.now)) (first_section_fault (table_view doc.now) number_keys) result }
{
    let transfer = read_transfer(doc)?;
    let types = read_types(alloc, doc)?;
    let codes = read_protocol_codes(alloc, doc)?;
    let partial_codes = read_partial_codes(doc)?;
    Ok(Codes {
        to_sink: transfer.to_sink,
        to_source: transfer.to_source,
        destination: transfer.destination,
        first_ldu: transfer.first_ldu,
        final_bit: transfer.final_bit,
        full: types.full,
        partial: types.partial,
        protocol: types.protocol,
        sot: types.sot,
        eot: types.eot,
        rts: codes.rts,
        cts: codes.cts,
        ack: codes.ack,
        nak: codes.nak,
        ignored_types: types.ignored,
        ignored_codes: codes.ignored,
        partial_codes,
    })
}
