//! Finds the first clash of a profile whose keys have no fault.

ghost use Rattle.std.specs.Prelude.{◌≡◌, ◌==◌, ◌++◌, [], IfOk};
ghost use Rattle.std.specs.List.{list_any};
ghost use Rattle.a429_profile.specs.Clash.{sdis_meet, entries_meet, label_clashes, label_clash_after, key_of, twins_after, all_at_key, types_at_keys, codes_at_keys, partial_codes_at_keys, code_clash, bit_after, bit_clash_in, bit_clash, first_clash};

use crate::codes::Codes;
use crate::entry::{Flag, Kind, LabelEntry};
use crate::fault::ProfileFault;
use crate::key::SectionKey;
use std::alloc::{AllocError, Global};

/// The first clash: of labels, then of types and codes, then of flags' bits.
pub(crate) fn first_clash(
    alloc: Global,
    codes: &Codes,
    entries: &[LabelEntry],
) -> Result<Option<ProfileFault>, AllocError>
    ensures { IfOk result (λ f. f ≡ first_clash codes.now entries.now) }
{
    if let Some(fault) = label_clash(codes, entries) {
        return Ok(Some(fault));
    }
    if let Some(fault) = code_clash(alloc, codes)? {
        return Ok(Some(fault));
    }
    Ok(bit_clash(entries))
}

// ---- labels

fn label_clash(codes: &Codes, entries: &[LabelEntry]) -> Option<ProfileFault>
    ensures { result ≡ label_clash_after codes.now [] entries.now }
{
    for (i, entry) in entries.iter().enumerate() {
        if label_clashes(codes, &entries[..i], entry) {
            return Some(ProfileFault::LabelClash(entry.label));
        }
    }
    None
}

fn label_clashes(codes: &Codes, earlier: &[LabelEntry], entry: &LabelEntry) -> bool
    ensures { result ≡ label_clashes codes.now earlier.now entry.now }
{
    entry.label == codes.to_sink || entry.label == codes.to_source || meets_any(earlier, entry)
}

fn meets_any(earlier: &[LabelEntry], entry: &LabelEntry) -> bool
    ensures { result ≡ list_any (λ o. entries_meet o entry.now) earlier.now }
{
    earlier.iter().any(|other| entries_meet(other, entry))
}

// Whether both are for some word.
fn entries_meet(a: &LabelEntry, b: &LabelEntry) -> bool
    ensures { result ≡ entries_meet a.now b.now }
{
    a.label == b.label && sdis_meet(a.sdi, b.sdi)
}

fn sdis_meet(a: Option<u8>, b: Option<u8>) -> bool
    ensures { result ≡ sdis_meet a b }
{
    match (a, b) {
        (Some(a), Some(b)) => a == b,
        _ => true,
    }
}

// ---- types and codes

fn code_clash(alloc: Global, codes: &Codes) -> Result<Option<ProfileFault>, AllocError>
    ensures { IfOk result (λ f. f ≡ code_clash codes.now) }
{
    if let Some(fault) = type_twins(alloc, codes)? {
        return Ok(Some(fault));
    }
    if let Some(fault) = code_twins(alloc, codes)? {
        return Ok(Some(fault));
    }
    partial_twins(alloc, codes)
}

fn type_twins(alloc: Global, codes: &Codes) -> Result<Option<ProfileFault>, AllocError>
    ensures { IfOk result (λ f. f ≡ twins_after [] (types_at_keys codes.now)) }
{
    let used = [
        (SectionKey::Full, codes.full),
        (SectionKey::Partial, codes.partial),
        (SectionKey::Protocol, codes.protocol),
        (SectionKey::Sot, codes.sot),
        (SectionKey::Eot, codes.eot),
    ];
    let ignored = codes.ignored_types.as_slice();
    let named = named(alloc, &used, SectionKey::IgnoredTypes, ignored)?;
    Ok(twins(named.as_slice()))
}

fn code_twins(alloc: Global, codes: &Codes) -> Result<Option<ProfileFault>, AllocError>
    ensures { IfOk result (λ f. f ≡ twins_after [] (codes_at_keys codes.now)) }
{
    let used = [
        (SectionKey::Rts, codes.rts),
        (SectionKey::Cts, codes.cts),
        (SectionKey::Ack, codes.ack),
        (SectionKey::Nak, codes.nak),
    ];
    let ignored = codes.ignored_codes.as_slice();
    let named = named(alloc, &used, SectionKey::IgnoredCodes, ignored)?;
    Ok(twins(named.as_slice()))
}

fn partial_twins(alloc: Global, codes: &Codes) -> Result<Option<ProfileFault>, AllocError>
    ensures { IfOk result (λ f. f ≡ twins_after [] (partial_codes_at_keys codes.now)) }
{
    let named = named(alloc, &[], SectionKey::PartialCodes, &codes.partial_codes)?;
    Ok(twins(named.as_slice()))
}

// The numbers of several keys, and then those of one.
fn named(
    alloc: Global,
    used: &[(SectionKey, u8)],
    key: SectionKey,
    numbers: &[u8],
) -> Result<Vec<(SectionKey, u8)>, AllocError>
    ensures { IfOk result (λ v. v.items ≡ used.now ++ all_at_key key numbers.now) }
{
    let mut named = Vec::from_slice(alloc, used)?;
    for number in numbers {
        named.push((key, *number))?;
    }
    Ok(named)
}

// The first number that equals an earlier one.
fn twins(named: &[(SectionKey, u8)]) -> Option<ProfileFault>
    ensures { result ≡ twins_after [] named.now }
{
    for (i, (later, number)) in named.iter().enumerate() {
        if let Some(earlier) = key_of(*number, &named[..i]) {
            return Some(ProfileFault::CodeClash(earlier, *later));
        }
    }
    None
}

// The key of the first of some numbers that is this one.
fn key_of(number: u8, named: &[(SectionKey, u8)]) -> Option<SectionKey>
    ensures { result ≡ key_of number named.now }
{
    for (key, other) in named {
        if *other == number {
            return Some(*key);
        }
    }
    None
}

// ---- bits of flags

fn bit_clash(entries: &[LabelEntry]) -> Option<ProfileFault>
    ensures { result ≡ bit_clash entries.now }
{
    for entry in entries {
        if let Some(fault) = bit_clash_in(entry) {
            return Some(fault);
        }
    }
    None
}

fn bit_clash_in(entry: &LabelEntry) -> Option<ProfileFault>
    ensures { result ≡ bit_clash_in entry.now.label entry.now.kind }
{
    match &entry.kind {
        Kind::Discrete { flags } => bit_twin(entry.label, flags.as_slice()),
        _ => None,
    }
}

// The first flag whose bit an earlier one has.
fn bit_twin(label: u8, flags: &[Flag]) -> Option<ProfileFault>
    ensures { result ≡ bit_after label [] flags.now }
{
    for (i, flag) in flags.iter().enumerate() {
        if has_twin(&flags[..i], flag) {
            return Some(ProfileFault::BitClash(label, flag.bit));
        }
    }
    None
}

fn has_twin(earlier: &[Flag], flag: &Flag) -> bool
    ensures { result ≡ list_any (λ o. o.bit == flag.now.bit) earlier.now }
{
    earlier.iter().any(|other| other.bit == flag.bit)
}
