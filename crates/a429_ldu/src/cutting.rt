//! Cutting a file into link data units.

ghost use Rattle.std.specs.Prelude.{◌≡◌, ◌↔◌, ◌≤◌, ◌<◌, ◌*◌, Err, IfOk, OnOk, All, length, map};
ghost use Rattle.std.specs.List.{concat};
ghost use Rattle.a429_profile.specs.Profile.{IsProfile};
ghost use Rattle.a429_ldu.specs.Ldu.{most_unit_bytes, count_of, bytes_of, IsLdu};
ghost use Rattle.a429_ldu.specs.Cut.{most_units, room, pieces, unit_of, units_in, units_of, final_flag, OnlyLastIsFinal};

use crate::check_words::check_word_by;
use crate::fault::CutFault;
use crate::filling::data_words;
use crate::ldu::Ldu;
use a429_profile::Profile;
use std::alloc::{AllocError, Global};

/// The most link data units of a file.
pub const MOST_UNITS: usize = 255;

/// The link data units of a file (ARINC 429 Part 3; how a file is cut is this project's choice, profile),
/// each of at most `max_words` words, 3 to 255. Each but the last takes the largest whole number of bytes
/// that its data words hold. A unit has full words, and then at most one partial word; its general format
/// identifier is 0, its check word is that of its bytes, and its flags are 0, or in the last one the final bit
/// alone. The fault is the first that applies.
pub fn cut(
    alloc: Global,
    profile: &Profile,
    bytes: &[u8],
    max_words: u8,
) -> Result<Vec<Ldu>, CutFault>
    requires { 3 ≤ max_words }
    ensures empty { (result ≡ Err CutFault.Empty) ↔ (length bytes.now ≡ 0) }
    ensures long { (result ≡ Err CutFault.TooLong) ↔ (most_units * room max_words < length bytes.now) }
    ensures units { IfOk result (λ us. us.items ≡ units_of profile.now max_words bytes.now) }
    ensures sound { IfOk result (λ us. All (IsLdu profile.now) us.items) }
    ensures fits { IfOk result (λ us. All (λ u. count_of u ≤ max_words) us.items) }
    ensures joined { IfOk result (λ us. concat (map (bytes_of profile.now.codes) us.items) ≡ bytes.now) }
    ensures last { IfOk result (λ us. OnlyLastIsFinal profile.now.codes us.items) }
{
    if bytes.is_empty() {
        return Err(CutFault::Empty);
    }
    let room = (usize::from(max_words) - 2) * 5 / 2;
    if bytes.len() > MOST_UNITS * room {
        return Err(CutFault::TooLong);
    }
    match units(alloc, profile, bytes, room) {
        Ok(units) => Ok(units),
        Err(_) => Err(CutFault::OutOfMemory),
    }
}

// The link data units of bytes, each but the last with so many.
fn units(
    alloc: Global,
    profile: &Profile,
    bytes: &[u8],
    room: usize,
) -> Result<Vec<Ldu>, AllocError>
    requires some { 1 ≤ length bytes.now }
    requires most { length bytes.now ≤ most_units * room }
    requires room { room ≤ most_unit_bytes }
    ensures units { IfOk result (λ us. us.items ≡ units_in profile.now (pieces most_units room bytes.now)) }
    ensures profile { OnOk result (IsProfile profile.now) }
{
    let mut units = Vec::new(alloc);
    let mut rest = bytes;
    while rest.len() > room {
        let (piece, later) = rest.split_at(room);
        units.push(unit(alloc, profile, piece, 0)?)?;
        rest = later;
    }
    units.push(unit(alloc, profile, rest, final_flag(profile))?)?;
    Ok(units)
}

// The link data unit of bytes.
fn unit(alloc: Global, profile: &Profile, bytes: &[u8], flags: u8) -> Result<Ldu, AllocError>
    requires some { 1 ≤ length bytes.now }
    requires most { length bytes.now ≤ most_unit_bytes }
    requires flags { flags ≤ 15 }
    ensures { IfOk result (λ u. u ≡ unit_of profile.now bytes.now flags) }
{
    let words = data_words(alloc, profile, bytes)?;
    Ok(Ldu::of_parts(flags, check_word_by(profile.check_tables(), bytes), words))
}

// The flag of a file's last link data unit.
fn final_flag(profile: &Profile) -> u8
    ensures value { result ≡ final_flag profile.now.codes }
    ensures range { result ≤ 15 }
    ensures profile { IsProfile profile.now }
{
    1 << (profile.codes().final_bit - 25)
}
