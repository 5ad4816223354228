//! Reads the bytes of a profile and of a recording.

ghost use Rattle.std.specs.Prelude.{◌≡◌, IfOk};
ghost use Rattle.a429_record.specs.Recording.{stands_for, whole};
ghost use Rattle.a429_c.specs.Input.{IsProfileOf};

use crate::fault::Fault;
use a429_profile::{Profile, ProfileFault, read_profile};
use a429_record::{Entry, ReadFault, read_entries};
use a429_word::Tally;
use std::alloc::Global;
use std::str;

/// The profile that the bytes are the text of. Bytes that are no text are no TOML.
/// (for the proof: its owner calls `drop`, since that is one step, and the end of a scope has one for each field)
pub fn profile_of(alloc: Global, bytes: &[u8]) -> Result<Profile, Fault>
    ensures { IfOk result (IsProfileOf bytes.now) }
{
    let Ok(text) = str::from_utf8(bytes) else {
        return Err(Fault::Profile(ProfileFault::NotToml));
    };
    match read_profile(alloc, text) {
        Ok(profile) => Ok(profile),
        Err(ProfileFault::OutOfMemory) => Err(Fault::Memory),
        Err(fault) => Err(Fault::Profile(fault)),
    }
}

/// The entries of a recording, all of them.
pub fn entries_of(alloc: Global, bytes: &[u8]) -> Result<Vec<Entry>, Fault>
    ensures { IfOk result (λ v. stands_for bytes.now ≡ whole v.items) }
{
    match read_entries(alloc, &mut Tally::new(bytes, u64::MAX)) {
        Ok(entries) => Ok(entries),
        Err(ReadFault::OutOfMemory) => Err(Fault::Memory),
        Err(fault) => Err(Fault::Recording(fault)),
    }
}
