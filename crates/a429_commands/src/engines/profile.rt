//! Reads the bytes of a profile, as each command that takes one does.

ghost use Rattle.std.specs.Prelude.{IfOk, IfErr};
ghost use Rattle.a429_commands.specs.Profile.{IsProfileOf, IsProfileFault};

use crate::fault::RunFault;
use a429_profile::{Profile, ProfileFault, read_profile};
use std::alloc::Global;
use std::str;

/// The profile that the bytes are the text of. Bytes that are no text are no TOML.
/// (for the proof: its owner calls `drop`, since that is one step, and the end of a scope has one for each field)
pub(crate) fn profile_of(alloc: Global, bytes: &[u8]) -> Result<Profile, RunFault>
    ensures ok { IfOk result (IsProfileOf bytes.now) }
    ensures err { IfErr result (IsProfileFault bytes.now) }
{
    let Ok(text) = str::from_utf8(bytes) else {
        return Err(RunFault::Profile(ProfileFault::NotToml));
    };
    match read_profile(alloc, text) {
        Ok(profile) => Ok(profile),
        Err(ProfileFault::OutOfMemory) => Err(RunFault::Memory),
        Err(fault) => Err(RunFault::Profile(fault)),
    }
}
