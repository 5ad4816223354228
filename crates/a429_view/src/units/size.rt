//! How long a link data unit is.

ghost use Rattle.std.specs.Prelude.{◌≡◌, length};
ghost use Rattle.a429_ldu.specs.Ldu.{bytes_of};
ghost use Rattle.a429_view.specs.Units.{size_of};

use a429_ldu::{Ldu, block_bytes};
use a429_link::is_final;
use a429_profile::Profile;

/// How long a link data unit is, and whether it ends its file (ARINC 429 Part 3).
#[derive(Clone, Copy)]
pub struct UnitSize {
    /// How many words its block has, the start word and the end word among them.
    pub words: u8,
    /// How many bytes they carry.
    pub bytes: usize,
    pub is_final: bool,
}

impl UnitSize {
    /// The size of this unit.
    pub fn of(profile: &Profile, unit: &Ldu) -> UnitSize
        ensures { result ≡ size_of profile.now.codes unit.now }
    {
        UnitSize {
            words: unit.count(),
            bytes: byte_count(profile, unit),
            is_final: is_final(profile, unit.flags()),
        }
    }
}

// How many bytes its words carry.
fn byte_count(profile: &Profile, unit: &Ldu) -> usize
    ensures { result ≡ length (bytes_of profile.now.codes unit.now) }
{
    // Its block has at most 255 words, so that there is room for the bytes.
    let _words: u8 = unit.count();
    match block_bytes(profile, unit.words()) {
        Some(bytes) => bytes.len(),
        None => 0,
    }
}
