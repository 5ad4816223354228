//! Which entries of a recording belong to its transfer.

ghost use Rattle.std.specs.Prelude.{◌≡◌, ◌↔◌, true};
ghost use Rattle.a429_parts.specs.Kept.{HasTransferLabel};

use a429_profile::Profile;
use a429_record::Entry;
use a429_word::Bus;

/// Whether an entry's word has the label that the profile's transfer has on its bus: `to_sink` on bus A,
/// `to_source` on bus B (profile). A damaged or an ignored word with this label is kept.
#[inline]
pub fn is_kept(profile: &Profile, entry: &Entry) -> bool
    ensures { result ≡ true ↔ HasTransferLabel profile.now.codes entry.now }
{
    let codes = profile.codes();
    let label = match entry.bus {
        Bus::A => codes.to_sink,
        Bus::B => codes.to_source,
    };
    entry.word.label() == label
}
