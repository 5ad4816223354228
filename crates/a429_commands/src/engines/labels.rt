//! `a429 labels PROFILE`: the label table of a profile, a line for each entry.

ghost use Rattle.a429_commands.specs.Ends.{Ends};
ghost use Rattle.a429_commands.specs.Output.{output};
ghost use Rattle.a429_commands.specs.Labels.{of_labels};

use crate::engines::profile::profile_of;
use crate::engines::text::{Text, write_at_once};
use crate::fault::RunFault;
use a429_profile::Profile;
use a429_view::put_labels;
use a429_word::{Sheet, Tally};
use std::alloc::Global;
use std::io::Write;

/// Writes the label table of a profile, a line for each entry in the file's order, and answers status
/// 0. `profile` is the bytes of its text. Nothing is written where the profile has a fault.
pub fn run_labels<W: Write>(
    alloc: Global,
    profile: &[u8],
    out: &mut Tally<W>,
) -> Result<u8, RunFault>
    ensures { Ends (output W.contents out.old out.new) (of_labels profile.now) result }
{
    write_at_once(profile_of(alloc, profile), out)
}

// A line for each entry.
impl Text for Profile {
    ghost use Rattle.std.specs.Prelude.{◌≡◌};
    ghost use Rattle.a429_view.specs.Labels.{label_lines};

    ghost says = { λ p status text. (status ≡ 0) × (text ≡ label_lines p.labels) };

    ghost begins = { λ p text. text ≡ label_lines p.labels };

    fn put<W: Write>(&self, sheet: &mut Sheet<'_, W>) -> u8 {
        put_labels(sheet, self);
        0
    }
}
