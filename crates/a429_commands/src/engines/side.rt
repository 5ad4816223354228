//! `a429 side PROFILE REC LINE OUT [ANSWER]`: the words of one direction, of a recording with both.

ghost use Rattle.std.specs.Prelude.{◌≡◌, [], false, Err, IfOk, IfErr, OnOk};
ghost use Rattle.a429_parts.specs.Keeping.{taken};
ghost use Rattle.a429_commands.specs.Ends.{Ends, of_stream, under};
ghost use Rattle.a429_commands.specs.Output.{output};
ghost use Rattle.a429_commands.specs.Side.{EndsSided, IsSided, IsSidedBy, NoRows, SidesRowsUntil, SidesSomeRows};

use crate::engines::profile::profile_of;
use crate::engines::streaming::fault_of;
use crate::engines::text::{Text, write_at_once};
use crate::fault::RunFault;
use a429_profile::Profile;
use a429_record::EntryReader;
use a429_side::{Counts, Side, put_counts, put_side};
use a429_word::{Page, Sheet, Tally};
use std::alloc::Global;
use std::io::{Read, Write};

/// Writes the words of one direction and of the destination of a profile to `new_rec`, as a text recording, then says on `out`
/// what became of the entries, and answers status 0. Words of the other direction are left out, and those of other destinations; free
/// words stay, and words of no direction. In the text the files travel on line A, whatever line that was. `profile` is the bytes of its
/// text. The recording is read entry by entry, and none of them is kept. Where it has a fault, the rows of what stays before it are written
/// to `new_rec`, and nothing where no entry comes before it; then, and where a device fails or memory is refused before the counts
/// are written, nothing is written to `out`.
pub fn run_side<R: Read, C: Write, W: Write>(
    alloc: Global,
    profile: &[u8],
    side: Side,
    rec: &mut EntryReader<R>,
    new_rec: &mut Tally<C>,
    out: &mut Tally<W>,
) -> Result<u8, RunFault>
    ensures { EndsSided (record { side = side; profile = profile.now; taken = taken rec.old rec.new; failed = rec.new.failed }) (output C.contents new_rec.old new_rec.new) (output W.contents out.old out.new) result }
{
    match write_side(alloc, profile, side, rec, new_rec) {
        Ok(counts) => write_at_once(Ok(SideCounts { side, counts }), out),
        Err(fault) => Err(fault),
    }
}

// What became of the entries, and the words that were wanted.
#[derive(Drop)]
pub(crate) struct SideCounts {
    side: Side,
    counts: Counts,
}

impl Text for SideCounts {
    ghost use Rattle.std.specs.Prelude.{◌≡◌};
    ghost use Rattle.a429_side.specs.Counts.{counts_text};

    ghost says = { λ n status text. (status ≡ 0) × (text ≡ counts_text n.side n.counts) };

    ghost begins = { λ n text. text ≡ counts_text n.side n.counts };

    fn put<W: Write>(&self, sheet: &mut Sheet<'_, W>) -> u8 {
        put_counts(sheet, self.side, &self.counts);
        0
    }
}

// Writes the words of one direction, and answers what became of the entries.
fn write_side<R: Read, C: Write>(
    alloc: Global,
    profile: &[u8],
    side: Side,
    rec: &mut EntryReader<R>,
    new_rec: &mut Tally<C>,
) -> Result<Counts, RunFault>
    ensures ok { IfOk result (IsSidedBy side profile.now (taken rec.old rec.new) (output C.contents new_rec.old new_rec.new)) }
    ensures works { OnOk result (rec.new.failed ≡ false) }
    ensures err { IfErr result (λ e. Ends (output C.contents new_rec.old new_rec.new) (of_stream profile.now (taken rec.old rec.new) rec.new.failed NoRows (SidesRowsUntil side) (SidesSomeRows side)) (Err e)) }
{
    let profile = profile_of(alloc, profile)?;
    let page = Page::new(alloc)?;
    let counts = side_by(page, &profile, side, rec, new_rec);
    drop(profile);
    counts
}

// By a profile that was read, and an empty page.
fn side_by<R: Read, C: Write>(
    page: Page,
    profile: &Profile,
    side: Side,
    rec: &mut EntryReader<R>,
    new_rec: &mut Tally<C>,
) -> Result<Counts, RunFault>
    requires { page ≡ [] }
    ensures ok { IfOk result (IsSided side profile.now (taken rec.old rec.new) (output C.contents new_rec.old new_rec.new)) }
    ensures works { OnOk result (rec.new.failed ≡ false) }
    ensures err { IfErr result (λ e. Ends (output C.contents new_rec.old new_rec.new) (under profile.now (taken rec.old rec.new) rec.new.failed NoRows (SidesRowsUntil side) (SidesSomeRows side)) (Err e)) }
{
    let mut page = page;
    let mut sheet = Sheet::new(new_rec, &mut page);
    let counts = put_side(profile, side, rec, &mut sheet);
    sheet.finish()?;
    match counts {
        Ok(counts) => Ok(counts),
        Err(fault) => Err(fault_of(fault)),
    }
}
