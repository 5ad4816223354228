//! `a429 cut PROFILE REC DIR [MOST]`: the parts of a recording.

ghost use Rattle.std.specs.Prelude.{◌≡◌, [], true, false, Err, IfOk, IfErr, OnOk};
ghost use Rattle.a429_word.specs.Tally.{has_failed};
ghost use Rattle.a429_parts.specs.Keeping.{taken};
ghost use Rattle.a429_commands.specs.Ends.{Ends};
ghost use Rattle.a429_commands.specs.Output.{output};
ghost use Rattle.a429_commands.specs.Cut.{of_cut, of_parts, placed, reported_by_cut, task, troubled, PutsList};

use crate::engines::profile::profile_of;
use crate::engines::streaming::fault_of;
use crate::fault::RunFault;
use a429_parts::{Parts, put_parts};
use a429_profile::Profile;
use a429_record::{EntryReader, ReadFault};
use a429_word::{Page, Sheet, Tally, Trouble};
use std::alloc::Global;
use std::io::{Read, Write};

// How a recording is cut: by this profile, into parts of at most so many entries.
#[derive(Clone, Copy)]
struct Cut<'a> {
    alloc: Global,
    profile: &'a Profile,
    most: usize,
}

/// Puts the parts of a recording, each with `most` entries at most, as it is read, writes the line of each to `out`,
/// and in the end puts the list of all, which has the same lines; the status is 0. A part ends where the recording may
/// be cut (`Cutter`). Where the recording has a fault, or no place to cut is near enough (`NoPlace`), the parts before
/// it are there, and no list. `profile` is the bytes of its text.
pub fn run_cut<R: Read, P: Parts, W: Write>(
    alloc: Global,
    profile: &[u8],
    most: usize,
    rec: &mut EntryReader<R>,
    parts: &mut P,
    out: &mut Tally<W>,
) -> Result<u8, RunFault>
    ensures ends { Ends (output W.contents out.old out.new) (of_cut profile.now (task most (taken rec.old rec.new) rec.new.failed) (placed P.known P.failed parts.old parts.new)) result }
    ensures stays { has_failed out.old ≡ true → out.new ≡ out.old }
{
    let profile = profile_of(alloc, profile)?;
    let cut = Cut {
        alloc,
        profile: &profile,
        most,
    };
    let status = cut_by(&cut, rec, parts, out);
    drop(profile);
    status
}

// Does the same by a profile that was read.
fn cut_by<R: Read, P: Parts, W: Write>(
    cut: &Cut<'_>,
    rec: &mut EntryReader<R>,
    parts: &mut P,
    out: &mut Tally<W>,
) -> Result<u8, RunFault>
    ensures ends { Ends (output W.contents out.old out.new) (of_parts cut.now.profile.now (task cut.now.most (taken rec.old rec.new) rec.new.failed) (placed P.known P.failed parts.old parts.new)) result }
    ensures stays { has_failed out.old ≡ true → out.new ≡ out.old }
{
    let page = Page::new(cut.alloc)?;
    let list = match write_parts(page, cut, rec, parts, out) {
        Ok(list) => list,
        Err(fault) => return Err(fault),
    };
    match parts.put_list(list.as_slice()) {
        Ok(()) => Ok(0),
        Err(trouble) => Err(fault_by(trouble)),
    }
}

// Puts the parts, with their lines on an empty page, and answers the list.
fn write_parts<R: Read, P: Parts, W: Write>(
    page: Page,
    cut: &Cut<'_>,
    rec: &mut EntryReader<R>,
    parts: &mut P,
    out: &mut Tally<W>,
) -> Result<Vec<u8>, RunFault>
    requires { page ≡ [] }
    ensures all { IfOk result (λ list. PutsList (task cut.now.most (taken rec.old rec.new) rec.new.failed) (placed P.known P.failed parts.old parts.new) cut.now.profile.now (output W.contents out.old out.new) list.items) }
    ensures device { OnOk result ((rec.new.failed ≡ false) × (has_failed out.new ≡ false)) }
    ensures left { IfErr result (λ e. Ends (output W.contents out.old out.new) (of_parts cut.now.profile.now (task cut.now.most (taken rec.old rec.new) rec.new.failed) (placed P.known P.failed parts.old parts.new)) (Err e)) }
    ensures stays { has_failed out.old ≡ true → out.new ≡ out.old }
{
    let mut page = page;
    let mut sheet = Sheet::new(out, &mut page);
    match put_parts(cut.alloc, cut.profile, cut.most, rec, parts, &mut sheet) {
        Ok(list) => {
            sheet.finish()?;
            Ok(list)
        }
        Err(fault) => {
            sheet.finish()?;
            Err(fault_of_cut(fault))
        }
    }
}

// Why no more parts are put: no place to cut is near enough, or what any command reports.
fn fault_of_cut(fault: ReadFault) -> RunFault
    ensures { result ≡ reported_by_cut fault }
{
    match fault {
        ReadFault::TooMany => RunFault::NoPlace,
        _ => fault_of(fault),
    }
}

/// Why the list was not put.
pub(crate) fn fault_by(trouble: Trouble) -> RunFault
    ensures { result ≡ troubled trouble }
{
    match trouble {
        Trouble::Device => RunFault::Device,
        Trouble::OutOfMemory => RunFault::Memory,
    }
}
