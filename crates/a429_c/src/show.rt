//! `a429_show`: what each word of a recording shows.

ghost use Rattle.std.specs.Prelude.{◌≡◌, ◌≤◌, ℕ, List, [], IfOk, OnOk};
ghost use Rattle.a429_c.specs.Buffers.{Holds};
ghost use Rattle.a429_c.specs.Show.{ShowsAll, ShowsUnder, PutsLines};

use crate::buffers::put_bytes;
use crate::fault::{Fault, answer_fault};
use crate::found::Found;
use crate::input::{entries_of, profile_of};
use a429_profile::Profile;
use a429_record::Entry;
use a429_view::put_shown_lines;
use a429_word::{Device, Page, Sheet, Tally};
use std::alloc::Global;
use std::io::Write;

/// Shows what each word of a recording shows by a profile, a line for each: 0 where it does; 3 where the profile or the recording
/// has a fault, 4 where memory was refused. `text` gets the lines, or the line of a fault, and is left as it is where it has too
/// little room.
#[unsafe(no_mangle)]
pub extern "C" fn a429_show(
    alloc: Global,
    profile: &[u8],
    recording: &[u8],
    text: &mut [u8],
    found: &mut Found,
) -> u8
    ensures lines { result ≤ 2 → (lines : List ℕ) × ShowsAll profile.now recording.now lines × Holds text.new found.new.text lines }
    ensures status { result ≤ 2 → result ≡ 0 }
{
    match shown(alloc, profile, recording) {
        Ok(lines) => {
            *found = Found::nothing();
            found.text = put_bytes(lines.as_slice(), text);
            0
        }
        Err(fault) => answer_fault(alloc, fault, text, found),
    }
}

// The lines, by the bytes of a profile and of a recording.
fn shown(alloc: Global, profile: &[u8], recording: &[u8]) -> Result<Vec<u8>, Fault>
    ensures { IfOk result (λ text. ShowsAll profile.now recording.now text.items) }
{
    let profile = profile_of(alloc, profile)?;
    let text = shown_under(alloc, &profile, recording);
    drop(profile);
    text
}

// The same under a profile that was read. A writer over memory fails only where memory is refused.
fn shown_under(alloc: Global, profile: &Profile, recording: &[u8]) -> Result<Vec<u8>, Fault>
    ensures { IfOk result (λ text. ShowsUnder profile.now recording.now text.items) }
{
    let entries = entries_of(alloc, recording)?;
    let mut out = Tally::new(Vec::new(alloc), 0);
    match put_lines(Page::new(alloc)?, &mut out, profile, entries.as_slice()) {
        Ok(()) => Ok(out.into_inner()),
        Err(Device) => Err(Fault::Memory),
    }
}

// Writes the lines of entries, by an empty page.
fn put_lines<W: Write>(
    page: Page,
    out: &mut Tally<W>,
    profile: &Profile,
    entries: &[Entry],
) -> Result<(), Device>
    requires { page ≡ [] }
    ensures { OnOk result (PutsLines W.contents profile.now entries.now out.old out.new) }
{
    let mut page = page;
    let mut sheet = Sheet::new(out, &mut page);
    put_shown_lines(&mut sheet, profile, entries);
    sheet.finish()
}
