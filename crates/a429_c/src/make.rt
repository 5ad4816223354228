//! `a429_make`: the recording of a transfer of files without loss.

ghost use Rattle.std.specs.Prelude.{◌≡◌, ◌≤◌, ◌≢◌, ◌++◌, ◌∷◌, [], List, ℕ, None, length, map, take, drop, IfOk, OnOk};
ghost use Rattle.std.specs.List.{flat_map};
ghost use Rattle.a429_link.specs.declared.seen.Seen.{Seen};
ghost use Rattle.a429_record.specs.Writing.{written_form};
ghost use Rattle.a429_c.specs.Buffers.{Holds};
ghost use Rattle.a429_c.specs.Make.{timed, AreFiles, RecordsUnder, IsRecordingOf};

use crate::buffers::put_bytes;
use crate::fault::{Fault, answer_fault};
use crate::found::Found;
use crate::input::profile_of;
use a429_link::{CleanFault, Seen, clean_run};
use a429_profile::Profile;
use a429_record::{Entry, MOST_ENTRIES, ReadFault, write_text};
use a429_word::Tally;
use std::alloc::Global;

// The first file has number 1, and a link data unit has at most 255 words.
const FIRST_FILE: u8 = 1;

const MAX_WORDS: u8 = 255;

/// Makes the recording of a transfer of files without loss, an entry each thousandth of a second: 0 where it is made; 3 where the
/// profile has a fault, a file is refused or there would be more than 1,000,000 entries, 4 where memory was refused. The bytes of the
/// files come one after the other, and so do their lengths. `text` gets the recording, or the line of a fault, and is left as it is
/// where it has too little room.
#[unsafe(no_mangle)]
pub extern "C" fn a429_make(
    alloc: Global,
    profile: &[u8],
    bytes: &[u8],
    lengths: &[usize],
    text: &mut [u8],
    found: &mut Found,
) -> u8
    ensures made { result ≤ 2 → (made : List ℕ) × IsRecordingOf profile.now bytes.now lengths.now made × Holds text.new found.new.text made }
    ensures status { result ≤ 2 → result ≡ 0 }
{
    match made(alloc, profile, bytes, lengths) {
        Ok(made) => {
            *found = Found::nothing();
            found.text = put_bytes(made.as_slice(), text);
            0
        }
        Err(fault) => answer_fault(alloc, fault, text, found),
    }
}

// The recording, by the bytes of a profile, of the files that these bytes and lengths are.
fn made(alloc: Global, profile: &[u8], bytes: &[u8], lengths: &[usize]) -> Result<Vec<u8>, Fault>
    ensures { IfOk result (λ text. IsRecordingOf profile.now bytes.now lengths.now text.items) }
{
    let profile = profile_of(alloc, profile)?;
    let text = made_under(alloc, &profile, bytes, lengths);
    drop(profile);
    text
}

// The same under a profile that was read.
fn made_under(
    alloc: Global,
    profile: &Profile,
    bytes: &[u8],
    lengths: &[usize],
) -> Result<Vec<u8>, Fault>
    ensures { IfOk result (λ text. (files : List (List ℕ)) × AreFiles bytes.now lengths.now files × RecordsUnder profile.now files text.items) }
{
    let files = cut_up(alloc, bytes, lengths)?;
    recorded(alloc, profile, files.as_slice())
}

// Files of these lengths, whose bytes come one after the other.
fn cut_up(alloc: Global, bytes: &[u8], lengths: &[usize]) -> Result<Vec<Vec<u8>>, Fault>
    ensures { IfOk result (λ files. AreFiles bytes.now lengths.now (map (λ f. f.items) files.items)) }
{
    let mut files = Vec::new(alloc);
    let mut rest = bytes;
    for i in 0..lengths.len() {
        rest = cut_off(alloc, &mut files, rest, lengths[i])?;
    }
    if rest.is_empty() {
        Ok(files)
    } else {
        Err(Fault::Lengths)
    }
}

// Adds a file of so many bytes, and answers the bytes after it.
fn cut_off<'a>(
    alloc: Global,
    files: &mut Vec<Vec<u8>>,
    bytes: &'a [u8],
    count: usize,
) -> Result<&'a [u8], Fault>
    ensures room { OnOk result (count ≤ length bytes.now) }
    ensures file { OnOk result (map (λ f. f.items) files.new.items ≡ map (λ f. f.items) files.old.items ++ take count bytes.now ∷ []) }
    ensures rest { IfOk result (λ rest. rest.now ≡ drop count bytes.now) }
{
    if count > bytes.len() {
        return Err(Fault::Lengths);
    }
    let (file, rest) = bytes.split_at(count);
    files.push(copied(alloc, file)?)?;
    Ok(rest)
}

// The same bytes.
fn copied(alloc: Global, bytes: &[u8]) -> Result<Vec<u8>, Fault>
    ensures { IfOk result (λ copy. copy.items ≡ bytes.now) }
{
    let mut copy = Vec::new(alloc);
    copy.extend_from_slice(bytes)?;
    Ok(copy)
}

// The recording of files.
fn recorded(alloc: Global, profile: &Profile, files: &[Vec<u8>]) -> Result<Vec<u8>, Fault>
    ensures { IfOk result (λ text. RecordsUnder profile.now (map (λ f. f.items) files.now) text.items) }
{
    let words = match clean_run(alloc, profile, FIRST_FILE, MAX_WORDS, files) {
        Ok(words) => words,
        Err(CleanFault::OutOfMemory) => return Err(Fault::Memory),
        Err(CleanFault::Cut(k, fault)) => return Err(Fault::Cut(k, fault)),
    };
    if words.len() > MOST_ENTRIES {
        return Err(Fault::Recording(ReadFault::TooMany));
    }
    written(alloc, words.as_slice())
}

// The text of words, a thousandth of a second apart.
fn written(alloc: Global, words: &[Seen]) -> Result<Vec<u8>, Fault>
    requires { length words.now ≤ 1000000 }
    ensures { IfOk result (λ text. text.items ≡ written_form (timed 0 words.now)) }
{
    let entries = entries_of(alloc, words)?;
    let mut out = Tally::new(Vec::new(alloc), 0);
    match write_text(alloc, &mut out, entries.as_slice()) {
        Ok(()) => Ok(out.into_inner()),
        Err(_) => Err(Fault::Memory),
    }
}

// Their entries.
fn entries_of(alloc: Global, words: &[Seen]) -> Result<Vec<Entry>, Fault>
    requires { length words.now ≤ 1000000 }
    ensures { IfOk result (λ entries. entries.items ≡ timed 0 words.now) }
{
    let mut entries = Vec::new(alloc);
    for i in 0..words.len() {
        let seen = words[i];
        entries.push(Entry {
            time: 1000 * i as u64,
            bus: seen.bus,
            word: seen.word,
        })?;
    }
    Ok(entries)
}
