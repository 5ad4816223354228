//! `a429 make PROFILE FILE..`: the recording of a transfer of files without loss.

ghost use Rattle.std.specs.Prelude.{◌≡◌, ◌≢◌, ◌+◌, ◌*◌, ◌/◌, ℕ, List, map, flat_map, None, Some, IfOk, IfErr, OnOk, ◌≤◌, length};
ghost use Rattle.a429_word.specs.Sheet.{Says, SaysSome};
ghost use Rattle.a429_profile.specs.Profile.{Contents};
ghost use Rattle.a429_link.specs.Clean.{cut_fault, first_refused};
ghost use Rattle.a429_record.specs.Recording.{most_entries};
ghost use Rattle.a429_record.specs.Writing.{line_text};
ghost use Rattle.a429_commands.specs.Ends.{Ends};
ghost use Rattle.a429_commands.specs.Output.{output};
ghost use Rattle.a429_commands.specs.Make.{of_make, of_recording, timed, words_made, recording_made, AnswersRecording, MakesWords, IsFilesFault};

use crate::engines::profile::profile_of;
use crate::fault::RunFault;
use a429_ldu::{CutFault, MOST_UNIT_BYTES, MOST_UNITS};
use a429_link::{CleanFault, Seen, clean_run};
use a429_profile::Profile;
use a429_record::{Entry, EntryText, MOST_ENTRIES, ReadFault, put_header};
use a429_word::{Page, Sheet, Tally};
use std::alloc::Global;
use std::io::Write;
use std::slice::from_ref;

// The first file has number 1, and a link data unit has at most 255 words.
const FIRST_FILE: u8 = 1;

const MAX_WORDS: u8 = 255;

/// Writes the recording of a transfer of these files without loss, an entry each thousandth of a second,
/// and answers status 0. `profile` is the bytes of its text. Nothing is written where the profile has a
/// fault, a file is refused, or there are more than 1,000,000 words. The words of one file are held at a
/// time: after `Device` or `Memory` a prefix of the recording may have been written.
pub fn run_make<W: Write>(
    alloc: Global,
    profile: &[u8],
    files: &[Vec<u8>],
    out: &mut Tally<W>,
) -> Result<u8, RunFault>
    ensures { Ends (output W.contents out.old out.new) (of_make profile.now (map (λ f. f.items) files.now)) result }
{
    let profile = profile_of(alloc, profile)?;
    check_files(files)?;
    put_recording(alloc, &profile, files, out)
}

// Whether a recording can be made of files: none is refused, and it has room for all their words.
fn check_files(files: &[Vec<u8>]) -> Result<(), RunFault>
    ensures cut { OnOk result (first_refused 255 0 (map (λ f. f.items) files.now) ≡ None) }
    ensures room { OnOk result ((p : Contents) → length (words_made p (map (λ f. f.items) files.now)) ≤ most_entries) }
    ensures err { IfErr result (IsFilesFault (map (λ f. f.items) files.now)) }
{
    let mut count: usize = 0;
    for (k, bytes) in files.iter().enumerate() {
        match words_of_file(bytes.len()) {
            Ok(words) => count = count.saturating_add(words),
            Err(fault) => return Err(RunFault::Cut(k, fault)),
        }
    }
    if count > MOST_ENTRIES {
        return Err(RunFault::Read(ReadFault::TooMany));
    }
    Ok(())
}

// How many words a file of so many bytes makes: those of its link data units, each full but the last.
fn words_of_file(len: usize) -> Result<usize, CutFault>
    ensures fine { OnOk result ((bytes : List ℕ) → length bytes ≡ len → cut_fault 255 bytes ≡ None) }
    ensures count { IfOk result (MakesWords len) }
    ensures refused { IfErr result (λ e. (bytes : List ℕ) → length bytes ≡ len → cut_fault 255 bytes ≡ Some e) }
    ensures fault { IfErr result (λ e. e ≢ CutFault.OutOfMemory) }
{
    if len == 0 {
        return Err(CutFault::Empty);
    }
    if len > MOST_UNITS * MOST_UNIT_BYTES {
        return Err(CutFault::TooLong);
    }
    let full = (len - 1) / MOST_UNIT_BYTES;
    Ok(full * words_of_unit(MOST_UNIT_BYTES) + words_of_unit(len - full * MOST_UNIT_BYTES))
}

// How many words a link data unit of so many bytes makes: its data words of five semi-octets, a start and
// an end word, the request, its answer and the acknowledgement.
fn words_of_unit(len: usize) -> usize
    requires { len ≤ 632 }
    ensures { result ≡ (2 * len + 4) / 5 + 5 }
{
    (2 * len).div_ceil(5) + 5
}

// The recording of files, of which none is refused.
fn put_recording<W: Write>(
    alloc: Global,
    profile: &Profile,
    files: &[Vec<u8>],
    out: &mut Tally<W>,
) -> Result<u8, RunFault>
    requires cut { first_refused 255 0 (map (λ f. f.items) files.now) ≡ None }
    requires most { length (words_made profile.now (map (λ f. f.items) files.now)) ≤ most_entries }
    ensures { Ends (output W.contents out.old out.new) (of_recording (recording_made profile.now (map (λ f. f.items) files.now))) result }
{
    let mut page = Page::new(alloc)?;
    let mut sheet = Sheet::new(out, &mut page);
    let status = put_files(alloc, profile, files, &mut sheet);
    sheet.finish()?;
    status
}

// The header, and the lines of all files.
fn put_files<W: Write>(
    alloc: Global,
    profile: &Profile,
    files: &[Vec<u8>],
    sheet: &mut Sheet<'_, W>,
) -> Result<u8, RunFault>
    requires cut { first_refused 255 0 (map (λ f. f.items) files.now) ≡ None }
    requires most { length (words_made profile.now (map (λ f. f.items) files.now)) ≤ most_entries }
    ensures { SaysSome W.contents sheet.old sheet.new (AnswersRecording (recording_made profile.now (map (λ f. f.items) files.now)) result) }
{
    // (for the proof: the profile is sound)
    let _codes = profile.codes();
    put_header(sheet);
    let mut number = FIRST_FILE;
    let mut count = 0;
    for file in files {
        if sheet.failed() {
            return Ok(0);
        }
        let words = match clean_run(alloc, profile, number, MAX_WORDS, from_ref(file)) {
            Ok(words) => words,
            Err(CleanFault::OutOfMemory) => return Err(RunFault::Memory),
            Err(CleanFault::Cut(..)) => unreachable!(),
        };
        put_words(sheet, count, words.as_slice());
        count += words.len();
        number = number.wrapping_add(1);
    }
    Ok(0)
}

// The lines of words, a thousandth of a second apart, the first word at so many of these.
fn put_words<W: Write>(sheet: &mut Sheet<'_, W>, first: usize, words: &[Seen])
    requires most { first + length words.now ≤ most_entries }
    ensures { Says W.contents sheet.old sheet.new (flat_map line_text (timed first words.now)) }
{
    let mut text = EntryText::new();
    for (i, seen) in words.iter().enumerate() {
        let entry = Entry {
            time: 1000 * (first + i) as u64,
            bus: seen.bus,
            word: seen.word,
        };
        text.put_line(sheet, entry);
    }
}
