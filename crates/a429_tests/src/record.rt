//! Recordings: what their bytes stand for, and how they are written.

ghost use Rattle.std.specs.Prelude.{◌≡◌};

mod binary;
mod entries;
mod lines;
mod reading;
mod writing;

use a429_record::{Entry, EntryReader, ReadFault, read_entries};
use a429_word::{Bus, Failing, Tally, Word};
use std::alloc::Global;
use std::io::Read;

fn entry(time: u64, bus: Bus, word: u32) -> Entry
    ensures { result.time ≡ time }
{
    Entry {
        time,
        bus,
        word: Word::from_u32(word),
    }
}

// Whether a text is read as these entries.
fn stands_for(alloc: Global, text: &[u8], entries: &[Entry]) -> bool {
    match read_entries(alloc, &mut Tally::new(text, 1_000_000)) {
        Ok(read) => read.as_slice() == entries,
        Err(_) => false,
    }
}

// How many entries a tally gives, or its fault.
fn count<R: Read>(alloc: Global, rec: &mut Tally<R>) -> Result<usize, ReadFault> {
    let entries = read_entries(alloc, rec)?;
    Ok(entries.len())
}

// How many entries a text has, or its fault.
fn count_in(alloc: Global, text: &[u8]) -> Result<usize, ReadFault> {
    count(alloc, &mut Tally::new(text, 1_000_000))
}

// What a call of a reader answers, and whether it has failed then.
type Answer = (Result<Option<Entry>, ReadFault>, bool);

// What is answered after a fault.
fn failed(has_failed: bool) -> Answer {
    (Err(ReadFault::Failed), has_failed)
}

// What five calls answer, one after the other.
fn five_answers<R: Read + Drop>(alloc: Global, rec: Tally<R>) -> [Answer; 5] {
    let mut reader = EntryReader::new(alloc, rec);
    let mut answers = [(Ok(None), false); 5];
    for answer in &mut answers {
        let next = reader.next();
        *answer = (next, reader.failed());
    }
    answers
}
