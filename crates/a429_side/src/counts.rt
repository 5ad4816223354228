//! What becomes of the entries of a recording, counted.

ghost use Rattle.std.specs.Prelude.{◌≡◌, ◌+◌, ◌<◌, ◌^◌, ◌∷◌, ◌++◌, [], Bool, List, filter, length};
ghost use Rattle.std.specs.Fmt.{decimal};
ghost use Rattle.a429_word.specs.Sheet.{Says};
ghost use Rattle.a429_side.specs.Counts.{AreCounts, AreDestinations, IsDestinationCount, count_line, counts_text, destination_line, destination_lines, hex_pair, is_a_request, renamed_line};
ghost use Rattle.a429_side.specs.declared.lot.Lot.{Lot as ALot};
ghost use Rattle.a429_side.specs.declared.lot.Lot.TheVariants.{Elsewhere};

use crate::lot::{Lot, Side};
use a429_word::{Sheet, Word};
use std::io::Write;

// How many destination codes there are.
const CODE_COUNT: usize = 256;

/// How many words of a destination are left out, and how many of these are requests.
#[derive(Clone, Copy, Debug)]
pub struct DestinationCount {
    pub words: usize,
    pub requests: usize,
}

impl DestinationCount {
    /// No word.
    pub(crate) const NONE: DestinationCount = DestinationCount {
        words: 0,
        requests: 0,
    };

    // And a word, by whether it is a request.
    fn and(self, is_request: bool) -> DestinationCount
        ensures { (lots : List ALot) (lot : ALot) → length lots + 1 < 2 ^ 64 → is_request ≡ is_a_request lot → IsDestinationCount self lots
            → IsDestinationCount result (lots ++ lot ∷ []) }
    {
        DestinationCount {
            words: self.words.saturating_add(1),
            requests: with(self.requests, is_request),
        }
    }
}

/// What became of the entries of a recording: how many they are, how many are written, are of the other direction, are of none, and are
/// clear answers whose destination code was changed; and of each destination code, how many words are left out.
#[derive(Drop)]
pub struct Counts {
    pub(crate) entries: usize,
    pub(crate) kept: usize,
    pub(crate) of_other: usize,
    pub(crate) of_none: usize,
    pub(crate) renamed: usize,
    pub(crate) destinations: [DestinationCount; CODE_COUNT],
}

impl Counts {
    /// No entry.
    pub(crate) fn new() -> Counts
        ensures { AreCounts result [] }
    {
        Counts {
            entries: 0,
            kept: 0,
            of_other: 0,
            of_none: 0,
            renamed: 0,
            destinations: [DestinationCount::NONE; CODE_COUNT],
        }
    }

    /// One more entry, of which this becomes.
    pub(crate) fn add(&mut self, lot: Lot)
        ensures { (lots : List ALot) → length lots + 1 < 2 ^ 64 → AreCounts self.old lots → AreCounts self.new (lots ++ lot ∷ []) }
    {
        self.entries = self.entries.saturating_add(1);
        match lot {
            Lot::Kept => self.kept = self.kept.saturating_add(1),
            Lot::Renamed => {
                self.kept = self.kept.saturating_add(1);
                self.renamed = self.renamed.saturating_add(1);
            }
            Lot::OfNone => {
                self.kept = self.kept.saturating_add(1);
                self.of_none = self.of_none.saturating_add(1);
            }
            Lot::OfOther => self.of_other = self.of_other.saturating_add(1),
            Lot::Elsewhere {
                destination,
                is_request,
            } => count_word(&mut self.destinations, destination, is_request),
        }
    }
}

// One more word of this destination.
fn count_word(counts: &mut [DestinationCount; CODE_COUNT], destination: u8, is_request: bool)
    ensures { (lots : List ALot) → length lots + 1 < 2 ^ 64 → AreDestinations counts.old lots
        → AreDestinations counts.new (lots ++ Elsewhere destination is_request ∷ []) }
{
    let place = usize::from(destination);
    counts[place] = counts[place].and(is_request);
}

// A count, and one more where this is so.
fn with(count: usize, more: bool) -> usize
    ensures { (is : ALot → Bool) (lots : List ALot) (lot : ALot) → length lots + 1 < 2 ^ 64 → more ≡ is lot → count ≡ length (filter is lots)
        → result ≡ length (filter is (lots ++ lot ∷ [])) }
{
    if more { count.saturating_add(1) } else { count }
}

/// Puts the counts, a line for each: of the entries, those that are written, of the other direction and of none; of each destination of
/// which words are left out; and, where clear answers with another code were asked for, of those that were changed.
pub fn put_counts<W: Write>(sheet: &mut Sheet<'_, W>, side: Side, counts: &Counts)
    ensures { Says W.contents sheet.old sheet.new (counts_text side counts.now) }
{
    put_count(sheet, b"entries ", counts.entries);
    put_count(sheet, b"kept ", counts.kept);
    put_count(sheet, b"other direction ", counts.of_other);
    put_count(sheet, b"no direction ", counts.of_none);
    put_destinations(sheet, &counts.destinations);
    put_renamed(sheet, side.answer, counts.renamed);
}

// A name and a number.
fn put_count<W: Write>(sheet: &mut Sheet<'_, W>, name: &[u8], count: usize)
    ensures { Says W.contents sheet.old sheet.new (count_line name.now count) }
{
    sheet.put(name);
    sheet.put_number(count as u64);
    sheet.put(b"\n");
}

// A line for each destination of which there are words, rising.
fn put_destinations<W: Write>(sheet: &mut Sheet<'_, W>, counts: &[DestinationCount; CODE_COUNT])
    ensures { Says W.contents sheet.old sheet.new (destination_lines 256 counts.now) }
{
    for code in 0..CODE_COUNT {
        put_destination(sheet, code as u8, counts[code]);
    }
}

fn put_destination<W: Write>(sheet: &mut Sheet<'_, W>, code: u8, count: DestinationCount)
    ensures { Says W.contents sheet.old sheet.new (destination_line code count) }
{
    if count.words == 0 {
        return;
    }
    sheet.put(b"destination ");
    put_code(sheet, code);
    sheet.put(b" requests ");
    sheet.put_number(count.requests as u64);
    sheet.put(b" words ");
    sheet.put_number(count.words as u64);
    sheet.put(b"\n");
}

// Two hexadecimal digits.
fn put_code<W: Write>(sheet: &mut Sheet<'_, W>, code: u8)
    ensures { Says W.contents sheet.old sheet.new (hex_pair code) }
{
    sheet.put(&Word::from_u32(u32::from(code)).hex()[6..]);
}

fn put_renamed<W: Write>(sheet: &mut Sheet<'_, W>, answer: Option<u8>, count: usize)
    ensures { Says W.contents sheet.old sheet.new (renamed_line answer count) }
{
    if answer.is_some() {
        put_count(sheet, b"clear answers renamed ", count);
    }
}
