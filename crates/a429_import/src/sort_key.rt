//! The order in which entries that may be the same lie together.

ghost use Rattle.std.specs.Prelude.{◌≡◌};
ghost use Rattle.a429_import.specs.SortKey.{earliest, entry_of, is_on_b, key_of, line_of};

use a429_record::Entry;
use a429_word::{Bus, Word};

/// An entry by what it is sorted by: its line, then its word, then its time.
#[derive(Clone, Copy, PartialEq, Eq, PartialOrd, Ord)]
pub(crate) struct SortKey {
    pub(crate) is_on_b: bool,
    pub(crate) word: u32,
    pub(crate) time: u64,
}

impl SortKey {
    /// The key of an entry.
    pub(crate) fn of(entry: &Entry) -> SortKey
        ensures { result ≡ key_of entry.now }
    {
        SortKey {
            is_on_b: is_on_b(entry.bus),
            word: entry.word.to_u32(),
            time: entry.time,
        }
    }

    /// The least key that an entry can have again, where its time may differ by so many microseconds.
    pub(crate) fn earliest(within: u32, entry: &Entry) -> SortKey
        ensures { result ≡ earliest within entry.now }
    {
        SortKey {
            time: entry.time.saturating_sub(u64::from(within)),
            ..SortKey::of(entry)
        }
    }

    /// The entry with this key.
    pub(crate) fn entry(self) -> Entry
        ensures { result ≡ entry_of self }
    {
        Entry {
            time: self.time,
            bus: line_of(self.is_on_b),
            word: Word::from_u32(self.word),
        }
    }
}

fn is_on_b(line: Bus) -> bool
    ensures { result ≡ is_on_b line }
{
    matches!(line, Bus::B)
}

fn line_of(is_on_b: bool) -> Bus
    ensures { result ≡ line_of is_on_b }
{
    if is_on_b { Bus::B } else { Bus::A }
}
