//! What a run records of the entries of a recording.

ghost use Rattle.std.specs.Prelude.{◌≡◌, option_map, slice_get};
ghost use Rattle.a429_cert.specs.Explained.{seen_of, items_of};

use a429_link::Seen;
use a429_record::Entry;

/// What a run records of an entry: its bus and its word. Its time is not looked at.
pub fn seen(entry: Entry) -> Seen
    ensures { result ≡ seen_of entry }
{
    Seen {
        bus: entry.bus,
        word: entry.word,
    }
}

/// What a run records of an entry, if there is one.
pub(crate) fn seen_in(entry: &Option<Entry>) -> Option<Seen>
    ensures { result ≡ option_map seen_of entry.now }
{
    match entry {
        Some(entry) => Some(seen(*entry)),
        None => None,
    }
}

/// What a run records of entry i, if there is one.
pub(crate) fn seen_at(entries: &[Entry], i: usize) -> Option<Seen>
    ensures { result ≡ slice_get (items_of entries.now) i }
{
    let entry = entries.get(i)?;
    Some(seen(*entry))
}
