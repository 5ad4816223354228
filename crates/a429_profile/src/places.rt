//! Where in a label table the entry for each label and SDI is.

ghost use Rattle.std.specs.Prelude.{[], IfOk};
ghost use Rattle.a429_profile.specs.Profile.{entries_of, AreKeyed, ApartAfter};
ghost use Rattle.a429_profile.specs.Places.{IsPlace, ArePlaces};

use crate::entry::LabelEntry;
use indexmap::IndexMap;
use std::alloc::{AllocError, Global};

/// How many SDIs there are.
pub(crate) const SDIS: usize = 4;

// How many labels there are.
const LABELS: usize = 256;

/// The place of the entry for words of each label and SDI, 1,024 of them, those of label 0 first. So a word's entry is
/// found without a search. The error is out of memory.
pub(crate) fn places_of(
    alloc: Global,
    labels: &IndexMap<(u8, Option<u8>), LabelEntry>,
) -> Result<Vec<Option<usize>>, AllocError>
    requires keyed { AreKeyed labels.now.entries }
    requires apart { ApartAfter [] (entries_of labels.now.entries) }
    ensures { IfOk result (λ places. ArePlaces (entries_of labels.now.entries) places.items) }
{
    let mut places = Vec::with_capacity(alloc, LABELS * SDIS)?;
    for pair in 0..LABELS * SDIS {
        let label = (pair / SDIS) as u8;
        let sdi = (pair % SDIS) as u8;
        places.push(place_of(labels, label, sdi))?;
    }
    Ok(places)
}

/// The place of the entry for words of this label and SDI, by a search of the table.
pub(crate) fn place_of(
    labels: &IndexMap<(u8, Option<u8>), LabelEntry>,
    label: u8,
    sdi: u8,
) -> Option<usize>
    requires keyed { AreKeyed labels.now.entries }
    requires apart { ApartAfter [] (entries_of labels.now.entries) }
    ensures { IsPlace (entries_of labels.now.entries) label sdi result }
{
    match labels.get_index_of(&(label, None)) {
        Some(place) => Some(place),
        None => labels.get_index_of(&(label, Some(sdi))),
    }
}
