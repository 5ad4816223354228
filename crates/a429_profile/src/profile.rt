//! Profiles: read from a text, and the label table's entries by label and SDI.

ghost use Rattle.std.specs.Prelude.{◌≡◌, ◌≢◌, [], ◌∷◌, ◌++◌, false, Some, None, Err, IfOk, IfErr, IfSome, OnOk, option_map, slice_get, length};
ghost use Rattle.std.specs.List.{find, list_any};
ghost use Rattle.a429_profile.specs.Clash.{entries_meet};
ghost use Rattle.toml.specs.Parse.{parse_document};
ghost use Rattle.toml.specs.View.{table_view};
ghost use Rattle.a429_profile.specs.Profile.{Answers, IsProfile, contents_of, fault_of, is_for, entries_of, AreKeyed, ApartAfter};
ghost use Rattle.a429_profile.specs.Entry.{IsKindInRange};
ghost use Rattle.a429_profile.specs.Places.{IsPlace};

use crate::check_tables::CheckTables;
use crate::clash::first_clash;
use crate::codes::{Check, Codes, read_check, read_codes};
use crate::entry::LabelEntry;
use crate::fault::ProfileFault;
use crate::labels::read_labels;
use crate::places::{SDIS, place_of, places_of};
use indexmap::IndexMap;
use std::alloc::{AllocError, Global};
use std::marker::Model;
use toml::Table;

/// A bench's profile, as it was read from a text: each number lies in its range, and nothing clashes.
#[derive(Drop)]
pub struct Profile {
    codes: Codes,
    tables: CheckTables,
    labels: IndexMap<(u8, Option<u8>), LabelEntry>,
    // Of each label and SDI, the place of its entry in `labels`.
    places: Vec<Option<usize>>,
}

impl Model for Profile {
    ghost use Rattle.a429_profile.specs.Profile.{Contents, IsProfile, entries_of, AreKeyed};
    ghost use Rattle.a429_profile.specs.Places.{ArePlaces};

    ghost Value = { Contents };

    ghost view = { λ p. record { codes = p.codes; check = p.tables; labels = entries_of p.labels.entries } };

    ghost invariant = { λ p. AreKeyed p.labels.entries
        × IsProfile (record { codes = p.codes; check = p.tables; labels = entries_of p.labels.entries })
        × ArePlaces (entries_of p.labels.entries) p.places.items };
}

/// Reads a profile from its text, a TOML document (docs/PROFILE.md has the keys). The fault is the first one in the order of
/// the keys, or else the first clash; or `OutOfMemory`, where memory was refused.
pub fn read_profile(alloc: Global, text: &str) -> Result<Profile, ProfileFault>
    ensures { result ≢ Err ProfileFault.OutOfMemory → Answers (parse_document text.now) result }
{
    match toml::table_from_str(alloc, text) {
        Ok(doc) => read_document(alloc, &doc),
        Err(error) => {
            if error.is_memory() {
                Err(ProfileFault::OutOfMemory)
            } else {
                Err(ProfileFault::NotToml)
            }
        }
    }
}

// The profile of a document.
fn read_document(alloc: Global, doc: &Table) -> Result<Profile, ProfileFault>
    ensures ok { OnOk result (fault_of (table_view doc.now) ≡ None) }
    ensures value { IfOk result (λ p. p ≡ contents_of (table_view doc.now)) }
    ensures err { IfErr result (λ f. f ≢ ProfileFault.OutOfMemory → fault_of (table_view doc.now) ≡ Some f) }
{
    let codes = read_codes(alloc, doc)?;
    let check = read_check(doc)?;
    let entries = read_labels(alloc, doc)?;
    let Ok(clash) = first_clash(alloc, &codes, entries.as_slice()) else {
        return Err(ProfileFault::OutOfMemory);
    };
    if let Some(fault) = clash {
        return Err(fault);
    }
    let Ok(labels) = keyed(alloc, entries) else {
        return Err(ProfileFault::OutOfMemory);
    };
    let Ok(places) = places_of(alloc, &labels) else {
        return Err(ProfileFault::OutOfMemory);
    };
    match CheckTables::new(alloc, check) {
        Ok(tables) => Ok(Profile {
            codes,
            tables,
            labels,
            places,
        }),
        Err(_) => Err(ProfileFault::OutOfMemory),
    }
}

// A map from label and SDI to the entry. No two entries are for the same words.
fn keyed(
    alloc: Global,
    entries: Vec<LabelEntry>,
) -> Result<IndexMap<(u8, Option<u8>), LabelEntry>, AllocError>
    requires { ApartAfter [] entries.items }
    ensures entries { IfOk result (λ m. entries_of m.entries ≡ entries.items) }
    ensures keyed { IfOk result (λ m. AreKeyed m.entries) }
{
    let mut labels = IndexMap::new(alloc);
    for entry in entries {
        keep(&mut labels, entry)?;
    }
    Ok(labels)
}

// Adds an entry at the end. It is for no words that an earlier one is for.
fn keep(
    labels: &mut IndexMap<(u8, Option<u8>), LabelEntry>,
    entry: LabelEntry,
) -> Result<(), AllocError>
    requires keyed { AreKeyed labels.old.entries }
    requires apart { list_any (λ o. entries_meet o entry) (entries_of labels.old.entries) ≡ false }
    ensures entries { OnOk result (entries_of labels.new.entries ≡ entries_of labels.old.entries ++ entry ∷ []) }
    ensures keyed { OnOk result (AreKeyed labels.new.entries) }
{
    labels.insert((entry.label, entry.sdi), entry)?;
    Ok(())
}

impl Profile {
    /// The numbers of the file transfer.
    pub fn codes(&self) -> &Codes
        ensures codes { result.now ≡ self.now.codes }
        ensures sound { IsProfile self.now }
    {
        &self.codes
    }

    /// How a check word is made.
    pub fn check(&self) -> &Check
        ensures { result.now ≡ self.now.check }
    {
        &self.tables.rule
    }

    /// The same, with tables by which a check word is made faster.
    pub fn check_tables(&self) -> &CheckTables
        ensures { result.now ≡ self.now.check }
    {
        &self.tables
    }

    /// How many entries the label table has.
    pub fn entry_count(&self) -> usize
        ensures { result ≡ length self.now.labels }
    {
        self.labels.len()
    }

    /// Entry i of the label table in the file's order, counted from 0; `None` past the last.
    pub fn entries(&self, i: usize) -> Option<&LabelEntry>
        ensures { option_map (λ e. e.now) result ≡ slice_get self.now.labels i }
    {
        match self.labels.get_index(i) {
            Some((_, entry)) => Some(entry),
            None => None,
        }
    }

    /// The entry for words of this label and this SDI, 0 to 3: the one with this label and this SDI, or without an SDI.
    /// There is at most one.
    pub fn entry(&self, label: u8, sdi: u8) -> Option<&LabelEntry>
        ensures entry { option_map (λ e. e.now) result ≡ find (is_for label sdi) self.now.labels }
        ensures range { IfSome result (λ e. IsKindInRange e.now.kind) }
    {
        // (for the proof: the profile is sound)
        let _codes = self.codes();
        let place = self.place(label, sdi)?;
        self.entries(place)
    }

    // The place of the entry for words of this label and SDI.
    fn place(&self, label: u8, sdi: u8) -> Option<usize>
        ensures { IsPlace self.now.labels label sdi result }
    {
        let sdi_place = usize::from(sdi);
        if sdi_place < SDIS {
            self.places[SDIS * usize::from(label) + sdi_place]
        } else {
            place_of(&self.labels, label, sdi)
        }
    }
}
