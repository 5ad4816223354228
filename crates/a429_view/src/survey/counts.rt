//! How often each kind of word and each label occurs on a bus.

ghost use Rattle.std.specs.Prelude.{◌≡◌, ◌+◌, ◌<◌, ◌^◌, ◌∷◌, ◌++◌, [], List, get_or, length};
ghost use Rattle.a429_profile.specs.declared.codes.Codes.{Codes};
ghost use Rattle.a429_view.specs.Survey.{Numbered, IsHits, IsLabelCount, IsBusCount, is_even, no_hits, no_label, place};

use crate::survey::kind::{KIND_COUNT, WordKind};
use a429_profile::Profile;
use a429_record::Entry;

/// How many labels there are.
pub(crate) const LABEL_COUNT: usize = 256;

/// How many entries have words of a kind, and which is the first.
#[derive(Clone, Copy)]
pub(crate) struct Hits {
    pub count: usize,
    pub first: usize,
}

impl Hits {
    /// No entry.
    pub(crate) const NONE: Hits = Hits { count: 0, first: 0 };

    // And the entry with this number.
    fn and(self, number: usize) -> Hits
        ensures { (xs : List Numbered) (x : Numbered) → length xs + 1 < 2 ^ 64 → x.number ≡ number → IsHits self xs → IsHits result (xs ++ x ∷ []) }
    {
        Hits {
            count: self.count.saturating_add(1),
            first: if self.count == 0 { number } else { self.first },
        }
    }
}

/// How many entries have words with a label, and how many of these words have even parity.
#[derive(Clone, Copy)]
pub(crate) struct LabelCount {
    pub count: usize,
    pub even: usize,
}

impl LabelCount {
    /// No entry.
    pub(crate) const NONE: LabelCount = LabelCount { count: 0, even: 0 };

    // And an entry, by whether the parity of its word is even.
    fn and(self, even: bool) -> LabelCount
        ensures { (xs : List Numbered) (x : Numbered) → length xs + 1 < 2 ^ 64 → even ≡ is_even x → IsLabelCount self xs → IsLabelCount result (xs ++ x ∷ []) }
    {
        LabelCount {
            count: self.count.saturating_add(1),
            even: if even {
                self.even.saturating_add(1)
            } else {
                self.even
            },
        }
    }
}

/// What a bus has: how many entries, each kind by its place, and each label.
#[derive(Drop)]
pub(crate) struct BusCount {
    pub entries: usize,
    pub kinds: [Hits; KIND_COUNT],
    pub labels: [LabelCount; LABEL_COUNT],
}

impl BusCount {
    /// No entry.
    pub(crate) fn new() -> BusCount
        ensures { (c : Codes) → IsBusCount c result [] }
    {
        BusCount {
            entries: 0,
            kinds: [Hits::NONE; KIND_COUNT],
            labels: [LabelCount::NONE; LABEL_COUNT],
        }
    }

    /// How many entries have words of this kind, and the first.
    pub(crate) fn hits(&self, kind: WordKind) -> Hits
        ensures { result ≡ get_or self.now.kinds (place kind) no_hits }
    {
        self.kinds[kind.place()]
    }

    /// How many entries have words with this label.
    pub(crate) fn label(&self, label: u8) -> LabelCount
        ensures { result ≡ get_or self.now.labels label no_label }
    {
        self.labels[usize::from(label)]
    }

    /// One more entry, which has this number in the recording.
    pub(crate) fn add(&mut self, profile: &Profile, number: usize, entry: &Entry)
        ensures { (xs : List Numbered) → length xs + 1 < 2 ^ 64 → IsBusCount profile.now.codes self.old xs
            → IsBusCount profile.now.codes self.new (xs ++ record { number = number; entry = entry.now } ∷ []) }
    {
        self.entries = self.entries.saturating_add(1);
        let kind = WordKind::of(profile, entry);
        let place = kind.place();
        self.kinds[place] = self.kinds[place].and(number);
        let label = usize::from(entry.word.label());
        self.labels[label] = self.labels[label].and(kind.is_even());
    }
}
