//! The parts of a long recording.

ghost use Rattle.std.specs.Prelude.{◌≡◌, true, false, ◌+◌, ◌<◌, ◌≤◌, ◌^◌, ◌∷◌, ◌++◌, [], Some, None, Ok, IfOk, IfErr, IfSome, IsErr, IsErrOf, OnErr, OnOk, List, length, take, drop};
ghost use Rattle.a429_profile.specs.Profile.{Contents};
ghost use Rattle.a429_record.specs.declared.entry.Entry.{Entry};
ghost use Rattle.a429_record.specs.Writing.{line_text};
ghost use Rattle.a429_link.specs.Observer.{at_first};
ghost use Rattle.a429_parts.specs.Cutter.{AwaitsPlace, Cuts, CutsAlways, HasNoNextPart, HasNoNextPartAtEnd, HasNoPart, IsCurrent, IsFoundInTime, IsInReach, IsNextPart, IsNextPartAtEnd, IsPart, IsPastDoubt};

use crate::waiting::{Rows, Waiting};
use crate::watch::Watch;
use a429_cert::seen;
use a429_profile::Profile;
use a429_record::{Entry, EntryLine};
use std::alloc::Global;
use std::marker::Model;

// The room for lines of waiting entries: for each entry that a part may have, this many bytes more than the entries would need.
const SPARE_BYTES: usize = 8;

/// Why a recording has no more parts.
#[derive(Clone, Copy, Debug)]
pub enum PartFault {
    /// There is no place to cut that is near enough, or as many entries have come as a `usize` counts.
    TooMany,
    /// Memory for an entry that waits was refused.
    OutOfMemory,
}

/// Cuts a recording into parts of at most `most` entries, while it is read. A part ends at the last place to cut that is near
/// enough: at most `most` entries after the part's beginning, and known as one from the next `most + 1` entries. It
/// remembers the entries that are in no part yet. Call `part` after each entry, and `end_part` with its answer, until it
/// answers none.
#[derive(Drop)]
pub struct Cutter {
    most: usize,
    watch: Watch,
    // How many entries are in parts.
    begin: usize,
    // The last place to cut: how many entries of the recording are before it.
    place: usize,
    waiting: Waiting,
}

impl Model for Cutter {
    ghost use Rattle.a429_parts.specs.Cutter.{CutterState};

    ghost Value = { CutterState };

    ghost view = { λ c. record { most = c.most; watched = c.watch; begin = c.begin; place = c.place; waiting = c.waiting } };
}

impl Cutter {
    /// A cutter to which no entry has come, for parts of at most `most` entries.
    pub fn new(alloc: Global, most: usize) -> Cutter
        ensures { result ≡ record { most = most; watched = record { count = 0; observer = Some at_first; doubt = None }; begin = 0; place = 0; waiting = [] } }
    {
        Cutter {
            most,
            watch: Watch::new(alloc),
            begin: 0,
            place: 0,
            waiting: Waiting::new(alloc, most.min(usize::MAX / 16) * SPARE_BYTES),
        }
    }

    /// How many entries are in parts.
    pub(crate) fn begin(&self) -> usize
        ensures { result ≡ self.now.begin }
    {
        self.begin
    }

    /// The first `size` of the entries that are in no part yet.
    pub fn waiting(&self, size: usize) -> Rows<'_>
        requires { size ≤ length self.now.waiting }
        ensures { result ≡ take size self.now.waiting }
    {
        self.waiting.first(size)
    }

    /// How many entries are in no part yet.
    pub fn count_waiting(&self) -> usize
        ensures { result ≡ length self.now.waiting }
    {
        self.waiting.len()
    }

    /// Takes the next entry and its line. It takes as many as a `usize` counts. After a fault nothing has changed.
    #[inline(always)]
    pub fn take(
        &mut self,
        profile: &Profile,
        entry: &Entry,
        line: &EntryLine,
    ) -> Result<(), PartFault>
        requires line { line.now ≡ line_text entry.now }
        ensures most { (self.new.most ≡ self.old.most) × OnOk result (self.new.watched.count ≡ self.old.watched.count + 1) }
        ensures waits { OnOk result (self.new.waiting ≡ self.old.waiting ++ entry.now ∷ []) }
        ensures cuts { OnOk result ((parted : List Entry) (rest : List Entry) → Cuts profile.now parted (entry.now ∷ rest) self.old → Cuts profile.now parted rest self.new) }
        ensures many { IsErrOf result PartFault.TooMany → self.old.watched.count + 1 ≡ 2 ^ 64 }
        ensures unchanged { OnErr result (self.new ≡ self.old) }
        ensures reach { OnOk result ((parted : List Entry) (rest : List Entry) → Cuts profile.now parted (entry.now ∷ rest) self.old → IsCurrent self.old → IsInReach self.new) }
        ensures in_time { OnOk result ((parted : List Entry) → CutsAlways profile.now parted self.old → IsCurrent self.old → IsFoundInTime profile.now parted self.old → IsFoundInTime profile.now parted self.new) }
    {
        if self.watch.count() == usize::MAX {
            return Err(PartFault::TooMany);
        }
        if self.waiting.push(*entry, line).is_err() {
            return Err(PartFault::OutOfMemory);
        }
        let word = seen(*entry);
        match self.watch.take(profile, &word) {
            Some(place) => {
                self.place = place;
                self.waiting.note(place.saturating_sub(self.begin));
                Ok(())
            }
            None => Ok(()),
        }
    }

    /// How many of the waiting entries are the next part, if it is complete. It is not complete while the entries to come may
    /// still make a later place near enough. The fault is `TooMany`, where no place is near enough.
    #[inline(always)]
    pub fn part(&self) -> Result<Option<usize>, PartFault>
        ensures some { IfOk result (λ o. IfSome o (IsNextPart self.now)) }
        ensures none { result ≡ Ok None → IsInReach self.now → IsCurrent self.now }
        ensures many { IsErr result → HasNoNextPart self.now }
        ensures fault { IfErr result (λ fault. fault ≡ PartFault.TooMany) }
    {
        if self.waiting.len() <= self.most || self.may_end_in_doubt() {
            return Ok(None);
        }
        self.last_part()
    }

    /// The same at the end of the recording. If it answers none, the waiting entries are the last part.
    pub fn part_at_end(&self) -> Result<Option<usize>, PartFault>
        ensures some { IfOk result (λ o. IfSome o (IsNextPartAtEnd self.now)) }
        ensures none { result ≡ Ok None → length self.now.waiting ≤ self.now.most }
        ensures many { IsErr result → HasNoNextPartAtEnd self.now }
        ensures fault { IfErr result (λ fault. fault ≡ PartFault.TooMany) }
    {
        if self.waiting.len() <= self.most {
            return Ok(None);
        }
        self.last_part()
    }

    // The entries up to the last place.
    fn last_part(&self) -> Result<Option<usize>, PartFault>
        ensures some { IfOk result (λ o. IfSome o (IsPart self.now)) }
        ensures never { IfOk result (λ o. o ≡ None → ⊥) }
        ensures none { IsErr result → HasNoPart self.now }
        ensures fault { IfErr result (λ fault. fault ≡ PartFault.TooMany) }
    {
        if self.place <= self.begin {
            return Err(PartFault::TooMany);
        }
        let size = self.place - self.begin;
        if size > self.most || size >= self.waiting.len() {
            return Err(PartFault::TooMany);
        }
        Ok(Some(size))
    }

    // Whether the part may end at the place in doubt.
    fn may_end_in_doubt(&self) -> bool
        ensures yes { result ≡ true → AwaitsPlace self.now }
        ensures no { result ≡ false → IsPastDoubt self.now }
    {
        match self.watch.place_in_doubt() {
            Some(place) => {
                let size = place.saturating_sub(self.begin);
                0 < size
                    && size <= self.most
                    && self.waiting.len().saturating_sub(size) <= self.most
            }
            None => false,
        }
    }

    /// Ends a part: the first `size` of the waiting entries are dropped.
    pub fn end_part(&mut self, size: usize)
        requires part { IsPart self.old size }
        ensures cuts { (p : Contents) (parted : List Entry) (rest : List Entry) → Cuts p parted rest self.old → Cuts p (parted ++ take size self.old.waiting) rest self.new }
        ensures waits { self.new.waiting ≡ drop size self.old.waiting }
        ensures most { (self.new.most ≡ self.old.most) × (self.new.watched ≡ self.old.watched) }
        ensures reach { IsInReach self.new }
        ensures begin { self.new.begin ≡ self.new.place }
    {
        self.begin = self.place;
        self.waiting.drop_first(size);
    }
}
