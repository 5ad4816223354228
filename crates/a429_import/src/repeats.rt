//! Entries that an export has again.

ghost use Rattle.std.specs.Prelude.{◌≡◌, [], ◌∷◌, ◌-◌, OnOk, length, take};
ghost use Rattle.a429_import.specs.Repeats.{are_near, as_compared, is_again, is_repeat, is_same_line, last_with, time_before};

use crate::key_counts::{count_one, uncount_one};
use crate::order::Fall;
use crate::sort_key::SortKey;
use a429_record::Entry;
use a429_word::Bus;
use std::alloc::{AllocError, Global};
use std::collections::{BTreeMap, VecDeque};
use std::marker::Model;

/// Which entries are left out because one of those before them is the same (profile).
#[derive(Clone, Copy, Debug)]
pub struct RepeatRule {
    /// By how many microseconds their times may differ.
    pub within: u32,
    /// How many of the last entries are compared; 0: none, and none is left out.
    pub among: u32,
}

/// The last entries that were written, the latest first, with their times before they were lifted. They are found by their keys, so that
/// a look-up takes few steps however many they are.
#[derive(Drop)]
pub(crate) struct LastEntries {
    entries: VecDeque<Entry>,
    // How many of them have a key: after a reset an entry can have the line, word and time of one before it.
    counts: BTreeMap<SortKey, u64>,
}

impl Model for LastEntries {
    ghost use Rattle.std.specs.Prelude.{List};
    ghost use Rattle.a429_record.specs.declared.entry.Entry.{Entry as AnEntry};
    ghost use Rattle.a429_import.specs.KeyCounts.{AreCounted};

    ghost Value = { List AnEntry };

    ghost view = { λ l. l.entries.items };

    ghost invariant = { λ l. AreCounted l.counts l.entries.items };
}

impl LastEntries {
    /// None.
    pub(crate) fn new(alloc: Global) -> LastEntries
        ensures { result ≡ [] }
    {
        LastEntries {
            entries: VecDeque::new(alloc),
            counts: BTreeMap::new(alloc),
        }
    }

    /// Whether this entry is one of them again: whether the first of them from the earliest time on is it.
    pub(crate) fn have(&self, rule: RepeatRule, entry: Entry) -> bool
        ensures { result ≡ is_repeat rule.within self.now entry }
    {
        let first = SortKey::earliest(rule.within, &entry);
        match self.counts.range(first..).next() {
            Some((key, _)) => is_again(rule.within, entry, key.entry()),
            None => false,
        }
    }

    /// And one more, of as many as are compared.
    pub(crate) fn push(&mut self, rule: RepeatRule, entry: Entry) -> Result<(), AllocError>
        ensures { OnOk result (self.new ≡ last_with rule self.old entry) }
    {
        if rule.among > 0 {
            self.add(entry)?;
        }
        self.keep(rule.among as usize);
        Ok(())
    }

    // And one more.
    fn add(&mut self, entry: Entry) -> Result<(), AllocError>
        ensures { OnOk result (self.new ≡ entry ∷ self.old) }
    {
        self.entries.reserve(1)?;
        count_one(&mut self.counts, SortKey::of(&entry))?;
        self.entries.push_front_reserved(entry);
        Ok(())
    }

    // The latest of them, so many at most.
    fn keep(&mut self, most: usize)
        ensures { self.new ≡ take most self.old }
    {
        while self.entries.len() > most {
            self.forget();
        }
    }

    // All but the earliest.
    fn forget(&mut self)
        ensures { self.new ≡ take (length self.old - 1) self.old }
    {
        if let Some(entry) = self.entries.pop_back() {
            uncount_one(&mut self.counts, SortKey::of(&entry));
        }
    }
}

// Whether an entry is another one again.
fn is_again(within: u32, entry: Entry, other: Entry) -> bool
    ensures { result ≡ is_again within entry other }
{
    is_same_line(entry.bus, other.bus)
        && entry.word == other.word
        && are_near(within, entry.time, other.time)
}

fn is_same_line(line: Bus, other: Bus) -> bool
    ensures { result ≡ is_same_line line other }
{
    match line {
        Bus::A => matches!(other, Bus::A),
        Bus::B => matches!(other, Bus::B),
    }
}

fn are_near(most: u32, time: u64, other: u64) -> bool
    ensures { result ≡ are_near most time other }
{
    time.abs_diff(other) <= u64::from(most)
}

/// An entry with its time before it was lifted.
pub(crate) fn as_compared(entry: Entry, fall: Fall) -> Entry
    ensures { result ≡ as_compared entry fall }
{
    Entry {
        time: time_before(entry.time, fall),
        ..entry
    }
}

fn time_before(time: u64, fall: Fall) -> u64
    ensures { result ≡ time_before time fall }
{
    match fall {
        Fall::Lifted(by) => time.saturating_sub(by),
        _ => time,
    }
}
