//! What a recording has, counted.

ghost use Rattle.std.specs.Prelude.{◌≡◌, ◌≢◌, ◌+◌, ◌<◌, ◌^◌, ◌∷◌, ◌++◌, [], List, length};
ghost use Rattle.a429_profile.specs.declared.codes.Codes.{Codes};
ghost use Rattle.a429_record.specs.declared.entry.Entry.{Entry};
ghost use Rattle.a429_view.specs.Survey.{IsSurvey};

pub(crate) mod counts;
pub(crate) mod kind;
pub(crate) mod text;

use crate::survey::counts::BusCount;
use a429_profile::Profile;
use a429_record::Entry;
use a429_word::Bus;

/// What a recording has: how many entries, from when to when, and what each bus has. Its size does not
/// depend on how many entries there are.
#[derive(Drop)]
pub struct Survey {
    pub(crate) entries: usize,
    pub(crate) first: u64,
    pub(crate) last: u64,
    pub(crate) a: BusCount,
    pub(crate) b: BusCount,
}

impl Survey {
    /// A recording without entries.
    pub fn new() -> Survey
        ensures { (c : Codes) → IsSurvey c result [] }
    {
        Survey {
            entries: 0,
            first: 0,
            last: 0,
            a: BusCount::new(),
            b: BusCount::new(),
        }
    }

    /// Counts one more entry; the profile is the same for all.
    pub fn add(&mut self, profile: &Profile, entry: &Entry)
        ensures { (es : List Entry) → length es + 1 < 2 ^ 64 → IsSurvey profile.now.codes self.old es
            → IsSurvey profile.now.codes self.new (es ++ entry.now ∷ []) }
    {
        let number = self.entries;
        self.first = first_time(number, self.first, entry.time);
        self.last = entry.time;
        self.entries = number.saturating_add(1);
        match entry.bus {
            Bus::A => self.a.add(profile, number, entry),
            Bus::B => self.b.add(profile, number, entry),
        }
    }
}

// The time of the first entry, where so many came before this time.
fn first_time(number: usize, first: u64, time: u64) -> u64
    ensures begins { number ≡ 0 → result ≡ time }
    ensures stays { number ≢ 0 → result ≡ first }
{
    if number == 0 { time } else { first }
}
