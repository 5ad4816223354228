//! Where a source may stand: what it may have done up to an attempt.

ghost use Rattle.std.specs.Prelude.{◌≡◌, ◌≤◌, ◌+◌, false, None, Some, IfSome, IsTrue, if◌then◌else◌};
ghost use Rattle.a429_search.specs.Standing.{all_give_ups, IsAt, IsGivenUp, IsHeard, IsPastLast, IsRegular, KeepGiveUps, LeaveNothingOut, MakeNothingUp};

use a429_link::UnitNumber;

/// How many files a source may give up from one acknowledgement to the next (profile).
const MOST_GIVE_UPS: u16 = 127;

/// How many numbers of link data units a file may have after that of its first.
const MOST_AFTER_FIRST: u16 = 254;

/// Where a source may stand, as far as later attempts depend on it: which number it has come to, and how many files it has given up since
/// it last heard an acknowledgement.
#[derive(Clone, Copy)]
pub(crate) struct Standing {
    /// The number of the first file.
    pub first_file: u8,
    /// The number known last: that of a start word, or the one that comes next after the acknowledgement heard last.
    pub known: Option<UnitNumber>,
    /// How many files were given up from the acknowledgement heard last up to that number.
    pub give_ups: u8,
    /// How many were given up since.
    pub since: u8,
    /// A start word of the present link data unit was recorded.
    pub is_started: bool,
}

/// How a source may come to an attempt: with the present link data unit, with a new one once it has given up so many files, or both.
/// Each with where it stands then.
#[derive(Clone, Copy)]
pub(crate) struct Ways {
    pub join: Option<Standing>,
    pub begin: Option<(u8, Standing)>,
    /// The second is looked at only where the attempt does not fit the present group.
    pub begin_last: bool,
}

impl Standing {
    /// Before all attempts.
    pub(crate) const START: Standing = Standing {
        first_file: 0,
        known: None,
        give_ups: 0,
        since: 0,
        is_started: false,
    };

    /// How the source may come to an attempt whose start word has this number, where one was recorded. The first link
    /// data unit of a file has the number `first_ldu`. Where no attempt was made since the source came here it has no group yet.
    pub(crate) fn ways(&self, first_ldu: u8, start: Option<UnitNumber>, has_group: bool) -> Ways
        ensures kept { KeepGiveUps self.now result }
        ensures covers { LeaveNothingOut first_ldu self.now start has_group result }
        ensures only { IsRegular first_ldu self.now has_group → MakeNothingUp first_ldu self.now start has_group result }
    {
        match (start, self.known) {
            (None, _) => self.ways_without_start(first_ldu, has_group),
            (Some(number), None) => self.first_ways(first_ldu, number, has_group),
            (Some(number), Some(known)) => self.ways_to(first_ldu, number, known, has_group),
        }
    }

    /// How many files were given up since the acknowledgement heard last.
    pub(crate) fn all_give_ups(&self) -> u16
        ensures { result ≡ all_give_ups self.now }
    {
        u16::from(self.give_ups) + u16::from(self.since)
    }

    // The number known last is past the last that a file may have: nothing can be loaded there.
    fn is_past_last(&self, first_ldu: u8) -> bool
        ensures past { IsTrue result → IsPastLast first_ldu self.now }
        ensures inside { result ≡ false → self.now.is_started ≡ false → self.now.since ≡ 0 → IfSome self.now.known (λ n. n.ldu ≤ first_ldu + 254) }
    {
        match self.known {
            Some(known) if !self.is_started && self.since == 0 => {
                known.ldu > u16::from(first_ldu) + MOST_AFTER_FIRST
            }
            _ => false,
        }
    }

    // Where it stands once it has given up one file more, if it may.
    fn given_up(&self) -> Option<(u8, Standing)>
        ensures { IsGivenUp self.now result }
    {
        if self.all_give_ups() >= MOST_GIVE_UPS {
            return None;
        }
        let next = Standing {
            since: self.since + 1,
            is_started: false,
            ..*self
        };
        Some((1, next))
    }

    // The attempt recorded no start word: it is of the present group, or else of a new file.
    fn ways_without_start(&self, first_ldu: u8, has_group: bool) -> Ways
        ensures kept { KeepGiveUps self.now result }
        ensures covers { LeaveNothingOut first_ldu self.now None has_group result }
        ensures only { IsRegular first_ldu self.now has_group → MakeNothingUp first_ldu self.now None has_group result }
    {
        if self.is_past_last(first_ldu) {
            return Ways {
                join: None,
                begin: self.given_up(),
                begin_last: true,
            };
        }
        Ways {
            join: Some(*self),
            begin: if has_group { self.given_up() } else { None },
            begin_last: true,
        }
    }

    // The attempt has the first start word that was recorded: it begins a file, that of the present group, or the next.
    fn first_ways(&self, first_ldu: u8, number: UnitNumber, has_group: bool) -> Ways
        requires { self.now.known ≡ None }
        ensures kept { KeepGiveUps self.now result }
        ensures covers { LeaveNothingOut first_ldu self.now (Some number) has_group result }
        ensures only { IsRegular first_ldu self.now has_group → MakeNothingUp first_ldu self.now (Some number) has_group result }
    {
        let all = self.all_give_ups();
        if number.ldu != u16::from(first_ldu) || all > MOST_GIVE_UPS {
            return Ways::NONE;
        }
        let before = all as u8;
        if has_group && all < MOST_GIVE_UPS {
            return Ways {
                join: Some(self.began(number, before)),
                begin: Some((1, self.began(number, before + 1))),
                begin_last: false,
            };
        }
        Ways::joining(true, self.began(number, before))
    }

    // It is at a first start word, before which so many files were given up.
    fn began(&self, number: UnitNumber, give_ups: u8) -> Standing
        ensures at { IsAt number result }
        ensures give_ups { result.give_ups ≡ give_ups }
    {
        Standing {
            first_file: number.file.wrapping_sub(give_ups),
            ..self.at(number, give_ups)
        }
    }

    /// It is at a start word, up to which so many files were given up since the acknowledgement heard last.
    pub(crate) fn at(&self, number: UnitNumber, give_ups: u8) -> Standing
        ensures at { IsAt number result }
        ensures give_ups { result.give_ups ≡ give_ups }
    {
        Standing {
            known: Some(number),
            give_ups,
            since: 0,
            is_started: true,
            ..*self
        }
    }

    /// It has heard an acknowledgement, after which this number comes next.
    pub(crate) fn heard(&self, number: UnitNumber) -> Standing
        ensures { IsHeard number result }
    {
        Standing {
            first_file: self.first_file,
            known: Some(number),
            ..Standing::START
        }
    }

    // The attempt has a start word, and the source has come from a known number.
    fn ways_to(&self, first_ldu: u8, number: UnitNumber, known: UnitNumber, has_group: bool) -> Ways
        requires { self.now.known ≡ Some known }
        ensures kept { KeepGiveUps self.now result }
        ensures covers { LeaveNothingOut first_ldu self.now (Some number) has_group result }
        ensures only { IsRegular first_ldu self.now has_group → MakeNothingUp first_ldu self.now (Some number) has_group result }
    {
        let past = number.file.wrapping_sub(known.file);
        if past == 0 && self.since == 0 {
            let fits = number.ldu == known.ldu && !self.is_past_last(first_ldu);
            return Ways::joining(fits, self.at(number, self.give_ups));
        }
        let give_ups = u16::from(self.give_ups) + u16::from(past);
        let begins_file = number.ldu == u16::from(first_ldu);
        if past == 0 || past < self.since || !begins_file || give_ups > MOST_GIVE_UPS {
            return Ways::NONE;
        }
        let next = self.at(number, give_ups as u8);
        if past == self.since && has_group {
            return Ways::joining(true, next);
        }
        Ways {
            join: None,
            begin: Some((past - self.since, next)),
            begin_last: false,
        }
    }
}

impl Ways {
    /// There is none.
    const NONE: Ways = Ways {
        join: None,
        begin: None,
        begin_last: false,
    };

    // With the present group, where this holds.
    fn joining(fits: bool, next: Standing) -> Ways
        ensures join { result.join ≡ if fits then Some next else None }
        ensures begin { result.begin ≡ None }
        ensures last { result.begin_last ≡ false }
    {
        Ways {
            join: if fits { Some(next) } else { None },
            ..Ways::NONE
        }
    }
}
