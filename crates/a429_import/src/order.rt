//! Times in order: clocks that begin again or were set back, and times that come late.

ghost use Rattle.std.specs.Prelude.{◌≡◌, ◌<◌, ◌≤◌, ◌^◌, IfSome};
ghost use Rattle.a429_import.specs.Order.{clock_after, has_wrapped_at, in_64_bits, is_late, meant, moved, settled};

/// How the times of an export are put in order (profile).
#[derive(Clone, Copy, Debug)]
pub struct OrderRule {
    /// After how many microseconds the clock begins at 0 again; 0: never.
    pub wraps_at: u64,
    /// By how many microseconds a time may be below the latest one.
    pub back: u64,
    /// Whether a time further below is of a clock that was set back.
    pub resets: bool,
}

/// The clock of an export, after the entries so far.
#[derive(Clone, Copy)]
pub(crate) struct Clock {
    /// What is added to the times that are read, in microseconds.
    pub(crate) offset: u64,
    /// Whether it has begun again.
    pub(crate) has_wrapped: bool,
    /// The time of the latest entry, 0 before the first.
    pub(crate) latest: u64,
}

/// What is done to a time that is below the latest one, and by how many microseconds it is.
#[derive(Clone, Copy, Debug)]
pub enum Fall {
    /// It is not below.
    None,
    /// It becomes the latest one.
    Lifted(u64),
    /// The clock was set back.
    Reset(u64),
}

/// What is done to the time of an entry.
#[derive(Clone, Copy, Debug)]
pub struct Mend {
    /// Whether the clock begins again at it.
    pub wraps: bool,
    pub fall: Fall,
    /// What is added to the times that are read after it.
    pub offset: u64,
}

/// A time in order.
#[derive(Clone, Copy)]
pub(crate) struct Ordered {
    pub(crate) time: u64,
    pub(crate) mend: Mend,
}

/// A time that is meant, and what is added to those that follow.
#[derive(Clone, Copy)]
pub(crate) struct Moved {
    pub(crate) time: u128,
    pub(crate) offset: u128,
    pub(crate) wraps: bool,
}

impl OrderRule {
    /// The time that is meant where so many microseconds were read; `None` where it is above 64 bits.
    pub(crate) fn meant(self, clock: Clock, micros: u128) -> Option<Moved>
        ensures meant { result ≡ meant self clock micros }
        ensures time { IfSome result (λ m. m.time < 2 ^ 64) }
        ensures offset { IfSome result (λ m. m.offset < 2 ^ 64) }
    {
        match micros.checked_add(u128::from(clock.offset)) {
            Some(time) => in_64_bits(self.moved(clock, time)),
            None => None,
        }
    }

    // The time that is meant, by whether the clock has begun again.
    fn moved(self, clock: Clock, time: u128) -> Moved
        ensures moved { result ≡ moved self clock time }
        ensures fits { clock.offset ≤ time → result.time < 2 ^ 64 → result.offset < 2 ^ 64 }
    {
        let wraps_at = u128::from(self.wraps_at);
        let offset = u128::from(clock.offset);
        if self.has_wrapped_at(clock, time) {
            Moved {
                time: time + wraps_at,
                offset: offset + wraps_at,
                wraps: true,
            }
        } else if self.is_late(clock, time) {
            Moved {
                time: time - wraps_at,
                offset,
                wraps: false,
            }
        } else {
            Moved {
                time,
                offset,
                wraps: false,
            }
        }
    }

    // Whether the clock has begun again at this time.
    fn has_wrapped_at(self, clock: Clock, time: u128) -> bool
        ensures { result ≡ has_wrapped_at self clock time }
    {
        let latest = u128::from(clock.latest);
        self.wraps_at != 0 && time < latest && u128::from(self.wraps_at) < 2 * (latest - time)
    }

    // Whether a time is from before the clock began again.
    fn is_late(self, clock: Clock, time: u128) -> bool
        ensures { result ≡ is_late self clock time }
    {
        let latest = u128::from(clock.latest);
        let wraps_at = u128::from(self.wraps_at);
        clock.has_wrapped
            && wraps_at <= time
            && time - wraps_at < latest
            && latest - (time - wraps_at) <= u128::from(self.back)
    }

    /// The time as it is written, by whether it is below the latest; `None` where it is too far below.
    pub(crate) fn settle(self, clock: Clock, micros: u128, moved: Moved) -> Option<Ordered>
        requires time { moved.time < 2 ^ 64 }
        requires offset { moved.offset < 2 ^ 64 }
        ensures { result ≡ settled self clock micros moved }
    {
        let time = moved.time as u64;
        let wraps = moved.wraps;
        let offset = moved.offset as u64;
        if clock.latest <= time {
            return Some(ordered_at(time, wraps, Fall::None, offset));
        }
        let by = clock.latest - time;
        if by <= self.back {
            Some(ordered_at(clock.latest, wraps, Fall::Lifted(by), offset))
        } else if self.resets {
            let offset = u128::from(clock.latest).saturating_sub(micros) as u64;
            Some(ordered_at(clock.latest, wraps, Fall::Reset(by), offset))
        } else {
            None
        }
    }
}

fn in_64_bits(moved: Moved) -> Option<Moved>
    ensures moved { result ≡ in_64_bits moved }
    ensures time { IfSome result (λ m. (m.time < 2 ^ 64) × (m ≡ moved)) }
{
    if moved.time <= u128::from(u64::MAX) {
        Some(moved)
    } else {
        None
    }
}

fn ordered_at(time: u64, wraps: bool, fall: Fall, offset: u64) -> Ordered
    ensures { result ≡ record { time = time; mend = record { wraps = wraps; fall = fall; offset = offset } } }
{
    Ordered {
        time,
        mend: Mend {
            wraps,
            fall,
            offset,
        },
    }
}

impl Clock {
    /// Before any entry.
    pub(crate) const START: Clock = Clock {
        offset: 0,
        has_wrapped: false,
        latest: 0,
    };

    /// After an entry of this time.
    pub(crate) fn after(self, time: u64, mend: Mend) -> Clock
        ensures { result ≡ clock_after self time mend }
    {
        Clock {
            offset: mend.offset,
            has_wrapped: self.has_wrapped || mend.wraps,
            latest: time,
        }
    }
}
