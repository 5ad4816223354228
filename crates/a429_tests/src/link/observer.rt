//! What a recording can go on with.

use crate::agreement::none_differs;
use crate::calls::sample;
use crate::recordings::seen;
use crate::sample::{ACK, CTS, RTS, SOT};
use a429_link::Observer;
use a429_profile::Profile;
use a429_word::Bus;
use std::alloc::Global;
use std::test::Fail;

// Recorded words, and whether each may follow those before it.
const RECORDED: [(Bus, u32, bool); 8] = [
    (Bus::B, ACK, false),
    (Bus::B, RTS, true),
    (Bus::A, RTS, true),
    (Bus::A, SOT, false),
    (Bus::B, CTS, true),
    (Bus::B, CTS, false),
    (Bus::A, SOT, true),
    (Bus::A, SOT, false),
];

// The first of these words, and whether it may follow, of which an observer says something else.
fn first_that_differs(alloc: Global, profile: &Profile) -> Option<(u32, bool)> {
    let mut observer = Observer::new(alloc);
    for (bus, number, allowed) in RECORDED {
        if observer.see(profile, seen(bus, number)).is_ok() != allowed {
            return Some((number, allowed));
        }
    }
    None
}

#[test]
fn words_that_are_not_granted(rt: HostRuntime) -> Result<(), Fail> {
    let profile = sample(&rt);
    none_differs(first_that_differs(rt.alloc(), &profile))
}
