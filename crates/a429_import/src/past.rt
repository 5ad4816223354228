//! What is known of the entries so far.

ghost use Rattle.std.specs.Prelude.{◌≡◌, OnOk};
ghost use Rattle.a429_import.specs.Past.{no_past, past_with};

use crate::order::{Clock, Mend};
use crate::repeats::{LastEntries, RepeatRule, as_compared};
use a429_record::Entry;
use std::alloc::{AllocError, Global};

/// What is known of the entries so far.
#[derive(Drop)]
pub(crate) struct Past {
    pub(crate) clock: Clock,
    pub(crate) last: LastEntries,
}

impl Past {
    /// Before any entry.
    pub(crate) fn new(alloc: Global) -> Past
        ensures { result ≡ no_past }
    {
        Past {
            clock: Clock::START,
            last: LastEntries::new(alloc),
        }
    }

    /// And one more entry, which was put in order so.
    pub(crate) fn add(
        &mut self,
        rule: RepeatRule,
        entry: Entry,
        mend: Mend,
    ) -> Result<(), AllocError>
        ensures { OnOk result (self.new ≡ past_with rule self.old entry mend) }
    {
        let time = entry.time;
        let clock = self.clock;
        self.last.push(rule, as_compared(entry, mend.fall))?;
        self.clock = clock.after(time, mend);
        Ok(())
    }
}
