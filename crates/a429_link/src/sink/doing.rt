//! What the sink of a file transfer does.

ghost use Rattle.std.specs.Prelude.{◌≡◌};
ghost use Rattle.a429_link.specs.Implied.{doing_in};
ghost use Rattle.a429_link.specs.Sink.{is_same};

use crate::doing::Doing;
use crate::number::UnitNumber;
use crate::sink::{Phase, Sink, is_last};
use crate::why::Why;

impl Sink {
    /// What it does, where this is why the last word ended a block that is not good.
    pub(crate) fn doing(&self, why: Option<Why>) -> Doing
        ensures { result ≡ doing_in self.now.sink.count why self.now.sink.phase }
    {
        let count = self.count;
        match self.phase {
            Phase::Quiet => Doing::Quiet,
            Phase::OwesClear => Doing::OwesClear(count),
            Phase::Granted => Doing::Granted(count),
            Phase::InBlock(start) => Doing::InBlock {
                file: start.file,
                ldu: start.ldu,
                taken: self.lane.taken().len(),
                asked: count.saturating_sub(2),
            },
            Phase::OwesAck { start, .. } => Doing::OwesAck {
                file: start.file,
                ldu: start.ldu,
            },
            Phase::OwesNak => Doing::OwesNak(why.unwrap_or(Why::NoStart)),
        }
    }

    /// Whether the link data unit with these numbers was accepted last.
    pub(crate) fn accepted_last(&self, file: u8, ldu: u8) -> bool
        ensures { result ≡ is_same self.now.sink.last (record { file = file; ldu = ldu }) }
    {
        let ldu = u16::from(ldu);
        is_last(&self.last, UnitNumber { file, ldu })
    }
}
