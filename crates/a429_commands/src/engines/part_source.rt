//! Where the parts of a recording come from.

ghost use Rattle.std.specs.Prelude.{◌≡◌, ℕ, Option, true, IfOk, IfSome, IsErrOf};
ghost use Rattle.a429_word.specs.Tally.{unread};
ghost use Rattle.a429_cert.specs.Series.{Part};
ghost use Rattle.a429_commands.specs.Series.{Holds};

use a429_record::EntryReader;
use a429_word::{Failing, Tally, Trouble};
use std::io::Read;

/// The readers of a part: of its recording, and of its certificate.
#[derive(Drop)]
pub struct OpenPart<R: Read, C: Read> {
    pub rec: EntryReader<R>,
    pub cert: Tally<C>,
}

/// The parts of a recording, each with its certificate. Contracts see the part at each place, from 1 on, where what
/// its readers have to read is known.
pub trait PartSource<R: Read, C: Read>: Failing {
    ghost part: { Self → ℕ → Option Part };

    /// Opens the part at this place, from 1 on.
    fn open(&mut self, place: u64) -> Result<OpenPart<R, C>, Trouble>
        ensures opened { IfOk result (λ o. IfSome (part self.old place) (λ q. Holds q (unread C.remaining o.cert) o.rec.to_come)) }
        ensures device { IsErrOf result Trouble.Device → Self.failed self.new ≡ true }
        ensures same { part self.new ≡ part self.old };

    /// Notes whether a reader of an open part has failed: then the parts have.
    fn note(&mut self, has_failed: bool)
        ensures failed { has_failed ≡ true → Self.failed self.new ≡ true }
        ensures same { part self.new ≡ part self.old };
}
