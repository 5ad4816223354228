//! The sink of a whole recording, judged by itself.

ghost use Rattle.std.specs.Prelude.{◌≡◌, [], true, false, None, IfErr, IfOk, IsErrOf};
ghost use Rattle.a429_profile.specs.Profile.{IsProfile};
ghost use Rattle.a429_record.specs.declared.fault.ReadFault.TheVariants as read;
ghost use Rattle.a429_parts.specs.Keeping.{taken};
ghost use Rattle.a429_sink.specs.Judging.{IsSinkVerdict, IsYes, SinkUnread, Sees};
ghost use Rattle.a429_sink.specs.LoneTrace.{IsLoneTrace};

use crate::lone_trace::{LoneStop, LoneTrace, Refusal};
use a429_cert::seen;
use a429_link::Crossing;
use a429_parts::next_of;
use a429_profile::Profile;
use a429_record::{EntryLine, EntryReader, ReadFault};
use std::alloc::Global;
use std::io::Read;

/// What a recording says of its sink, whatever its source and the line did.
#[derive(Drop)]
pub enum SinkVerdict {
    /// A sink that keeps the rules may have recorded it, and these files cross, in order.
    Yes(Vec<Crossing>),
    /// No sink that keeps the rules sends this answer after the words before it.
    No(Refusal),
}

/// Judges the sink of a recording by itself (ARINC 429 Part 3). The recording is read entry by entry, up to the first answer that no
/// sink sends which keeps the rules, whatever its source sends. Kept are the number and the length of each file that has crossed,
/// 16 bytes, and the bytes of the one that is not whole. A reader that has failed is no end of the recording: the fault is `Device`.
pub fn judge_sink<R: Read>(
    alloc: Global,
    profile: &Profile,
    rec: &mut EntryReader<R>,
) -> Result<SinkVerdict, ReadFault>
    ensures verdict { IfOk result (IsSinkVerdict profile.now (taken rec.old rec.new)) }
    ensures fault { IfErr result (SinkUnread (taken rec.old rec.new)) }
    ensures device { IsErrOf result read.Device → rec.new.failed ≡ true }
    ensures works { IfOk result (λ verdict. IsYes verdict → rec.new.failed ≡ false) }
{
    let mut trace = LoneTrace::new(alloc);
    match see_all(alloc, profile, rec, &mut trace) {
        Ok(None) => Ok(SinkVerdict::Yes(trace.into_files())),
        Ok(Some(refusal)) => Ok(SinkVerdict::No(refusal)),
        Err(fault) => Err(fault),
    }
}

// Goes through a recording, up to the first entry that is refused.
fn see_all<R: Read>(
    alloc: Global,
    profile: &Profile,
    rec: &mut EntryReader<R>,
    trace: &mut LoneTrace,
) -> Result<Option<Refusal>, ReadFault>
    requires { IsLoneTrace profile.now [] trace.old }
    ensures sound { IsProfile profile.now }
    ensures sees { IfOk result (Sees profile.now (taken rec.old rec.new) trace.new) }
    ensures fault { IfErr result (SinkUnread (taken rec.old rec.new)) }
    ensures device { IsErrOf result read.Device → rec.new.failed ≡ true }
    ensures works { IfOk result (λ refusal. refusal ≡ None → rec.new.failed ≡ false) }
{
    // (for the proof: the profile is sound)
    let _codes = profile.codes();
    let mut line = EntryLine::new();
    'entries: loop {
        match next_of(rec, &mut line) {
            Ok(Some(entry)) => match trace.see(alloc, profile, seen(entry)) {
                Ok(()) => {}
                Err(LoneStop::Refused(refusal)) => return Ok(Some(refusal)),
                Err(LoneStop::OutOfMemory) => return Err(ReadFault::OutOfMemory),
            },
            Ok(None) => return Ok(None),
            Err(fault) => return Err(fault),
        }
    }
}
