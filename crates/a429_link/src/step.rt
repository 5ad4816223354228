//! The steps of a transfer.

use crate::seen::Seen;
use a429_ldu::Ldu;

/// A step of the source, of the sink, or of a word between them (ARINC 429 Part 3; what is lost, and
/// where the recorder listens: profile).
#[derive(Debug, Drop)]
pub enum Step {
    /// The source loads its next link data unit.
    Load(Ldu),
    /// The source's next word is recorded, and is on its way to the sink.
    Sent(Seen),
    /// The source's next word is lost before it is recorded.
    SentLost,
    /// The source no longer waits for an answer.
    TimeOut,
    /// The source takes the first answer on its way.
    TakeAnswer,
    /// The first answer on its way is lost, after it was recorded.
    LoseAnswer,
    /// The sink takes the first word on its way.
    SinkTakes,
    /// The sink leaves the answer out that it owes.
    Silent,
    /// The sink's answer is recorded, and is on its way to the source.
    Answered(Seen),
    /// A word that is none of the transfer's is recorded.
    FreeSeen(Seen),
    /// The source gives its file up, with the link data unit that it has loaded, and goes on to the next file.
    GiveUp,
}
