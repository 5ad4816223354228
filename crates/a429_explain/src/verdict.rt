//! The verdict on a recording.

use crate::certificate::Certificate;
use a429_cert::Verified;

/// The verdict on a recording (profile).
#[derive(Drop)]
pub enum Verdict {
    /// A run records exactly these words: the certificate lists its steps. Every run that records them delivers exactly
    /// these files.
    Explained {
        certificate: Certificate,
        files: Verified,
    },
    /// No run records this entry, counted from 0, after those before it.
    Impossible {
        entry: usize,
        reason: Reason,
    },
    /// No certificate was found. The entry, counted from 0, is the first that is doubted, or at which a search ended.
    Unexplained {
        entry: usize,
        doubt: Doubt,
    },
}

/// Why no run records a word after those before it (docs/CHECKER.md, Impossible).
#[derive(Clone, Copy, Debug)]
pub enum Reason {
    /// It has the label of the transfer and no form.
    NoForm,
    /// It is a start, data or end word without a clear answer before it, a start word after a start or data word of the same
    /// grant, or one data word too many.
    NotGranted,
    /// It is an answer that the sink does not owe.
    WrongAnswer,
    /// The last data word of a block whose data words are all recorded and carry no bytes, or the end word of a block
    /// that was recorded whole and whose check word is not theirs. `check` leaves this reason and the three after it out.
    BadBlock,
    /// A start word with a number that the source cannot have come to.
    WrongNumber,
    /// A word of a block that contradicts what was recorded of the same link data unit before.
    OtherBlock,
    /// No run records the words up to it, and none of the other reasons holds: attempts to send one link data unit have
    /// words that no unit has.
    NoRun,
}

/// Why a recording is neither explained nor impossible: what the rule of `check` was missing (docs/CHECKER.md, Attempts
/// and groups), or where the search of `decide` ended (docs/CHECKER.md, How long it searches).
#[derive(Clone, Copy, Debug)]
pub enum Doubt {
    /// The link data unit of this request was never recorded whole, although an end word was; or no filler words make
    /// its semi-octets whole bytes.
    NeverWhole,
    /// A request that asks for another number of words than the first of its group; or a word that the block of its group
    /// does not have after those before it in its attempt.
    NotOneBlock,
    /// The guessed steps cannot be made from this entry on.
    NotReplayed,
    /// The search was cut short by one of its limits at the attempt whose request this entry is. `check` leaves this doubt out.
    OutOfSteps,
}
