//! What becomes of each line of an export.

use crate::order::Mend;
use crate::parity::Verdict;
use a429_record::Entry;

/// What becomes of a line of an export (profile).
#[derive(Clone, Copy, Debug)]
pub enum Lot {
    /// It is one of the first lines, which are passed over.
    Skipped,
    /// It has nothing but blanks and tabs.
    Empty,
    /// It is a comment.
    Comment,
    /// It is the row that names the columns, or one before that.
    Heading,
    /// Its row is passed over for its first field.
    RowPassed,
    /// Its row is of a channel that is passed over.
    ChannelPassed,
    /// It is one of the last entries again, and left out.
    Repeated,
    /// It is this entry.
    Written {
        entry: Entry,
        /// Whether something of its time was cut off.
        is_cut: bool,
        /// What is known of the word's parity.
        verdict: Verdict,
        /// What was done to its time to put it in order.
        mend: Mend,
    },
}
