//! The stages of reading a recording.

ghost use Rattle.std.specs.Prelude.{◌≡◌};
ghost use Rattle.a429_record.specs.Stage.{stage_after};

use crate::entry::Entry;
use crate::fault::ReadFault;

/// The stage of reading a recording, by what the last call returned.
#[derive(Clone, Copy)]
pub enum Stage {
    /// Nothing was read yet.
    Begins,
    /// An entry was returned.
    Rows,
    /// The end was returned.
    Ended,
    /// A fault was returned.
    Failed,
}

impl Stage {
    /// The stage after this answer.
    #[inline(always)]
    pub fn after(answer: &Result<Option<Entry>, ReadFault>) -> Stage
        ensures { result ≡ stage_after answer.now }
    {
        match answer {
            Ok(Some(_)) => Stage::Rows,
            Ok(None) => Stage::Ended,
            Err(_) => Stage::Failed,
        }
    }
}
