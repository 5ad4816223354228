//! How far an export was read.

use crate::columns::Columns;
use crate::past::Past;

/// How far an export was read.
#[derive(Drop)]
pub(crate) struct Progress {
    /// How many lines were read.
    pub(crate) lines: u64,
    /// Where the columns are, once that is known.
    pub(crate) columns: Option<Columns>,
    pub(crate) past: Past,
}
