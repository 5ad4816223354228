//! Why no certificate is written.

use crate::verdict::Doubt;

/// Why no certificate is written.
#[derive(Clone, Copy)]
pub(crate) enum Stop {
    Unexplained { entry: usize, doubt: Doubt },
    OutOfMemory,
}
