//! What a test of many cases answers.

use std::alloc::AllocError;
use std::fmt::Debug;
use std::test::Fail;

/// A failure that names the first case that differs, where there is one.
pub(crate) fn none_differs<T: Debug + Drop>(first: Option<T>) -> Result<(), Fail> {
    match first {
        Some(case) => Err(Fail::new(format_args!("{case:?}"))),
        None => Ok(()),
    }
}

/// The same, also a failure where memory was refused.
pub(crate) fn none_differs_given_memory<T: Debug + Drop>(
    first: Result<Option<T>, AllocError>,
) -> Result<(), Fail> {
    match first {
        Ok(first) => none_differs(first),
        Err(_) => Err(Fail::new("out of memory")),
    }
}
