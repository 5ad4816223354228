//! Words, bytes and link data units of the sample profile.

mod forms;
mod units;
