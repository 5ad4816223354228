//! Words of an ARINC 429 bus, and readers and writers that fail for good.
#![tactic(auto)]

mod bcd;
mod bnr;
mod bus;
mod digits;
mod fixed;
pub mod laws;
mod page;
mod screening;
mod sheet;
mod tally;
mod trouble;
mod word;

pub use crate::bcd::BadDigit;
pub use crate::bus::Bus;
pub use crate::digits::{hex_digit, octal};
pub use crate::fixed::Fixed;
pub use crate::page::Page;
pub use crate::screening::{BAD_PARITY, OTHER_LABEL, THIS_LABEL, screen};
pub use crate::sheet::Sheet;
pub use crate::tally::{Device, Failing, Tally};
pub use crate::trouble::Trouble;
pub use crate::word::Word;
