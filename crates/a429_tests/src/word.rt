//! Words, their numbers and fractions, and the readers and writers that fail for good.

mod bcd;
mod fields;
mod fixed;
mod screening;
mod sheet;
mod tally;
