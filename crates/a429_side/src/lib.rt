//! The words of one direction, where two units send each other files on one pair of lines.
#![tactic(auto)]

mod counts;
mod direction;
mod fields;
pub mod laws;
mod lot;
mod siding;

pub use crate::counts::{Counts, DestinationCount, put_counts};
pub use crate::direction::{Direction, direction_of};
pub use crate::lot::{Lot, Side};
pub use crate::siding::put_side;
