//! Recordings of hours: what of them the transfer needs, and their parts.
#![tactic(auto)]

mod cutting;
mod doubt;
mod follower;
mod keeping;
mod kept;
pub mod laws;
mod parting;
mod parts;
mod waiting;
mod watch;

pub use crate::cutting::{Cutter, PartFault};
pub use crate::keeping::{next_of, put_kept};
pub use crate::kept::is_kept;
pub use crate::parting::{fault_by, put_parts};
pub use crate::parts::{MemoryParts, Part, Parts};
pub use crate::waiting::{Rows, drop_front};
