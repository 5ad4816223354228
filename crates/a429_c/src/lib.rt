//! The checker as a C library: bytes in memory in, a verdict and what belongs to it out. Nothing is opened, printed, or kept between
//! calls.
#![tactic(auto)]

mod abi;
mod buffers;
mod decide;
mod fault;
mod found;
mod input;
mod make;
mod refusal;
mod show;
mod verdict;
mod verify;

pub use crate::abi::a429_abi;
pub use crate::decide::a429_decide;
pub use crate::found::{FileSize, Found};
pub use crate::make::a429_make;
pub use crate::show::a429_show;
pub use crate::verify::a429_verify;
