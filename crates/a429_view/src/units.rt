//! The link data units that a certificate loads, a row for each.

pub mod counts;
pub mod row;
pub mod rows;
pub mod size;
pub mod span;
pub(crate) mod text;
