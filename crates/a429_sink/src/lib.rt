//! The sink of a file transfer judged by itself, and recordings that begin anywhere.
#![tactic(auto)]

mod alone;
mod fault;
mod file_units;
mod glimpsed;
mod glimpsed_trace;
mod judging;
pub mod laws;
mod lone;
mod lone_trace;
mod owed;
mod piece;
mod pieces;
mod requests;
mod splitting;
mod stopping_trace;
mod summary;

pub use crate::alone::sink_allows;
pub use crate::fault::SinkFault;
pub use crate::file_units::FileUnits;
pub use crate::judging::{SinkVerdict, judge_sink};
pub use crate::lone::LoneSink;
pub use crate::lone_trace::{LoneStop, LoneTrace, Refusal};
pub use crate::owed::Owed;
pub use crate::pieces::{MemoryPieces, Piece, Pieces};
pub use crate::splitting::put_pieces;
pub use crate::summary::{PieceSummary, Stopped};
