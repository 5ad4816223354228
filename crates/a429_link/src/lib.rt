//! The source and the sink of a file transfer, and the words between them.
#![tactic(auto)]

mod carry;
mod clean;
mod doing;
mod fault;
mod file;
mod implied;
mod lane;
pub mod laws;
mod link;
mod next;
mod number;
mod observer;
mod reading;
mod received;
mod seen;
mod sink;
mod source;
mod state;
mod step;
mod transfer;
mod why;

pub use crate::carry::NextWord;
pub use crate::clean::clean_run;
pub use crate::doing::{Crossing, Doing};
pub use crate::fault::{CleanFault, StepFault};
pub use crate::file::{Bytes, FileBytes};
pub use crate::implied::ImpliedSink;
pub use crate::link::Link;
pub use crate::next::Next;
pub use crate::number::{UnitNumber, is_final};
pub use crate::observer::Observer;
pub use crate::reading::form_of;
pub use crate::seen::Seen;
pub use crate::sink::Latest;
pub use crate::state::{SinkState, SourceState, States};
pub use crate::step::Step;
pub use crate::why::Why;
