//! What people look at who look for a fault: the words of a recording as texts, counted, and as lines with what its sink does;
//! the units of a certificate as rows, and its messages as a picture.
#![tactic(auto)]

mod blocks;
mod forms;
mod gap;
mod history;
mod labels;
pub mod laws;
mod line;
mod mark;
mod picture;
mod show;
mod sink;
mod sketch;
mod survey;
mod trace;
mod units;
mod verdict;
mod word;

pub use crate::blocks::Blocks;
pub use crate::forms::{put_hex, put_what};
pub use crate::history::put_history;
pub use crate::labels::put_labels;
pub use crate::mark::{Mark, Recorded, Span};
pub use crate::picture::put_picture;
pub use crate::show::put_shown_lines;
pub use crate::sink::put_sink;
pub use crate::sketch::{MOST_STEPS, Place, Sketch};
pub use crate::survey::Survey;
pub use crate::survey::text::put_survey;
pub use crate::trace::text::put_next;
pub use crate::trace::{Trace, TraceStop};
pub use crate::units::rows::UnitRows;
pub use crate::verdict::{put_explained, put_fault, put_file, put_no, put_yes};
pub use crate::word::put_word;
