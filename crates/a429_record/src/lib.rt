//! Recordings of a pair of buses: what their bytes stand for, read and written.
#![tactic(auto)]

mod binary;
mod entries;
mod entry;
mod entry_line;
mod entry_text;
mod fault;
mod format;
pub mod laws;
mod line;
mod lines;
mod packing;
mod plain;
mod reading;
mod recording;
mod row;
mod rows;
mod scan;
mod screening;
mod stage;
mod writing;

pub use crate::entries::EntryReader;
pub use crate::entry::{Entry, MOST_ENTRIES};
pub use crate::entry_line::EntryLine;
pub use crate::entry_text::EntryText;
pub use crate::fault::ReadFault;
pub use crate::line::without_mark;
pub use crate::lines::Lines;
pub use crate::packing::write_binary;
pub use crate::recording::read_entries;
pub use crate::screening::{SCREENED, screen_entries};
pub use crate::writing::{WriteFault, put_header, write_entries, write_lines, write_text};
