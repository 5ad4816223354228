//! A bench's profile: the numbers of its file transfer, how check words are made, and its table of labels.
#![tactic(auto)]

mod check_tables;
mod clash;
mod codes;
mod entry;
mod fault;
mod flags;
mod key;
mod labels;
pub mod laws;
mod places;
mod profile;
mod shown;
mod value;

pub use crate::check_tables::{CheckTables, after_zero_byte};
pub use crate::codes::{Check, Codes};
pub use crate::entry::{Flag, Flags, Kind, LabelEntry, Numbers, Text};
pub use crate::fault::ProfileFault;
pub use crate::key::{Key, LabelKey, SectionKey};
pub use crate::profile::{Profile, read_profile};
pub use crate::shown::{Shown, Status};
