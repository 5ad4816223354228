//! The commands of `a429`: how the words on its command line are read, what each command writes and
//! answers, and how a fault is reported.
#![tactic(auto)]

mod command_line;
mod engines;
mod fault;
pub mod laws;

pub use crate::command_line::command;
pub use crate::command_line::commands::{Claim, Command, IntoFolder};
pub use crate::engines::blocks::run_blocks;
pub use crate::engines::check::{run_by_rule, run_check, run_decide};
pub use crate::engines::cut::run_cut;
pub use crate::engines::extract::run_extract;
pub use crate::engines::folder::Folder;
pub use crate::engines::forms::run_forms;
pub use crate::engines::help::run_help;
pub use crate::engines::history::run_history;
pub use crate::engines::import::run_import;
pub use crate::engines::keep::run_keep;
pub use crate::engines::labels::run_labels;
pub use crate::engines::make::run_make;
pub use crate::engines::new_file::NewFile;
pub use crate::engines::pack::run_pack;
pub use crate::engines::part_folder::PartFolder;
pub use crate::engines::part_source::{OpenPart, PartSource};
pub use crate::engines::picture::run_picture;
pub use crate::engines::piece_folder::PieceFolder;
pub use crate::engines::rule::Rule;
pub use crate::engines::series::run_series;
pub use crate::engines::show::run_show;
pub use crate::engines::side::run_side;
pub use crate::engines::sink::run_sink;
pub use crate::engines::survey::run_survey;
pub use crate::engines::trace::run_trace;
pub use crate::engines::units::run_units;
pub use crate::engines::upgrade::run_upgrade;
pub use crate::engines::verify::run_verify;
pub use crate::engines::version::run_version;
pub use crate::engines::whole::read_whole;
pub use crate::engines::why::run_why;
pub use crate::engines::word::run_word;
pub use crate::fault::{RunFault, report};
pub use a429_side::Side;
pub use a429_view::Span;
