//! The words of a file transfer: their forms, the bytes that they carry, check words, and link data
//! units (ARINC 429 Part 3).
#![tactic(auto)]

mod across;
mod carried;
mod check_words;
mod cutting;
mod fault;
mod filling;
mod forms;
mod freedom;
pub mod laws;
mod ldu;
mod semis;
mod sight;

pub use crate::across::{form_across, other_line};
pub use crate::carried::{BlockBytes, block_bytes, bytes_of, count_semis};
pub use crate::check_words::{agrees, check_word, check_word_by};
pub use crate::cutting::{MOST_UNITS, cut};
pub use crate::fault::{CutFault, LduFault};
pub use crate::forms::Form;
pub use crate::forms::writing::word_of;
pub use crate::freedom::{Freedom, why_free};
pub use crate::ldu::{Ldu, MOST_DATA_WORDS, MOST_UNIT_BYTES};
pub use crate::semis::Semis;
pub use crate::sight::{Sight, form, form_if_full};
