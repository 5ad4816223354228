//! Words that contradict those before them, and what a word is held against that no run records.
#![tactic(auto)]

mod against;
mod attempt_words;
mod contradiction;
mod data_words;
pub mod laws;
mod rival;
mod so_far;

pub use crate::against::{Against, held_against};
pub use crate::contradiction::{Contradiction, first_contradiction};
pub use crate::rival::Rival;
