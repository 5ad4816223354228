//! The decision on a recording: the rule of `check`, contradictions, and a search for a run.
#![tactic(auto)]

mod attempts;
mod deciding;
mod groups;
mod searching;
mod standing;
mod trail;

pub use crate::deciding::{Decision, begins_a_run, decide};
