//! Links: steps with their answers, runs without loss, and what a recording can go on with.

mod clean;
mod observer;
mod script;
mod steps;
