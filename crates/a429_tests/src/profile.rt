//! The sample profile, and what is read of it, with changes too. What is wrong with a profile is tested on the built program, by the
//! page `scripts/cases/keys.md`.

mod held;
mod sample;
mod shown_words;
