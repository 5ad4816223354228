//! Certificates: their lines, and what they explain of the recording of one byte.

mod line_reader;
mod lines;
mod replay;
pub(crate) mod shelf;
mod stream;
