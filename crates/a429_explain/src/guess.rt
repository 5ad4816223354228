//! A guess of the run that recorded the words of a recording.

ghost use Rattle.std.specs.Prelude.{◌≡◌};
ghost use Rattle.a429_explain.specs.Decoded.{forms_of};
ghost use Rattle.a429_explain.specs.Guess.{started, first_file_of};

use crate::attempts::Role;
use crate::decoded::Decoded;
use crate::plan::Plan;
use a429_ldu::Form;
use std::collections::VecDeque;

/// A guess of the run that recorded some entries. Its steps follow from the guess, entry after entry.
#[derive(Drop)]
pub struct Guess {
    /// The number of the file with which the source begins, 0 to 255.
    pub first_file: u8,
    /// What each entry is to the steps, entry 0 first.
    pub roles: Vec<Role>,
    /// What the source does before each group, in the order of their first requests. A request without a plan goes on
    /// with the link data unit that the source has.
    pub plans: VecDeque<Plan>,
}

/// The file number of the first start word, or 0: that with which the source begins, by the rule of `check`.
pub(crate) fn first_file(decoded: &Decoded) -> u8
    ensures { result ≡ first_file_of (forms_of decoded.now.profile.codes decoded.now.items) }
{
    for at in 0..decoded.len() {
        if let Some(file) = started(&decoded.word(at).form) {
            return file;
        }
    }
    0
}

// The file number of a start word.
fn started(form: &Option<Form>) -> Option<u8>
    ensures { result ≡ started form.now }
{
    match *form {
        Some(Form::Sot { file, .. }) => Some(file),
        _ => None,
    }
}
