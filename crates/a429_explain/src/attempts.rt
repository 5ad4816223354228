//! Attempts, and the groups that they make.

ghost use Rattle.std.specs.Prelude.{◌≡◌, ◌∷◌, List, Option, IfOk, not};
ghost use Rattle.a429_ldu.specs.declared.forms.Form.{Form};
ghost use Rattle.a429_explain.specs.Decoded.{forms_of};
ghost use Rattle.a429_explain.specs.Attempts.{sends_block, next_start, are_numbers, role_of, roles, IsAhead};

use crate::decoded::Decoded;
use a429_ldu::Form;
use std::alloc::{AllocError, Global};

/// The numbers of a start word: that of its file, and that of its link data unit in the file, both 0 to 255 (ARINC 429 Part 3).
#[derive(Clone, Copy, Debug, PartialEq, Eq)]
pub struct StartNumbers {
    pub file: u8,
    pub ldu: u8,
}

/// What a recorded word is to the steps of a guess.
#[derive(Clone, Copy, Debug)]
pub enum Role {
    /// The transfer passes over it.
    Free,
    /// A request: an attempt begins. Its block has so many words, 3 to 255; and the numbers of its start word, where
    /// one was recorded. `explain_by` looks at neither: its plans say at which requests a group begins.
    Request {
        count: u8,
        start: Option<StartNumbers>,
    },
    /// The clear answer, and whether the source takes it; else it is lost after the recorder. By the rule of
    /// `check` the source takes it where a word of the block was recorded in its attempt.
    Clear {
        is_used: bool,
    },
    /// A start, data or end word. The words of the block before it that were not recorded are lost.
    OfBlock,
    /// The negative answer. The source takes it.
    Refused,
    /// The acknowledgement, and whether it ends its group: then the source takes it, else it is lost after the
    /// recorder. By the rule of `check` it ends its group unless the next start word has the same numbers.
    Acknowledged {
        ends_group: bool,
    },
}

// What is recorded after a word.
#[derive(Clone, Copy)]
pub(crate) struct Ahead {
    /// A word of a block comes before the next request.
    pub sends_block: bool,
    /// The numbers of the first start word before the next request.
    pub attempt: Option<StartNumbers>,
    /// The numbers of the next start word.
    pub start: Option<StartNumbers>,
}

/// The role of each recorded word, by the rule of `check` (docs/CHECKER.md). The error is out of memory.
pub fn roles(alloc: Global, decoded: &Decoded) -> Result<Vec<Role>, AllocError>
    ensures { IfOk result (λ found. found.items ≡ roles (forms_of decoded.now.profile.codes decoded.now.items)) }
{
    let mut found = vec![in alloc; Role::Free; decoded.len()]?;
    let mut ahead = Ahead {
        sends_block: false,
        attempt: None,
        start: None,
    };
    let mut left = decoded.len();
    while left > 0 {
        left -= 1;
        let form = decoded.word(left).form;
        found[left] = role_of(&form, ahead);
        ahead = before(&form, ahead);
    }
    Ok(found)
}

fn role_of(form: &Option<Form>, ahead: Ahead) -> Role
    ensures { (more : List (Option Form)) → IsAhead more ahead → result ≡ role_of form.now more }
{
    match *form {
        None => Role::Free,
        Some(Form::Rts { count }) => Role::Request {
            count,
            start: ahead.attempt,
        },
        Some(Form::Cts { .. }) => Role::Clear {
            is_used: ahead.sends_block,
        },
        Some(Form::Ack { file, ldu }) => Role::Acknowledged {
            ends_group: !are_numbers(ahead.start, file, ldu),
        },
        Some(Form::Nak { .. }) => Role::Refused,
        Some(Form::Sot { .. } | Form::Part(_) | Form::Eot { .. }) => Role::OfBlock,
    }
}

fn are_numbers(start: Option<StartNumbers>, file: u8, ldu: u8) -> bool
    ensures { result ≡ are_numbers start file ldu }
{
    match start {
        None => false,
        Some(start) => start.file == file && start.ldu == ldu,
    }
}

// What is recorded after the word before this one.
fn before(form: &Option<Form>, ahead: Ahead) -> Ahead
    ensures { (more : List (Option Form)) → IsAhead more ahead → IsAhead (form.now ∷ more) result }
{
    match *form {
        None | Some(Form::Cts { .. } | Form::Ack { .. } | Form::Nak { .. }) => ahead,
        Some(Form::Rts { .. }) => Ahead {
            sends_block: false,
            attempt: None,
            start: ahead.start,
        },
        Some(Form::Sot { file, ldu, .. }) => {
            let start = Some(StartNumbers { file, ldu });
            Ahead {
                sends_block: true,
                attempt: start,
                start,
            }
        }
        Some(Form::Part(_) | Form::Eot { .. }) => Ahead {
            sends_block: true,
            attempt: ahead.attempt,
            start: ahead.start,
        },
    }
}
