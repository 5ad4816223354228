//! The data words of an attempt.

ghost use Rattle.std.specs.Prelude.{◌≡◌, ◌↔◌, [], Some, IfSome, IsTrue, OnOk};
ghost use Rattle.a429_ldu.specs.Carried.{semis_in_words};
ghost use Rattle.a429_link.specs.WholeBlock.{AreHalf};
ghost use Rattle.a429_contradiction.specs.SoFar.{data_after};

use a429_ldu::{Form, block_bytes, count_semis};
use a429_link::Seen;
use a429_profile::Profile;
use a429_word::{Bus, Word};
use std::alloc::{AllocError, Global};
use std::marker::Model;

/// The data words since the last request or clear answer.
#[derive(Drop)]
pub(crate) struct DataWords {
    words: Vec<Word>,
}

impl Model for DataWords {
    ghost use Rattle.std.specs.Prelude.{ℕ, List};

    ghost Value = { List ℕ };

    ghost view = { λ s. s.words.items };
}

impl DataWords {
    /// None.
    pub(crate) fn new(alloc: Global) -> DataWords
        ensures { result ≡ [] }
    {
        DataWords {
            words: Vec::new(alloc),
        }
    }

    /// Takes the next word, which has this form.
    pub(crate) fn take(&mut self, seen: Seen, form: &Form) -> Result<(), AllocError>
        ensures { OnOk result (self.new ≡ data_after seen.bus seen.word (Some form.now) self.old) }
    {
        match (seen.bus, *form) {
            (Bus::A, Form::Part(_)) => self.words.push(seen.word)?,
            (Bus::A, Form::Rts { .. }) | (Bus::B, Form::Cts { .. }) => self.words.clear(),
            _ => {}
        }
        Ok(())
    }

    /// They are as many as a block of so many words has, and carry no bytes.
    pub(crate) fn are_half(&self, profile: &Profile, count: u8) -> bool
        ensures { IsTrue result ↔ AreHalf profile.now.codes self.now count }
    {
        if self.words.len() + 2 != usize::from(count) {
            return false;
        }
        match block_bytes(profile, &self.words) {
            Some(_) => false,
            None => true,
        }
    }

    /// How many semi-octets they have, where they are as many as a block of so many words has, and carry no bytes.
    pub(crate) fn half(&self, profile: &Profile, count: u8) -> Option<usize>
        ensures half { IfSome result (λ semis. AreHalf profile.now.codes self.now count) }
        ensures semis { IfSome result (λ semis. semis ≡ semis_in_words profile.now.codes self.now) }
    {
        if self.are_half(profile, count) {
            Some(count_semis(profile, &self.words))
        } else {
            None
        }
    }
}
