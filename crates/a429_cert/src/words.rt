//! A list of words.

ghost use Rattle.std.specs.Prelude.{◌≡◌};

use a429_word::Word;
use std::marker::Model;

/// Words in their order, which contracts see as the list of their numbers. It is made from a `Vec`
/// and hands it back, without memory.
#[derive(Debug, Drop)]
pub struct Words(Vec<Word>);

impl Model for Words {
    ghost use Rattle.std.specs.Prelude.{List, ℕ};

    ghost Value = { List ℕ };

    ghost view = { λ w. w.0.items };
}

impl Words {
    /// These words.
    pub fn new(words: Vec<Word>) -> Words
        ensures { result ≡ words.items }
    {
        Self(words)
    }

    /// The words, lent.
    pub fn as_slice(&self) -> &[Word]
        ensures { result.now ≡ self.now }
    {
        self.0.as_slice()
    }

    /// The words, handed back.
    pub fn into_vec(self) -> Vec<Word>
        ensures { result.items ≡ self }
    {
        let Words(words) = self;
        words
    }
}
