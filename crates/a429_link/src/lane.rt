//! The words between a source and its sink's block.

ghost use Rattle.std.specs.Prelude.{◌≡◌, ◌+◌, ◌<◌, [], ◌∷◌, ◌++◌, length, slice_index, IfSome, IsNone, ◌↔◌};
ghost use Rattle.a429_link.specs.State.{IsNonEmpty, rest};

use a429_word::Word;
use arrayvec::ArrayVec;
use std::marker::Model;

/// The words that a sink has taken of its block, and after them those on their way to it, in one array:
/// the sink takes a word by moving the boundary.
#[derive(Drop)]
pub(crate) struct Lane {
    words: ArrayVec<Word, 255>,
    boundary: usize,
}

impl Model for Lane {
    ghost use Rattle.std.specs.Prelude.{◌≤◌, length};
    ghost use Rattle.a429_link.specs.Lane as model;
    ghost use Rattle.a429_link.specs.Lane.{lane_at};

    ghost Value = { model.Lane };

    ghost view = { λ l. lane_at l.boundary l.words.items };

    ghost invariant = { λ l. (l.boundary ≤ length l.words.items) × (length l.words.items ≤ 255) };
}

impl Lane {
    pub(crate) fn new() -> Lane
        ensures { result ≡ record { taken = []; coming = [] } }
    {
        Lane {
            words: ArrayVec::new(),
            boundary: 0,
        }
    }

    /// The words that were taken.
    pub(crate) fn taken(&self) -> &[Word]
        ensures { result.now ≡ self.now.taken }
    {
        &self.words.as_slice()[..self.boundary]
    }

    /// How many words are on their way.
    pub(crate) fn coming(&self) -> usize
        ensures { result ≡ length self.now.coming }
    {
        self.words.len() - self.boundary
    }

    /// The first word on its way.
    pub(crate) fn first(&self) -> Option<Word>
        ensures some { IfSome result (λ w. self.now.coming ≡ w ∷ rest self.now.coming) }
        ensures none { IsNone result ↔ (self.now.coming ≡ []) }
    {
        self.words.as_slice().get(self.boundary).copied()
    }

    /// One more word is on its way.
    pub(crate) fn push(&mut self, word: Word)
        requires { length self.old.taken + length self.old.coming < 255 }
        ensures { self.new ≡ record (self.old) { coming = self.old.coming ++ word ∷ [] } }
    {
        self.words.push(word);
    }

    /// Takes the first word on its way.
    pub(crate) fn take_first(&mut self)
        requires { IsNonEmpty self.old.coming }
        ensures { self.new ≡ record { taken = self.old.taken ++ slice_index self.old.coming 0 ∷ []; coming = rest self.old.coming } }
    {
        self.boundary += 1;
    }

    /// Drops the first word on its way.
    pub(crate) fn drop_first(&mut self)
        requires { IsNonEmpty self.old.coming }
        ensures { self.new ≡ record (self.old) { coming = rest self.old.coming } }
    {
        self.words.remove(self.boundary);
    }

    /// Drops the words that were taken.
    pub(crate) fn drop_taken(&mut self)
        ensures { self.new ≡ record (self.old) { taken = [] } }
    {
        let coming = self.coming();
        self.words.as_mut_slice().rotate_left(self.boundary);
        self.words.truncate(coming);
        self.boundary = 0;
    }
}
