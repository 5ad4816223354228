//! The words of an attempt, and how far they go into the block of its link data unit.

ghost use Rattle.std.specs.Prelude.{◌≡◌, ◌↔◌, ◌++◌, ◌∷◌, [], ℕ, List, Some, None, IfSome, IsTrue, OnOk, drop, length, slice_get};
ghost use Rattle.a429_link.specs.Contradiction.{AreOther};
ghost use Rattle.a429_link.specs.Run.{IsSubsequenceOf};
ghost use Rattle.a429_contradiction.specs.Against.{GoesOnIn};
ghost use Rattle.a429_contradiction.specs.SoFar.{IsPassedWith};

use a429_word::Word;
use std::alloc::{AllocError, Global};
use std::marker::Model;

/// The start, data and end words of an attempt, and the block of its link data unit, where that is known.
#[derive(Drop)]
pub(crate) struct AttemptWords {
    words: Vec<Word>,
    block: Vec<Word>,
    // The block is known.
    is_known: bool,
    // How many words of the block are passed with those of the attempt; `None` where these are not some of the block.
    passed: Option<usize>,
}

impl Model for AttemptWords {
    ghost use Rattle.std.specs.Prelude.{◌≡◌, true, Some, None, if◌then◌else◌};
    ghost use Rattle.a429_contradiction.specs.SoFar.{IsPassedWith, WordsSoFar};

    ghost Value = { WordsSoFar };

    ghost view = { λ s. record { words = s.words.items; block = if s.is_known then Some s.block.items else None } };

    ghost invariant = { λ s. s.is_known ≡ true → IsPassedWith s.words.items s.passed s.block.items };
}

impl AttemptWords {
    /// No words, of an unknown block.
    pub(crate) fn new(alloc: Global) -> AttemptWords
        ensures { result ≡ record { words = []; block = None } }
    {
        AttemptWords {
            words: Vec::new(alloc),
            block: Vec::new(alloc),
            is_known: false,
            passed: None,
        }
    }

    /// How many words there are.
    pub(crate) fn len(&self) -> usize
        ensures { result ≡ length self.now.words }
    {
        self.words.len()
    }

    /// The first word.
    pub(crate) fn first(&self) -> Option<Word>
        ensures { result ≡ slice_get self.now.words 0 }
    {
        self.words.get(0).copied()
    }

    /// With one more word they are not some of the block, in order.
    pub(crate) fn is_outside(&self, word: Word) -> bool
        ensures { IsTrue result ↔ AreOther (self.now.words ++ word ∷ []) self.now.block }
    {
        self.is_known && self.passed_with(word).is_none()
    }

    /// The next word of the block, where the words are some of it, in order, and with one more word they are not.
    pub(crate) fn next(&self, word: Word) -> Option<Word>
        ensures { IfSome result (λ next. GoesOnIn self.now.words word next self.now.block) }
    {
        if !self.is_outside(word) {
            return None;
        }
        let passed = self.passed?;
        self.block.get(passed).copied()
    }

    // How many words of the block are passed with one more word.
    fn passed_with(&self, word: Word) -> Option<usize>
        ensures { (block : List ℕ) → self.now.block ≡ Some block → IsPassedWith (self.now.words ++ word ∷ []) result block }
    {
        match self.passed {
            Some(passed) => passed_after(self.block.as_slice(), passed, word),
            None => None,
        }
    }

    /// Takes one more word.
    pub(crate) fn push(&mut self, word: Word) -> Result<(), AllocError>
        ensures { OnOk result (self.new ≡ record (self.old) { words = self.old.words ++ word ∷ [] }) }
    {
        let passed = self.passed_with(word);
        self.words.push(word)?;
        self.passed = passed;
        Ok(())
    }

    /// Begins anew, with the same block.
    pub(crate) fn clear(&mut self)
        ensures { self.new ≡ record (self.old) { words = [] } }
    {
        self.words.clear();
        self.passed = Some(0);
    }

    /// The words are the block.
    pub(crate) fn keep(&mut self) -> Result<(), AllocError>
        ensures { OnOk result (self.new ≡ record (self.old) { block = Some self.old.words }) }
    {
        self.is_known = false;
        self.block.clear();
        self.block.extend_from_slice(&self.words)?;
        self.passed = Some(self.words.as_slice().len());
        self.is_known = true;
        Ok(())
    }

    /// The block is not known.
    pub(crate) fn forget(&mut self)
        ensures { self.new ≡ record (self.old) { block = None } }
    {
        self.is_known = false;
    }
}

// How many words are passed with the first one that is this word, of those after so many; `None` where none is.
fn passed_after(words: &[Word], passed: usize, word: Word) -> Option<usize>
    ensures some { IfSome result (λ n. (more : List ℕ) → IsSubsequenceOf (word ∷ more) (drop passed words.now) ↔ IsSubsequenceOf more (drop n words.now)) }
    ensures none { result ≡ None → (more : List ℕ) → ¬ IsSubsequenceOf (word ∷ more) (drop passed words.now) }
{
    for at in passed..words.len() {
        if words[at] == word {
            return Some(at + 1);
        }
    }
    None
}
