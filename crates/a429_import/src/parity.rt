//! Bit 32 of words: what an export has there, and the bit that makes the parity.

ghost use Rattle.std.specs.Prelude.{◌≡◌};
ghost use Rattle.a429_import.specs.Parity.{verdict_of, flag_verdict, judged, status_in};

use crate::column::Column;
use crate::texts::Texts;
use a429_word::Word;

/// What bit 32 of an export's words is (profile).
#[derive(Drop)]
pub enum ParityBit {
    /// The bit that was received.
    Received,
    /// The card's error flag: 1 where the parity was wrong.
    ErrorSet,
    /// 0 where the parity was wrong.
    ErrorClear,
    /// Nothing: each word is taken as good.
    Absent,
    /// Nothing: a column says whether the parity was good.
    Status(Status),
}

/// The column that says whether the parity of a word was good, and its texts (profile).
#[derive(Drop)]
pub struct Status {
    pub column: Column,
    pub good: Texts,
    pub bad: Texts,
}

/// What an export says of the parity of a word.
#[derive(Clone, Copy, Debug)]
pub enum Verdict {
    /// Bit 32 is the one that was received.
    Received,
    /// The parity was good.
    Good,
    /// It was wrong.
    Bad,
}

impl Status {
    /// What a text of the column says; `None` for one that is in no list.
    pub fn verdict(&self, text: &[u8]) -> Option<Verdict>
        ensures { result ≡ status_in self.now text.now }
    {
        if self.good.has(text) {
            Some(Verdict::Good)
        } else if self.bad.has(text) {
            Some(Verdict::Bad)
        } else {
            None
        }
    }
}

impl ParityBit {
    /// What is known of a word's parity, where the status column, if there is one, says this.
    pub fn verdict(&self, status: Verdict, word: u32) -> Verdict
        ensures { result ≡ verdict_of self.now status word }
    {
        match self {
            ParityBit::Received => Verdict::Received,
            ParityBit::ErrorSet => flag_verdict(word, Verdict::Bad, Verdict::Good),
            ParityBit::ErrorClear => flag_verdict(word, Verdict::Good, Verdict::Bad),
            ParityBit::Absent => Verdict::Good,
            ParityBit::Status(_) => status,
        }
    }
}

// The first where bit 32 of a word is 1, else the second.
fn flag_verdict(word: u32, set: Verdict, clear: Verdict) -> Verdict
    ensures { result ≡ flag_verdict word set clear }
{
    if word >= 1 << 31 { set } else { clear }
}

impl Verdict {
    /// The word with bits 1 to 31 of this one, whose bit 32 says this of its parity (ARINC 429 Part 1).
    pub fn mark(self, word: u32) -> Word
        ensures { result ≡ judged self word }
    {
        match self {
            Verdict::Received => Word::from_u32(word),
            Verdict::Good => good(word),
            Verdict::Bad => Word::from_u32(good(word).to_u32().wrapping_add(1 << 31)),
        }
    }
}

// The word of odd parity with bits 1 to 31 of this one.
fn good(word: u32) -> Word
    ensures { result ≡ judged Verdict.Good word }
{
    Word::with_odd_parity(word & 0x7fff_ffff)
}
