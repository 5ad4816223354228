//! Words whose bytes, or whose label's bits, are the other way round.

ghost use Rattle.std.specs.Prelude.{◌≡◌, ◌<◌, ◌^◌};
ghost use Rattle.a429_import.specs.Turning.{bytes_turned, label_turned, turned};

use a429_word::Word;

/// What is the other way round in an export (profile).
#[derive(Clone, Copy, Debug)]
pub struct Turning {
    /// The four bytes of a word.
    pub bytes: bool,
    /// Bits 1 to 8, the label.
    pub label: bool,
}

impl Turning {
    /// The word with its bits where the standard has them: the bytes are turned first.
    pub fn turn(self, word: u32) -> u32
        ensures { result ≡ turned self word }
    {
        let word = if self.bytes { bytes_turned(word) } else { word };
        if self.label { label_turned(word) } else { word }
    }
}

// A word with its four bytes the other way round.
fn bytes_turned(word: u32) -> u32
    ensures { result ≡ bytes_turned word }
{
    word.swap_bytes()
}

// A word with bits 1 to 8 the other way round.
fn label_turned(word: u32) -> u32
    ensures { result ≡ label_turned word }
{
    (word >> 8) * 256 + u32::from(Word::from_u32(word).label())
}
