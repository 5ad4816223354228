//! The two buses of a pair.

ghost use Rattle.std.specs.Prelude.{◌≡◌};
ghost use Rattle.a429_word.specs.Bus.{bus_text};

/// A bus: it carries the words of one transmitter (ARINC 429 Part 1). Which of a pair is A and which B: profile.
#[derive(Clone, Copy, Debug, PartialEq, Eq)]
pub enum Bus {
    /// From the source of a file to its sink.
    A,
    /// From the sink back to the source.
    B,
}

impl Bus {
    /// The bus's letter, as recordings and commands write it.
    pub fn letter(self) -> &'static str
        ensures { result.now ≡ bus_text self }
    {
        match self {
            Bus::A => "A",
            Bus::B => "B",
        }
    }
}
