//! Bits of a word that are side by side.

ghost use Rattle.std.specs.Prelude.{◌≡◌, ◌<◌, ◌^◌};
ghost use Rattle.a429_import.specs.Bits.{AreInWord, placed};

/// Bits of a word that are side by side (ARINC 429 Part 1; which of them an export has: profile).
#[derive(Clone, Copy, Debug)]
pub struct Bits {
    /// The lowest, 1 to 32.
    pub low: u8,
    /// How many, 1 to `33 - low`.
    pub count: u8,
    /// Whether the highest bit of a number is at the lowest of them, as in a label.
    pub reversed: bool,
}

impl Bits {
    /// A number of so many bits at these, all other bits of the word being 0. As a number, bit i of a word counts
    /// `2^(i-1)`.
    pub fn place(self, number: u32) -> u32
        requires bits { AreInWord self }
        requires number { number < 2 ^ self.count }
        ensures { result ≡ placed self number }
    {
        let number = if self.reversed {
            number.reverse_bits() >> (32 - self.count)
        } else {
            number
        };
        number << (self.low - 1)
    }
}
