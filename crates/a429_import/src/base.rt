//! Numbers in digits of a base.

ghost use Rattle.std.specs.Prelude.{◌≡◌, ◌≤◌, ◌<◌, IfSome, IfNone};
ghost use Rattle.std.specs.Char.{digit_value};
ghost use Rattle.a429_import.specs.Base.{radix_of, number_in};

/// The base of digits.
#[derive(Clone, Copy, Debug)]
pub enum Base {
    Binary,
    Octal,
    Decimal,
    /// Digits above 9 are letters of either case.
    Hexadecimal,
}

impl Base {
    /// How many digits there are.
    pub fn radix(self) -> u32
        ensures value { result ≡ radix_of self }
        ensures least { 2 ≤ result }
        ensures most { result ≤ 16 }
    {
        match self {
            Base::Binary => 2,
            Base::Octal => 8,
            Base::Decimal => 10,
            Base::Hexadecimal => 16,
        }
    }

    /// The number of `bits` bits, 1 to 32, that digits of this base write: one or more of them, and nothing else.
    /// `None` where they are none, or where the number has more bits.
    pub fn number(self, digits: &[u8], bits: u8) -> Option<u32>
        requires { bits ≤ 32 }
        ensures { result ≡ number_in (radix_of self) bits digits.now }
    {
        if digits.is_empty() {
            return None;
        }
        let radix = self.radix();
        let limit = 1u64 << bits;
        let mut number = 0u64;
        'digits: for byte in digits {
            number = number * u64::from(radix) + u64::from(digit_of(*byte, radix)?);
            if number >= limit {
                return None;
            }
        }
        Some(number as u32)
    }
}

// The number of a digit.
fn digit_of(byte: u8, radix: u32) -> Option<u32>
    requires least { 2 ≤ radix }
    requires most { radix ≤ 16 }
    ensures some { IfSome result (λ d. (d < radix) × (d ≡ digit_value byte)) }
    ensures none { IfNone result (radix ≤ digit_value byte) }
{
    char::from(byte).to_digit(radix)
}
