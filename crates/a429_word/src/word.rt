//! A word of 32 bits: its label, SDI, SSM and parity.

ghost use Rattle.std.specs.Prelude.{◌≡◌, ◌≤◌, ◌<◌, ◌↔◌, ◌^◌, ◌+◌, ◌-◌, ◌*◌, ◌/◌, ◌%◌, IsTrue, true};
ghost use Rattle.std.specs.Int.{reverse_bits_onto};
ghost use Rattle.a429_word.specs.Word.{bit, label_of, sdi_of, field_of, ssm_of, count_of_ones, HasOddParity};

use std::marker::Model;

// Each byte with its bits in the opposite order.
const REVERSED: [u8; 256] = [
    0, 128, 64, 192, 32, 160, 96, 224, 16, 144, 80, 208, 48, 176, 112, 240, 8, 136, 72, 200, 40,
    168, 104, 232, 24, 152, 88, 216, 56, 184, 120, 248, 4, 132, 68, 196, 36, 164, 100, 228, 20,
    148, 84, 212, 52, 180, 116, 244, 12, 140, 76, 204, 44, 172, 108, 236, 28, 156, 92, 220, 60,
    188, 124, 252, 2, 130, 66, 194, 34, 162, 98, 226, 18, 146, 82, 210, 50, 178, 114, 242, 10, 138,
    74, 202, 42, 170, 106, 234, 26, 154, 90, 218, 58, 186, 122, 250, 6, 134, 70, 198, 38, 166, 102,
    230, 22, 150, 86, 214, 54, 182, 118, 246, 14, 142, 78, 206, 46, 174, 110, 238, 30, 158, 94,
    222, 62, 190, 126, 254, 1, 129, 65, 193, 33, 161, 97, 225, 17, 145, 81, 209, 49, 177, 113, 241,
    9, 137, 73, 201, 41, 169, 105, 233, 25, 153, 89, 217, 57, 185, 121, 249, 5, 133, 69, 197, 37,
    165, 101, 229, 21, 149, 85, 213, 53, 181, 117, 245, 13, 141, 77, 205, 45, 173, 109, 237, 29,
    157, 93, 221, 61, 189, 125, 253, 3, 131, 67, 195, 35, 163, 99, 227, 19, 147, 83, 211, 51, 179,
    115, 243, 11, 139, 75, 203, 43, 171, 107, 235, 27, 155, 91, 219, 59, 187, 123, 251, 7, 135, 71,
    199, 39, 167, 103, 231, 23, 151, 87, 215, 55, 183, 119, 247, 15, 143, 79, 207, 47, 175, 111,
    239, 31, 159, 95, 223, 63, 191, 127, 255,
];

/// A word of 32 bits (ARINC 429 Part 1, word formats). Bits are numbered from 1 to 32; as a number
/// (profile), bit i counts `2^(i-1)`.
#[derive(Clone, Copy, Debug, Default, PartialEq, Eq)]
pub struct Word(u32);

impl Model for Word {
    ghost use Rattle.std.specs.Prelude.{ℕ};

    ghost Value = { ℕ };

    ghost view = { λ w. w.0 };

    ghost inverse = { λ n. record { 0 = n } };
}

impl Word {
    /// The word with this number.
    pub fn from_u32(number: u32) -> Word
        ensures { result ≡ number }
    {
        Word(number)
    }

    /// The word's number.
    pub fn to_u32(self) -> u32
        ensures { result ≡ self }
    {
        self.0
    }

    /// The label, bits 1 to 8, of which bit 1 is the most significant (Part 1).
    #[tactic(auto, using(crate::proofs::WordBits::fields))]
    pub fn label(self) -> u8
        ensures { result ≡ label_of self }
    {
        reversed((self.0 & 0xff) as u8)
    }

    /// The source/destination identifier, 0 to 3: bits 9 and 10 (Part 1), bit 9 its lower one (profile).
    #[tactic(auto, using(crate::proofs::WordBits::fields))]
    pub fn sdi(self) -> u8
        ensures value { result ≡ sdi_of self }
        ensures range { result ≤ 3 }
    {
        (self.0 >> 8 & 3) as u8
    }

    /// The data field, bits 11 to 29 (Part 1), of which bit 11 is its lowest.
    #[tactic(auto, using(crate::proofs::WordBits::fields))]
    pub fn field(self) -> u32
        ensures { result ≡ field_of self }
    {
        self.0 >> 10 & 0x7_FFFF
    }

    /// The sign/status matrix, 0 to 3: bits 30 and 31 (Part 1), bit 30 its lower one (profile).
    #[tactic(auto, using(crate::proofs::WordBits::fields))]
    pub fn ssm(self) -> u8
        ensures value { result ≡ ssm_of self }
        ensures range { result ≤ 3 }
    {
        (self.0 >> 29 & 3) as u8
    }

    /// Whether bit n is 1, n from 1 to 32.
    pub fn bit(self, n: u8) -> bool
        requires first { 1 ≤ n }
        requires last { n ≤ 32 }
        ensures { IsTrue result ↔ (bit self n ≡ 1) }
    {
        self.0 >> (n - 1) & 1 == 1
    }

    /// Whether an odd number of the 32 bits is 1, as in every good word (Part 1).
    pub fn parity_ok(self) -> bool
        ensures { IsTrue result ↔ HasOddParity self }
    {
        parity_of(self.0) == 1
    }

    /// The word with this label, SDI, data field and SSM, and with the parity bit that makes its parity
    /// odd (Part 1). SDI and SSM are 0 to 3, the data field is below `2^19`, its lowest bit is bit 11.
    pub fn with_parity(label: u8, sdi: u8, field: u32, ssm: u8) -> Word
        requires sdi { sdi ≤ 3 }
        requires field { field < 2 ^ 19 }
        requires ssm { ssm ≤ 3 }
        ensures label { label_of result ≡ label }
        ensures sdi { sdi_of result ≡ sdi }
        ensures field { field_of result ≡ field }
        ensures ssm { ssm_of result ≡ ssm }
        ensures parity { HasOddParity result }
    {
        let number = u32::from(ssm) << 29
            | field << 10
            | u32::from(sdi) << 8
            | u32::from(reversed(label));
        Word::with_odd_parity(number)
    }

    /// The word whose bits 1 to 31 are this number, below `2^31`, with the parity bit that makes its
    /// parity odd (Part 1).
    #[inline(always)]
    pub fn with_odd_parity(number: u32) -> Word
        requires { number < 2 ^ 31 }
        ensures value { result ≡ number + (1 - count_of_ones number % 2) * 2 ^ 31 }
        ensures parity { HasOddParity result }
    {
        let parity_bit = 1 - parity_of(number);
        Word(number | parity_bit << 31)
    }
}

// A byte with its bits in the opposite order.
fn reversed(byte: u8) -> u8
    ensures { result ≡ reverse_bits_onto 8 byte 0 }
{
    REVERSED[usize::from(byte)]
}

// 1 where an odd number of the bits is 1, else 0.
#[inline(always)]
fn parity_of(number: u32) -> u32
    ensures { result ≡ count_of_ones number % 2 }
{
    number.count_ones() % 2
}
