//! The semi-octets of a data word.

ghost use Rattle.std.specs.Prelude.{◌≡◌, ◌≤◌, ◌<◌, ◌++◌, ◌-◌, ℕ, All, None, IfSome, take, length, replicate, slice_index};
ghost use Rattle.a429_ldu.specs.Semis.{AreSemis, AreKept};

use std::marker::Model;

/// The semi-octets that a data word carries, in order: 1 to 5 numbers below 16 (ARINC 429 Part 3).
#[derive(Clone, Copy, Debug, PartialEq, Eq)]
pub struct Semis {
    // Past the count they are 0.
    digits: [u8; 5],
    count: u8,
}

impl Model for Semis {
    ghost use Rattle.std.specs.Prelude.{List, ℕ, take};

    ghost Value = { List ℕ };

    ghost use Rattle.a429_ldu.specs.Semis.{AreKept, refilled, refilled-kept};

    ghost view = { λ s. take s.count s.digits };

    ghost invariant = { AreKept };

    ghost inverse = { refilled };

    ghost inverse_ok = { refilled-kept };
}

impl Semis {
    /// These semi-octets; `None` where there are none or more than five, or one is above 15.
    pub fn new(semi_octets: &[u8]) -> Option<Semis>
        ensures some { IfSome result (λ s. s ≡ semi_octets.now) }
        ensures sound { IfSome result AreSemis }
        ensures none { result ≡ None → ¬ AreSemis semi_octets.now }
    {
        let count = semi_octets.len();
        if count == 0 || count > 5 {
            return None;
        }
        let mut digits = [0; 5];
        for i in 0..count {
            if semi_octets[i] > 15 {
                return None;
            }
            digits[i] = semi_octets[i];
        }
        Some(Semis {
            digits,
            count: count as u8,
        })
    }

    /// The first of these digits, 1 to 5, which are below 16; those after them are 0.
    pub(crate) fn kept(digits: [u8; 5], count: u8) -> Semis
        requires { AreKept (record { digits = digits; count = count }) }
        ensures { result ≡ take count digits }
    {
        Semis { digits, count }
    }

    /// The semi-octets.
    pub fn as_slice(&self) -> &[u8]
        ensures value { result.now ≡ self.now }
        ensures sound { AreSemis self.now }
    {
        &self.digits[..self.count as usize]
    }

    /// The semi-octets with zeros after them, five in all, and how many they are.
    pub(crate) fn padded(&self) -> ([u8; 5], u8)
        ensures digits { result.0 ≡ self.now ++ replicate (5 - length self.now) 0 }
        ensures count { result.1 ≡ length self.now }
        ensures sound { AreSemis self.now }
    {
        (self.digits, self.count)
    }
}
