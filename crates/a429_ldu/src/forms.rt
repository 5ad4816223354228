//! The forms of the words of a file transfer.

pub(crate) mod fields;
pub(crate) mod reading;
pub(crate) mod writing;

use crate::semis::Semis;
use a429_word::Bus;

/// The form of a transfer word: which message it is, with the numbers that it carries (ARINC 429
/// Part 3).
#[derive(Clone, Copy, Debug, PartialEq, Eq)]
pub enum Form {
    /// The source asks to send so many words, 3 to 255, the start and end words among them.
    Rts { count: u8 },
    /// The sink clears so many words, 3 to 255.
    Cts { count: u8 },
    /// The sink has accepted the link data unit with this number in this file, both 0 to 255.
    Ack { file: u8, ldu: u8 },
    /// The sink refuses what it has taken. What the sixteen bits mean is its own matter.
    Nak { bits: u16 },
    /// A block begins: of the link data unit with this number in this file. The general format identifier is 0 to 15.
    Sot { gfi: u8, file: u8, ldu: u8 },
    /// Data: 1 to 5 semi-octets.
    Part(Semis),
    /// A block ends. The flags are 0 to 15, the lowest of them bit 25 of the word; then the check word.
    Eot { flags: u8, check: u16 },
}

impl Form {
    ghost use Rattle.std.specs.Prelude.{◌≡◌};
    ghost use Rattle.a429_ldu.specs.Form.{bus_of};

    /// The bus that carries it: A for what the source sends, B for the answers of the sink.
    pub fn bus(&self) -> Bus
        ensures { result ≡ bus_of self.now }
    {
        match self {
            Form::Rts { .. } | Form::Sot { .. } | Form::Part(_) | Form::Eot { .. } => Bus::A,
            Form::Cts { .. } | Form::Ack { .. } | Form::Nak { .. } => Bus::B,
        }
    }
}
