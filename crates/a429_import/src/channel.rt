//! The channels of an export, and the line that each of them is.

ghost use Rattle.std.specs.Prelude.{◌≡◌};
ghost use Rattle.a429_import.specs.Channel.{heard_on};

use crate::column::Column;
use crate::texts::Texts;
use a429_word::Bus;

/// Which channels are a recording's lines, and which are passed over (profile).
#[derive(Drop)]
pub struct Channels {
    /// The column that has a channel's name.
    pub column: Column,
    /// The names of the channels of line A.
    pub a: Texts,
    /// Those of line B.
    pub b: Texts,
    /// Channels whose rows are passed over.
    pub pass: Texts,
    /// Whether those of all others are too.
    pub pass_others: bool,
}

/// What a channel is to a recording.
#[derive(Clone, Copy, Debug)]
pub enum Channel {
    /// It is this line.
    Line(Bus),
    /// Its rows are passed over.
    Passed,
    /// It is in no list.
    Unknown,
}

impl Channels {
    /// What the channel of this name is.
    pub fn find(&self, name: &[u8]) -> Channel
        ensures { result ≡ heard_on self.now name.now }
    {
        if self.a.has(name) {
            Channel::Line(Bus::A)
        } else if self.b.has(name) {
            Channel::Line(Bus::B)
        } else if self.pass_others || self.pass.has(name) {
            Channel::Passed
        } else {
            Channel::Unknown
        }
    }
}
