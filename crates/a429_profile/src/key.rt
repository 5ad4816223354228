//! The keys of a profile.

ghost use Rattle.std.specs.Prelude.{◌≡◌};
ghost use Rattle.a429_profile.specs.Key.{section_row, label_row};

use std::fmt;

/// A key of a profile.
#[derive(Clone, Copy, Debug, PartialEq, Eq)]
pub enum Key {
    /// A key of one of the sections, such as `transfer.to_sink`.
    Section(SectionKey),
    /// The array `label` itself.
    Labels,
    /// A key of a table of `label`, at this position from 0.
    Label(usize, LabelKey),
}

/// The keys of the sections, in the order in which they are tested.
#[derive(Clone, Copy, Debug, PartialEq, Eq)]
pub enum SectionKey {
    ToSink,
    ToSource,
    Destination,
    FirstLdu,
    FinalBit,
    Full,
    Partial,
    Protocol,
    Sot,
    Eot,
    IgnoredTypes,
    Rts,
    Cts,
    Ack,
    Nak,
    IgnoredCodes,
    PartialCodes,
    Poly,
    Init,
    Xor,
    LowFirst,
    Compare,
}

/// The keys of a table of `label`.
#[derive(Clone, Copy, Debug, PartialEq, Eq)]
pub enum LabelKey {
    Octal,
    Sdi,
    Name,
    Unit,
    Kind,
    Bits,
    Range,
    Decimals,
    Digits,
    Flags,
}

impl SectionKey {
    /// The section of the key.
    pub fn section(self) -> &'static str
        ensures { result.now ≡ (section_row self).section }
    {
        match self {
            SectionKey::ToSink
            | SectionKey::ToSource
            | SectionKey::Destination
            | SectionKey::FirstLdu
            | SectionKey::FinalBit => "transfer",
            SectionKey::Full
            | SectionKey::Partial
            | SectionKey::Protocol
            | SectionKey::Sot
            | SectionKey::Eot
            | SectionKey::IgnoredTypes => "types",
            SectionKey::Rts
            | SectionKey::Cts
            | SectionKey::Ack
            | SectionKey::Nak
            | SectionKey::IgnoredCodes => "codes",
            SectionKey::PartialCodes => "partial",
            SectionKey::Poly
            | SectionKey::Init
            | SectionKey::Xor
            | SectionKey::LowFirst
            | SectionKey::Compare => "check",
        }
    }

    /// The key's name in its section.
    pub fn name(self) -> &'static str
        ensures { result.now ≡ (section_row self).key }
    {
        match self {
            SectionKey::ToSink => "to_sink",
            SectionKey::ToSource => "to_source",
            SectionKey::Destination => "destination",
            SectionKey::FirstLdu => "first_ldu",
            SectionKey::FinalBit => "final_bit",
            SectionKey::Full => "full",
            SectionKey::Partial => "partial",
            SectionKey::Protocol => "protocol",
            SectionKey::Sot => "sot",
            SectionKey::Eot => "eot",
            SectionKey::IgnoredTypes | SectionKey::IgnoredCodes => "ignored",
            SectionKey::Rts => "rts",
            SectionKey::Cts => "cts",
            SectionKey::Ack => "ack",
            SectionKey::Nak => "nak",
            SectionKey::PartialCodes => "codes",
            SectionKey::Poly => "poly",
            SectionKey::Init => "init",
            SectionKey::Xor => "xor",
            SectionKey::LowFirst => "low_first",
            SectionKey::Compare => "compare",
        }
    }
}

impl LabelKey {
    /// The key's name in its table.
    pub fn name(self) -> &'static str
        ensures { result.now ≡ (label_row self).key }
    {
        match self {
            LabelKey::Octal => "octal",
            LabelKey::Sdi => "sdi",
            LabelKey::Name => "name",
            LabelKey::Unit => "unit",
            LabelKey::Kind => "kind",
            LabelKey::Bits => "bits",
            LabelKey::Range => "range",
            LabelKey::Decimals => "decimals",
            LabelKey::Digits => "digits",
            LabelKey::Flags => "flags",
        }
    }
}

impl fmt::Display for SectionKey {
    fn fmt<W: fmt::Write>(&self, f: &mut fmt::Formatter<W>) -> fmt::Result {
        let section = self.section();
        let name = self.name();
        write!(f, "{section}.{name}")
    }
}

impl fmt::Display for Key {
    fn fmt<W: fmt::Write>(&self, f: &mut fmt::Formatter<W>) -> fmt::Result {
        match self {
            Key::Section(key) => write!(f, "{key}"),
            Key::Labels => write!(f, "label"),
            Key::Label(position, key) => {
                let name = key.name();
                write!(f, "label {position} {name}")
            }
        }
    }
}
