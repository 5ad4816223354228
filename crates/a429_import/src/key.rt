//! The keys of a map.

ghost use Rattle.std.specs.Prelude.{◌≡◌, Bool};
ghost use Rattle.a429_import.specs.Key.{section_row, part_row};

use std::fmt;

/// A key of a map.
#[derive(Clone, Copy, Debug, PartialEq, Eq)]
pub enum Key {
    /// A key of one of the sections, such as `rows.separator`.
    Section(SectionKey),
    /// The array `part` itself.
    Parts,
    /// A key of a table of `part`, at this position from 0.
    Part(usize, PartKey),
}

/// The keys of the sections, in the order in which they are tested.
#[derive(Clone, Copy, Debug, PartialEq, Eq)]
pub enum SectionKey {
    Separator,
    Header,
    Quotes,
    Skip,
    Comment,
    RowsPass,
    TimeColumn,
    TimeForm,
    TimeUnit,
    TimePoint,
    TimeDate,
    HalfDays,
    WrapsAt,
    Back,
    Resets,
    ChannelColumn,
    ChannelA,
    ChannelB,
    ChannelPass,
    PassOthers,
    BitWord,
    BytesReversed,
    LabelReversed,
    RepeatsDrop,
    RepeatsWithin,
    RepeatsAmong,
    ErrorColumn,
    ErrorGood,
    ErrorBad,
}

/// The keys of a table of `part`, in their order.
#[derive(Clone, Copy, Debug, PartialEq, Eq)]
pub enum PartKey {
    Column,
    Base,
    Low,
    Bits,
    Reversed,
    Prefix,
    Split,
    Piece,
}

impl SectionKey {
    /// The section of the key.
    pub fn section(self) -> &'static str
        ensures { (header : Bool) → result.now ≡ (section_row header self).section }
    {
        match self {
            SectionKey::Separator
            | SectionKey::Header
            | SectionKey::Quotes
            | SectionKey::Skip
            | SectionKey::Comment
            | SectionKey::RowsPass => "rows",
            SectionKey::TimeColumn
            | SectionKey::TimeForm
            | SectionKey::TimeUnit
            | SectionKey::TimePoint
            | SectionKey::TimeDate
            | SectionKey::HalfDays
            | SectionKey::WrapsAt
            | SectionKey::Back
            | SectionKey::Resets => "time",
            SectionKey::ChannelColumn
            | SectionKey::ChannelA
            | SectionKey::ChannelB
            | SectionKey::ChannelPass
            | SectionKey::PassOthers => "channel",
            SectionKey::BitWord | SectionKey::BytesReversed | SectionKey::LabelReversed => "word",
            SectionKey::RepeatsDrop | SectionKey::RepeatsWithin | SectionKey::RepeatsAmong => {
                "repeats"
            }
            SectionKey::ErrorColumn | SectionKey::ErrorGood | SectionKey::ErrorBad => "error",
        }
    }

    /// The key's name in its section.
    pub fn name(self) -> &'static str
        ensures { (header : Bool) → result.now ≡ (section_row header self).key }
    {
        match self {
            SectionKey::Separator => "separator",
            SectionKey::Header => "header",
            SectionKey::Quotes => "quotes",
            SectionKey::Skip => "skip",
            SectionKey::Comment => "comment",
            SectionKey::RowsPass | SectionKey::ChannelPass => "pass",
            SectionKey::TimeColumn | SectionKey::ChannelColumn | SectionKey::ErrorColumn => {
                "column"
            }
            SectionKey::TimeForm => "form",
            SectionKey::TimeUnit => "unit",
            SectionKey::TimePoint => "point",
            SectionKey::TimeDate => "date",
            SectionKey::HalfDays => "half_days",
            SectionKey::WrapsAt => "wraps_at",
            SectionKey::Back => "back",
            SectionKey::Resets => "resets",
            SectionKey::ChannelA => "a",
            SectionKey::ChannelB => "b",
            SectionKey::PassOthers => "pass_others",
            SectionKey::BitWord => "bit_32",
            SectionKey::BytesReversed => "bytes_reversed",
            SectionKey::LabelReversed => "label_reversed",
            SectionKey::RepeatsDrop => "drop",
            SectionKey::RepeatsWithin => "within",
            SectionKey::RepeatsAmong => "among",
            SectionKey::ErrorGood => "good",
            SectionKey::ErrorBad => "bad",
        }
    }
}

impl PartKey {
    /// The key's name in its table.
    pub fn name(self) -> &'static str
        ensures { (header : Bool) → result.now ≡ (part_row header self).key }
    {
        match self {
            PartKey::Column => "column",
            PartKey::Base => "base",
            PartKey::Low => "low",
            PartKey::Bits => "bits",
            PartKey::Reversed => "reversed",
            PartKey::Prefix => "prefix",
            PartKey::Split => "split",
            PartKey::Piece => "piece",
        }
    }
}

impl fmt::Display for SectionKey {
    fn fmt<W: fmt::Write>(&self, f: &mut fmt::Formatter<W>) -> fmt::Result {
        let section = self.section();
        let name = self.name();
        write!(f, "{section}.{name}")
    }
}

impl fmt::Display for Key {
    fn fmt<W: fmt::Write>(&self, f: &mut fmt::Formatter<W>) -> fmt::Result {
        match self {
            Key::Section(key) => write!(f, "{key}"),
            Key::Parts => write!(f, "part"),
            Key::Part(position, key) => {
                let name = key.name();
                write!(f, "part {position} {name}")
            }
        }
    }
}
