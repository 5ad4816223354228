//! What is shown of a word.

ghost use Rattle.std.specs.Prelude.{◌≡◌, ◌≤◌};
ghost use Rattle.a429_word.specs.Word.{ssm_of, HasOddParity};
ghost use Rattle.a429_profile.specs.Shown.{sense_of, signed_by, HasValue, IsBnrValue, IsEntryOf, IsShown, HasItsRanges};
ghost use Rattle.a429_profile.specs.Entry.{IsKindInRange};
ghost use Rattle.a429_profile.specs.Profile.{Contents};

use crate::entry::{Kind, LabelEntry};
use crate::profile::Profile;
use a429_word::{BadDigit, Fixed, Word};

/// Why a good word shows no value (ARINC 429 Part 1).
#[derive(Clone, Copy, Debug)]
pub enum Status {
    /// No computed data.
    NoData,
    /// Failure warning.
    Failure,
}

/// What is shown of a word, by the label table's entry for its label and SDI (ARINC 429 Part 1; what is shown of which
/// status: profile). One of these holds of each word.
#[derive(Debug, Drop)]
pub enum Shown<'a> {
    /// Its parity is even, so that none of its bits is to be trusted.
    BadParity,
    /// The label table has no entry for it.
    NoEntry,
    /// Its SSM says that it has no value. The data field is not looked at.
    Status {
        entry: &'a LabelEntry,
        status: Status,
    },
    /// A digit of its BCD value is above 9: the first such, at this place, 1 to 5, of which 1 is the
    /// most significant.
    BadDigit {
        entry: &'a LabelEntry,
        place: u8,
    },
    /// Its value, in the entry's unit; `is_test` where it is that of a functional test.
    Value {
        entry: &'a LabelEntry,
        value: Fixed,
        is_test: bool,
    },
    /// The data field of a discrete word, bits 11 to 29, bit 11 the lowest; `is_test` where it is that of a functional
    /// test.
    Bits {
        entry: &'a LabelEntry,
        field: u32,
        is_test: bool,
    },
}

// What the SSM of a word means.
#[derive(Clone, Copy)]
enum Sense {
    Normal,
    Test,
    NoValue(Status),
}

impl Profile {
    /// What is shown of a word (Part 1). The parity is tested first, then the label and SDI, the SSM and
    /// the digits.
    pub fn shown(&self, word: &Word) -> Shown<'_>
        ensures shown { IsShown self.now word.now result }
        ensures ranges { HasItsRanges result }
    {
        if !word.parity_ok() {
            return Shown::BadParity;
        }
        self.shown_of_good(word)
    }

    /// What is shown of a word whose parity is known to be odd: the same as `shown` returns, without
    /// testing it.
    pub fn shown_of_good(&self, word: &Word) -> Shown<'_>
        requires { HasOddParity word.now }
        ensures shown { IsShown self.now word.now result }
        ensures ranges { HasItsRanges result }
    {
        let Some(entry) = self.entry(word.label(), word.sdi()) else {
            return Shown::NoEntry;
        };
        match sense_at(&entry.kind, word.ssm()) {
            Sense::NoValue(status) => Shown::Status { entry, status },
            sense => with_value(entry, *word, matches!(sense, Sense::Test)),
        }
    }
}

fn sense_at(kind: &Kind, ssm: u8) -> Sense
    requires { ssm ≤ 3 }
    ensures { result ≡ sense_of kind.now ssm }
{
    match (kind, ssm) {
        (_, 1) => Sense::NoValue(Status::NoData),
        (_, 2) => Sense::Test,
        (Kind::Bnr { .. }, 0) | (Kind::Discrete { .. }, 3) => Sense::NoValue(Status::Failure),
        _ => Sense::Normal,
    }
}

// What is shown of a word that has a value by its SSM.
fn with_value(entry: &LabelEntry, word: Word, is_test: bool) -> Shown<'_>
    requires { IsKindInRange entry.now.kind }
    ensures shown { (p : Contents) → IsEntryOf p word entry.now → HasValue entry.now.kind word is_test → IsShown p word result }
    ensures ranges { HasItsRanges result }
{
    match &entry.kind {
        Kind::Bnr {
            bits,
            range,
            decimals,
        } => Shown::Value {
            entry,
            value: bnr_value(word, *bits, *range, *decimals),
            is_test,
        },
        Kind::Bcd { digits, decimals } => match word.bcd_digits(*digits) {
            Ok(number) => Shown::Value {
                entry,
                value: bcd_value(word, number, *decimals),
                is_test,
            },
            Err(BadDigit(place)) => Shown::BadDigit { entry, place },
        },
        Kind::Discrete { .. } => Shown::Bits {
            entry,
            field: word.field(),
            is_test,
        },
    }
}

// The value of a BNR word: its raw number times the range, over `2^bits * 10^decimals`.
fn bnr_value(word: Word, bits: u8, range: u32, decimals: u8) -> Fixed
    requires least { 1 ≤ bits }
    requires most { bits ≤ 18 }
    requires range { range ≤ 1000000000 }
    requires decimals { decimals ≤ 6 }
    ensures { IsBnrValue word bits range decimals result }
{
    let number = i64::from(word.bnr_raw(bits)) * i64::from(range);
    Fixed::over_power_of_two(number, bits, decimals)
}

// The value of a BCD word, with this number in its digits.
fn bcd_value(word: Word, number: u32, decimals: u8) -> Fixed
    ensures number { result.number ≡ signed_by (ssm_of word) number }
    ensures decimals { result.decimals ≡ decimals }
{
    let number = i128::from(number);
    Fixed {
        number: if word.ssm() == 3 { -number } else { number },
        decimals,
    }
}
