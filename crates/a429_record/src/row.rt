//! The fields of a row, and the entry that they name.

ghost use Rattle.std.specs.Prelude.{◌≡◌, ◌≢◌, ◌<◌, ◌≤◌, ◌∷◌, [], Some, IfSome, IfNone, length};
ghost use Rattle.std.specs.Char.{digit_value};
ghost use Rattle.std.specs.Str.Parse.{digits_value, AllDigits};
ghost use Rattle.csv.specs.Records.{fields_of};
ghost use Rattle.a429_record.specs.Row.{time_in, bus_in, word_in, entry_in, is_header};

use crate::entry::Entry;
use a429_word::{Bus, Word};
use csv::ByteRecord;

// A time: 1 to 20 decimal digits, below 2^64. Only a twentieth digit may be too much for 64 bits.
fn time_of(text: &[u8]) -> Option<u64>
    ensures { result ≡ time_in text.now }
{
    let [front @ .., last] = text else {
        return None;
    };
    if front.len() > 19 {
        return None;
    }
    let tens = number_of(front)?.checked_mul(10)?;
    tens.checked_add(digit_of(*last)?)
}

// The number that decimal digits write.
fn number_of(digits: &[u8]) -> Option<u64>
    requires { length digits.now ≤ 19 }
    ensures some { IfSome result (λ n. AllDigits 10 digits.now × (n ≡ digits_value 10 digits.now)) }
    ensures none { IfNone result (¬ AllDigits 10 digits.now) }
{
    let mut number = 0;
    for digit in digits {
        number = number * 10 + digit_of(*digit)?;
    }
    Some(number)
}

// The number of a decimal digit.
fn digit_of(byte: u8) -> Option<u64>
    ensures some { IfSome result (λ d. (d < 10) × (d ≡ digit_value byte)) }
    ensures none { IfNone result (10 ≤ digit_value byte) }
{
    if byte.is_ascii_digit() {
        Some(u64::from(byte - b'0'))
    } else {
        None
    }
}

/// The bus of a letter.
pub fn bus_of(text: &[u8]) -> Option<Bus>
    ensures { result ≡ bus_in text.now }
{
    match text {
        [b'A'] => Some(Bus::A),
        [b'B'] => Some(Bus::B),
        _ => None,
    }
}

fn word_of(text: &[u8]) -> Option<Word>
    ensures { result ≡ word_in text.now }
{
    Word::parse_hex(text)
}

// The entry of three fields. Where this is inlined, it is passed in registers.
#[inline(always)]
pub fn entry_from(time: &[u8], bus: &[u8], word: &[u8]) -> Option<Entry>
    ensures { result ≡ entry_in (Some (time.now ∷ bus.now ∷ word.now ∷ [])) }
{
    match (time_of(time), bus_of(bus), word_of(word)) {
        (Some(time), Some(bus), Some(word)) => Some(Entry { time, bus, word }),
        _ => None,
    }
}

// The three fields of a row.
#[derive(Clone, Copy, Drop)]
struct Fields<'a> {
    time: &'a [u8],
    bus: &'a [u8],
    word: &'a [u8],
}

// The fields of a record of `csv`, where it has three.
fn fields_in(row: &ByteRecord) -> Option<Fields<'_>>
    ensures some { IfSome result (λ f. fields_of row.now ≡ f.time.now ∷ f.bus.now ∷ f.word.now ∷ []) }
    ensures none { IfNone result (length (fields_of row.now) ≢ 3) }
{
    if row.len() != 3 {
        return None;
    }
    let Some(time) = row.get(0) else {
        return None;
    };
    let Some(bus) = row.get(1) else {
        return None;
    };
    let Some(word) = row.get(2) else {
        return None;
    };
    Some(Fields { time, bus, word })
}

// The entry of a record of `csv`.
pub fn entry_of(row: &ByteRecord) -> Option<Entry>
    ensures { result ≡ entry_in (Some (fields_of row.now)) }
{
    let fields = fields_in(row)?;
    entry_from(fields.time, fields.bus, fields.word)
}

// Whether a record of `csv` is the header.
pub fn is_header_row(row: &ByteRecord) -> bool
    ensures { result ≡ is_header (Some (fields_of row.now)) }
{
    match fields_in(row) {
        Some(fields) => {
            fields.time == b"time".as_slice()
                && fields.bus == b"bus".as_slice()
                && fields.word == b"word".as_slice()
        }
        None => false,
    }
}
