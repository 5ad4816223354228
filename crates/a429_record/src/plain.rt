//! Plain rows: three fields with nothing around them, as nearly all rows are.

ghost use Rattle.std.specs.Prelude.{◌≡◌, ◌≢◌, ◌<◌, ◌≤◌, ◌*◌, ◌+◌, ◌∷◌, [], ◌↔◌, IsTrue, IfSome, length, slice_index, take};
ghost use Rattle.std.specs.Char.{digit_value};
ghost use Rattle.std.specs.Str.Parse.{digits_value, AllDigits};
ghost use Rattle.a429_record.specs.Plain.{IsFront, IsPlainRow};
ghost use Rattle.a429_record.specs.Writing.{line_text};

use crate::entry::Entry;
use crate::row::bus_of;
use a429_word::{Bus, Word};

// Any number of 19 digits fits 64 bits.
const SURE_DIGITS: usize = 19;

// How many bytes come after the time: a bus and a word, each after a comma.
const AFTER_TIME: usize = 11;

// How many bytes the shortest row has: a time of one digit, and what comes after it.
const SHORTEST: usize = 1 + AFTER_TIME;

/// The row that bytes begin with.
#[derive(Clone, Copy, Drop)]
pub struct PlainRow {
    pub entry: Entry,
    /// How many bytes it has.
    pub len: usize,
}

// The number that bytes begin with, and how many digits it has.
#[derive(Clone, Copy, Drop)]
struct Leading {
    number: u64,
    len: usize,
}

/// The row that bytes begin with, where it is plain. What comes after it is not looked at. A row whose time has
/// twenty digits is not found.
#[inline(always)]
pub fn plain_row(bytes: &[u8]) -> Option<PlainRow>
    ensures { IfSome result (λ r. (r.len ≤ length bytes.now) × IsPlainRow (take r.len bytes.now) r.entry) }
{
    let fields = fields_of(bytes)?;
    let word = Word::parse_hex(fields.word)?;
    Some(fields.row(word))
}

/// The same, where the row is exactly as this library writes its entry, and a line feed comes after it.
#[inline(always)]
pub fn written_row(bytes: &[u8]) -> Option<PlainRow>
    ensures inside { IfSome result (λ r. r.len < length bytes.now) }
    ensures row { IfSome result (λ r. IsPlainRow (take r.len bytes.now) r.entry) }
    ensures ended { IfSome result (λ r. slice_index bytes.now r.len ≡ 10) }
    ensures line { IfSome result (λ r. take (r.len + 1) bytes.now ≡ line_text r.entry) }
{
    let fields = fields_of(bytes)?;
    let word = Word::parse_upper_hex(fields.word)?;
    if fields.len >= bytes.len() || bytes[fields.len] != b'\n' || has_zero(bytes, fields.len) {
        return None;
    }
    Some(fields.row(word))
}

// Whether the time of a row of `len` bytes begins with a 0 and has more digits.
#[inline(always)]
fn has_zero(bytes: &[u8], len: usize) -> bool
    requires { 0 < length bytes.now }
    ensures { IsTrue result ↔ (slice_index bytes.now 0 ≡ 48) × (len ≢ 12) }
{
    bytes[0] == b'0' && len != SHORTEST
}

// The fields of a plain row, with the bytes of its word, and how many bytes the row has.
#[derive(Clone, Copy, Drop)]
struct Fields<'a> {
    time: u64,
    bus: Bus,
    word: &'a [u8],
    len: usize,
}

impl<'a> Fields<'a> {
    // The row with this word.
    #[inline(always)]
    fn row(self, word: Word) -> PlainRow
        ensures { result ≡ record { entry = record { time = self.entry.time; bus = self.entry.bus; word = word }; len = self.entry.len } }
    {
        PlainRow {
            entry: Entry {
                time: self.time,
                bus: self.bus,
                word,
            },
            len: self.len,
        }
    }
}

// The fields of the row that bytes begin with, where it is plain. Its word may be any eight bytes.
#[inline(always)]
fn fields_of(bytes: &[u8]) -> Option<Fields<'_>>
    ensures inside { IfSome result (λ f. f.len ≤ length bytes.now) }
    ensures front { IfSome result (λ f. IsFront (take f.len bytes.now) f.time f.bus f.word.now) }
{
    let time = leading_number(bytes);
    let rest = &bytes[time.len..];
    if time.len == 0 || rest.len() < AFTER_TIME || rest[0] != b',' || rest[2] != b',' {
        return None;
    }
    Some(Fields {
        time: time.number,
        bus: bus_of(&rest[1..2])?,
        word: &rest[3..AFTER_TIME],
        len: time.len + AFTER_TIME,
    })
}

// The number that the first digits write, all of them or as many as surely fit.
#[inline(always)]
fn leading_number(bytes: &[u8]) -> Leading
    ensures inside { result.len ≤ length bytes.now }
    ensures few { result.len ≤ SURE_DIGITS }
    ensures digits { AllDigits 10 (take result.len bytes.now) }
    ensures number { result.number ≡ digits_value 10 (take result.len bytes.now) }
{
    let Leading {
        mut number,
        mut len,
    } = whole_eights(bytes);
    let most = bytes.len().min(SURE_DIGITS);
    'digits: while len < most {
        let byte = bytes[len];
        if !is_digit(byte) {
            return Leading { number, len };
        }
        number = number * 10 + digit_of(byte);
        len += 1;
    }
    Leading { number, len }
}

// The number of the first sixteen bytes or of the first eight, where each is a digit, or else of none.
#[inline(always)]
fn whole_eights(bytes: &[u8]) -> Leading
    ensures inside { result.len ≤ length bytes.now }
    ensures few { result.len ≤ 16 }
    ensures digits { AllDigits 10 (take result.len bytes.now) }
    ensures number { result.number ≡ digits_value 10 (take result.len bytes.now) }
{
    let Some(high) = eight_digits(bytes) else {
        return Leading { number: 0, len: 0 };
    };
    if may_be_long(bytes) {
        if let Some(low) = eight_digits(&bytes[8..]) {
            return Leading {
                number: high * 100_000_000 + low,
                len: 16,
            };
        }
    }
    Leading {
        number: high,
        len: 8,
    }
}

// Whether a row that begins with eight digits may begin with sixteen: at these two places a shorter time has a comma, a
// bus or a digit of the word, and not two digits.
#[inline(always)]
fn may_be_long(bytes: &[u8]) -> bool {
    bytes.len() > 11 && is_digit(bytes[11]) && is_digit(bytes[8])
}

// The number of the first eight bytes, where each is a digit. They are read at once, since one by one they take three
// times as long.
#[inline(always)]
fn eight_digits(bytes: &[u8]) -> Option<u64>
    ensures long { IfSome result (λ n. 8 ≤ length bytes.now) }
    ensures digits { IfSome result (λ n. AllDigits 10 (take 8 bytes.now)) }
    ensures number { IfSome result (λ n. n ≡ digits_value 10 (take 8 bytes.now)) }
    ensures below { IfSome result (λ n. n < 100000000) }
{
    if bytes.len() < 8 {
        return None;
    }
    let high = are_digits(bytes[0], bytes[1], bytes[2], bytes[3]);
    let low = are_digits(bytes[4], bytes[5], bytes[6], bytes[7]);
    if !(high & low) {
        return None;
    }
    let thousands = number_of_four(bytes[0], bytes[1], bytes[2], bytes[3]);
    Some(thousands * 10_000 + number_of_four(bytes[4], bytes[5], bytes[6], bytes[7]))
}

// Whether each of four bytes is a digit. There is no branch among the tests.
#[inline(always)]
fn are_digits(a: u8, b: u8, c: u8, d: u8) -> bool
    ensures { IsTrue result ↔ AllDigits 10 (a ∷ b ∷ c ∷ d ∷ []) }
{
    is_digit(a) & is_digit(b) & is_digit(c) & is_digit(d)
}

// The number that four digits write.
#[inline(always)]
fn number_of_four(a: u8, b: u8, c: u8, d: u8) -> u64
    requires { AllDigits 10 (a ∷ b ∷ c ∷ d ∷ []) }
    ensures value { result ≡ digits_value 10 (a ∷ b ∷ c ∷ d ∷ []) }
    ensures below { result < 10000 }
{
    (digit_of(a) * 10 + digit_of(b)) * 100 + digit_of(c) * 10 + digit_of(d)
}

// The number of a decimal digit.
#[inline(always)]
fn digit_of(byte: u8) -> u64
    requires { digit_value byte < 10 }
    ensures { result ≡ digit_value byte }
{
    u64::from(byte - b'0')
}

// Whether a byte is a decimal digit.
#[inline(always)]
fn is_digit(byte: u8) -> bool
    ensures { IsTrue result ↔ (digit_value byte < 10) }
{
    byte.is_ascii_digit()
}
