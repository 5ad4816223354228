//! What a word is to the file transfer, as a text.

ghost use Rattle.std.specs.Prelude.{◌≡◌, ◌++◌, ◌+◌, ◌≤◌, codes, map, length, None, true};
ghost use Rattle.std.specs.Fmt.{decimal, digit_glyph};
ghost use Rattle.a429_word.specs.Digits.{numeral};
ghost use Rattle.a429_word.specs.Sheet.{Says};
ghost use Rattle.a429_ldu.specs.Form.{form_of};
ghost use Rattle.a429_view.specs.Forms.{freedom_text, final_text, form_text, ldu_text, form_or_other_text, other_text, what_text};
ghost use Rattle.a429_view.specs.Line.{Adds, Fits};

use crate::gap::{add_gap, gap_of, numbers_of};
use crate::line::Line;
use a429_ldu::{Form, Freedom, Semis, form_across, why_free};
use a429_link::{form_of, is_final};
use a429_profile::Profile;
use a429_record::Entry;
use a429_word::{Bus, Sheet, Word, hex_digit};
use std::io::Write;

/// Puts what a word is to the file transfer of a profile: its form with its numbers, why it is free, which form it has in the other
/// direction, or which number no form has (ARINC 429 Part 3; the layout is the profile's).
pub fn put_what<W: Write>(sheet: &mut Sheet<'_, W>, profile: &Profile, entry: &Entry)
    ensures { Says W.contents sheet.old sheet.new (what_text profile.now.codes entry.now.bus entry.now.word) }
{
    match why_free(profile, entry.bus, entry.word) {
        Some(why) => sheet.put(freedom(why)),
        None => put_form_if_any(sheet, profile, entry),
    }
}

// The form of a word that is not free, or that in the other direction, where it has one.
fn put_form_if_any<W: Write>(sheet: &mut Sheet<'_, W>, profile: &Profile, entry: &Entry)
    ensures { Says W.contents sheet.old sheet.new (form_or_other_text profile.now.codes (form_of profile.now.codes entry.now.bus entry.now.word) (other_text profile.now.codes entry.now.bus entry.now.word)) }
{
    let mut line = Line::new();
    let form = form_of(profile, entry.bus, entry.word);
    add_form_or_other(&mut line, profile, entry.bus, entry.word, form);
    sheet.put(line.as_slice());
}

/// Adds the form of a word that is not free; where it has none, that in the other direction, or which number no form has.
pub(crate) fn add_form_or_other(
    line: &mut Line,
    profile: &Profile,
    bus: Bus,
    word: Word,
    form: Option<Form>,
)
    requires { Fits line.old 37 }
    ensures { Adds line.old line.new 36 (form_or_other_text profile.now.codes form (other_text profile.now.codes bus word)) }
{
    match form {
        Some(form) => add_form(line, profile, form),
        None => add_other(line, profile, bus, word),
    }
}

// Adds the form that a word without one has in the other direction, or which number no form has.
fn add_other(line: &mut Line, profile: &Profile, bus: Bus, word: Word)
    requires { Fits line.old 37 }
    ensures { Adds line.old line.new 36 (other_text profile.now.codes bus word) }
{
    match form_across(profile, bus, word) {
        Some(form) => {
            line.put(b"other ");
            add_form(line, profile, form)
        }
        None => {
            line.put(b"no form, ");
            add_gap(line, gap_of(profile.codes(), bus, numbers_of(word)))
        }
    }
}

/// Why the transfer passes over a word.
pub(crate) fn freedom(why: Freedom) -> &'static [u8]
    ensures text { result.now ≡ freedom_text why }
    ensures most { length result.now ≤ 11 }
{
    match why {
        Freedom::BadParity => b"free parity",
        Freedom::OtherLabel => b"free label",
        Freedom::IgnoredType => b"free type",
        Freedom::IgnoredCode => b"free code",
    }
}

/// Adds a form with its numbers.
pub(crate) fn add_form(line: &mut Line, profile: &Profile, form: Form)
    requires { Fits line.old 31 }
    ensures { Adds line.old line.new 30 (form_text profile.now.codes form) }
{
    match form {
        Form::Rts { count } => add_named(line, b"rts ", count),
        Form::Cts { count } => add_named(line, b"cts ", count),
        Form::Ack { file, ldu } => add_unit(line, b"ack ", file, ldu),
        Form::Nak { bits } => {
            line.put(b"nak ");
            line.put_hex(bits)
        }
        Form::Sot { gfi, file, ldu } => {
            add_unit(line, b"sot ", file, ldu);
            add_named(line, b" gfi ", gfi)
        }
        Form::Part(semis) => add_semis(line, semis),
        Form::Eot { flags, check } => {
            add_named(line, b"eot flags ", flags);
            line.put(b" check ");
            line.put_hex(check);
            add_final(line, is_final(profile, flags))
        }
    }
}

/// Adds a form with its numbers. Most words are data words: these are added in place.
#[inline(always)]
pub(crate) fn add_likely_form(line: &mut Line, profile: &Profile, form: &Form)
    requires { Fits line.old 31 }
    ensures { Adds line.old line.new 30 (form_text profile.now.codes form.now) }
{
    match *form {
        Form::Part(semis) => add_semis(line, semis),
        _ => add_form(line, profile, *form),
    }
}

/// Adds a name, and a number after it.
#[inline(always)]
pub(crate) fn add_named(line: &mut Line, name: &[u8], number: u8)
    requires { Fits line.old (length name.now + 4) }
    ensures { Adds line.old line.new (length name.now + 3) (name.now ++ decimal number) }
{
    line.put(name);
    line.put_byte(number);
}

/// Adds a name, and the number of a link data unit after it.
#[inline(always)]
pub(crate) fn add_unit(line: &mut Line, name: &[u8], file: u8, ldu: u8)
    requires { Fits line.old (length name.now + 8) }
    ensures { Adds line.old line.new (length name.now + 7) (name.now ++ ldu_text file ldu) }
{
    add_named(line, name, file);
    add_named(line, b" ", ldu);
}

// The semi-octets of a data word in their order, a hexadecimal digit each. The five of a full word are added at once.
#[inline(always)]
fn add_semis(line: &mut Line, semis: Semis)
    requires { Fits line.old 10 }
    ensures { Adds line.old line.new 10 (codes "data " ++ map (digit_glyph true) semis) }
{
    let digits = semis.as_slice();
    if digits.len() == 5 {
        line.put(&[
            b'd',
            b'a',
            b't',
            b'a',
            b' ',
            hex_digit(digits[0]),
            hex_digit(digits[1]),
            hex_digit(digits[2]),
            hex_digit(digits[3]),
            hex_digit(digits[4]),
        ]);
    } else {
        add_each(line, semis);
    }
}

// The same of any number, digit by digit.
fn add_each(line: &mut Line, semis: Semis)
    requires { Fits line.old 10 }
    ensures { Adds line.old line.new 10 (codes "data " ++ map (digit_glyph true) semis) }
{
    line.put(b"data ");
    let semis = semis.as_slice();
    for i in 0..semis.len() {
        line.put(&[hex_digit(semis[i])]);
    }
}

fn add_final(line: &mut Line, is_final: bool)
    requires { Fits line.old 6 }
    ensures { Adds line.old line.new 6 (final_text is_final) }
{
    if is_final {
        line.put(b" final");
    }
}

/// Puts a name, and a number after it.
pub(crate) fn put_named<W: Write>(sheet: &mut Sheet<'_, W>, name: &[u8], number: u8)
    ensures { Says W.contents sheet.old sheet.new (name.now ++ decimal number) }
{
    sheet.put(name);
    sheet.put_number(u64::from(number));
}

/// Puts a number of 16 bits as four hexadecimal digits.
pub fn put_hex<W: Write>(sheet: &mut Sheet<'_, W>, bits: u16)
    ensures { Says W.contents sheet.old sheet.new (numeral 16 4 bits) }
{
    let mut line = Line::new();
    line.put_hex(bits);
    sheet.put(line.as_slice());
}
