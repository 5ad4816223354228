//! What each word of a recording shows by a profile, a line for each.

ghost use Rattle.std.specs.Prelude.{◌≡◌, ◌↔◌, ◌≤◌, ◌++◌, ℕ, List, true, false, IsTrue, length, take, drop};
ghost use Rattle.a429_word.specs.Sheet.{Says, sheet_failed, SaysSome};
ghost use Rattle.a429_word.specs.Word.{HasOddParity};
ghost use Rattle.std.specs.List.{flat_map, AllByRecursion};
ghost use Rattle.a429_profile.specs.Shown.{IsShown, HasItsRanges};
ghost use Rattle.a429_profile.specs.Entry.{IsFlagBit, IsKindInRange};
ghost use Rattle.a429_profile.specs.Flags.{both_texts};
ghost use Rattle.a429_view.specs.Show.{status_text, bad_digit_text, unit_text, test_text, flag_text, IsValueText, field_text, IsShownText, recorded_text, fields_text, IsShowLine, AreShowLines, AreFirstShowLines};

use a429_profile::{Flag, Kind, LabelEntry, Profile, Shown, Status};
use a429_record::{Entry, EntryText, SCREENED, screen_entries};
use a429_word::{BAD_PARITY, Fixed, Sheet, Word, octal};
use std::io::Write;

// The label by which words are screened of which only the parity is asked for.
const ANY_LABEL: u8 = 0;

/// Puts what each entry shows by a profile, a line for each. Where the output fails, some of the first entries have theirs.
pub fn put_shown_lines<W: Write>(sheet: &mut Sheet<'_, W>, profile: &Profile, entries: &[Entry])
    ensures first { SaysSome W.contents sheet.old sheet.new (AreFirstShowLines profile.now entries.now) }
    ensures all { sheet_failed sheet.new ≡ false → SaysSome W.contents sheet.old sheet.new (AreShowLines profile.now entries.now) }
{
    let mut text = EntryText::new();
    for piece in entries.chunks(SCREENED) {
        if sheet.failed() {
            return;
        }
        put_piece(sheet, profile, &mut text, piece);
    }
}

// A line for each of some entries, whose words are screened together.
fn put_piece<W: Write>(
    sheet: &mut Sheet<'_, W>,
    profile: &Profile,
    text: &mut EntryText,
    piece: &[Entry],
)
    requires { length piece.now ≤ SCREENED }
    ensures { SaysSome W.contents sheet.old sheet.new (AreShowLines profile.now piece.now) }
{
    let answers = screen_entries(piece, ANY_LABEL);
    for i in 0..piece.len() {
        put_entry(sheet, profile, text, &piece[i], answers[i] != BAD_PARITY);
    }
}

// The line of an entry whose parity is known.
fn put_entry<W: Write>(
    sheet: &mut Sheet<'_, W>,
    profile: &Profile,
    text: &mut EntryText,
    entry: &Entry,
    is_good: bool,
)
    requires { IsTrue is_good ↔ HasOddParity entry.now.word }
    ensures { SaysSome W.contents sheet.old sheet.new (IsShowLine profile.now entry.now) }
{
    put_recorded(sheet, text, entry);
    put_shown(sheet, &shown_by_parity(profile, &entry.word, is_good));
    sheet.put(b"\n");
}

// What is shown of a word whose parity is known.
fn shown_by_parity<'a>(profile: &'a Profile, word: &Word, is_good: bool) -> Shown<'a>
    requires { IsTrue is_good ↔ HasOddParity word.now }
    ensures shown { IsShown profile.now word.now result }
    ensures ranges { HasItsRanges result }
{
    if is_good {
        profile.shown_of_good(word)
    } else {
        Shown::BadParity
    }
}

// When, on which bus and which word, and the word's label, SDI and SSM.
#[tactic(auto, using(a429_word::proofs::SheetFacts::says_both))]
fn put_recorded<W: Write>(sheet: &mut Sheet<'_, W>, text: &mut EntryText, entry: &Entry)
    ensures { Says W.contents sheet.old sheet.new (recorded_text entry.now ++ fields_text entry.now.word) }
{
    text.put_parts(sheet, *entry, b' ', b' ');
    sheet.put(&fields(entry.word));
}

// The fields of a word, a space after each.
fn fields(word: Word) -> [u8; 8]
    ensures { result ≡ fields_text word }
{
    let label = octal(word.label());
    [
        label[0],
        label[1],
        label[2],
        b' ',
        b'0' + word.sdi(),
        b' ',
        b'0' + word.ssm(),
        b' ',
    ]
}

fn put_shown<W: Write>(sheet: &mut Sheet<'_, W>, shown: &Shown<'_>)
    requires { HasItsRanges shown.now }
    ensures { SaysSome W.contents sheet.old sheet.new (IsShownText shown.now) }
{
    match shown {
        Shown::BadParity => sheet.put(b"parity"),
        Shown::NoEntry => sheet.put(b"no entry"),
        Shown::Status { entry, status } => put_status(sheet, entry, *status),
        Shown::BadDigit { entry, place } => put_bad_digit(sheet, entry, *place),
        Shown::Value {
            entry,
            value,
            is_test,
        } => put_value(sheet, entry, value, *is_test),
        Shown::Bits {
            entry,
            field,
            is_test,
        } => put_bits(sheet, entry, *field, *is_test),
    }
}

#[tactic(auto, using(a429_word::proofs::SheetFacts::says_both))]
fn put_status<W: Write>(sheet: &mut Sheet<'_, W>, entry: &LabelEntry, status: Status)
    ensures { Says W.contents sheet.old sheet.new (entry.now.name ++ status_text status) }
{
    sheet.put(entry.name.as_str().as_bytes());
    sheet.put(match status {
        Status::NoData => b" no data".as_slice(),
        Status::Failure => b" failure".as_slice(),
    });
}

fn put_bad_digit<W: Write>(sheet: &mut Sheet<'_, W>, entry: &LabelEntry, place: u8)
    ensures { Says W.contents sheet.old sheet.new (bad_digit_text entry.now place) }
{
    sheet.put(entry.name.as_str().as_bytes());
    sheet.put(b" bad digit ");
    sheet.put_number(u64::from(place));
}

fn put_value<W: Write>(sheet: &mut Sheet<'_, W>, entry: &LabelEntry, value: &Fixed, is_test: bool)
    requires { value.now.decimals ≤ 24 }
    ensures { SaysSome W.contents sheet.old sheet.new (IsValueText entry.now value.now is_test) }
{
    sheet.put(entry.name.as_str().as_bytes());
    sheet.put(b" ");
    value.put_on(sheet);
    put_unit(sheet, entry.unit.as_str());
    put_test(sheet, is_test);
}

// A unit with a space before it; nothing where there is none.
fn put_unit<W: Write>(sheet: &mut Sheet<'_, W>, unit: &str)
    ensures { Says W.contents sheet.old sheet.new (unit_text unit.now) }
{
    if unit.is_empty() {
        return;
    }
    sheet.put(b" ");
    sheet.put(unit.as_bytes());
}

fn put_test<W: Write>(sheet: &mut Sheet<'_, W>, is_test: bool)
    ensures { Says W.contents sheet.old sheet.new (test_text is_test) }
{
    if is_test {
        sheet.put(b" test");
    }
}

fn put_bits<W: Write>(sheet: &mut Sheet<'_, W>, entry: &LabelEntry, field: u32, is_test: bool)
    requires { IsKindInRange entry.now.kind }
    ensures { Says W.contents sheet.old sheet.new (field_text entry.now field is_test) }
{
    sheet.put(entry.name.as_str().as_bytes());
    if let Kind::Discrete { flags } = &entry.kind {
        put_flags(sheet, field, flags.as_slice(), flags.texts());
    }
    put_test(sheet, is_test);
}

// Flags and their bits, of which these are the texts.
#[inline(never)]
fn put_flags<W: Write>(sheet: &mut Sheet<'_, W>, field: u32, flags: &[Flag], texts: &[u8])
    requires bits { AllByRecursion IsFlagBit flags.now }
    requires texts { texts.now ≡ flat_map both_texts flags.now }
    ensures { Says W.contents sheet.old sheet.new (flat_map (flag_text field) flags.now) }
{
    let mut rest = texts;
    for flag in flags {
        rest = put_flag(sheet, field, flag, rest);
    }
}

// A flag and its bit of the data field, of which bit 11 is the lowest. Its texts are the first of these; the others are
// returned.
#[inline(always)]
fn put_flag<'t, W: Write>(
    sheet: &mut Sheet<'_, W>,
    field: u32,
    flag: &Flag,
    texts: &'t [u8],
) -> &'t [u8]
    requires bit { IsFlagBit flag.now }
    requires texts { take (length (both_texts flag.now)) texts.now ≡ both_texts flag.now }
    ensures says { Says W.contents sheet.old sheet.new (flag_text field flag.now) }
    ensures rest { result.now ≡ drop (length (both_texts flag.now)) texts.now }
{
    let len = flag.name.as_str().len() + 3;
    let (zero, more) = texts.split_at(len);
    let (one, rest) = more.split_at(len);
    let is_set = field >> (flag.bit - 11) & 1 == 1;
    sheet.put(if is_set { one } else { zero });
    rest
}
