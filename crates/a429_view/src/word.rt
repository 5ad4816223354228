//! What a word holds, a line for each part.

ghost use Rattle.std.specs.Prelude.{◌≡◌};
ghost use Rattle.a429_word.specs.Sheet.{Says};
ghost use Rattle.a429_view.specs.Word.{line, bits_text, parity_text, word_lines};

use a429_word::{Sheet, Word, octal};
use itoa::Buffer;
use std::io::Write;

/// Puts what a word holds, in seven lines: the word, its bits from 32 down to 1, label, SDI, SSM, whether its parity is odd, and its raw
/// number with 18 significant bits.
pub fn put_word<W: Write>(sheet: &mut Sheet<'_, W>, word: Word)
    ensures { Says W.contents sheet.old sheet.new (word_lines word) }
{
    let mut bnr = Buffer::new();
    put_line(sheet, "word", &word.hex());
    put_line(sheet, "bits", &bits(word));
    put_line(sheet, "label", &octal(word.label()));
    put_line(sheet, "sdi", &[b'0' + word.sdi()]);
    put_line(sheet, "ssm", &[b'0' + word.ssm()]);
    put_line(sheet, "parity", parity(word).as_bytes());
    put_line(sheet, "bnr", bnr.format(word.bnr_raw(18)).as_bytes());
}

// The bits from 32 down to 1, a digit each.
fn bits(word: Word) -> [u8; 32]
    ensures { result ≡ bits_text word 32 }
{
    let mut text = [0; 32];
    for (i, digit) in text.iter_mut().enumerate() {
        *digit = b'0' + u8::from(word.bit(32 - i as u8));
    }
    text
}

// Whether the parity is odd, as it is to be.
fn parity(word: Word) -> &'static str
    ensures { result.now ≡ parity_text word }
{
    if word.parity_ok() { "ok" } else { "bad" }
}

// A line: a name, a space and a value.
fn put_line<W: Write>(sheet: &mut Sheet<'_, W>, name: &str, value: &[u8])
    ensures { Says W.contents sheet.old sheet.new (line name.now value.now) }
{
    sheet.put(name.as_bytes());
    sheet.put(b" ");
    sheet.put(value);
    sheet.put(b"\n");
}
