//! Lines, written.

ghost use Rattle.std.specs.Prelude.{◌≡◌, ◌≤◌, ◌<◌, ◌+◌, [], ◌∷◌, ◌++◌, flat_map, length, vec_len, vec_capacity, OnOk, OnErr};
ghost use Rattle.a429_word.specs.Digits.{numeral, hex_text};
ghost use Rattle.a429_cert.specs.declared.line.CertLine.TheVariants.{Moved};
ghost use Rattle.a429_cert.specs.Line.{spelling, IsLine, AreHeld, IsHeld};
ghost use Rattle.a429_cert.specs.Field.{field};
ghost use Rattle.a429_cert.specs.Writing.{AppendsOrFront};

use crate::act::act_letter;
use crate::fault::OutOfMemory;
use crate::line::{CertLine, MovedLine};
use crate::short::ShortText;
use a429_word::Word;

/// Appends the spelling of a line whose fields are in their ranges, without a line feed. Memory can be
/// refused only where `out` has no room for it; `out` then has what it had.
pub fn write_line(line: &CertLine, out: &mut Vec<u8>) -> Result<(), OutOfMemory>
    requires { IsLine line.now }
    ensures ok { OnOk result (out.new.items ≡ out.old.items ++ spelling line.now) }
    ensures err { OnErr result (out.new.items ≡ out.old.items) }
    ensures held { OnOk result (IsHeld line.now) }
    ensures full { OnErr result (vec_capacity out.old < vec_len out.old + length (spelling line.now)) }
{
    let start = out.len();
    match put_line(line, out) {
        Ok(()) => Ok(()),
        Err(refused) => {
            out.truncate(start);
            Err(refused)
        }
    }
}

// Appends the spelling of a line, or, out of memory, a prefix of it.
fn put_line(line: &CertLine, out: &mut Vec<u8>) -> Result<(), OutOfMemory>
    ensures appends { AppendsOrFront result out.old out.new (spelling line.now) }
    ensures held { OnOk result (IsHeld line.now) }
{
    match line {
        CertLine::First(file) => {
            put(b"first", out)?;
            let mut text = ShortText::new();
            text.push_number(*file);
            put(text.as_slice(), out)
        }
        CertLine::Load(line) => {
            put(b"L", out)?;
            put_hex(u32::from(line.gfi), 1, out)?;
            put_hex(u32::from(line.flags), 1, out)?;
            put_hex(u32::from(line.check), 4, out)?;
            put_words(line.words.as_slice(), out)
        }
        CertLine::Moved(line) => put_moved(*line, out),
    }
}

/// The text of the line of a step that is no load, without a line feed.
#[inline(always)]
pub fn moved_text(line: MovedLine) -> ShortText
    ensures { result ≡ spelling (Moved line) }
{
    let mut text = ShortText::new();
    push_moved(&mut text, line);
    text
}

/// Appends it to a text.
#[inline(always)]
pub fn push_moved(text: &mut ShortText, line: MovedLine)
    requires { length text.old ≤ 20 }
    ensures text { text.new ≡ text.old ++ spelling (Moved line) }
    ensures len { length text.new ≤ length text.old + 19 }
{
    text.push(act_letter(line.act));
    text.push_source(line.states.source);
    text.push_sink(line.states.sink);
    text.push_number(line.states.to_sink);
    text.push_number(line.states.to_source);
}

// Appends it.
#[inline(always)]
fn put_moved(line: MovedLine, out: &mut Vec<u8>) -> Result<(), OutOfMemory>
    ensures appends { AppendsOrFront result out.old out.new (spelling (Moved line)) }
    ensures held { OnOk result (IsHeld (Moved line)) }
{
    put(moved_text(line).as_slice(), out)
}

// Appends text, or, out of memory, nothing.
fn put(text: &[u8], out: &mut Vec<u8>) -> Result<(), OutOfMemory>
    ensures { AppendsOrFront result out.old out.new text.now }
{
    out.extend_from_slice(text)?;
    Ok(())
}

// Appends a field: a space, and its text.
fn put_field(text: &[u8], out: &mut Vec<u8>) -> Result<(), OutOfMemory>
    ensures { AppendsOrFront result out.old out.new (field text.now) }
{
    put(b" ", out)?;
    put(text, out)
}

// Appends a field with the last digits of a number in hexadecimal, at most eight.
fn put_hex(number: u32, digits: usize, out: &mut Vec<u8>) -> Result<(), OutOfMemory>
    requires { digits ≤ 8 }
    ensures { AppendsOrFront result out.old out.new (field (numeral 16 digits number)) }
{
    let hex = Word::from_u32(number).hex();
    put_field(&hex[8 - digits..], out)
}

// Appends a field for each word.
fn put_words(words: &[Word], out: &mut Vec<u8>) -> Result<(), OutOfMemory>
    ensures appends { AppendsOrFront result out.old out.new (flat_map (λ w. field (hex_text w)) words.now) }
    ensures held { OnOk result (AreHeld words.now) }
{
    for word in words {
        put_word(word.to_u32(), out)?;
    }
    Ok(())
}

// Appends the field of a word.
#[inline(always)]
fn put_word(number: u32, out: &mut Vec<u8>) -> Result<(), OutOfMemory>
    ensures { AppendsOrFront result out.old out.new (field (hex_text number)) }
{
    put(&word_field(number), out)
}

/// The field of a word: a space, and its eight hexadecimal digits.
#[inline(always)]
pub fn word_field(number: u32) -> [u8; 9]
    ensures { result ≡ field (hex_text number) }
{
    let hex = Word::from_u32(number).hex();
    [
        b' ', hex[0], hex[1], hex[2], hex[3], hex[4], hex[5], hex[6], hex[7],
    ]
}
