//! Lines, read.

ghost use Rattle.std.specs.Prelude.{◌≡◌, codes, take, IfOk, OnErr};
ghost use Rattle.a429_cert.specs.Line.{Reads};
ghost use Rattle.a429_cert.specs.Reading.{words_at, unit_words_in, first_in, load_in, moved_in, line_in};

use crate::act::{Act, act_of};
use crate::fault::OutOfMemory;
use crate::field::{hex_at, last_decimal_at, word_at};
use crate::line::{CertLine, LoadLine, MovedLine};
use crate::states::states_at;
use crate::words::Words;
use a429_ldu::MOST_DATA_WORDS;
use std::alloc::Global;

// How many bytes a word takes in a line: a space and eight digits.
const WORD_LEN: usize = 9;

/// Reads a line of a certificate, which comes without its line feed: the one line whose spelling the
/// bytes are, and `None` where they spell no line. Only the words of a link data unit take memory.
pub fn read_line(alloc: Global, line: &[u8]) -> Result<Option<CertLine>, OutOfMemory>
    ensures ok { IfOk result (λ read. Reads line.now read) }
    ensures err { OnErr result (take 1 line.now ≡ codes "L") }
{
    line_of(alloc, line)
}

// A line, by its first letter.
#[tactic(auto, unfolding(crate::specs::Reading::line_in))]
fn line_of(alloc: Global, line: &[u8]) -> Result<Option<CertLine>, OutOfMemory>
    ensures ok { IfOk result (λ read. read ≡ line_in line.now) }
    ensures err { OnErr result (take 1 line.now ≡ codes "L") }
{
    match line {
        [b'L', rest @ ..] => Ok(load_of(alloc, rest)?.map(CertLine::Load)),
        [b'f', ..] => Ok(first_of(line).map(CertLine::First)),
        [letter, rest @ ..] => Ok(moved_of(*letter, rest).map(CertLine::Moved)),
        [] => Ok(None),
    }
}

// The number of the first file.
#[tactic(auto, unfolding(crate::specs::Reading::first_in))]
fn first_of(line: &[u8]) -> Option<u8>
    ensures { result ≡ first_in line.now }
{
    last_decimal_at(line.strip_prefix(b"first")?)
}

/// The line of a link data unit, after its letter.
#[tactic(auto, unfolding(crate::specs::Reading::load_in))]
pub fn load_of(alloc: Global, text: &[u8]) -> Result<Option<LoadLine>, OutOfMemory>
    ensures { IfOk result (λ read. read ≡ load_in text.now) }
{
    let Some((gfi, rest)) = hex_at(text, 1) else {
        return Ok(None);
    };
    let Some((flags, rest)) = hex_at(rest, 1) else {
        return Ok(None);
    };
    let Some((check, rest)) = hex_at(rest, 4) else {
        return Ok(None);
    };
    let Some(words) = words_of(alloc, rest)? else {
        return Ok(None);
    };
    Ok(Some(LoadLine {
        gfi: gfi as u8,
        flags: flags as u8,
        check: check as u16,
        words,
    }))
}

// As many words as a link data unit has.
#[tactic(auto, unfolding(crate::specs::Reading::unit_words_in))]
fn words_of(alloc: Global, text: &[u8]) -> Result<Option<Words>, OutOfMemory>
    ensures { IfOk result (λ read. read ≡ unit_words_in text.now) }
{
    let count = text.len() / WORD_LEN;
    if 1 <= count && count <= MOST_DATA_WORDS {
        words_at(alloc, count, text)
    } else {
        Ok(None)
    }
}

// So many words, and nothing after them.
fn words_at(alloc: Global, count: usize, text: &[u8]) -> Result<Option<Words>, OutOfMemory>
    ensures { IfOk result (λ read. read ≡ words_at count text.now) }
{
    let mut words = Vec::with_capacity(alloc, count)?;
    let mut rest = text;
    'words: for _ in 0..count {
        let Some((word, after)) = word_at(rest) else {
            return Ok(None);
        };
        words.push(word)?;
        rest = after;
    }
    if rest.is_empty() {
        Ok(Some(Words::new(words)))
    } else {
        Ok(None)
    }
}

/// The line of another step, its letter and what comes after it.
#[inline(always)]
#[tactic(auto, unfolding(crate::specs::Reading::moved_in))]
pub fn moved_of(letter: u8, text: &[u8]) -> Option<MovedLine>
    ensures { result ≡ moved_in letter text.now }
{
    let act = act_of(letter)?;
    let states = states_at(text)?;
    Some(MovedLine { act, states })
}
