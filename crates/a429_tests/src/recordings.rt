//! Recorded words, and recordings of words by their names.

use crate::sample::{ACK, CTS, EOT, NAK, PART, RTS, SOT};
use a429_link::Seen;
use a429_word::{Bus, Word};
use std::alloc::{AllocError, Global};
use std::fmt::Write;
use std::test::Fail;

/// A recorded word.
pub fn seen(bus: Bus, number: u32) -> Seen {
    Seen {
        bus,
        word: Word::from_u32(number),
    }
}

// The number that eight digits write.
fn digits_of(word: &str) -> Option<u32> {
    let word = Word::parse_hex(word.as_bytes())?;
    Some(word.to_u32())
}

// The number of a word by its name, or by its digits where it has none.
fn number_of(word: &str) -> Option<u32> {
    match word {
        "RTS" => Some(RTS),
        "CTS" => Some(CTS),
        "SOT" => Some(SOT),
        "PART" => Some(PART),
        "EOT" => Some(EOT),
        "ACK" => Some(ACK),
        "NAK" => Some(NAK),
        _ => digits_of(word),
    }
}

/// A row of a recording.
pub fn push_row(text: &mut String, time: usize, bus: char, number: u32) -> Result<(), AllocError> {
    writeln!(text, "{time},{bus},{number:08X}")
}

// The row of a word by its name.
fn push_word(text: &mut String, time: usize, word: &str) -> Result<(), Fail> {
    let number = number_of(word).ok_or("no word")?;
    let bus = bus_of(number);
    Ok(push_row(text, time, bus, number)?)
}

// The bus whose address label a word has.
fn bus_of(number: u32) -> char {
    if number & 0xFF == 0xA3 { 'B' } else { 'A' }
}

/// The recording of these words, with spaces between them: those with the address label of bus B on B, the
/// others on A.
pub fn recorded(alloc: Global, words: &str) -> Result<String, Fail> {
    let mut text = String::from_str(alloc, "time,bus,word\n")?;
    for (time, word) in words.split(' ').enumerate() {
        push_word(&mut text, time, word)?;
    }
    Ok(text)
}
