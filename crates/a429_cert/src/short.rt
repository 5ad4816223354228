//! A short text that is put together without taking memory.

ghost use Rattle.std.specs.Prelude.{◌≡◌, ◌+◌, ◌/◌, ◌%◌, ◌<◌, ◌≤◌, [], ◌∷◌, ◌++◌, length};
ghost use Rattle.std.specs.Fmt.{decimal};
ghost use Rattle.a429_cert.specs.States.{sink_text, source_text};
ghost use Rattle.a429_cert.specs.Field.{field};

use a429_link::{SinkState, SourceState};
use std::marker::Model;

// The bytes of two lines of steps that are no loads, 19 each at most, and of their line feeds.
const ROOM: usize = 40;

/// A text of at most 40 bytes, which takes no memory.
#[derive(Drop)]
pub struct ShortText {
    bytes: [u8; ROOM],
    filled: usize,
}

impl Model for ShortText {
    ghost use Rattle.std.specs.Prelude.{List, ℕ, take, ◌≤◌};

    ghost Value = { List ℕ };

    ghost view = { λ t. take t.filled t.bytes };

    ghost invariant = { λ t. t.filled ≤ 40 };
}

impl ShortText {
    /// A text of no bytes.
    #[inline(always)]
    pub fn new() -> ShortText
        ensures { result ≡ [] }
    {
        ShortText {
            bytes: [0; ROOM],
            filled: 0,
        }
    }

    /// The whole text.
    #[inline(always)]
    pub fn as_slice(&self) -> &[u8]
        ensures { result.now ≡ self.now }
    {
        &self.bytes[..self.filled]
    }

    /// Appends a byte.
    #[inline(always)]
    pub fn push(&mut self, byte: u8)
        requires { length self.old < 40 }
        ensures text { self.new ≡ self.old ++ byte ∷ [] }
        ensures len { length self.new ≡ length self.old + 1 }
    {
        self.bytes[self.filled] = byte;
        self.filled += 1;
    }

    // Appends a field that begins with this letter.
    #[inline(always)]
    fn push_letter(&mut self, letter: u8)
        requires { length self.old < 39 }
        ensures text { self.new ≡ self.old ++ field (letter ∷ []) }
        ensures len { length self.new ≡ length self.old + 2 }
    {
        self.push(b' ');
        self.push(letter);
    }

    // Appends a number in decimal.
    #[inline(always)]
    fn push_decimal(&mut self, number: u8)
        requires { length self.old < 38 }
        ensures text { self.new ≡ self.old ++ decimal number }
        ensures len { length self.new ≤ length self.old + 3 }
    {
        if number < 10 {
            self.push(b'0' + number);
        } else if number < 100 {
            self.push_pair(number);
        } else if number < 200 {
            self.push(b'1');
            self.push_pair(number - 100);
        } else {
            self.push(b'2');
            self.push_pair(number - 200);
        }
    }

    // Appends a number below 100 in two digits.
    #[inline(always)]
    fn push_pair(&mut self, number: u8)
        requires room { length self.old < 39 }
        requires small { number < 100 }
        ensures text { self.new ≡ self.old ++ (48 + number / 10) ∷ (48 + number % 10) ∷ [] }
        ensures len { length self.new ≡ length self.old + 2 }
    {
        self.push(b'0' + number / 10);
        self.push(b'0' + number % 10);
    }

    /// Appends a field with a decimal number.
    #[inline(always)]
    pub fn push_number(&mut self, number: u8)
        requires { length self.old < 37 }
        ensures text { self.new ≡ self.old ++ field (decimal number) }
        ensures len { length self.new ≤ length self.old + 4 }
    {
        self.push(b' ');
        self.push_decimal(number);
    }

    // Appends a field with a letter and a decimal number after it.
    #[inline(always)]
    fn push_counted(&mut self, letter: u8, number: u8)
        requires { length self.old < 36 }
        ensures text { self.new ≡ self.old ++ field (letter ∷ decimal number) }
        ensures len { length self.new ≤ length self.old + 5 }
    {
        self.push_letter(letter);
        self.push_decimal(number);
    }

    /// Appends the field of the source's state.
    #[inline(always)]
    pub fn push_source(&mut self, source: SourceState)
        requires { length self.old < 36 }
        ensures text { self.new ≡ self.old ++ field (source_text source) }
        ensures len { length self.new ≤ length self.old + 5 }
    {
        match source {
            SourceState::Idle => self.push_letter(b'I'),
            SourceState::Awaiting => self.push_letter(b'C'),
            SourceState::Sending(sent) => self.push_counted(b'S', sent),
            SourceState::Waiting => self.push_letter(b'W'),
        }
    }

    /// Appends the field of the sink's state.
    #[inline(always)]
    pub fn push_sink(&mut self, sink: SinkState)
        requires { length self.old < 36 }
        ensures text { self.new ≡ self.old ++ field (sink_text sink) }
        ensures len { length self.new ≤ length self.old + 5 }
    {
        match sink {
            SinkState::Quiet => self.push_letter(b'Q'),
            SinkState::OwesClear => self.push_letter(b'c'),
            SinkState::Granted => self.push_letter(b'G'),
            SinkState::InBlock(taken) => self.push_counted(b'B', taken),
            SinkState::OwesAck => self.push_letter(b'A'),
            SinkState::OwesNak => self.push_letter(b'N'),
        }
    }
}
