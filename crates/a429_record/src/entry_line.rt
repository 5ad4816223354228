//! The text of one entry.

ghost use Rattle.std.specs.Prelude.{◌≡◌, ◌≤◌, ◌↔◌, ◌++◌, [], length, take, true, OnOk, OnErr};
ghost use Rattle.a429_word.specs.Sheet.{Says};
ghost use Rattle.a429_record.specs.Writing.{IsLineOf, entry_text, line_text};

use crate::entry::Entry;
use crate::entry_text::{LONGEST, LONGEST_TIME, bus_and_word};
use a429_word::Sheet;
use itoa::write_digits;
use std::alloc::AllocError;
use std::io::Write;
use std::marker::Model;

/// The text of one entry, at most 32 bytes, or none: the line that a text recording has for it, unless a function says otherwise.
#[derive(Drop)]
pub struct EntryLine {
    // (the first field, so that it is aligned)
    bytes: [u8; LONGEST],
    len: usize,
}

impl Model for EntryLine {
    ghost use Rattle.std.specs.Prelude.{List, ℕ, take, ◌≤◌};

    ghost Value = { List ℕ };

    ghost view = { λ l. take l.len l.bytes };

    ghost invariant = { λ l. l.len ≤ 32 };
}

impl EntryLine {
    /// An empty line.
    pub fn new() -> EntryLine
        ensures { result ≡ [] }
    {
        EntryLine {
            bytes: [0; LONGEST],
            len: 0,
        }
    }

    /// The time, the bus and the word of an entry, with one byte between them and one after them.
    pub(crate) fn of(entry: Entry, between: u8, after: u8) -> EntryLine
        ensures { result ≡ entry_text between after entry }
    {
        // (room for 32 bytes, wherever the first digit is)
        let mut text = [0; LONGEST_TIME + LONGEST];
        let fields = bus_and_word(entry.bus, entry.word, between, after);
        text[LONGEST_TIME..LONGEST].copy_from_slice(&fields);
        let start = write_digits(entry.time, &mut text, LONGEST_TIME);
        let mut line = EntryLine::new();
        line.copy(&text[start..start + LONGEST], LONGEST - start);
        line
    }

    /// Becomes the first `len` of 32 bytes. All 32 are copied: copying a fixed number is faster than copying fewer.
    #[inline(always)]
    pub(crate) fn copy(&mut self, bytes: &[u8], len: usize)
        requires bytes { length bytes.now ≡ 32 }
        requires len { len ≤ 32 }
        ensures { self.new ≡ take len bytes.now }
    {
        self.bytes.copy_from_slice(bytes);
        self.len = len;
    }

    /// Becomes empty.
    #[inline(always)]
    pub(crate) fn clear(&mut self)
        ensures { self.new ≡ [] }
    {
        self.len = 0;
    }

    /// Whether it is empty.
    #[inline(always)]
    pub fn is_empty(&self) -> bool
        ensures { result ≡ true ↔ (self.now ≡ []) }
    {
        self.len == 0
    }

    /// How many bytes it has.
    #[inline(always)]
    pub fn len(&self) -> usize
        ensures count { result ≡ length self.now }
        ensures most { result ≤ 32 }
    {
        self.len
    }

    /// Becomes the line of this entry, unless it is that already.
    #[inline(always)]
    pub fn complete(&mut self, entry: Entry)
        requires { IsLineOf self.old entry }
        ensures { self.new ≡ line_text entry }
    {
        if self.is_empty() {
            self.set(entry);
        }
    }

    // Becomes the line of this entry.
    #[cold]
    #[inline(never)]
    fn set(&mut self, entry: Entry)
        ensures { self.new ≡ line_text entry }
    {
        *self = EntryLine::of(entry, b',', b'\n');
    }

    /// Puts it on a sheet.
    #[inline(always)]
    pub fn put<W: Write>(&self, sheet: &mut Sheet<'_, W>)
        ensures { Says W.contents sheet.old sheet.new self.now }
    {
        sheet.put_first(&self.bytes, self.len);
    }

    /// Appends it to a list of bytes.
    #[inline(always)]
    pub fn append_to(&self, text: &mut Vec<u8>) -> Result<(), AllocError>
        ensures ok { OnOk result (text.new.items ≡ text.old.items ++ self.now) }
        ensures err { OnErr result (text.new.items ≡ text.old.items) }
    {
        let end = text.len() + self.len;
        text.extend_from_slice(&self.bytes)?;
        text.truncate(end);
        Ok(())
    }
}
