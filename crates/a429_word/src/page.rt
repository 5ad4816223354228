//! A page of output: pieces that are gathered and written at once.

ghost use Rattle.std.specs.Prelude.{◌≡◌, ◌≤◌, ◌↔◌, ◌++◌, List, ℕ, [], codes, true, length, take, IsErr, IfOk, OnOk, OnErr};
ghost use Rattle.std.specs.Fmt.{decimal};
ghost use Rattle.std.specs.Io.KnownBytes.{Keeps};
ghost use Rattle.a429_word.specs.Tally.{inner_of, has_failed, Puts, PutsFront};
ghost use Rattle.a429_word.specs.Page.{paged, PutsOn};

use crate::tally::{Device, Tally};
use itoa::write_digits;
use std::alloc::{AllocError, Global};
use std::io::Write;
use std::marker::Model;

// How many bytes a page has room for.
const ROOM: usize = 65536;

// How many digits the longest number has.
const LONGEST: usize = 20;

// How many bytes `put_first` copies.
const FEW: usize = 32;

/// Bytes that wait to be written, 65,536 at most, so that a writer is called once for many pieces. A `Sheet` fills it.
#[derive(Drop)]
pub struct Page {
    // none: each piece is written at once
    room: Option<Vec<u8>>,
    filled: usize,
}

impl Model for Page {
    ghost use Rattle.std.specs.Prelude.{List, ℕ, take, length, ◌≤◌};
    ghost use Rattle.a429_word.specs.Room.{room_of};

    ghost Value = { List ℕ };

    ghost view = { λ p. take p.filled (room_of p.room) };

    ghost invariant = { λ p. p.filled ≤ length (room_of p.room) };
}

impl Page {
    /// An empty page. The error is out of memory.
    pub fn new(alloc: Global) -> Result<Page, AllocError>
        ensures { IfOk result (λ p. p ≡ []) }
    {
        Ok(Page {
            room: Some(zeros(alloc, ROOM)?),
            filled: 0,
        })
    }

    /// An empty page without room. It takes no memory, as its signature says. A sheet with it writes each piece at
    /// once: that is seen in the body, and no clause says it.
    pub fn without_room() -> Page
        ensures { result ≡ [] }
    {
        Page {
            room: None,
            filled: 0,
        }
    }

    /// Adds bytes to the page. If they do not fit, what is on it is written first. After `Device` a prefix of what was on
    /// it and of the bytes has been written.
    #[inline(always)]
    pub(crate) fn put<W: Write>(&mut self, out: &mut Tally<W>, bytes: &[u8]) -> Result<(), Device>
        ensures ok { OnOk result (PutsOn W.contents out.old self.old out.new self.new bytes.now) }
        ensures prefix { PutsFront W.contents out.old out.new (self.old ++ bytes.now) }
        ensures device { IsErr result → has_failed out.new ≡ true }
        ensures works { OnOk result (has_failed out.new ≡ has_failed out.old) }
        ensures stays { has_failed out.old ≡ true → out.new ≡ out.old }
    {
        match &mut self.room {
            Some(room) if bytes.len() <= room.len() - self.filled => {
                let end = self.filled + bytes.len();
                room[self.filled..end].copy_from_slice(bytes);
                self.filled = end;
                Ok(())
            }
            _ => self.put_past(out, bytes),
        }
    }

    /// Adds the first `count` of 32 bytes. Where there is room all 32 are copied, so that a few take as long as one.
    #[inline(always)]
    pub(crate) fn put_first<W: Write>(
        &mut self,
        out: &mut Tally<W>,
        bytes: &[u8],
        count: usize,
    ) -> Result<(), Device>
        requires bytes { length bytes.now ≡ 32 }
        requires count { count ≤ 32 }
        ensures ok { OnOk result (PutsOn W.contents out.old self.old out.new self.new (take count bytes.now)) }
        ensures prefix { PutsFront W.contents out.old out.new (self.old ++ take count bytes.now) }
        ensures device { IsErr result → has_failed out.new ≡ true }
        ensures works { OnOk result (has_failed out.new ≡ has_failed out.old) }
        ensures stays { has_failed out.old ≡ true → out.new ≡ out.old }
    {
        match &mut self.room {
            Some(room) if room.len() - self.filled >= FEW => {
                let end = self.filled + FEW;
                room[self.filled..end].copy_from_slice(bytes);
                self.filled += count;
                Ok(())
            }
            _ => self.put_past(out, &bytes[..count]),
        }
    }

    // Writes the page, and then bytes that have no room on it.
    #[cold]
    #[inline(never)]
    fn put_past<W: Write>(&mut self, out: &mut Tally<W>, bytes: &[u8]) -> Result<(), Device>
        ensures ok { OnOk result (PutsOn W.contents out.old self.old out.new self.new bytes.now) }
        ensures prefix { PutsFront W.contents out.old out.new (self.old ++ bytes.now) }
        ensures device { IsErr result ↔ (has_failed out.new ≡ true) }
        ensures stays { has_failed out.old ≡ true → out.new ≡ out.old }
    {
        self.finish(out)?;
        out.put(bytes)
    }

    /// Adds a number to the page, in decimal.
    #[inline(always)]
    pub(crate) fn put_number<W: Write>(
        &mut self,
        out: &mut Tally<W>,
        number: u64,
    ) -> Result<(), Device>
        ensures ok { OnOk result (PutsOn W.contents out.old self.old out.new self.new (decimal number)) }
        ensures prefix { PutsFront W.contents out.old out.new (self.old ++ decimal number) }
        ensures device { IsErr result → has_failed out.new ≡ true }
        ensures works { OnOk result (has_failed out.new ≡ has_failed out.old) }
        ensures stays { has_failed out.old ≡ true → out.new ≡ out.old }
    {
        let mut digits = [0; LONGEST];
        let start = write_digits(number, &mut digits, LONGEST);
        self.put(out, &digits[start..])
    }

    /// Writes what is on the page, which is empty then. After `Device` a prefix of it has been written.
    pub(crate) fn finish<W: Write>(&mut self, out: &mut Tally<W>) -> Result<(), Device>
        ensures ok { OnOk result (Keeps (paged W.contents out.old self.old) (W.contents (inner_of out.new))) }
        ensures empty { OnOk result (self.new ≡ []) }
        ensures err { OnErr result (PutsFront W.contents out.old out.new self.old) }
        ensures device { IsErr result ↔ (has_failed out.new ≡ true) }
        ensures stays { has_failed out.old ≡ true → out.new ≡ out.old }
    {
        match &self.room {
            Some(room) => out.put(&room[..self.filled])?,
            None => out.put(b"")?,
        }
        self.filled = 0;
        Ok(())
    }
}

// A list of so many bytes 0.
fn zeros(alloc: Global, len: usize) -> Result<Vec<u8>, AllocError>
    ensures { IfOk result (λ v. length v.items ≡ len) }
{
    vec![in alloc; 0; len]
}
