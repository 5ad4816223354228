//! Readers and writers that fail, or go on without end.

use std::alloc::Global;
use std::io;
use std::io::{ErrorKind, Read, Write};

/// Gives its bytes in pieces, and answers an error at one call, counted from 1.
#[derive(Drop)]
pub struct Shaky<'a> {
    /// What it has left to give.
    pub bytes: &'a [u8],
    /// How many it gives at most at a time.
    pub piece: usize,
    /// How often it has been called.
    pub calls: u32,
    /// The call that fails; 0 for none.
    pub fails_at: u32,
}

impl Shaky<'_> {
    /// One that has not been called, and gives a byte at a time.
    pub fn new(bytes: &[u8], fails_at: u32) -> Shaky<'_> {
        Shaky {
            bytes,
            piece: 1,
            calls: 0,
            fails_at,
        }
    }

    /// Whether a call of it has failed.
    pub fn has_failed(&self) -> bool {
        0 < self.fails_at && self.fails_at <= self.calls
    }
}

impl Read for Shaky<'_> {
    fn read(&mut self, buf: &mut [u8]) -> io::Result<usize> {
        self.calls = self.calls.saturating_add(1);
        if self.calls == self.fails_at {
            return Err(io::Error::from(ErrorKind::Interrupted));
        }
        let most = self.piece.min(buf.len());
        self.bytes.read(&mut buf[..most])
    }
}

/// Takes up to `room` bytes in all, one at a time, and then answers `full`: an error, or that it took
/// nothing.
#[derive(Drop)]
pub struct Narrow {
    /// What it has taken.
    pub taken: Vec<u8>,
    /// How many more bytes it takes.
    pub room: usize,
    /// What it answers then.
    pub full: Option<ErrorKind>,
    /// Whether a flush works.
    pub flushes: bool,
    /// Whether a write has failed.
    pub has_failed: bool,
}

impl Narrow {
    /// One whose flushes work.
    pub fn new(alloc: Global, room: usize, full: Option<ErrorKind>) -> Narrow {
        Narrow {
            taken: Vec::new(alloc),
            room,
            full,
            flushes: true,
            has_failed: false,
        }
    }
}

impl Write for Narrow {
    fn write(&mut self, buf: &[u8]) -> io::Result<usize> {
        if self.room == 0 {
            self.has_failed = true;
            return match self.full {
                Some(kind) => Err(io::Error::from(kind)),
                None => Ok(0),
            };
        }
        match buf.first() {
            Some(byte) => {
                self.taken.push(*byte)?;
                self.room -= 1;
                Ok(1)
            }
            None => Ok(0),
        }
    }

    fn flush(&mut self) -> io::Result<()> {
        if self.flushes {
            Ok(())
        } else {
            Err(io::Error::from(ErrorKind::Interrupted))
        }
    }
}

/// Gives some bytes, and then others without end.
#[derive(Drop)]
pub struct Endless<'a> {
    /// What it gives next.
    pub next: &'a [u8],
    /// What it gives then, and again.
    pub again: &'a [u8],
}

impl Read for Endless<'_> {
    fn read(&mut self, buf: &mut [u8]) -> io::Result<usize> {
        if self.next.is_empty() {
            self.next = self.again;
        }
        self.next.read(buf)
    }
}
