//! A reader or writer over another, with a limit, that fails for good.

ghost use Rattle.std.specs.Prelude.{◌≡◌, ◌↔◌, ◌≢◌, ◌+◌, ◌<◌, ◌≤◌, Bool, true, false, length, IsErr, IfOk, IfErr, OnOk, OnErr};
ghost use Rattle.std.specs.IoError.{error_kind};
ghost use Rattle.std.specs.Io.{ReadsAtMost, WritesAtMost};
ghost use Rattle.std.specs.Io.KnownBytes.{Consumes, Keeps, ReadConsumes, WriteAppends};

use std::io;
use std::io::{ErrorKind, Read, Write};

/// A reader or a writer has failed.
#[derive(Clone, Copy, Debug, PartialEq, Eq)]
pub struct Device;

/// What may fail. That it stays failed is a clause of the calls that use it.
pub trait Failing {
    ghost failed: { Self → Bool };

    /// Whether it has failed.
    fn failed(&self) -> bool
        ensures { result ≡ failed self.now };
}

/// A reader or writer over another one, its inner one.
///
/// It has failed once a call of the inner one returned an error (`Interrupted` is one), a write of
/// some bytes took none of them, or a read was asked for after `cap` bytes had been read.
/// Once failed it stays so: every later call returns an error that is not `Interrupted`, and the
/// inner one is not called again.
#[derive(Drop)]
pub struct Tally<T> {
    inner: T,
    left: u64,
    is_failed: bool,
}

impl<T> Failing for Tally<T> {
    ghost failed = { λ t. t.is_failed };

    fn failed(&self) -> bool {
        self.is_failed
    }
}

impl<T> Tally<T> {
    ghost use Rattle.a429_word.specs.Tally.{inner_of, left_of, has_failed};

    /// A tally over `inner` whose reads return at most `cap` bytes in all. Writes have no limit.
    pub fn new(inner: T, cap: u64) -> Self
        ensures inner { inner_of result ≡ inner }
        ensures left { left_of result ≡ cap }
        ensures fresh { has_failed result ≡ false }
    {
        Tally {
            inner,
            left: cap,
            is_failed: false,
        }
    }

    /// The reader or writer underneath.
    pub fn into_inner(self) -> T
        ensures { result ≡ inner_of self }
    {
        self.inner
    }

    /// How many bytes reads may still return.
    pub fn left(&self) -> u64
        ensures { result ≡ left_of self.now }
    {
        self.left
    }
}

impl<R: Read> Tally<R> {
    ghost use Rattle.a429_word.specs.Tally.{left_of, has_failed, unread};

    /// Reads at most as many bytes as `buf` holds, and returns their number; 0 is the end.
    pub fn pull(&mut self, buf: &mut [u8]) -> Result<usize, Device>
        requires { 0 < length buf.old }
        ensures bound { ReadsAtMost result buf.new }
        ensures bytes { ReadConsumes (unread R.remaining self.old) (unread R.remaining self.new) result buf.new }
        ensures left { IfOk result (λ n. left_of self.new + n ≡ left_of self.old) }
        ensures same { OnErr result (left_of self.new ≡ left_of self.old) }
        ensures device { IsErr result ↔ (has_failed self.new ≡ true) }
        ensures capped { left_of self.old ≡ 0 → has_failed self.new ≡ true }
        ensures stays { has_failed self.old ≡ true → self.new ≡ self.old }
    {
        if self.is_failed {
            return Err(Device);
        }
        if self.left == 0 {
            self.is_failed = true;
            return Err(Device);
        }
        let most = at_most(buf.len(), self.left);
        match self.inner.read(&mut buf[..most]) {
            Ok(n) => {
                self.left -= n as u64;
                Ok(n)
            }
            Err(_) => {
                self.is_failed = true;
                Err(Device)
            }
        }
    }
}

impl<W: Write> Tally<W> {
    ghost use Rattle.a429_word.specs.Tally.{left_of, has_failed, Puts, PutsFront};

    /// Writes all the bytes. After `Device` a prefix of them has been written.
    pub fn put(&mut self, bytes: &[u8]) -> Result<(), Device>
        ensures ok { OnOk result (Puts W.contents self.old self.new bytes.now) }
        ensures err { OnErr result (PutsFront W.contents self.old self.new bytes.now) }
        ensures left { left_of self.new ≡ left_of self.old }
        ensures device { IsErr result ↔ (has_failed self.new ≡ true) }
        ensures stays { has_failed self.old ≡ true → self.new ≡ self.old }
    {
        if self.is_failed {
            return Err(Device);
        }
        let mut at = 0;
        while at < bytes.len() {
            match self.inner.write(&bytes[at..]) {
                Ok(0) | Err(_) => {
                    self.is_failed = true;
                    return Err(Device);
                }
                Ok(n) => at += n,
            }
        }
        Ok(())
    }
}

impl<R: Read> Read for Tally<R> {
    ghost use Rattle.a429_word.specs.Tally.{inner_of, left_of, has_failed, unread, FallsShort};

    ghost remaining = { λ t. R.remaining (inner_of t) };

    fn read(&mut self, buf: &mut [u8]) -> io::Result<usize>
        ensures bound { ReadsAtMost result buf.new }
        ensures bytes { ReadConsumes (unread R.remaining self.old) (unread R.remaining self.new) result buf.new }
        ensures left { IfOk result (λ n. left_of self.new + n ≡ left_of self.old) }
        ensures same { OnErr result (left_of self.new ≡ left_of self.old) }
        ensures device { IsErr result ↔ (has_failed self.new ≡ true) }
        ensures capped { left_of self.old ≡ 0 → has_failed self.new ≡ true }
        ensures stays { has_failed self.old ≡ true → self.new ≡ self.old }
        ensures kind { IfErr result (λ e. error_kind e ≢ ErrorKind.Interrupted) }
    {
        if buf.is_empty() {
            return self.read_none();
        }
        match self.pull(buf) {
            Ok(n) => Ok(n),
            Err(Device) => Err(failure()),
        }
    }

    fn read_exact(&mut self, buf: &mut [u8]) -> io::Result<()>
        ensures bytes { OnOk result (Consumes (unread R.remaining self.old) (unread R.remaining self.new) buf.new) }
        ensures err { OnErr result (FallsShort R.remaining self.old self.new (length buf.new)) }
        ensures left { OnOk result (left_of self.new + length buf.new ≡ left_of self.old) }
        ensures falls { left_of self.new ≤ left_of self.old }
        ensures device { has_failed self.new ≡ true → IsErr result }
        ensures stays { has_failed self.old ≡ true → self.new ≡ self.old }
        ensures kind { IfErr result (λ e. error_kind e ≢ ErrorKind.Interrupted) }
    {
        self.read_whole(buf)
    }
}

impl<R: Read> Tally<R> {
    ghost use Rattle.a429_word.specs.Tally.{inner_of, left_of, has_failed, unread, FallsShort};

    // A read into no bytes.
    fn read_none(&mut self) -> io::Result<usize>
        ensures none { IfOk result (λ n. n ≡ 0) }
        ensures inner { inner_of self.new ≡ inner_of self.old }
        ensures left { left_of self.new ≡ left_of self.old }
        ensures device { IsErr result ↔ (has_failed self.new ≡ true) }
        ensures capped { left_of self.old ≡ 0 → has_failed self.new ≡ true }
        ensures stays { has_failed self.old ≡ true → self.new ≡ self.old }
        ensures kind { IfErr result (λ e. error_kind e ≢ ErrorKind.Interrupted) }
    {
        self.is_failed |= self.left == 0;
        if self.is_failed {
            return Err(failure());
        }
        Ok(0)
    }

    // A read of as many bytes as there is room for.
    fn read_whole(&mut self, buf: &mut [u8]) -> io::Result<()>
        ensures bytes { OnOk result (Consumes (unread R.remaining self.old) (unread R.remaining self.new) buf.new) }
        ensures err { OnErr result (FallsShort R.remaining self.old self.new (length buf.new)) }
        ensures size { length buf.new ≡ length buf.old }
        ensures left { OnOk result (left_of self.new + length buf.new ≡ left_of self.old) }
        ensures falls { left_of self.new ≤ left_of self.old }
        ensures device { has_failed self.new ≡ true → IsErr result }
        ensures stays { has_failed self.old ≡ true → self.new ≡ self.old }
        ensures kind { IfErr result (λ e. error_kind e ≢ ErrorKind.Interrupted) }
    {
        if self.is_failed {
            return Err(failure());
        }
        let mut at = 0;
        while at < buf.len() {
            match self.pull(&mut buf[at..]) {
                Ok(0) => return Err(io::Error::from(ErrorKind::UnexpectedEof)),
                Ok(n) => at += n,
                Err(Device) => return Err(failure()),
            }
        }
        Ok(())
    }
}

impl<W: Write> Write for Tally<W> {
    ghost use Rattle.a429_word.specs.Tally.{inner_of, left_of, has_failed, Puts, PutsFront};

    ghost contents = { λ t. W.contents (inner_of t) };

    fn write(&mut self, buf: &[u8]) -> io::Result<usize>
        ensures bound { WritesAtMost result buf.now }
        ensures bytes { WriteAppends (W.contents (inner_of self.old)) (W.contents (inner_of self.new)) result buf.now }
        ensures some { IfOk result (λ n. 0 < length buf.now → 0 < n) }
        ensures left { left_of self.new ≡ left_of self.old }
        ensures device { IsErr result ↔ (has_failed self.new ≡ true) }
        ensures stays { has_failed self.old ≡ true → self.new ≡ self.old }
        ensures kind { IfErr result (λ e. error_kind e ≢ ErrorKind.Interrupted) }
    {
        if self.is_failed {
            return Err(failure());
        }
        match self.inner.write(buf) {
            Ok(n) if n > 0 || buf.is_empty() => Ok(n),
            _ => {
                self.is_failed = true;
                Err(failure())
            }
        }
    }

    fn write_all(&mut self, buf: &[u8]) -> io::Result<()>
        ensures bytes { OnOk result (Puts W.contents self.old self.new buf.now) }
        ensures err { OnErr result (PutsFront W.contents self.old self.new buf.now) }
        ensures left { left_of self.new ≡ left_of self.old }
        ensures device { IsErr result ↔ (has_failed self.new ≡ true) }
        ensures stays { has_failed self.old ≡ true → self.new ≡ self.old }
        ensures kind { IfErr result (λ e. error_kind e ≢ ErrorKind.Interrupted) }
    {
        match self.put(buf) {
            Ok(()) => Ok(()),
            Err(Device) => Err(failure()),
        }
    }

    fn flush(&mut self) -> io::Result<()>
        ensures bytes { Keeps (W.contents (inner_of self.old)) (W.contents (inner_of self.new)) }
        ensures left { left_of self.new ≡ left_of self.old }
        ensures device { IsErr result ↔ (has_failed self.new ≡ true) }
        ensures stays { has_failed self.old ≡ true → self.new ≡ self.old }
        ensures kind { IfErr result (λ e. error_kind e ≢ ErrorKind.Interrupted) }
    {
        if self.is_failed {
            return Err(failure());
        }
        if self.inner.flush().is_err() {
            self.is_failed = true;
            return Err(failure());
        }
        Ok(())
    }
}

// The length, or what is left where that is less.
fn at_most(len: usize, left: u64) -> usize
    ensures len { result ≤ len }
    ensures left { result ≤ left }
    ensures some { 0 < len → 0 < left → 0 < result }
{
    if (len as u64) < left {
        len
    } else {
        left as usize
    }
}

// The error of a tally that has failed.
fn failure() -> io::Error
    ensures { error_kind result ≢ ErrorKind.Interrupted }
{
    io::Error::from(ErrorKind::Other)
}
