//! The lines of a reader, by a buffer of a fixed size.

ghost use Rattle.std.specs.Prelude.{◌≡◌, ◌↔◌, ◌⊎◌, ◌∷◌, ◌++◌, ◌+◌, ◌<◌, ◌≤◌, [], true, false, length, take, drop, slice_index, if◌then◌else◌, IsErr, IsErrOf, IfOk, IfErr, IfSome, IfNone, OnOk, OnErr, List, ℕ};
ghost use Rattle.std.specs.Io.KnownBytes.{Consumes, Keeps, IsAtEnd};
ghost use Rattle.a429_word.specs.Tally.{left_of, has_failed, unread};
ghost use Rattle.a429_record.specs.Ends.{HasNoEnd};

use crate::binary::{MAGIC, begins_magic};
use crate::fault::ReadFault;
use crate::format::Format;
use a429_word::{Device, Tally};
use memchr::memchr;
use std::alloc::AllocError;
use std::io::Read;

// How many bytes `front` gives, and where the last of them begin that the buffer has.
const FRONT: usize = 32;

const LAST_FRONT: usize = 16384 - FRONT;

/// A buffer of a reader's bytes: those from `at` to `filled` were read and not yet used.
#[derive(Drop)]
pub struct Lines {
    buffer: [u8; 16384],
    at: usize,
    filled: usize,
    ghost ordered: { at ≤ filled },
    ghost in_range: { filled ≤ 16384 },
}

impl Lines {
    ghost use Rattle.a429_record.specs.Lines.{ahead_of, pending, pending_of, room_of, HandsBytes, HandsLine, FailsAfter, Chooses, IsMagicFront, IsShort, IsNothing};
    ghost use Rattle.a429_record.specs.declared.fault.ReadFault.TheVariants as fault;

    /// An empty buffer.
    pub fn new() -> Self
        ensures { ahead_of result ≡ [] }
    {
        Lines {
            buffer: [0; 16384],
            at: 0,
            filled: 0,
        }
    }

    /// Reads until the bytes choose the format. The eight bytes that a binary recording begins with are passed
    /// then, those of a text are not.
    pub fn format<R: Read>(&mut self, rec: &mut Tally<R>) -> Result<Format, ReadFault>
        requires none { ahead_of self.old ≡ [] }
        requires works { has_failed rec.old ≡ false }
        ensures chosen { IfOk result (λ f. Chooses f (pending_of R.remaining self.old rec.old) (pending_of R.remaining self.new rec.new)) }
        ensures room { OnOk result (room_of self.new rec.new ≤ room_of self.old rec.old) }
        ensures err { IfErr result (λ f. f ≡ fault.Device) }
        ensures before { OnErr result (FailsAfter IsMagicFront R.remaining self.old rec.old rec.new) }
        ensures device { IsErr result ↔ (has_failed rec.new ≡ true) }
    {
        self.at = 0;
        self.filled = 0;
        'bytes: while self.filled < MAGIC.len() {
            match self.read_on(rec, MAGIC.len()) {
                Ok(true) => {}
                Ok(false) => return Ok(Format::Text),
                Err(Device) => return Err(ReadFault::Device),
            }
            if !begins_magic(&self.buffer[..self.filled]) {
                return Ok(Format::Text);
            }
        }
        self.at = MAGIC.len();
        Ok(Format::Binary)
    }

    // Reads more bytes, up to this place of the buffer at most, and returns whether there were any.
    fn read_on<R: Read>(&mut self, rec: &mut Tally<R>, end: usize) -> Result<bool, Device>
        requires start { self.old.at ≡ 0 }
        requires some { self.old.filled < end }
        requires fits { end ≤ 16384 }
        ensures start { self.new.at ≡ 0 }
        ensures filled { IfOk result (λ more. (self.new.filled ≤ end) × (more ≡ false → self.new.filled ≡ self.old.filled)) }
        ensures more { IfOk result (λ more. more ≡ true → self.old.filled < self.new.filled) }
        ensures came { OnOk result ((came : List ℕ) × (take self.new.filled self.new.buffer ≡ take self.old.filled self.old.buffer ++ came)
            × Consumes (unread R.remaining rec.old) (unread R.remaining rec.new) came) }
        ensures end { IfOk result (λ more. more ≡ false → IsAtEnd (unread R.remaining rec.new)) }
        ensures none { OnErr result (Keeps (unread R.remaining rec.old) (unread R.remaining rec.new)) }
        ensures left { OnOk result (left_of rec.new + self.new.filled ≡ left_of rec.old + self.old.filled) }
        ensures device { IsErr result ↔ (has_failed rec.new ≡ true) }
    {
        let n = rec.pull(&mut self.buffer[self.filled..end])?;
        self.filled += n;
        Ok(n > 0)
    }

    /// Whether there is another byte. It is read, but not passed.
    pub fn is_more<R: Read>(&mut self, rec: &mut Tally<R>) -> Result<bool, ReadFault>
        requires { has_failed rec.old ≡ false }
        ensures keeps { OnOk result (Keeps (pending_of R.remaining self.old rec.old) (pending_of R.remaining self.new rec.new)) }
        ensures some { IfOk result (λ more. more ≡ true → 0 < length (ahead_of self.new)) }
        ensures end { IfOk result (λ more. more ≡ false → IsAtEnd (pending_of R.remaining self.new rec.new)) }
        ensures room { OnOk result (room_of self.new rec.new ≡ room_of self.old rec.old) }
        ensures err { IfErr result (λ f. f ≡ fault.Device) }
        ensures before { OnErr result (FailsAfter IsNothing R.remaining self.old rec.old rec.new) }
        ensures device { IsErr result ↔ (has_failed rec.new ≡ true) }
    {
        if self.at < self.filled {
            return Ok(true);
        }
        match self.refill(rec) {
            Ok(more) => Ok(more),
            Err(Device) => Err(ReadFault::Device),
        }
    }

    /// Fills `bytes`, or its beginning where fewer are left, and returns how many bytes there were.
    pub fn fill<R: Read>(
        &mut self,
        rec: &mut Tally<R>,
        bytes: &mut [u8],
    ) -> Result<usize, ReadFault>
        requires { has_failed rec.old ≡ false }
        ensures size { length bytes.new ≡ length bytes.old }
        ensures most { IfOk result (λ n. n ≤ length bytes.new) }
        ensures takes { IfOk result (λ n. HandsBytes (take n bytes.new) (pending R.remaining self.old rec.old self.new rec.new)) }
        ensures end { IfOk result (λ n. n < length bytes.new → IsAtEnd (pending_of R.remaining self.new rec.new)) }
        ensures room { IfOk result (λ n. room_of self.new rec.new + n ≡ room_of self.old rec.old) }
        ensures err { IfErr result (λ f. f ≡ fault.Device) }
        ensures before { OnErr result (FailsAfter (IsShort (length bytes.new)) R.remaining self.old rec.old rec.new) }
        ensures device { IsErr result ↔ (has_failed rec.new ≡ true) }
    {
        let mut at = 0;
        'parts: loop {
            at += self.take_bytes(&mut bytes[at..]);
            if at == bytes.len() {
                return Ok(at);
            }
            match self.refill(rec) {
                Ok(true) => {}
                Ok(false) => return Ok(at),
                Err(Device) => return Err(ReadFault::Device),
            }
        }
    }

    // Moves bytes from the buffer to `bytes`, as many as both have room for, and returns their number.
    fn take_bytes(&mut self, bytes: &mut [u8]) -> usize
        ensures size { length bytes.new ≡ length bytes.old }
        ensures most { result ≤ length bytes.new }
        ensures takes { ahead_of self.old ≡ take result bytes.new ++ ahead_of self.new }
        ensures all { result < length bytes.new → ahead_of self.new ≡ [] }
    {
        let ahead = &self.buffer[self.at..self.filled];
        let n = ahead.len().min(bytes.len());
        bytes[..n].copy_from_slice(&ahead[..n]);
        self.at += n;
        n
    }

    /// Reads the next line, without its line feed, into `line`, and returns whether there was one.
    pub fn next_line<R: Read>(
        &mut self,
        rec: &mut Tally<R>,
        line: &mut Vec<u8>,
    ) -> Result<bool, ReadFault>
        requires { has_failed rec.old ≡ false }
        ensures takes { IfOk result (λ found. found ≡ true → HandsLine line.new.items (pending R.remaining self.old rec.old self.new rec.new)) }
        ensures end { IfOk result (λ found. found ≡ false → IsAtEnd (pending_of R.remaining self.old rec.old)) }
        ensures room { IfOk result (λ found. found ≡ true → room_of self.new rec.new < room_of self.old rec.old) }
        ensures err { IfErr result (λ f. (f ≡ fault.Device) ⊎ (f ≡ fault.OutOfMemory)) }
        ensures before { IsErrOf result fault.Device → FailsAfter HasNoEnd R.remaining self.old rec.old rec.new }
        ensures device { IsErrOf result fault.Device ↔ (has_failed rec.new ≡ true) }
    {
        line.clear();
        'parts: loop {
            let Ok(ended) = self.take_part(line) else {
                return Err(ReadFault::OutOfMemory);
            };
            if ended {
                return Ok(true);
            }
            let Ok(more) = self.refill(rec) else {
                return Err(ReadFault::Device);
            };
            if !more {
                return Ok(!line.is_empty());
            }
        }
    }

    /// The bytes that were read and not yet used.
    #[inline(always)]
    pub fn ahead(&self) -> &[u8]
        ensures { result.now ≡ ahead_of self.now }
    {
        &self.buffer[self.at..self.filled]
    }

    /// 32 bytes of the buffer, which begin with those that were read and not yet used; none near the end of the buffer.
    #[inline(always)]
    pub fn front(&self) -> Option<&[u8]>
        ensures size { IfSome result (λ bytes. length bytes.now ≡ 32) }
        ensures begins { IfSome result (λ bytes. (n : ℕ) → n ≤ 32 → n ≤ length (ahead_of self.now) → take n bytes.now ≡ take n (ahead_of self.now)) }
    {
        if self.at > LAST_FRONT {
            return None;
        }
        Some(&self.buffer[self.at..self.at + FRONT])
    }

    /// Passes this many of the bytes that were read.
    #[inline(always)]
    pub fn pass(&mut self, count: usize)
        requires { count ≤ length (ahead_of self.old) }
        ensures { ahead_of self.new ≡ drop count (ahead_of self.old) }
    {
        self.at += count;
    }

    // Adds what was read of the line to `line`, and returns whether the line ends there.
    fn take_part(&mut self, line: &mut Vec<u8>) -> Result<bool, AllocError>
        ensures part { IfOk result (λ ended. (part : List ℕ) × HasNoEnd part × (line.new.items ≡ line.old.items ++ part)
            × (ahead_of self.old ≡ part ++ (if ended then 10 ∷ [] else []) ++ ahead_of self.new)) }
        ensures ahead { IfOk result (λ ended. ended ≡ false → ahead_of self.new ≡ []) }
    {
        let ahead = &self.buffer[self.at..self.filled];
        match line_end(ahead) {
            Some(n) => {
                line.extend_from_slice(&ahead[..n])?;
                self.at += n + 1;
                Ok(true)
            }
            None => {
                line.extend_from_slice(ahead)?;
                self.at = self.filled;
                Ok(false)
            }
        }
    }

    // Reads more bytes into the empty buffer, and returns whether there were any.
    fn refill<R: Read>(&mut self, rec: &mut Tally<R>) -> Result<bool, Device>
        requires { ahead_of self.old ≡ [] }
        ensures keeps { OnOk result (Keeps (pending_of R.remaining self.old rec.old) (pending_of R.remaining self.new rec.new)) }
        ensures end { IfOk result (λ more. more ≡ false → IsAtEnd (pending_of R.remaining self.new rec.new)) }
        ensures none { OnErr result (Keeps (unread R.remaining rec.old) (unread R.remaining rec.new)) }
        ensures left { IfOk result (λ more. more ≡ true → left_of rec.new < left_of rec.old) }
        ensures room { OnOk result (room_of self.new rec.new ≡ room_of self.old rec.old) }
        ensures device { IsErr result ↔ (has_failed rec.new ≡ true) }
    {
        let n = rec.pull(&mut self.buffer)?;
        self.at = 0;
        self.filled = n;
        Ok(n > 0)
    }
}

// Where the first line feed is.
fn line_end(bytes: &[u8]) -> Option<usize>
    ensures found { IfSome result (λ n. (n < length bytes.now) × HasNoEnd (take n bytes.now) × (slice_index bytes.now n ≡ 10)) }
    ensures none { IfNone result (HasNoEnd bytes.now) }
{
    memchr(b'\n', bytes)
}
