//! The lines of a certificate that is read as a stream, by a buffer of a fixed size.

ghost use Rattle.std.specs.Prelude.{◌≡◌, ◌+◌, ◌⊎◌, ℕ, List, MatchOption, ◌<◌, ◌≤◌, ◌∷◌, ◌++◌, [], Some, None, true, false, length, drop, slice_get, IsErr, IsSome, IfOk, IfSome, IfNone, OnOk, OnErr, Ok, ◌≢◌};
ghost use Rattle.std.specs.Io.KnownBytes.{Keeps, IsAtEnd};
ghost use Rattle.a429_word.specs.Tally.{left_of, has_failed, unread};
ghost use Rattle.a429_cert.specs.Likely.{SaysAlways};
ghost use Rattle.a429_cert.specs.LikelyLine.{text_in, IsLikelyLine};
ghost use Rattle.a429_cert.specs.Lines.{line_bytes};
ghost use Rattle.a429_cert.specs.CutLines.{GivesLine, BeginsWith, cut};
ghost use Rattle.a429_record.specs.Ends.{HasNoEnd};

use crate::likely::LikelyLine;
use crate::line::MovedLine;
use crate::lines::TextLine;
use a429_word::{Device, Tally};
use memchr::memchr;
use std::io::Read;

// The 2,287 bytes of the longest line, and its line feed.
const ROOM: usize = 2288;

/// What was read of a certificate: the line that was handed out last, with its line feed, from `at` to
/// `next`, and what is ahead of it, from `next` to `filled`. Both are empty at first.
#[derive(Drop)]
pub struct LineReader {
    buffer: [u8; ROOM],
    at: usize,
    next: usize,
    filled: usize,
    ghost begun: { at ≤ next },
    ghost ordered: { next ≤ filled },
    ghost in_range: { filled ≤ 2288 },
}

/// Whether a line was handed out, and what it says, where that was foreseen.
#[derive(Clone, Copy, Drop)]
pub(crate) struct NextLine {
    pub found: bool,
    pub known: Option<MovedLine>,
}

impl LineReader {
    ghost use Rattle.a429_cert.specs.LineReader.{bytes_ahead, held_line, to_come, room_left};

    /// Nothing was read, and no line is held.
    pub fn new() -> LineReader
        ensures ahead { bytes_ahead result ≡ [] }
        ensures line { held_line result ≡ None }
    {
        LineReader {
            buffer: [0; ROOM],
            at: 0,
            next: 0,
            filled: 0,
        }
    }

    /// The line that was handed out last. It is unended where the text ends in it, and where it has more
    /// than 2,287 bytes.
    pub fn line(&self) -> TextLine<'_>
        ensures { line_bytes result ≡ held_line self.now }
    {
        if self.at < self.next {
            TextLine::Ended(&self.buffer[self.at..self.next - 1])
        } else {
            TextLine::Unended
        }
    }

    /// Hands out the next line of a certificate, and answers whether there was one. An unended line stays
    /// where it is. Of a line without a line feed no more than 2,288 bytes are read.
    #[inline(always)]
    pub fn next_line<R: Read>(&mut self, cert: &mut Tally<R>) -> Result<bool, Device>
        ensures given { IfOk result (GivesLine (to_come R.remaining self.old cert.old) (to_come R.remaining self.new cert.new)
            (held_line self.new)) }
        ensures shorter { OnOk result (IsSome (held_line self.new) → room_left self.new cert.new < room_left self.old cert.old) }
        ensures room { IfOk result (λ found. found ≡ true → 0 < room_left self.old cert.old) }
        ensures kept { result ≢ Ok true → Keeps (to_come R.remaining self.old cert.old) (to_come R.remaining self.new cert.new) }
        ensures part { IsErr result → HasNoEnd (bytes_ahead self.new) }
        ensures few { length (bytes_ahead self.new) ≤ 2288 }
        ensures works { IfOk result (λ found. found ≡ false → has_failed cert.new ≡ false) }
        ensures device { IsErr result → has_failed cert.new ≡ true }
        ensures stays { has_failed cert.old ≡ true → has_failed cert.new ≡ true }
    {
        'reads: loop {
            if self.take_line() {
                return Ok(true);
            }
            if !self.read_on(cert)? {
                return Ok(!self.buffer[self.next..self.filled].is_empty());
            }
        }
    }

    /// The same, where this line likely comes next: then it is only held against what was read.
    #[inline(always)]
    pub(crate) fn next_near<R: Read>(
        &mut self,
        cert: &mut Tally<R>,
        likely: Option<LikelyLine<'_>>,
    ) -> Result<NextLine, Device>
        requires { IfSome likely IsLikelyLine }
        ensures given { IfOk result (λ n. GivesLine (to_come R.remaining self.old cert.old) (to_come R.remaining self.new cert.new)
            (held_line self.new) n.found) }
        ensures shorter { OnOk result (IsSome (held_line self.new) → room_left self.new cert.new < room_left self.old cert.old) }
        ensures room { IfOk result (λ n. n.found ≡ true → 0 < room_left self.old cert.old) }
        ensures known { IfOk result (λ n. IfSome n.known (SaysAlways (held_line self.new))) }
        ensures ended { IfOk result (λ n. n.found ≡ false → Keeps (to_come R.remaining self.old cert.old) (to_come R.remaining self.new cert.new)) }
        ensures kept { IsErr result → Keeps (to_come R.remaining self.old cert.old) (to_come R.remaining self.new cert.new) }
        ensures part { IsErr result → HasNoEnd (bytes_ahead self.new) }
        ensures few { length (bytes_ahead self.new) ≤ 2288 }
        ensures works { IfOk result (λ n. n.found ≡ false → has_failed cert.new ≡ false) }
        ensures device { IsErr result → has_failed cert.new ≡ true }
        ensures stays { has_failed cert.old ≡ true → has_failed cert.new ≡ true }
    {
        if let Some(line) = self.take_likely(likely) {
            return Ok(NextLine {
                found: true,
                known: Some(line),
            });
        }
        Ok(NextLine {
            found: self.next_line(cert)?,
            known: None,
        })
    }

    /// The letters that the next line has for its step and for the source, where as much of it was read.
    #[inline(always)]
    pub(crate) fn letters(&self) -> Option<(u8, u8)>
        ensures some { IfSome result (λ x. (slice_get (bytes_ahead self.now) 0 ≡ Some x.0) × (slice_get (bytes_ahead self.now) 2 ≡ Some x.1)) }
        ensures none { IfNone result (length (bytes_ahead self.now) < 3) }
    {
        match &self.buffer[self.next..self.filled] {
            [step, _, source, ..] => Some((*step, *source)),
            _ => None,
        }
    }

    // Hands out the next line, where it is this one.
    #[inline(always)]
    fn take_likely(&mut self, likely: Option<LikelyLine<'_>>) -> Option<MovedLine>
        requires { IfSome likely IsLikelyLine }
        ensures yes { IsSome result → BeginsWith (bytes_ahead self.old) (held_line self.new) (bytes_ahead self.new) }
        ensures line { IsSome result → IsSome (held_line self.new) × (cut (held_line self.new) ≡ held_line self.new) }
        ensures short { IsSome result → length (bytes_ahead self.new) < length (bytes_ahead self.old) }
        ensures known { IfSome result (SaysAlways (held_line self.new)) }
        ensures no { IfNone result (self.new ≡ self.old) }
    {
        match likely {
            Some(likely) if self.take_text(likely) => Some(likely.line),
            _ => None,
        }
    }

    // Hands out the next line, where it is the text of this one and was read.
    #[inline(always)]
    fn take_text(&mut self, likely: LikelyLine<'_>) -> bool
        ensures yes { result ≡ true → bytes_ahead self.old ≡ text_in likely.entry ++ 10 ∷ bytes_ahead self.new }
        ensures line { result ≡ true → held_line self.new ≡ Some (text_in likely.entry) }
        ensures no { result ≡ false → self.new ≡ self.old }
    {
        match line_ahead(&self.buffer[self.next..self.filled], likely) {
            Some(len) => {
                self.at = self.next;
                self.next += len + 1;
                true
            }
            None => false,
        }
    }

    /// Hands out the next two lines, where they are this text, with their line feeds, and were read. Neither is held.
    #[inline(always)]
    pub(crate) fn take_both(&mut self, text: &[u8]) -> bool
        ensures yes { result ≡ true → bytes_ahead self.old ≡ text.now ++ bytes_ahead self.new }
        ensures few { length (bytes_ahead self.old) ≤ 2288 }
        ensures no { result ≡ false → self.new ≡ self.old }
    {
        if self.buffer[self.next..self.filled].starts_with(text) {
            self.next += text.len();
            self.at = self.next;
            true
        } else {
            false
        }
    }

    // Hands out the next line, where its line feed was read.
    #[inline(always)]
    fn take_line(&mut self) -> bool
        ensures yes { result ≡ true → BeginsWith (bytes_ahead self.old) (held_line self.new) (bytes_ahead self.new) }
        ensures line { result ≡ true → IsSome (held_line self.new) × (cut (held_line self.new) ≡ held_line self.new) }
        ensures short { result ≡ true → length (bytes_ahead self.new) < length (bytes_ahead self.old) }
        ensures no { result ≡ false → HasNoEnd (bytes_ahead self.old) }
        ensures same { result ≡ false → bytes_ahead self.new ≡ bytes_ahead self.old }
    {
        self.at = self.next;
        match memchr(b'\n', &self.buffer[self.next..self.filled]) {
            Some(len) => {
                self.next += len + 1;
                true
            }
            None => false,
        }
    }

    // Reads on after what is ahead, and answers whether something came: at the certificate's end, and
    // where there is no room, nothing does.
    fn read_on<R: Read>(&mut self, cert: &mut Tally<R>) -> Result<bool, Device>
        ensures line { held_line self.new ≡ None }
        ensures keeps { Keeps (to_come R.remaining self.old cert.old) (to_come R.remaining self.new cert.new) }
        ensures failed { OnErr result (bytes_ahead self.new ≡ bytes_ahead self.old) }
        ensures same { IfOk result (λ more. more ≡ false → bytes_ahead self.new ≡ bytes_ahead self.old) }
        ensures end { IfOk result (λ more. more ≡ false → (2288 ≤ length (bytes_ahead self.new)) ⊎ IsAtEnd (unread R.remaining cert.new)) }
        ensures works { IfOk result (λ more. more ≡ false → (2288 ≤ length (bytes_ahead self.new)) ⊎ (has_failed cert.new ≡ false)) }
        ensures left { IfOk result (λ more. more ≡ true → left_of cert.new < left_of cert.old) }
        ensures room { OnOk result (room_left self.new cert.new ≡ room_left self.old cert.old) }
        ensures device { IsErr result → has_failed cert.new ≡ true }
        ensures stays { has_failed cert.old ≡ true → has_failed cert.new ≡ true }
    {
        self.make_room();
        if self.filled == ROOM {
            return Ok(false);
        }
        let n = cert.pull(&mut self.buffer[self.filled..])?;
        self.filled += n;
        Ok(n > 0)
    }

    // Forgets the line that was handed out, and moves what is ahead of it to the front.
    fn make_room(&mut self)
        ensures ahead { bytes_ahead self.new ≡ bytes_ahead self.old }
        ensures front { self.new.next ≡ 0 }
        ensures len { length (bytes_ahead self.new) ≡ self.new.filled }
        ensures line { held_line self.new ≡ None }
    {
        self.buffer.copy_within(self.next..self.filled, 0);
        self.filled -= self.next;
        self.at = 0;
        self.next = 0;
    }
}

// How long the line is, without its line feed, that bytes begin with, where it is the text of this one.
#[inline(always)]
fn line_ahead(bytes: &[u8], likely: LikelyLine<'_>) -> Option<usize>
    ensures text { IfSome result (λ len. bytes.now ≡ text_in likely.entry ++ 10 ∷ drop (len + 1) bytes.now) }
    ensures len { IfSome result (λ len. len ≡ length (text_in likely.entry)) }
    ensures inside { IfSome result (λ len. len < length bytes.now) }
{
    if bytes.is_empty() || bytes[0] != likely.letter {
        return None;
    }
    let ways = after(&bytes[1..], likely.source)?;
    let rest = after(ways, likely.ways)?;
    if rest.is_empty() || rest[0] != b'\n' {
        return None;
    }
    Some(bytes.len() - rest.len())
}

// What comes after these bytes, where a text begins with them.
#[inline(always)]
fn after<'t>(text: &'t [u8], front: &[u8]) -> Option<&'t [u8]>
    ensures { MatchOption result ((rest : List ℕ) → text.now ≢ front.now ++ rest) (λ rest. text.now ≡ front.now ++ rest.now) }
{
    text.strip_prefix(front)
}
