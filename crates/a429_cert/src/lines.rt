//! The lines of a certificate, one after the other.

ghost use Rattle.std.specs.Prelude.{◌≡◌, ◌<◌, IsSome, drop, length, option_map, slice_get};
ghost use Rattle.a429_cert.specs.Lines.{certificate_lines, line_bytes};

use memchr::memchr;
use std::marker::Model;

/// A line of a certificate's text.
#[derive(Clone, Copy, Debug)]
pub enum TextLine<'a> {
    /// It comes without its line feed.
    Ended(&'a [u8]),
    /// The text ends in it: it has no line feed; or, from a `LineReader`, it has more than 2,287 bytes.
    Unended,
}

/// The text after the lines that were handed out.
#[derive(Drop)]
pub struct Lines<'a> {
    rest: &'a [u8],
}

impl<'a> Model for Lines<'a> {
    ghost use Rattle.std.specs.Prelude.{List, ℕ};

    ghost Value = { List ℕ };

    ghost view = { λ l. l.rest.now };
}

impl<'a> Lines<'a> {
    /// The lines of this text.
    pub fn new(text: &'a [u8]) -> Lines<'a>
        ensures { result ≡ text.now }
    {
        Lines { rest: text }
    }

    /// The next line, if there is one.
    pub fn next_line(&mut self) -> Option<TextLine<'a>>
        ensures given { option_map line_bytes result ≡ slice_get (certificate_lines self.old) 0 }
        ensures rest { certificate_lines self.new ≡ drop 1 (certificate_lines self.old) }
        ensures shorter { IsSome result → length self.new < length self.old }
    {
        if self.rest.is_empty() {
            return None;
        }
        match memchr(b'\n', self.rest) {
            Some(end) => {
                let (line, rest) = self.rest.split_at(end);
                self.rest = after_first(rest);
                Some(TextLine::Ended(line))
            }
            None => {
                self.rest = &[];
                Some(TextLine::Unended)
            }
        }
    }
}

// The bytes after the first.
fn after_first(text: &[u8]) -> &[u8]
    ensures { result.now ≡ drop 1 text.now }
{
    match text {
        [_, rest @ ..] => rest,
        [] => text,
    }
}
