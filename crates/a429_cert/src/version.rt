//! The versions of certificates.

ghost use Rattle.std.specs.Prelude.{◌≡◌, ◌≢◌, IfSome, None, Some, option_map};
ghost use Rattle.a429_cert.specs.Lines.{line_bytes};
ghost use Rattle.a429_cert.specs.Version.{version_line, read_as};

use crate::lines::TextLine;

/// The version of a certificate, which its first line names (profile). Version 2 has one more step: that the
/// source gives its file up.
#[derive(Clone, Copy, Debug)]
pub enum Version {
    One,
    Two,
}

impl Version {
    /// The version that a first line names, if it names one.
    pub fn of(line: Option<TextLine<'_>>) -> Option<Version>
        ensures named { IfSome result (λ v. option_map line_bytes line.entry ≡ Some (Some (version_line v))) }
        ensures none { result ≡ None → (v : Version) → option_map line_bytes line.entry ≢ Some (Some (version_line v)) }
    {
        match line {
            Some(TextLine::Ended(text)) => Version::named(text),
            _ => None,
        }
    }

    fn named(text: &[u8]) -> Option<Version>
        ensures named { IfSome result (λ v. text.now ≡ version_line v) }
        ensures none { result ≡ None → (v : Version) → text.now ≢ version_line v }
    {
        if text == b"arinc429-cert 1".as_slice() {
            Some(Version::One)
        } else if text == b"arinc429-cert 2".as_slice() {
            Some(Version::Two)
        } else {
            None
        }
    }

    /// What a line says, where it ends and this version knows its step: version 1 has no step `x`.
    pub fn read(self, line: TextLine<'_>) -> Option<&[u8]>
        ensures { option_map (λ text. text.now) result ≡ read_as self (line_bytes line.entry) }
    {
        match line {
            TextLine::Ended([b'x', ..]) if self == Version::One => None,
            TextLine::Ended(text) => Some(text),
            TextLine::Unended => None,
        }
    }
}
