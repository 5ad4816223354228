//! Fields cut into pieces.

ghost use Rattle.std.specs.Prelude.{◌≡◌, ◌==◌, ◌<◌, ◌≤◌, IfSome, length, option_map};
ghost use Rattle.std.specs.List.{position};
ghost use Rattle.a429_import.specs.Piece.{piece_at, cut_out, without_prefix, IsPieceCounted};

/// A piece of a field (profile): the field is cut at each byte `at`.
#[derive(Clone, Copy, Debug)]
pub struct Piece {
    /// The byte at which the field is cut.
    pub at: u8,
    /// Which piece it is, from 1.
    pub number: u8,
}

impl Piece {
    /// This piece of a field, if it has so many.
    pub fn of(self, field: &[u8]) -> Option<&[u8]>
        requires { 1 ≤ self.number }
        ensures { option_map (λ p. p.now) result ≡ piece_at self field.now }
    {
        let mut rest = field;
        'pieces: for _before in 1..self.number {
            let end = end_of(rest, self.at)?;
            rest = &rest[end + 1..];
        }
        match end_of(rest, self.at) {
            Some(end) => Some(&rest[..end]),
            None => Some(rest),
        }
    }
}

// The place of the first such byte.
pub(crate) fn end_of(text: &[u8], at: u8) -> Option<usize>
    ensures inside { IfSome result (λ e. e < length text.now) }
    ensures first { result ≡ position (λ b. b == at) text.now }
{
    text.iter().position(|byte| *byte == at)
}

/// A piece of a field, or all of it.
pub(crate) fn cut_out(piece: Option<Piece>, field: &[u8]) -> Option<&[u8]>
    requires { IsPieceCounted piece }
    ensures { option_map (λ p. p.now) result ≡ cut_out piece field.now }
{
    match piece {
        Some(piece) => piece.of(field),
        None => Some(field),
    }
}

/// What comes after a prefix, if a text begins with it.
pub(crate) fn without_prefix<'a>(text: &'a [u8], prefix: &[u8]) -> Option<&'a [u8]>
    ensures { option_map (λ t. t.now) result ≡ without_prefix prefix.now text.now }
{
    text.strip_prefix(prefix)
}
