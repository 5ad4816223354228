//! Lists of texts.

ghost use Rattle.std.specs.Prelude.{◌≡◌, bytes_eq};
ghost use Rattle.std.specs.List.{list_any};
ghost use Rattle.a429_import.specs.Texts.{has_text, has_twin};

use a429_profile::Text;
use std::marker::Model;

/// Texts that a map lists.
#[derive(Drop)]
pub struct Texts {
    texts: Vec<Text>,
}

impl Model for Texts {
    ghost use Rattle.std.specs.Prelude.{List, ℕ};

    ghost Value = { List (List ℕ) };

    ghost view = { λ t. t.texts.items };
}

impl Texts {
    /// The texts of this list, in its order.
    pub fn new(texts: Vec<Text>) -> Texts
        ensures { result ≡ texts.items }
    {
        Texts { texts }
    }

    /// Whether one of them has these bytes.
    pub fn has(&self, text: &[u8]) -> bool
        ensures { result ≡ has_text self.now text.now }
    {
        self.texts.iter().any(|one| is_text(one, text))
    }

    /// The texts, borrowed.
    pub fn as_slice(&self) -> &[Text]
        ensures { result.now ≡ self.now }
    {
        self.texts.as_slice()
    }
}

/// Whether one of some texts comes again after it.
pub(crate) fn has_twin(texts: &[Text]) -> bool
    ensures { result ≡ has_twin texts.now }
{
    for (i, text) in texts.iter().enumerate() {
        if is_among(text, &texts[i + 1..]) {
            return true;
        }
    }
    false
}

/// Whether a text is in both of two lists.
pub(crate) fn share(some: &[Text], others: &[Text]) -> bool
    ensures { result ≡ list_any (has_text others.now) some.now }
{
    some.iter().any(|text| is_among(text, others))
}

fn is_among(text: &Text, texts: &[Text]) -> bool
    ensures { result ≡ has_text texts.now text.now }
{
    texts
        .iter()
        .any(|one| is_text(one, text.as_str().as_bytes()))
}

fn is_text(one: &Text, text: &[u8]) -> bool
    ensures { result ≡ bytes_eq one.now text.now }
{
    one.as_str().as_bytes() == text
}
