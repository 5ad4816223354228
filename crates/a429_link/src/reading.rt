//! What a word says to the source or the sink.

ghost use Rattle.std.specs.Prelude.{◌≡◌, ◌↔◌, IsTrue, true};
ghost use Rattle.a429_ldu.specs.Form.{form_of, is_free};

use a429_ldu::{Form, Sight, form};
use a429_profile::Profile;
use a429_word::{Bus, Word};

/// The form of a word that is not free and has one.
#[inline(always)]
pub fn form_of(profile: &Profile, bus: Bus, word: Word) -> Option<Form>
    ensures { result ≡ form_of profile.now.codes bus word }
{
    match form(profile, bus, word) {
        Sight::Form(form) => Some(form),
        Sight::Free | Sight::NoForm => None,
    }
}

/// The transfer passes over the word.
pub(crate) fn is_free(profile: &Profile, bus: Bus, word: Word) -> bool
    ensures { IsTrue result ↔ (is_free profile.now.codes bus word ≡ true) }
{
    form(profile, bus, word) == Sight::Free
}
