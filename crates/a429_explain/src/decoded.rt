//! What each recorded word is.

ghost use Rattle.std.specs.Prelude.{◌≡◌, ◌<◌, Some, IfSome, length, slice_get};
ghost use Rattle.a429_profile.specs.Profile.{IsProfile};
ghost use Rattle.a429_ldu.specs.Form.{IsInRange};
ghost use Rattle.a429_cert.specs.Explained.{items_of};
ghost use Rattle.a429_explain.specs.Decoded.{sight_at, IsHeardAt};

use a429_cert::seen;
use a429_ldu::{Form, Sight, form};
use a429_link::Seen;
use a429_profile::Profile;
use a429_record::Entry;
use a429_word::Word;
use std::marker::Model;

/// A recorded word, and its form where it has one.
#[derive(Clone, Copy, Debug)]
pub struct DecodedWord {
    pub word: Word,
    pub form: Option<Form>,
}

/// A recording under the profile of its bench. What a word is, is computed where it is asked for.
#[derive(Drop)]
pub struct Decoded<'a> {
    profile: &'a Profile,
    entries: &'a [Entry],
}

impl<'a> Model for Decoded<'a> {
    ghost use Rattle.a429_cert.specs.Explained.{items_of};
    ghost use Rattle.a429_explain.specs.Decoded.{HeardValue};

    ghost Value = { HeardValue };

    ghost view = { λ h. record { profile = h.profile.now; items = items_of h.entries.now } };
}

impl<'a> Decoded<'a> {
    /// These entries, recorded at a bench of this profile.
    pub(crate) fn new(profile: &'a Profile, entries: &'a [Entry]) -> Decoded<'a>
        ensures { result ≡ record { profile = profile.now; items = items_of entries.now } }
    {
        Decoded { profile, entries }
    }

    /// The profile of the bench.
    pub fn profile(&self) -> &'a Profile
        ensures is { result.now ≡ self.now.profile }
        ensures sound { IsProfile self.now.profile }
    {
        // (for the proof: the profile is sound)
        let _codes = self.profile.codes();
        self.profile
    }

    /// How many words were recorded.
    #[inline(always)]
    pub fn len(&self) -> usize
        ensures { result ≡ length self.now.items }
    {
        self.entries.len()
    }

    /// What the word at this place is, counted from 0.
    #[inline(always)]
    pub fn sight(&self, at: usize) -> Sight
        requires { at < length self.now.items }
        ensures { result ≡ sight_at self.now.profile.codes (slice_get self.now.items at) }
    {
        let Seen { bus, word } = self.seen(at);
        form(self.profile, bus, word)
    }

    /// The word at this place, and its bus.
    #[inline(always)]
    pub fn seen(&self, at: usize) -> Seen
        requires { at < length self.now.items }
        ensures { slice_get self.now.items at ≡ Some result }
    {
        let entries = self.entries;
        seen(entries[at])
    }

    /// The word at this place, and its form.
    #[inline(always)]
    pub fn word(&self, at: usize) -> DecodedWord
        requires { at < length self.now.items }
        ensures is { IsHeardAt self.now.profile.codes self.now.items at result }
        ensures range { IfSome result.form IsInRange }
    {
        // (for the proof: the profile is sound)
        let _codes = self.profile.codes();
        let word = self.seen(at).word;
        let form = self.sight(at).form();
        DecodedWord { word, form }
    }
}
