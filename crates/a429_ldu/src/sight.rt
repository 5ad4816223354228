//! What a word says on a bus.

ghost use Rattle.std.specs.Prelude.{◌≡◌, ◌↔◌, IsTrue, Contains};
ghost use Rattle.a429_word.specs.Word.{label_of, HasOddParity};
ghost use Rattle.a429_profile.specs.Profile.{IsProfile};
ghost use Rattle.a429_ldu.specs.declared.forms.Form.{Form};
ghost use Rattle.a429_ldu.specs.Form.{address_of, form_of, IsFree, IsIgnored, IsForm};
ghost use Rattle.a429_ldu.specs.Sight.{full_in, sight_of};

use crate::forms::Form;
use crate::forms::fields::{Parts, parts_of};
use crate::forms::reading::{form_on, full_form};
use crate::forms::writing::address;
use a429_profile::{Codes, Profile};
use a429_word::{Bus, Word};

/// What a word is to the file transfer (ARINC 429 Part 3; which words are free: profile).
#[derive(Clone, Copy, Debug, PartialEq, Eq)]
pub enum Sight {
    /// A word that the transfer passes over: its parity is wrong, its label is not the address label of
    /// its bus, the profile ignores its type, or it is a protocol word, and the profile ignores its code.
    Free,
    /// A word of the transfer.
    Form(Form),
    /// A word that claims to be one of the transfer, and has no form.
    NoForm,
}

impl Sight {
    ghost use Rattle.std.specs.Prelude.{◌≡◌};
    ghost use Rattle.a429_ldu.specs.Sight.{form_in};

    /// The form of the word, where it has one.
    pub fn form(&self) -> Option<Form>
        ensures { result ≡ form_in self.now }
    {
        match self {
            Sight::Form(form) => Some(*form),
            Sight::Free | Sight::NoForm => None,
        }
    }
}

/// What a word is to the transfer on this bus (ARINC 429 Part 3; where its numbers are in it: profile). Each word is
/// exactly one of the three.
#[inline(always)]
pub fn form(profile: &Profile, bus: Bus, word: Word) -> Sight
    ensures free { (result ≡ Sight.Free) ↔ IsFree profile.now.codes bus word }
    ensures found { (x : Form) → result ≡ Sight.Form x → IsForm profile.now.codes bus word x }
    ensures only { (x : Form) → IsForm profile.now.codes bus word x → result ≡ Sight.Form x }
    ensures computed { result ≡ sight_of profile.now.codes bus word }
{
    seen(profile, bus, word)
}

/// The form of a word, where it is a full data word: one of five semi-octets on bus A, as most words of a recording are.
/// `None` for any other word. It takes less time than `form`.
#[inline(always)]
pub fn form_if_full(profile: &Profile, bus: Bus, word: Word) -> Option<Form>
    ensures { result ≡ full_in (form_of profile.now.codes bus word) }
{
    let codes = profile.codes();
    if bus == Bus::B {
        return None;
    }
    let parts = parts_of(word);
    if parts.kind != codes.full {
        return None;
    }
    if !is_addressed(codes, bus, word) {
        return None;
    }
    Some(full_form(parts))
}

// Full data words are tested first, since most words of a recording are such: no other form has their type. No profile
// ignores a word that has a form, so the ignored types and codes come last.
#[inline(always)]
fn seen(profile: &Profile, bus: Bus, word: Word) -> Sight
    ensures sight { result ≡ sight_of profile.now.codes bus word }
    ensures sound { IsProfile profile.now }
{
    let codes = profile.codes();
    if !is_addressed(codes, bus, word) {
        return Sight::Free;
    }
    let parts = parts_of(word);
    if parts.kind == codes.full {
        return match bus {
            Bus::A => Sight::Form(full_form(parts)),
            Bus::B => Sight::NoForm,
        };
    }
    match form_on(codes, codes.destination, bus, parts) {
        Some(form) => Sight::Form(form),
        None if is_ignored(codes, parts) => Sight::Free,
        None => Sight::NoForm,
    }
}

/// Whether a word has odd parity and the address label of its bus.
#[inline]
pub(crate) fn is_addressed(codes: &Codes, bus: Bus, word: Word) -> bool
    ensures { IsTrue result ↔ (HasOddParity word × (label_of word ≡ address_of codes.now bus)) }
{
    word.parity_ok() && word.label() == address(codes, bus)
}

// Whether the profile ignores words with these numbers.
#[inline(never)]
fn is_ignored(codes: &Codes, parts: Parts) -> bool
    ensures { IsTrue result ↔ IsIgnored codes.now parts.kind parts.upper }
{
    ignores_type(codes, parts) || ignores_code(codes, parts)
}

/// Whether the profile ignores words of this type.
#[inline]
pub(crate) fn ignores_type(codes: &Codes, parts: Parts) -> bool
    ensures { IsTrue result ↔ Contains codes.now.ignored_types parts.kind }
{
    codes.ignored_types.as_slice().contains(&parts.kind)
}

/// Whether these are numbers of a protocol word whose code the profile ignores.
#[inline]
pub(crate) fn ignores_code(codes: &Codes, parts: Parts) -> bool
    ensures { IsTrue result ↔ ((parts.kind ≡ codes.now.protocol) × Contains codes.now.ignored_codes parts.upper) }
{
    parts.kind == codes.protocol && codes.ignored_codes.as_slice().contains(&parts.upper)
}
