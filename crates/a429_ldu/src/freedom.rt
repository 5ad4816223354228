//! Why the transfer passes over a word.

ghost use Rattle.std.specs.Prelude.{◌≡◌, ◌≢◌, ◌↔◌, None};
ghost use Rattle.a429_ldu.specs.Form.{IsFree};
ghost use Rattle.a429_ldu.specs.Freedom.{freedom_of};

use crate::forms::fields::parts_of;
use crate::forms::writing::address;
use crate::sight::{ignores_code, ignores_type};
use a429_profile::Profile;
use a429_word::{Bus, Word};

/// Why the transfer passes over a word (profile), in the order in which it is tested.
#[derive(Clone, Copy, Debug)]
pub enum Freedom {
    /// Its parity is even: it is damaged.
    BadParity,
    /// Its label is not the address label of its bus.
    OtherLabel,
    /// The profile ignores its type.
    IgnoredType,
    /// It is a protocol word, and the profile ignores its code.
    IgnoredCode,
}

/// The first reason, in the order of `Freedom`, why the transfer passes over a word on a bus; `None` exactly
/// where it does not (profile).
pub fn why_free(profile: &Profile, bus: Bus, word: Word) -> Option<Freedom>
    ensures first { result ≡ freedom_of profile.now.codes bus word }
    ensures free { result ≢ None ↔ IsFree profile.now.codes bus word }
{
    let codes = profile.codes();
    if !word.parity_ok() {
        return Some(Freedom::BadParity);
    }
    if word.label() != address(codes, bus) {
        return Some(Freedom::OtherLabel);
    }
    let parts = parts_of(word);
    if ignores_type(codes, parts) {
        return Some(Freedom::IgnoredType);
    }
    if ignores_code(codes, parts) {
        return Some(Freedom::IgnoredCode);
    }
    None
}
