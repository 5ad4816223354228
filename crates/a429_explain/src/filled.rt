//! A link data unit of which no attempt was recorded to its end.

ghost use Rattle.std.specs.Prelude.{◌≡◌, ◌≤◌, ◌++◌, ◌-◌, Some, IfOk, IfSome, IsSome, OnOk, length};
ghost use Rattle.a429_ldu.specs.declared.forms.Form.TheVariants.{Part};
ghost use Rattle.a429_ldu.specs.Form.{IsInRange, word_number};
ghost use Rattle.a429_ldu.specs.Carried.{semis_of_words};
ghost use Rattle.a429_ldu.specs.Ldu.{IsLdu, count_of};
ghost use Rattle.a429_explain.specs.Groups.{words_of_group};
ghost use Rattle.a429_explain.specs.Whole.{words_for};
ghost use Rattle.a429_explain.specs.Filled.{filled, unit_filled, fillers, zeros, are_odd, is_end, has_end, gfi_of, first_gfi, last_data, none_yet, last_with};

use crate::decoded::{Decoded, DecodedWord};
use crate::groups::{Group, Request};
use crate::whole::{Ends, unit_with};
use a429_ldu::{Form, Ldu, Semis, bytes_of, check_word_by, word_of};
use a429_profile::Profile;
use a429_word::Word;
use std::alloc::{AllocError, Global};
use std::marker::Model;

/// A link data unit whose block has so many words: its first data words are those of the last attempt that
/// recorded any, and filler words follow. `None` where an end word was recorded, where there are more data words than
/// that, or where no filler word can be added and the semi-octets are odd in number.
pub(crate) fn filled_unit(
    alloc: Global,
    decoded: &Decoded,
    request: Request,
) -> Result<Option<Ldu>, AllocError>
    requires { request.group.to ≤ length decoded.now.items }
    ensures exact { IfOk result (λ found. found ≡ filled decoded.now.profile request.count (words_for decoded.now request)) }
    ensures unit { IfOk result (λ found. IfSome found (λ u. IsLdu decoded.now.profile u)) }
    ensures count { IfOk result (λ found. IfSome found (λ u. count_of u ≡ request.count)) }
{
    let profile = decoded.profile();
    let group = request.group;
    if has_end(decoded, group) {
        return Ok(None);
    }
    let mut words = last_data(alloc, decoded, group)?;
    let is_odd = are_odd(alloc, profile, words.as_slice())?;
    fill(profile, &mut words, is_odd, request.count)?;
    let gfi = first_gfi(decoded, group);
    unit_filled(alloc, profile, gfi, words.as_slice(), request.count)
}

// An end word was recorded.
fn has_end(decoded: &Decoded, group: Group) -> bool
    requires { group.to ≤ length decoded.now.items }
    ensures { result ≡ has_end decoded.now.profile.codes (words_of_group decoded.now.items group) }
{
    for at in group.from..group.to {
        if is_end(&decoded.word(at).form) {
            return true;
        }
    }
    false
}

fn is_end(form: &Option<Form>) -> bool
    ensures { result ≡ is_end form.now }
{
    matches!(form, Some(Form::Eot { .. }))
}

// The general format identifier of the first start word, or 0.
fn first_gfi(decoded: &Decoded, group: Group) -> u8
    requires { group.to ≤ length decoded.now.items }
    ensures exact { result ≡ first_gfi decoded.now.profile.codes (words_of_group decoded.now.items group) }
    ensures fits { result ≤ 15 }
{
    for at in group.from..group.to {
        if let Some(gfi) = gfi_of(&decoded.word(at).form) {
            return gfi;
        }
    }
    0
}

// The general format identifier of a start word.
fn gfi_of(form: &Option<Form>) -> Option<u8>
    ensures exact { result ≡ gfi_of form.now }
    ensures fits { IfSome form.now IsInRange → IfSome result (λ gfi. gfi ≤ 15) }
{
    match *form {
        Some(Form::Sot { gfi, .. }) => Some(gfi),
        _ => None,
    }
}

// The data words of the last attempt that recorded any.
fn last_data(alloc: Global, decoded: &Decoded, group: Group) -> Result<Vec<Word>, AllocError>
    requires { group.to ≤ length decoded.now.items }
    ensures exact { IfOk result (λ words. words.items ≡ last_data decoded.now.profile.codes (words_of_group decoded.now.items group) none_yet) }
    ensures sound { IfOk result (λ words. IsSome (semis_of_words decoded.now.profile.codes words.items)) }
{
    // (for the proof: the profile is sound)
    let _profile = decoded.profile();
    let mut last = LastRecorded::new(alloc);
    for at in group.from..group.to {
        last.take(decoded.word(at))?;
    }
    Ok(last.into_words())
}

// The data words of the last attempt that recorded any, and whether the next one is the first of its
// attempt.
#[derive(Drop)]
struct LastRecorded {
    begins: bool,
    words: Vec<Word>,
}

impl Model for LastRecorded {
    ghost use Rattle.a429_explain.specs.Filled.{Last};

    ghost Value = { Last };

    ghost view = { λ a. record { begins = a.begins; words = a.words.items } };
}

impl LastRecorded {
    fn new(alloc: Global) -> LastRecorded
        ensures { result ≡ none_yet }
    {
        LastRecorded {
            begins: true,
            words: Vec::new(alloc),
        }
    }

    // Takes one more word.
    fn take(&mut self, decoded: DecodedWord) -> Result<(), AllocError>
        ensures { OnOk result (self.new ≡ last_with decoded.form decoded.word self.old) }
    {
        match decoded.form {
            Some(Form::Rts { .. }) => self.begins = true,
            Some(Form::Part(_)) => {
                if self.begins {
                    self.words.clear();
                }
                self.begins = false;
                self.words.push(decoded.word)?;
            }
            _ => {}
        }
        Ok(())
    }

    fn into_words(self) -> Vec<Word>
        ensures { result.items ≡ self.words }
    {
        self.words
    }
}

// The semi-octets of data words are odd in number.
fn are_odd(alloc: Global, profile: &Profile, words: &[Word]) -> Result<bool, AllocError>
    requires { IsSome (semis_of_words profile.now.codes words.now) }
    ensures { IfOk result (λ odd. odd ≡ are_odd profile.now.codes words.now) }
{
    // (for the proof: the profile is sound)
    let _codes = profile.codes();
    if words.is_empty() {
        return Ok(false);
    }
    let bytes = bytes_of(alloc, profile, words)?;
    Ok(bytes.is_none())
}

// Adds data words of two semi-octets 0 until there are as many as a block of so many words has. The last
// one has one semi-octet, where all others are odd in number.
fn fill(profile: &Profile, words: &mut Vec<Word>, is_odd: bool, count: u8) -> Result<(), AllocError>
    ensures { OnOk result (words.new.items ≡ words.old.items ++ fillers profile.now.codes is_odd (count - 2 - length words.old.items)) }
{
    let wanted = usize::from(count).saturating_sub(2);
    for at in words.len()..wanted {
        if let Some(word) = filler_word(profile, is_odd, wanted - (at + 1)) {
            words.push(word)?;
        }
    }
    Ok(())
}

// The filler word that so many more follow.
fn filler_word(profile: &Profile, is_odd: bool, more: usize) -> Option<Word>
    ensures { result ≡ Some (word_number profile.now.codes (Part (zeros is_odd more))) }
{
    let count = if is_odd && more == 0 { 1 } else { 2 };
    let semis = Semis::new(&[0, 0][..count])?;
    Some(word_of(profile, &Form::Part(semis)))
}

// The link data unit of these data words, with flags 0 and the check word of their bytes.
fn unit_filled(
    alloc: Global,
    profile: &Profile,
    gfi: u8,
    words: &[Word],
    count: u8,
) -> Result<Option<Ldu>, AllocError>
    requires { gfi ≤ 15 }
    ensures exact { IfOk result (λ found. found ≡ unit_filled profile.now count gfi words.now) }
    ensures unit { IfOk result (λ found. IfSome found (λ u. IsLdu profile.now u)) }
    ensures count { IfOk result (λ found. IfSome found (λ u. count_of u ≡ count)) }
{
    let Some(bytes) = bytes_of(alloc, profile, words)? else {
        return Ok(None);
    };
    let ends = Ends {
        start: Some(gfi),
        flags: 0,
        check: check_word_by(profile.check_tables(), bytes.as_slice()),
    };
    unit_with(alloc, profile, ends, words, count)
}
