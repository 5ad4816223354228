//! The bytes that data words carry.

ghost use Rattle.std.specs.Prelude.{◌≡◌, ◌≤◌, ◌<◌, ◌+◌, ◌*◌, ◌^◌, ◌++◌, [], ◌∷◌, List, ℕ, Ok, Some, None, IfOk, IfSome, option_map, length, take, true, false};
ghost use Rattle.arrayvec.specs.ArrayVec.{array_vec_len};
ghost use Rattle.a429_word.specs.Word.{label_of, HasOddParity};
ghost use Rattle.a429_word.specs.declared.bus.Bus.TheVariants as bus;
ghost use Rattle.a429_profile.specs.Profile.{IsProfile};
ghost use Rattle.a429_ldu.specs.Semis.{five_of};
ghost use Rattle.a429_ldu.specs.Form.{fields_of, full_fields, form_of};
ghost use Rattle.a429_ldu.specs.Carried.{CarryBytes, semis_in, semis_of_words, semis_held, AddSemis, semis_count, paired, if_some, bytes_carried, semis_in_words};
ghost use Rattle.a429_ldu.specs.Ldu.{most_data_words};

use crate::forms::Form;
use crate::forms::fields::parts_of;
use crate::semis::Semis;
use crate::sight::{Sight, form, is_addressed};
use a429_profile::{Codes, Profile};
use a429_word::{Bus, Word};
use arrayvec::ArrayVec;
use std::alloc::{AllocError, Global};

/// The bytes of the data words of one block: 632 at most.
pub type BlockBytes = ArrayVec<u8, 632>;

/// The bytes that words carry (ARINC 429 Part 3): their semi-octets make bytes, of each the low one
/// first (profile). `None` where one is no data word of bus A, or the semi-octets are odd in number, or
/// there are no words. The error is out of memory.
pub fn bytes_of(
    alloc: Global,
    profile: &Profile,
    words: &[Word],
) -> Result<Option<Vec<u8>>, AllocError>
    ensures some { IfOk result (λ found. IfSome found (λ bytes. CarryBytes profile.now.codes words.now bytes.items)) }
    ensures none { result ≡ Ok None → (bytes : List ℕ) → ¬ CarryBytes profile.now.codes words.now bytes }
    ensures computed { IfOk result (λ found. option_map (λ bytes. bytes.items) found ≡ bytes_carried profile.now.codes words.now) }
{
    let mut bytes = Vec::with_capacity(alloc, words.len() * 5 / 2)?;
    let mut low = None;
    // (252 words: there has to be room for one more semi-octet, the one that waits)
    for piece in words.chunks(252) {
        let mut made = BlockBytes::new();
        let Some(left) = carry(profile, piece, low, &mut made) else {
            return Ok(None);
        };
        bytes.extend_from_slice(&made)?;
        low = left;
    }
    if are_whole(&bytes, low) {
        Ok(Some(bytes))
    } else {
        Ok(None)
    }
}

/// The bytes that words carry, as `bytes_of` returns them, without taking memory: for at most 253 words, as many
/// data words as a block may have.
pub fn block_bytes(profile: &Profile, words: &[Word]) -> Option<BlockBytes>
    requires { length words.now ≤ most_data_words }
    ensures some { IfSome result (λ bytes. CarryBytes profile.now.codes words.now bytes.items) }
    ensures none { result ≡ None → (bytes : List ℕ) → ¬ CarryBytes profile.now.codes words.now bytes }
    ensures computed { option_map (λ bytes. bytes.items) result ≡ bytes_carried profile.now.codes words.now }
{
    let mut bytes = BlockBytes::new();
    let paired = carry_pairs(profile, words, &mut bytes);
    let low = carry(profile, &words[paired..], None, &mut bytes)?;
    if are_whole(&bytes, low) {
        Some(bytes)
    } else {
        None
    }
}

/// How many semi-octets at most 253 words carry; 0 where one is no data word of bus A. It takes no memory.
pub fn count_semis(profile: &Profile, words: &[Word]) -> usize
    requires { length words.now ≤ most_data_words }
    ensures { result ≡ semis_in_words profile.now.codes words.now }
{
    let mut bytes = BlockBytes::new();
    match carry(profile, words, None, &mut bytes) {
        Some(low) => count_held(&bytes, low),
        None => 0,
    }
}

// How many semi-octets are those of bytes, and of one that waits.
fn count_held(bytes: &[u8], low: Option<u8>) -> usize
    requires { length bytes.now ≤ 632 }
    ensures { result ≡ semis_count (length bytes.now) low }
{
    match low {
        Some(_) => 2 * bytes.len() + 1,
        None => 2 * bytes.len(),
    }
}

// Adds the bytes of full data words of bus A, five for each two, up to the first pair in which one is another word.
// Returns how many words these are.
#[inline(never)]
fn carry_pairs(profile: &Profile, words: &[Word], bytes: &mut BlockBytes) -> usize
    requires room { 2 * array_vec_len bytes.old + 5 * length words.now ≤ 1265 }
    ensures within { result ≤ length words.now }
    ensures room { 2 * array_vec_len bytes.new ≤ 2 * array_vec_len bytes.old + 5 * result }
    ensures semis { AddSemis profile.now.codes (take result words.now) (semis_held bytes.old.items None) (semis_held bytes.new.items None) }
{
    let codes = profile.codes();
    let mut at = 0;
    'pairs: while at + 1 < words.len() {
        let Some(first) = full_number(codes, words[at]) else {
            return at;
        };
        let Some(second) = full_number(codes, words[at + 1]) else {
            return at;
        };
        let low = push_full(bytes, None, first);
        push_full(bytes, low, second);
        at += 2;
    }
    at
}

// Adds the bytes that the words' semi-octets make. `low` is a semi-octet that still waits for the high one of its
// byte; the one that waits at the end is returned, for the next words. `None` where a word is no data word of bus A.
fn carry(
    profile: &Profile,
    words: &[Word],
    low: Option<u8>,
    bytes: &mut BlockBytes,
) -> Option<Option<u8>>
    requires low { IfSome low (λ digit. digit < 16) }
    requires room { semis_count (array_vec_len bytes.old) low + 5 * length words.now ≤ 1265 }
    ensures semis { IfSome result (λ rest. AddSemis profile.now.codes words.now (semis_held bytes.old.items low) (semis_held bytes.new.items rest)) }
    ensures low { IfSome result (λ rest. IfSome rest (λ digit. digit < 16)) }
    ensures none { result ≡ None → semis_of_words profile.now.codes words.now ≡ None }
    ensures sound { IsProfile profile.now }
{
    let codes = profile.codes();
    let mut waiting = low;
    for word in words {
        if let Some(number) = full_number(codes, *word) {
            waiting = push_full(bytes, waiting, number);
        } else {
            let semis = semis_of(profile, *word)?;
            waiting = push_semis(bytes, waiting, &semis);
        }
    }
    Some(waiting)
}

// Bits 9 to 28 of a full data word of bus A as one number: its five semi-octets. `None` for any other
// word.
fn full_number(codes: &Codes, word: Word) -> Option<u32>
    ensures fields { IfSome result (λ n. fields_of word ≡ full_fields codes.now n) }
    ensures range { IfSome result (λ n. n < 2 ^ 20) }
    ensures label { IfSome result (λ _. label_of word ≡ codes.now.to_sink) }
    ensures parity { IfSome result (λ _. HasOddParity word) }
    ensures word { word < 2 ^ 32 }
{
    if parts_of(word).kind == codes.full && is_addressed(codes, Bus::A, word) {
        Some(word.to_u32() >> 8 & 0xF_FFFF)
    } else {
        None
    }
}

// The semi-octets of a data word of bus A; `None` for any other word.
#[inline(never)]
fn semis_of(profile: &Profile, word: Word) -> Option<Semis>
    ensures { result ≡ semis_in (form_of profile.now.codes bus.A word) }
{
    match form(profile, Bus::A, word) {
        Sight::Form(form) => semis_in(&form),
        Sight::Free | Sight::NoForm => None,
    }
}

fn semis_in(form: &Form) -> Option<Semis>
    ensures { result ≡ semis_in (Some form.now) }
{
    match form {
        Form::Part(semis) => Some(*semis),
        _ => None,
    }
}

// Adds the bytes that five semi-octets make: two, and the last semi-octet waits for the first of the next word; or
// three, where one waited before.
fn push_full(bytes: &mut BlockBytes, low: Option<u8>, number: u32) -> Option<u8>
    requires low { IfSome low (λ digit. digit < 16) }
    requires number { number < 2 ^ 20 }
    requires room { semis_count (array_vec_len bytes.old) low + 5 ≤ 1265 }
    ensures bytes { semis_held bytes.new.items result ≡ semis_held bytes.old.items low ++ five_of number }
    ensures low { IfSome result (λ digit. digit < 16) }
{
    match low {
        None => {
            bytes.push((number & 0xff) as u8);
            bytes.push((number >> 8 & 0xff) as u8);
            Some((number >> 16) as u8)
        }
        Some(low) => {
            let joined = number << 4 | u32::from(low);
            bytes.push((joined & 0xff) as u8);
            bytes.push((joined >> 8 & 0xff) as u8);
            bytes.push((joined >> 16) as u8);
            None
        }
    }
}

// Adds the bytes that semi-octets make, and returns the semi-octet that waits then, if one does.
#[inline(never)]
fn push_semis(bytes: &mut BlockBytes, low: Option<u8>, semis: &Semis) -> Option<u8>
    requires low { IfSome low (λ digit. digit < 16) }
    requires room { semis_count (array_vec_len bytes.old) low + 5 ≤ 1265 }
    ensures bytes { semis_held bytes.new.items result ≡ semis_held bytes.old.items low ++ semis.now }
    ensures low { IfSome result (λ digit. digit < 16) }
    ensures most { semis_count (array_vec_len bytes.new) result ≤ semis_count (array_vec_len bytes.old) low + 5 }
{
    let digits = semis.as_slice();
    let mut waiting = low;
    for digit in digits {
        waiting = push_digit(bytes, waiting, *digit);
    }
    waiting
}

fn push_digit(bytes: &mut BlockBytes, low: Option<u8>, digit: u8) -> Option<u8>
    requires low { IfSome low (λ digit. digit < 16) }
    requires digit { digit < 16 }
    requires room { semis_count (array_vec_len bytes.old) low + 1 ≤ 1265 }
    ensures bytes { semis_held bytes.new.items result ≡ semis_held bytes.old.items low ++ digit ∷ [] }
    ensures low { IfSome result (λ digit. digit < 16) }
{
    match low {
        None => Some(digit),
        Some(low) => {
            bytes.push(digit << 4 | low);
            None
        }
    }
}

// Whether there are some bytes, and no semi-octet is left over.
fn are_whole(bytes: &[u8], low: Option<u8>) -> bool
    ensures yes { result ≡ true → if_some (paired (semis_held bytes.now low)) ≡ Some bytes.now }
    ensures no { result ≡ false → if_some (paired (semis_held bytes.now low)) ≡ None }
{
    low.is_none() && !bytes.is_empty()
}
