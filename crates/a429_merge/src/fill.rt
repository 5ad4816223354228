//! Data words, filled up so that they make a block.

ghost use Rattle.std.specs.Prelude.{◌≡◌, ◌≤◌, ◌<◌, ◌↔◌, [], ◌∷◌, ◌++◌, ℕ, List, IfOk, IfSome, IfNone, IsTrue, length};
ghost use Rattle.a429_ldu.specs.Semis.{AreSemis};
ghost use Rattle.a429_merge.specs.Fill.{Fits, IsFilled, CanBeFilled, HasNoFreeWord, HasOneByte, semis_of_number, data_word, filler, rest_filled};

use crate::free_bits::bits_for_check_word;
use a429_ldu::{Form, Semis, bytes_of, check_word_by, word_of};
use a429_profile::Profile;
use a429_word::Word;
use std::alloc::{AllocError, Global};

/// What the data words of a block must be.
#[derive(Clone, Copy, Debug)]
pub struct Wanted {
    /// How many data words.
    pub count: usize,
    /// With this check word, where one is wanted.
    pub check: Option<u16>,
}

/// The wanted data words, which have those recorded in their order. `None` where these are too many, where they are as
/// many as wanted and do not fit, and where they are fewer, no free word before them makes them fit, and no two data words of
/// one semi-octet each do where two are wanted.
pub fn completed(
    alloc: Global,
    profile: &Profile,
    recorded: &[Word],
    wanted: Wanted,
) -> Result<Option<Vec<Word>>, AllocError>
    ensures some { IfOk result (λ found. IfSome found (λ v. IsFilled profile.now wanted.count wanted.check recorded.now v.items)) }
    ensures whole { IfOk result (λ found. IfNone found (length recorded.now ≡ wanted.count → ¬ Fits profile.now wanted.check recorded.now)) }
    ensures filled { IfOk result (λ found. IfNone found (length recorded.now < wanted.count
        → HasNoFreeWord profile.now wanted.check (rest_filled profile.now.codes wanted.count recorded.now))) }
    ensures one_byte { IfOk result (λ found. IfNone found (wanted.count ≡ 2 → length recorded.now < 2 → ¬ HasOneByte profile.now wanted.check recorded.now)) }
{
    let found = filled_in_front(alloc, profile, recorded, wanted)?;
    if found.is_some() || wanted.count != 2 || recorded.len() >= 2 {
        return Ok(found);
    }
    of_one_byte(alloc, profile, recorded, wanted)
}

// The recorded data words where they are as many as wanted, and else a free word, those recorded and words of two semi-octets 0.
fn filled_in_front(
    alloc: Global,
    profile: &Profile,
    recorded: &[Word],
    wanted: Wanted,
) -> Result<Option<Vec<Word>>, AllocError>
    ensures some { IfOk result (λ found. IfSome found (λ v. IsFilled profile.now wanted.count wanted.check recorded.now v.items)) }
    ensures none { IfOk result (λ found. IfNone found (¬ CanBeFilled profile.now wanted.count wanted.check recorded.now)) }
{
    if recorded.len() < wanted.count {
        return fill(alloc, profile, recorded, wanted);
    }
    if recorded.len() == wanted.count && fits(alloc, profile, recorded, wanted.check)? {
        return Ok(Some(Vec::from_slice(alloc, recorded)?));
    }
    Ok(None)
}

// Two data words, more than were recorded, of which one that was not recorded has one semi-octet. Only where the lowest bit of the
// polynomial is 0 they may fit although no words do that `fill` makes: fewer check words are those of two bytes then.
fn of_one_byte(
    alloc: Global,
    profile: &Profile,
    recorded: &[Word],
    wanted: Wanted,
) -> Result<Option<Vec<Word>>, AllocError>
    requires two { wanted.count ≡ 2 }
    ensures some { IfOk result (λ found. IfSome found (λ v. IsFilled profile.now wanted.count wanted.check recorded.now v.items)) }
    ensures none { IfOk result (λ found. IfNone found ((last : ℕ) → last < 16 → ¬ CanBeFilled profile.now 2 wanted.check (recorded.now ++ data_word profile.now.codes (last ∷ []) ∷ []))) }
{
    for last in 0..16 {
        let mut words = Vec::from_slice(alloc, recorded)?;
        words.push(numbered_word(profile, 1, last))?;
        let found = filled_in_front(alloc, profile, &words, wanted)?;
        if found.is_some() {
            return Ok(found);
        }
    }
    Ok(None)
}

// Whether data words carry bytes, with this check word where one is wanted.
fn fits(
    alloc: Global,
    profile: &Profile,
    words: &[Word],
    wanted: Option<u16>,
) -> Result<bool, AllocError>
    ensures { IfOk result (λ yes. IsTrue yes ↔ Fits profile.now wanted words.now) }
{
    let Some(bytes) = bytes_of(alloc, profile, words)? else {
        return Ok(false);
    };
    match wanted {
        Some(check) => Ok(check == check_word_by(profile.check_tables(), &bytes)),
        None => Ok(true),
    }
}

// The wanted data words, more than were recorded: a free word, those recorded, and words of two semi-octets 0. The free
// word gives them the wanted check word and makes their semi-octets even in number.
fn fill(
    alloc: Global,
    profile: &Profile,
    recorded: &[Word],
    wanted: Wanted,
) -> Result<Option<Vec<Word>>, AllocError>
    requires { length recorded.now < wanted.count }
    ensures some { IfOk result (λ found. IfSome found (λ v. IsFilled profile.now wanted.count wanted.check recorded.now v.items)) }
    ensures none { IfOk result (λ found. IfNone found (HasNoFreeWord profile.now wanted.check (rest_filled profile.now.codes wanted.count recorded.now))) }
{
    let rest = rest_filled(alloc, profile, recorded, wanted.count)?;
    let Some(word) = free_word(alloc, profile, &rest, wanted.check)? else {
        return Ok(None);
    };
    let mut words = Vec::with_capacity(alloc, wanted.count)?;
    words.push(word)?;
    words.extend_from_slice(&rest)?;
    Ok(Some(words))
}

// The recorded words, and words of two semi-octets 0 up to one fewer than so many words.
fn rest_filled(
    alloc: Global,
    profile: &Profile,
    recorded: &[Word],
    count: usize,
) -> Result<Vec<Word>, AllocError>
    requires { length recorded.now < count }
    ensures { IfOk result (λ v. v.items ≡ rest_filled profile.now.codes count recorded.now) }
{
    let filler = filler(profile);
    let mut rest = Vec::with_capacity(alloc, count - 1)?;
    rest.extend_from_slice(recorded)?;
    while rest.len() < count - 1 {
        rest.push(filler)?;
    }
    Ok(rest)
}

// The data word of two semi-octets 0.
fn filler(profile: &Profile) -> Word
    ensures { result ≡ filler profile.now.codes }
{
    numbered_word(profile, 2, 0)
}

// A data word that makes the rest fit when it comes before them: of five semi-octets where there is one, else of four,
// and so on.
fn free_word(
    alloc: Global,
    profile: &Profile,
    rest: &[Word],
    wanted: Option<u16>,
) -> Result<Option<Word>, AllocError>
    ensures some { IfOk result (λ found. IfSome found (λ w. Fits profile.now wanted (w ∷ rest.now))) }
    ensures none { IfOk result (λ found. IfNone found (HasNoFreeWord profile.now wanted rest.now)) }
{
    let mut size = 5;
    while size > 0 {
        let found = free_word_of(alloc, profile, rest, wanted, size)?;
        if found.is_some() {
            return Ok(found);
        }
        size -= 1;
    }
    Ok(None)
}

// The same with so many semi-octets.
fn free_word_of(
    alloc: Global,
    profile: &Profile,
    rest: &[Word],
    wanted: Option<u16>,
    size: usize,
) -> Result<Option<Word>, AllocError>
    requires some { 1 ≤ size }
    requires most { size ≤ 5 }
    ensures some { IfOk result (λ found. IfSome found (λ w. Fits profile.now wanted (w ∷ rest.now))) }
    ensures none { IfOk result (λ found. IfNone found ((semis : List ℕ) → AreSemis semis → length semis ≡ size
        → ¬ Fits profile.now wanted (data_word profile.now.codes semis ∷ rest.now))) }
{
    let _codes = profile.codes();
    let zeros = numbered_word(profile, size, 0);
    let mut words = Vec::with_capacity(alloc, rest.len() + 1)?;
    words.push(zeros)?;
    words.extend_from_slice(rest)?;
    let Some(bytes) = bytes_of(alloc, profile, &words)? else {
        return Ok(None);
    };
    let Some(check) = wanted else {
        return Ok(Some(zeros));
    };
    match bits_for_check_word(alloc, profile.check_tables(), &bytes, 4 * size, check)? {
        Some(bits) => Ok(Some(numbered_word(profile, size, bits))),
        None => Ok(None),
    }
}

// The data word whose semi-octets, so many, are the lowest bits of a number.
fn numbered_word(profile: &Profile, size: usize, number: u32) -> Word
    requires some { 1 ≤ size }
    requires most { size ≤ 5 }
    ensures { result ≡ data_word profile.now.codes (semis_of_number size number) }
{
    let digits = [
        (number & 15) as u8,
        (number >> 4 & 15) as u8,
        (number >> 8 & 15) as u8,
        (number >> 12 & 15) as u8,
        (number >> 16 & 15) as u8,
    ];
    match Semis::new(&digits[..size]) {
        Some(semis) => word_of(profile, &Form::Part(semis)),
        // Never: there are 1 to 5, each below 16.
        None => Word::default(),
    }
}
