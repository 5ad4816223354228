//! Attempts to send a link data unit, as they were recorded.

ghost use Rattle.std.specs.Prelude.{◌≡◌, ◌<◌, ◌≤◌, [], ◌∷◌, IfOk, OnOk, Some, None, true, IsTrue, length, slice_get, take};
ghost use Rattle.a429_profile.specs.declared.codes.Codes.{Codes};
ghost use Rattle.a429_link.specs.Attempt.{attempts, fresh, latest};
ghost use Rattle.a429_search.specs.Recorded.{HasNoRequestBetween, IsAttemptFrom, IsRecorded, IsRequestAt, IsTaken, asked_at, gfi_of, number_of};

use a429_explain::Decoded;
use a429_ldu::Form;
use a429_link::{Seen, UnitNumber};
use a429_merge::EndWord;
use a429_word::{Bus, Word};
use std::alloc::{AllocError, Global};

/// What a start word says: the general format identifier, 0 to 15, and the number of its link data unit.
#[derive(Clone, Copy)]
pub(crate) struct StartWord {
    pub gfi: u8,
    pub number: UnitNumber,
}

/// A request, and what was recorded after it up to the next one. Of the words of a block those count that were recorded since its last
/// clear answer.
#[derive(Drop)]
pub(crate) struct Attempt {
    /// The entry of the request, counted from 0.
    pub at: usize,
    /// How many words it asks for, 3 to 255.
    pub count: u8,
    /// The start word, where one was recorded.
    pub start: Option<StartWord>,
    /// The data words, in their order.
    pub words: Vec<Word>,
    /// The end word, where one was recorded.
    pub end: Option<EndWord>,
    /// The entry of the acknowledgement, where one was recorded.
    pub acknowledged: Option<usize>,
}

/// The entry of the first request; without one, how many entries there are.
pub(crate) fn first_request(decoded: &Decoded) -> usize
    ensures inside { result ≤ length decoded.now.items }
    ensures request { result < length decoded.now.items → IsRequestAt decoded.now.profile decoded.now.items result }
    ensures none { attempts decoded.now.profile (take result decoded.now.items) ≡ latest decoded.now.profile (take result decoded.now.items) ∷ [] }
{
    for at in 0..decoded.len() {
        if requested(decoded, at).is_some() {
            return at;
        }
    }
    decoded.len()
}

/// The entry of the next request after this one; without one, how many entries there are.
pub(crate) fn next_request(decoded: &Decoded, from: usize) -> usize
    requires { from < length decoded.now.items }
    ensures later { from < result }
    ensures inside { result ≤ length decoded.now.items }
    ensures request { result < length decoded.now.items → IsRequestAt decoded.now.profile decoded.now.items result }
    ensures between { HasNoRequestBetween decoded.now.profile decoded.now.items from result }
{
    let end = decoded.len();
    for at in from + 1..end {
        if requested(decoded, at).is_some() {
            return at;
        }
    }
    end
}

/// The attempt of the request at entry `from`, with what was recorded after it before entry `to`, up to which no other request follows.
pub(crate) fn attempt_of(
    alloc: Global,
    decoded: &Decoded,
    from: usize,
    to: usize,
) -> Result<Attempt, AllocError>
    requires some { from < to }
    requires inside { to ≤ length decoded.now.items }
    requires request { IsRequestAt decoded.now.profile decoded.now.items from }
    requires between { HasNoRequestBetween decoded.now.profile decoded.now.items from to }
    ensures is { IfOk result (IsAttemptFrom decoded.now.profile decoded.now.items from to) }
    ensures at { IfOk result (λ a. a.at ≡ from) }
{
    let Some(count) = requested(decoded, from) else {
        unreachable!();
    };
    let mut attempt = Attempt::new(alloc, from, count);
    for at in from + 1..to {
        let seen = decoded.seen(at);
        attempt.take(at, &seen, decoded.word(at).form)?;
    }
    Ok(attempt)
}

// How many words the request at this entry asks for, where it is one.
fn requested(decoded: &Decoded, at: usize) -> Option<u8>
    requires { at < length decoded.now.items }
    ensures { result ≡ asked_at decoded.now.profile.codes (slice_get decoded.now.items at) }
{
    match (decoded.seen(at).bus, decoded.word(at).form) {
        (Bus::A, Some(Form::Rts { count })) => Some(count),
        _ => None,
    }
}

impl Attempt {
    /// A request, after which nothing was recorded yet.
    pub(crate) fn new(alloc: Global, at: usize, count: u8) -> Attempt
        ensures is { (c : Codes) → IsRecorded c (fresh count) result }
        ensures at { result.at ≡ at }
    {
        Attempt {
            at,
            count,
            start: None,
            words: Vec::new(alloc),
            end: None,
            acknowledged: None,
        }
    }

    /// The number of its start word.
    pub(crate) fn number(&self) -> Option<UnitNumber>
        ensures { result ≡ number_of self.now.start }
    {
        match self.start {
            Some(start) => Some(start.number),
            None => None,
        }
    }

    /// The general format identifier of its start word.
    pub(crate) fn gfi(&self) -> Option<u8>
        ensures { result ≡ gfi_of self.now.start }
    {
        match self.start {
            Some(start) => Some(start.gfi),
            None => None,
        }
    }

    /// Takes the next word of the attempt, of this entry and with this form or none.
    pub(crate) fn take(
        &mut self,
        at: usize,
        seen: &Seen,
        form: Option<Form>,
    ) -> Result<(), AllocError>
        ensures taken { OnOk result (IsTaken seen.now.bus seen.now.word form self.old self.new) }
        ensures at { self.new.at ≡ self.old.at }
    {
        match (seen.bus, form) {
            (Bus::A, Some(Form::Sot { gfi, file, ldu })) => {
                let ldu = u16::from(ldu);
                let number = UnitNumber { file, ldu };
                self.start = Some(StartWord { gfi, number });
            }
            (Bus::A, Some(Form::Part(_))) => self.words.push(seen.word)?,
            (Bus::A, Some(Form::Eot { flags, check })) => {
                self.end = Some(EndWord { flags, check });
            }
            (Bus::B, Some(Form::Cts { .. })) => {
                self.start = None;
                self.words.clear();
                self.end = None;
            }
            (Bus::B, Some(Form::Ack { .. })) => self.acknowledged = Some(at),
            _ => {}
        }
        Ok(())
    }
}
