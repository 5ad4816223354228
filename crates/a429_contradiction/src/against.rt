//! What a word is held against that no run records after those before it.

ghost use Rattle.std.specs.Prelude.{◌≡◌, ◌<◌, [], ℕ, false, Ok, Some, None, IfOk, IfSome, length};
ghost use Rattle.a429_cert.specs.Explained.{items_of};
ghost use Rattle.a429_explain.specs.Walk.{AreAllowedUpTo};
ghost use Rattle.a429_ldu.specs.Form.{form_of};
ghost use Rattle.a429_link.specs.Implied.{implied_at_first, implies, implies_form, observer_of};
ghost use Rattle.a429_link.specs.Observer.{Allows, at_first, sees};
ghost use Rattle.a429_link.specs.Contradiction.{IsOtherForm, none_so_far, so_far_after};
ghost use Rattle.a429_link.specs.WholeBlock.{ComesForm, data_words};
ghost use Rattle.a429_contradiction.specs.Against.{AllowsIfForm, IsAcked, IsHeldAfter, IsHeldAt, IsHeldForm, IsWordAt, StartsNumber, acked_after, as_against, by_doing, known_by};
ghost use Rattle.a429_contradiction.specs.Contradiction.{Contradicts};
ghost use Rattle.a429_contradiction.specs.SoFar.{data_after, unheard};

use crate::contradiction::Witness;
use crate::rival::{Rival, rival_of};
use crate::so_far::number_of;
use a429_cert::seen;
use a429_explain::walk::{Halt, walk};
use a429_explain::{Decoded, Reason};
use a429_ldu::Form;
use a429_link::{Doing, ImpliedSink, Next, Seen, UnitNumber, Why, form_of};
use a429_profile::Profile;
use a429_record::Entry;
use a429_word::{Bus, Word};
use std::alloc::{AllocError, Global};

/// What a word is held against that no run records after those before it. Entries are counted from 0.
#[derive(Clone, Copy, Debug)]
pub enum Against {
    /// `NoForm`, `NotGranted` and `WrongAnswer`: these may come in its place.
    Allowed(Next),
    /// `BadBlock`: the data words of its block have so many semi-octets, which are those of no bytes.
    Semis(usize),
    /// `BadBlock`: the check word that it has, and that of the bytes of its block.
    Check {
        recorded: u16,
        of_bytes: u16,
    },
    /// `WrongNumber`: the number is not that of a file's first link data unit, and none was acknowledged before.
    NotFirst(UnitNumber),
    /// `WrongNumber`: the number may not come after that which was acknowledged last, at this entry.
    AfterAck {
        number: UnitNumber,
        last: UnitNumber,
        entry: usize,
    },
    /// `WrongNumber`: the source cannot have gone to the number from that of this start word, at this entry.
    AfterStart {
        number: UnitNumber,
        last: UnitNumber,
        start: Word,
        entry: usize,
    },
    /// `OtherBlock`: the start word of the same number was another one, at this entry.
    OtherStart {
        word: Word,
        start: Word,
        entry: usize,
    },
    /// `OtherBlock`: so many words are asked for, and before this start word, at this entry, it were so many others.
    OtherCount {
        count: u8,
        before: u8,
        start: Word,
        entry: usize,
    },
    /// `OtherBlock`: the end word of the same link data unit was another one, at this entry.
    OtherEnd {
        word: Word,
        end: Word,
        entry: usize,
    },
    /// `NoRun`: an earlier attempt, of which no link data unit has the words and those of the last.
    Rival(Rival),
    /// `OtherBlock`: the block of the link data unit, whose end word is this one, at this entry, goes on with another word, and
    /// does not have this one later.
    OtherWord {
        word: Word,
        next: Word,
        end: Word,
        entry: usize,
    },
}

/// The acknowledgement that was recorded last.
#[derive(Clone, Copy)]
pub(crate) struct Acked {
    pub number: UnitNumber,
    pub entry: usize,
}

// What the words so far have shown.
#[derive(Drop)]
struct Watch {
    witness: Witness,
    sink: ImpliedSink,
    acked: Option<Acked>,
}

/// What the word of an entry is held against which no run records after those before it, by the reason that `decide` gives
/// with this entry. `None` where nothing is known.
pub fn held_against(
    alloc: Global,
    profile: &Profile,
    entries: &[Entry],
    entry: usize,
    reason: Reason,
) -> Result<Option<Against>, AllocError>
    requires { entry < length entries.now }
    ensures { IfOk result (λ found. IfSome found (IsHeldAt profile.now (items_of entries.now) entry reason)) }
{
    match reason {
        Reason::NoRun => rival_at(alloc, profile, entries, entry),
        _ => held_before(alloc, profile, entries, entry, reason),
    }
}

// The attempt that the one of this entry is held against.
fn rival_at(
    alloc: Global,
    profile: &Profile,
    entries: &[Entry],
    entry: usize,
) -> Result<Option<Against>, AllocError>
    requires { entry < length entries.now }
    ensures { IfOk result (λ found. IfSome found (IsHeldAt profile.now (items_of entries.now) entry Reason.NoRun)) }
{
    match walk(alloc, profile, &entries[..entry + 1]) {
        Ok(decoded) => {
            let found = rival_of(alloc, &decoded)?;
            Ok(as_against(found))
        }
        Err(Halt { .. }) => Ok(None),
    }
}

fn as_against(found: Option<Rival>) -> Option<Against>
    ensures { result ≡ as_against found }
{
    match found {
        Some(rival) => Some(Against::Rival(rival)),
        None => None,
    }
}

// What the word of an entry is held against, by those before it.
fn held_before(
    alloc: Global,
    profile: &Profile,
    entries: &[Entry],
    entry: usize,
    reason: Reason,
) -> Result<Option<Against>, AllocError>
    requires { entry < length entries.now }
    ensures { IfOk result (λ found. IfSome found (IsHeldAt profile.now (items_of entries.now) entry reason)) }
{
    match walk(alloc, profile, &entries[..entry]) {
        Ok(before) => held_after(alloc, &before, seen(entries[entry]), reason),
        Err(Halt { .. }) => Ok(None),
    }
}

// What a word is held against that comes after these.
fn held_after(
    alloc: Global,
    before: &Decoded,
    seen: Seen,
    reason: Reason,
) -> Result<Option<Against>, AllocError>
    requires { AreAllowedUpTo before.now.profile before.now.items (length before.now.items) }
    ensures { IfOk result (λ found. IfSome found (IsHeldAfter before.now.profile before.now.items seen reason)) }
{
    let profile = before.profile();
    let mut watch = Watch::new(alloc);
    for entry in 0..before.len() {
        let seen = before.seen(entry);
        let stops = watch.take(alloc, profile, entry, &seen)?;
        if stops {
            return Ok(None);
        }
    }
    let form = form_of(profile, seen.bus, seen.word);
    watch.held(alloc, before, &seen, form, reason)
}

impl Watch {
    fn new(alloc: Global) -> Watch
        ensures observer { result.witness.observer ≡ at_first }
        ensures so_far { result.witness.so_far ≡ none_so_far }
        ensures parts { result.witness.parts ≡ [] }
        ensures sink { result.sink ≡ implied_at_first }
        ensures acked { result.acked ≡ None }
    {
        Watch {
            witness: Witness::new(alloc),
            sink: ImpliedSink::new(alloc),
            acked: None,
        }
    }

    // Takes the word of an entry. `true` where it contradicts those before it, or they do not allow it.
    fn take(
        &mut self,
        alloc: Global,
        profile: &Profile,
        entry: usize,
        seen: &Seen,
    ) -> Result<bool, AllocError>
        requires { self.old.witness.parts ≡ data_words profile.now.codes self.old.witness.so_far.attempt.words }
        ensures none { result ≡ Ok false → (reason : Reason) → ¬ Contradicts profile.now self.old.witness.observer self.old.witness.so_far seen.now.bus seen.now.word (form_of profile.now.codes seen.now.bus seen.now.word) reason }
        ensures observer { result ≡ Ok false → Allows profile.now self.old.witness.observer seen.now → self.new.witness.observer ≡ sees profile.now seen.now self.old.witness.observer }
        ensures so_far { result ≡ Ok false → unheard self.new.witness.so_far ≡ unheard (so_far_after seen.now.bus seen.now.word (form_of profile.now.codes seen.now.bus seen.now.word) self.old.witness.so_far) }
        ensures parts { result ≡ Ok false → self.new.witness.parts ≡ data_after seen.now.bus seen.now.word (form_of profile.now.codes seen.now.bus seen.now.word) self.old.witness.parts }
        ensures allowed { result ≡ Ok false → AllowsIfForm (observer_of self.old.sink) seen.now.bus (form_of profile.now.codes seen.now.bus seen.now.word) }
        ensures sink { result ≡ Ok false → self.new.sink ≡ implies profile.now seen.now self.old.sink }
        ensures acked { result ≡ Ok false → self.new.acked ≡ acked_after entry seen.now.bus (form_of profile.now.codes seen.now.bus seen.now.word) self.old.acked }
    {
        let form = form_of(profile, seen.bus, seen.word);
        let found = self.witness.look(profile, seen, form)?;
        if found.is_some() {
            return Ok(true);
        }
        self.follow(alloc, profile, entry, seen)
    }

    // The sink takes the word of an entry, and an acknowledgement is kept. `true` where the words before it do not allow it.
    fn follow(
        &mut self,
        alloc: Global,
        profile: &Profile,
        entry: usize,
        seen: &Seen,
    ) -> Result<bool, AllocError>
        ensures witness { self.new.witness ≡ self.old.witness }
        ensures allowed { result ≡ Ok false → AllowsIfForm (observer_of self.old.sink) seen.now.bus (form_of profile.now.codes seen.now.bus seen.now.word) }
        ensures sink { result ≡ Ok false → self.new.sink ≡ implies profile.now seen.now self.old.sink }
        ensures acked { result ≡ Ok false → self.new.acked ≡ acked_after entry seen.now.bus (form_of profile.now.codes seen.now.bus seen.now.word) self.old.acked }
    {
        match form_of(profile, seen.bus, seen.word) {
            Some(form) => self.follow_form(alloc, profile, entry, *seen, &form),
            None => Ok(false),
        }
    }

    // The same of a word of this form.
    fn follow_form(
        &mut self,
        alloc: Global,
        profile: &Profile,
        entry: usize,
        seen: Seen,
        form: &Form,
    ) -> Result<bool, AllocError>
        ensures witness { self.new.witness ≡ self.old.witness }
        ensures allowed { result ≡ Ok false → AllowsIfForm (observer_of self.old.sink) seen.bus (Some form.now) }
        ensures sink { result ≡ Ok false → self.new.sink ≡ implies_form profile.now seen.bus seen.word (Some form.now) self.old.sink }
        ensures acked { result ≡ Ok false → self.new.acked ≡ acked_after entry seen.bus (Some form.now) self.old.acked }
    {
        if !self.sink.allows(seen.bus, form) {
            return Ok(true);
        }
        self.acked = acked_after(entry, seen.bus, form, self.acked);
        self.sink.take(alloc, profile, seen, form)?;
        Ok(false)
    }

    // What a word is held against that has this form or none, by its reason.
    fn held(
        &mut self,
        alloc: Global,
        before: &Decoded,
        seen: &Seen,
        form: Option<Form>,
        reason: Reason,
    ) -> Result<Option<Against>, AllocError>
        requires parts { self.old.witness.parts ≡ data_words before.now.profile.codes self.old.witness.so_far.attempt.words }
        requires acked { IsAcked before.now.profile before.now.items self.old.acked self.old.witness.observer }
        ensures { IfOk result (λ found. IfSome found (IsHeldForm before.now.profile (known_by self.old.sink self.old.witness.observer self.old.witness.so_far) before.now.items seen.now.bus seen.now.word form reason)) }
    {
        match reason {
            Reason::NoForm | Reason::NotGranted | Reason::WrongAnswer => {
                Ok(Some(Against::Allowed(self.sink.next())))
            }
            Reason::BadBlock => self.bad(alloc, before, seen, form),
            Reason::WrongNumber => Ok(self.wrong(before, seen, form)),
            Reason::OtherBlock => Ok(self.other(before, seen, form)),
            Reason::NoRun => Ok(None),
        }
    }

    // Why a block is that of no link data unit which this word ends, or whose last data word it is.
    fn bad(
        &mut self,
        alloc: Global,
        before: &Decoded,
        seen: &Seen,
        form: Option<Form>,
    ) -> Result<Option<Against>, AllocError>
        requires { self.old.witness.parts ≡ data_words before.now.profile.codes self.old.witness.so_far.attempt.words }
        ensures { IfOk result (λ found. IfSome found (IsHeldForm before.now.profile (known_by self.old.sink self.old.witness.observer self.old.witness.so_far) before.now.items seen.now.bus seen.now.word form Reason.BadBlock)) }
    {
        let Some(form) = form else {
            return Ok(None);
        };
        self.bad_form(alloc, before, *seen, &form)
    }

    // The same of a word of this form.
    fn bad_form(
        &mut self,
        alloc: Global,
        before: &Decoded,
        seen: Seen,
        form: &Form,
    ) -> Result<Option<Against>, AllocError>
        requires { self.old.witness.parts ≡ data_words before.now.profile.codes self.old.witness.so_far.attempt.words }
        ensures { IfOk result (λ found. IfSome found (IsHeldForm before.now.profile (known_by self.old.sink self.old.witness.observer self.old.witness.so_far) before.now.items seen.bus seen.word (Some form.now) Reason.BadBlock)) }
    {
        match (seen.bus, *form) {
            (Bus::A, Form::Eot { flags, check }) => {
                self.bad_end(alloc, before, seen.word, flags, check)
            }
            (Bus::A, Form::Part(_)) => {
                self.witness.parts.take(seen, form)?;
                let count = self.witness.so_far.count();
                match self.witness.parts.half(before.profile(), count) {
                    Some(semis) => Ok(Some(Against::Semis(semis))),
                    None => Ok(None),
                }
            }
            _ => Ok(None),
        }
    }

    // The same of an end word with these flags and this check word.
    fn bad_end(
        &mut self,
        alloc: Global,
        before: &Decoded,
        word: Word,
        flags: u8,
        check: u16,
    ) -> Result<Option<Against>, AllocError>
        ensures { IfOk result (λ found. IfSome found (IsHeldForm before.now.profile (known_by self.old.sink self.old.witness.observer self.old.witness.so_far) before.now.items Bus.A word (Some (Form.Eot flags check)) Reason.BadBlock)) }
    {
        let form = Form::Eot { flags, check };
        let seen = Seen { bus: Bus::A, word };
        if !self.sink.allows(Bus::A, &form) {
            return Ok(None);
        }
        let doing = self.sink.take(alloc, before.profile(), seen, &form)?;
        Ok(by_doing(check, doing))
    }

    // What the number of a start word is held against.
    fn wrong(&self, before: &Decoded, seen: &Seen, form: Option<Form>) -> Option<Against>
        requires { IsAcked before.now.profile before.now.items self.now.acked self.now.witness.observer }
        ensures { IfSome result (IsHeldForm before.now.profile (known_by self.now.sink self.now.witness.observer self.now.witness.so_far) before.now.items seen.now.bus seen.now.word form Reason.WrongNumber) }
    {
        match (seen.bus, form) {
            (Bus::A, Some(Form::Sot { gfi, file, ldu })) => {
                let form = Form::Sot { gfi, file, ldu };
                self.wrong_start(before, number_of(file, ldu), &form)
            }
            _ => None,
        }
    }

    // The same of a start word of this form, with this number.
    fn wrong_start(&self, before: &Decoded, number: UnitNumber, form: &Form) -> Option<Against>
        requires acked { IsAcked before.now.profile before.now.items self.now.acked self.now.witness.observer }
        requires starts { StartsNumber Bus.A (Some form.now) number }
        ensures { (word : ℕ) → IfSome result (IsHeldForm before.now.profile (known_by self.now.sink self.now.witness.observer self.now.witness.so_far) before.now.items Bus.A word (Some form.now) Reason.WrongNumber) }
    {
        let observer = &self.witness.observer;
        if observer.number_comes(before.profile(), Bus::A, form) {
            self.after_start(before, number, form)
        } else {
            Some(self.after_ack(before, number, form))
        }
    }

    // A number, of a start word of this form, that may not come after the one acknowledged last.
    fn after_ack(&self, before: &Decoded, number: UnitNumber, form: &Form) -> Against
        requires acked { IsAcked before.now.profile before.now.items self.now.acked self.now.witness.observer }
        requires starts { StartsNumber Bus.A (Some form.now) number }
        requires wrong { ¬ ComesForm before.now.profile.codes Bus.A (Some form.now) self.now.witness.observer.last }
        ensures { (word : ℕ) → IsHeldForm before.now.profile (known_by self.now.sink self.now.witness.observer self.now.witness.so_far) before.now.items Bus.A word (Some form.now) Reason.WrongNumber result }
    {
        match self.acked {
            Some(
                Acked {
                    number: last,
                    entry,
                },
            ) => Against::AfterAck {
                number,
                last,
                entry,
            },
            None => Against::NotFirst(number),
        }
    }

    // A number, of a start word of this form, to which the source cannot have gone from that of the start word before it.
    fn after_start(&self, before: &Decoded, number: UnitNumber, form: &Form) -> Option<Against>
        requires { StartsNumber Bus.A (Some form.now) number }
        ensures { (word : ℕ) → IfSome result (IsHeldForm before.now.profile (known_by self.now.sink self.now.witness.observer self.now.witness.so_far) before.now.items Bus.A word (Some form.now) Reason.WrongNumber) }
    {
        if !self.witness.so_far.is_wrong(Bus::A, form) {
            return None;
        }
        let unit = self.witness.so_far.unit()?;
        let entry = last_of(before, unit.start)?;
        Some(Against::AfterStart {
            number,
            last: unit.number,
            start: unit.start,
            entry,
        })
    }

    // What a word is held against that contradicts what was recorded of the same link data unit.
    fn other(&self, before: &Decoded, seen: &Seen, form: Option<Form>) -> Option<Against>
        ensures { IfSome result (IsHeldForm before.now.profile (known_by self.now.sink self.now.witness.observer self.now.witness.so_far) before.now.items seen.now.bus seen.now.word form Reason.OtherBlock) }
    {
        let form = form?;
        if !self.witness.so_far.is_other(*seen, &form) {
            return None;
        }
        match form {
            Form::Sot { .. } => self.other_start(before, *seen, &form),
            Form::Eot { .. } => self.other_end(before, *seen, &form),
            _ => self.other_word(before, *seen, &form),
        }
    }

    // The same of a start word.
    fn other_start(&self, before: &Decoded, seen: Seen, form: &Form) -> Option<Against>
        requires { IsOtherForm seen.bus seen.word (Some form.now) self.now.witness.so_far }
        ensures { IfSome result (IsHeldForm before.now.profile (known_by self.now.sink self.now.witness.observer self.now.witness.so_far) before.now.items seen.bus seen.word (Some form.now) Reason.OtherBlock) }
    {
        let word = seen.word;
        let unit = self.witness.so_far.unit()?;
        let start = unit.start;
        let entry = last_of(before, start)?;
        let count = self.witness.so_far.count();
        if word != start {
            Some(Against::OtherStart { word, start, entry })
        } else if count != unit.count {
            Some(Against::OtherCount {
                count,
                before: unit.count,
                start,
                entry,
            })
        } else {
            None
        }
    }

    // The same of an end word.
    fn other_end(&self, before: &Decoded, seen: Seen, form: &Form) -> Option<Against>
        requires { IsOtherForm seen.bus seen.word (Some form.now) self.now.witness.so_far }
        ensures { IfSome result (IsHeldForm before.now.profile (known_by self.now.sink self.now.witness.observer self.now.witness.so_far) before.now.items seen.bus seen.word (Some form.now) Reason.OtherBlock) }
    {
        let word = seen.word;
        let end = self.witness.so_far.unit()?.ending?;
        if word == end {
            return self.other_word(before, seen, form);
        }
        let entry = last_of(before, end)?;
        Some(Against::OtherEnd { word, end, entry })
    }

    // The same of a word that the block does not have where it comes.
    fn other_word(&self, before: &Decoded, seen: Seen, form: &Form) -> Option<Against>
        requires { IsOtherForm seen.bus seen.word (Some form.now) self.now.witness.so_far }
        ensures { IfSome result (IsHeldForm before.now.profile (known_by self.now.sink self.now.witness.observer self.now.witness.so_far) before.now.items seen.bus seen.word (Some form.now) Reason.OtherBlock) }
    {
        let word = seen.word;
        let end = self.witness.so_far.unit()?.ending?;
        let next = self.witness.so_far.next(word)?;
        let entry = last_of(before, end)?;
        Some(Against::OtherWord {
            word,
            next,
            end,
            entry,
        })
    }
}

// Why a block is not good, by what its sink does after its end word, which has this check word.
fn by_doing(check: u16, doing: Doing) -> Option<Against>
    ensures { result ≡ by_doing check doing }
{
    match doing {
        Doing::OwesNak(Why::HalfBytes(semis)) => Some(Against::Semis(semis)),
        Doing::OwesNak(Why::OtherCheck(of_bytes)) => Some(Against::Check {
            recorded: check,
            of_bytes,
        }),
        _ => None,
    }
}

// The acknowledgement that was recorded last, after the word of this entry.
fn acked_after(entry: usize, bus: Bus, form: &Form, before: Option<Acked>) -> Option<Acked>
    ensures { result ≡ acked_after entry bus (Some form.now) before }
{
    match (bus, *form) {
        (Bus::B, Form::Ack { file, ldu }) => Some(Acked {
            number: number_of(file, ldu),
            entry,
        }),
        _ => before,
    }
}

// The last entry that has this word on bus A.
fn last_of(before: &Decoded, word: Word) -> Option<usize>
    ensures { IfSome result (λ k. IsWordAt before.now.items k word) }
{
    let mut found = None;
    for entry in 0..before.len() {
        let seen = before.seen(entry);
        if seen.bus == Bus::A && seen.word == word {
            found = Some(entry);
        }
    }
    found
}
