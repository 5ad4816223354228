//! The attempt that another attempt is held against, where no link data unit has the words of both.

ghost use Rattle.std.specs.Prelude.{◌≡◌, ◌∷◌, [], if◌then◌else◌, IfOk, IfSome, IsTrue, OnOk};
ghost use Rattle.a429_link.specs.Attempt.{fresh};
ghost use Rattle.a429_link.specs.WholeBlock.{data_words};
ghost use Rattle.a429_contradiction.specs.Rival.{AreMoreWords, IsRival, IsRivalAt, IsRivalOf, after, at_first, cleared, heard, joined, started, with_request};

use a429_explain::Decoded;
use a429_ldu::Form;
use a429_link::{Seen, UnitNumber, form_of};
use a429_merge::{is_subsequence, merge_shortest};
use a429_profile::Profile;
use a429_word::{Bus, Word};
use std::alloc::{AllocError, Global};
use std::marker::Model;
use std::mem;

/// The most words of a list that is merged with another.
const MOST_MERGED: usize = 253;

/// Another attempt to send the same link data unit: the entry of its request, how many words it asks for, and how many the last
/// attempt asks for.
#[derive(Clone, Copy, Debug)]
pub struct Rival {
    pub request: usize,
    pub before: u8,
    pub count: u8,
}

// An attempt, and the entry of its request, where there is one.
#[derive(Drop)]
struct Asked {
    request: Option<usize>,
    count: u8,
    words: Vec<Word>,
}

impl Model for Asked {
    ghost use Rattle.std.specs.Prelude.{None};
    ghost use Rattle.a429_contradiction.specs.Rival as model;

    ghost Value = { model.Asked };

    ghost view = { λ t. record { request = t.request; attempt = record { count = t.count; words = t.words.items; acked = None } } };
}

// The attempt that is under way, and those before it that were to send the same link data unit, if it is one to send that.
#[derive(Drop)]
struct Attempts {
    alloc: Global,
    last: Asked,
    // The number of the start word that was recorded last, unless another number was acknowledged since.
    number: Option<UnitNumber>,
    // The attempt that is under way has a start word with this number.
    is_named: bool,
    // The attempts since the first one whose start word had this number.
    kept: Vec<Asked>,
}

impl Model for Attempts {
    ghost use Rattle.a429_contradiction.specs.Rival as model;

    ghost Value = { model.Attempts };

    ghost view = { λ t. record { last = t.last; number = t.number; named = t.is_named; kept = t.kept.items } };
}

/// An attempt which was to send the same link data unit as that of the last word, and of which no unit has the words and those of
/// the last. `None` where none is found.
pub(crate) fn rival_of(alloc: Global, decoded: &Decoded) -> Result<Option<Rival>, AllocError>
    ensures { IfOk result (λ found. IfSome found (IsRivalAt decoded.now.profile decoded.now.items)) }
{
    let mut attempts = Attempts::new(alloc);
    for entry in 0..decoded.len() {
        let seen = decoded.seen(entry);
        let form = decoded.word(entry).form;
        attempts.take(entry, &seen, form)?;
    }
    attempts.rival(decoded.profile())
}

impl Asked {
    // A request, after which nothing was recorded yet.
    fn new(alloc: Global, request: Option<usize>, count: u8) -> Asked
        ensures { result ≡ record { request = request; attempt = fresh count } }
    {
        Asked {
            request,
            count,
            words: Vec::new(alloc),
        }
    }

    // How many words it asks for.
    fn count(&self) -> usize
        ensures { result ≡ self.now.attempt.count }
    {
        usize::from(self.count)
    }

    // Its data words.
    fn data(&self, alloc: Global, profile: &Profile) -> Result<Vec<Word>, AllocError>
        ensures { IfOk result (λ words. words.items ≡ data_words profile.now.codes self.now.attempt.words) }
    {
        let mut data = Vec::new(alloc);
        for place in 0..self.words.len() {
            let word = self.words[place];
            if is_data(profile, word) {
                data.push(word)?;
            }
        }
        Ok(data)
    }

    // A list that has the data words of both, which ask for as many words, has more than a block of so many words.
    fn has_more_words_with(
        &self,
        alloc: Global,
        profile: &Profile,
        other: &Asked,
    ) -> Result<bool, AllocError>
        requires { self.now.attempt.count ≡ other.now.attempt.count }
        ensures { IfOk result (λ found. IsTrue found → AreMoreWords profile.now.codes self.now.attempt other.now.attempt) }
    {
        let most = self.count();
        let ours = self.data(alloc, profile)?;
        let others = other.data(alloc, profile)?;
        if ours.len() + 2 == most {
            return Ok(!is_subsequence(&others, &ours));
        }
        if others.len() + 2 == most {
            return Ok(!is_subsequence(&ours, &others));
        }
        if ours.len() > MOST_MERGED || others.len() > MOST_MERGED {
            return Ok(false);
        }
        let merged = merge_shortest(alloc, &ours, &others)?;
        Ok(merged.len() + 2 > most)
    }

    // This attempt, where no link data unit has the words of it and of the other one.
    fn rival_with(
        &self,
        alloc: Global,
        profile: &Profile,
        other: &Asked,
    ) -> Result<Option<Rival>, AllocError>
        ensures { IfOk result (λ found. IfSome found (IsRivalOf profile.now.codes self.now other.now)) }
    {
        let Some(request) = self.request else {
            return Ok(None);
        };
        let rival = Rival {
            request,
            before: self.count,
            count: other.count,
        };
        if self.count != other.count {
            return Ok(Some(rival));
        }
        let has_more = self.has_more_words_with(alloc, profile, other)?;
        if has_more { Ok(Some(rival)) } else { Ok(None) }
    }
}

// Whether a word of bus A is a data word.
fn is_data(profile: &Profile, word: Word) -> bool
    ensures { data_words profile.now.codes (word ∷ []) ≡ if result then word ∷ [] else [] }
{
    match form_of(profile, Bus::A, word) {
        Some(Form::Part(_)) => true,
        Some(_) | None => false,
    }
}

impl Attempts {
    fn new(alloc: Global) -> Attempts
        ensures { result ≡ at_first }
    {
        Attempts {
            alloc,
            last: Asked::new(alloc, None, 0),
            number: None,
            is_named: false,
            kept: Vec::new(alloc),
        }
    }

    // Takes the word of an entry, which has this form or none.
    fn take(&mut self, entry: usize, seen: &Seen, form: Option<Form>) -> Result<(), AllocError>
        ensures { OnOk result (self.new ≡ after entry seen.now.bus seen.now.word form self.old) }
    {
        match (seen.bus, form) {
            (Bus::A, Some(Form::Rts { count })) => self.ask(entry, count),
            (Bus::A, Some(Form::Sot { file, ldu, .. })) => {
                let ldu = u16::from(ldu);
                self.start(UnitNumber { file, ldu }, seen.word)
            }
            (Bus::A, Some(Form::Part(_) | Form::Eot { .. })) => self.join(seen.word),
            (Bus::B, Some(Form::Cts { .. })) => {
                self.clear();
                Ok(())
            }
            (Bus::B, Some(Form::Ack { file, ldu })) => {
                let ldu = u16::from(ldu);
                self.hear(UnitNumber { file, ldu });
                Ok(())
            }
            _ => Ok(()),
        }
    }

    // At a request: the attempt that was under way is kept.
    fn ask(&mut self, entry: usize, count: u8) -> Result<(), AllocError>
        ensures { OnOk result (self.new ≡ with_request entry count self.old) }
    {
        let next = Asked::new(self.alloc, Some(entry), count);
        let last = mem::replace(&mut self.last, next);
        self.is_named = false;
        self.kept.push(last)?;
        Ok(())
    }

    // At a start word: where it is the first word of its attempt, attempts with another number are not kept.
    fn start(&mut self, number: UnitNumber, word: Word) -> Result<(), AllocError>
        ensures { OnOk result (self.new ≡ started number word self.old.last.attempt.words self.old) }
    {
        if self.last.words.len() == 0 {
            let is_again = match self.number {
                Some(known) => known == number,
                None => false,
            };
            if !is_again {
                self.number = Some(number);
                self.kept.clear();
            }
            self.is_named = true;
        }
        self.join(word)
    }

    // At a word of a block.
    fn join(&mut self, word: Word) -> Result<(), AllocError>
        ensures { OnOk result (self.new ≡ joined word self.old) }
    {
        self.last.words.push(word)?;
        Ok(())
    }

    // At a clear answer.
    fn clear(&mut self)
        ensures { self.new ≡ cleared self.old }
    {
        self.last.words.clear();
        self.is_named = false;
    }

    // At an acknowledgement.
    fn hear(&mut self, number: UnitNumber)
        ensures { self.new ≡ heard number self.old }
    {
        if let Some(known) = self.number
            && known != number
        {
            self.number = None;
            self.is_named = false;
        }
    }

    // The first attempt that is kept of which no link data unit has the words and those of the last, which is to send the same unit.
    fn rival(&self, profile: &Profile) -> Result<Option<Rival>, AllocError>
        ensures { IfOk result (λ found. IfSome found (IsRival profile.now.codes self.now)) }
    {
        if !self.is_named {
            return Ok(None);
        }
        for place in 0..self.kept.len() {
            let found = self.kept[place].rival_with(self.alloc, profile, &self.last)?;
            if found.is_some() {
                return Ok(found);
            }
        }
        Ok(None)
    }
}
