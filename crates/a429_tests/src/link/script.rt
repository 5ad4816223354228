//! Scripts of a link: a line for each step, and after a colon its answer where that is not `Ok(())`.

ghost use Rattle.std.specs.Prelude.{◌≡◌, ◌≤◌, IfSome};
ghost use Rattle.a429_profile.specs.Profile.{Contents};
ghost use Rattle.a429_ldu.specs.Ldu.{IsLdu};
ghost use Rattle.a429_link.specs.Step.{LoadsLdu};

use crate::calls::debug;
use crate::recordings::seen;
use crate::sample::{CTS, PART, RTS};
use a429_ldu::Ldu;
use a429_link::{FileBytes, Link, Seen, Step};
use a429_profile::Profile;
use a429_word::{Bus, Word};
use std::alloc::{AllocError, Global};

/// A link on which scripts are played.
#[derive(Drop)]
pub(crate) struct Stage<'a> {
    alloc: Global,
    profile: &'a Profile,
    link: Link<'a>,
    ghost same: { link.profile ≡ profile.now },
}

impl<'a> Stage<'a> {
    /// A link on which nothing has happened, whose first file has this number.
    pub(crate) fn new(alloc: Global, profile: &'a Profile, first: u8) -> Stage<'a> {
        Stage {
            alloc,
            profile,
            link: Link::start(alloc, profile, first),
        }
    }

    /// The first line of a script that goes otherwise than it says. It ends the play. A script has lines.
    pub(crate) fn first_that_differs<'s>(&mut self, script: &'s str) -> Option<&'s str> {
        if script.is_empty() {
            return Some("no line");
        }
        for line in script.lines() {
            if !self.goes(line) {
                return Some(line);
            }
        }
        None
    }

    /// The same of a script in parts.
    pub(crate) fn first_in_parts<'s>(&mut self, parts: &[&'s str]) -> Option<&'s str> {
        for part in parts {
            let line = self.first_that_differs(part);
            if line.is_some() {
                return line;
            }
        }
        None
    }

    // Whether a line goes as it says. One that is no line of a script does not.
    fn goes(&mut self, line: &str) -> bool {
        let (name, wanted) = line.split_once(": ").unwrap_or((line, "Ok(())"));
        match self.answer(name) {
            Ok(answer) => answer.as_str() == wanted,
            Err(_) => false,
        }
    }

    fn answer(&mut self, name: &str) -> Result<String, AllocError> {
        match name {
            "states" => self.states(),
            "delivered" => debug(self.alloc, &self.link.delivered()),
            "take_delivered" => debug(self.alloc, &self.taken()),
            "255 open units cross" => debug(self.alloc, &self.open_units_cross()),
            "127 files are given up" => debug(self.alloc, &self.gives_up_most()),
            _ => self.step_answer(name),
        }
    }

    // What source and sink are doing, and how many words are on their way to each.
    fn states(&self) -> Result<String, AllocError> {
        let at = self.link.states();
        debug(self.alloc, &(at.source, at.sink, at.to_sink, at.to_source))
    }

    fn taken(&mut self) -> Vec<FileBytes> {
        self.link.take_delivered()
    }

    // What the link answers to a step.
    fn step_answer(&mut self, text: &str) -> Result<String, AllocError> {
        match step(self.alloc, self.profile, text) {
            Some(step) => debug(self.alloc, &self.link.apply(step)),
            None => String::from_str(self.alloc, "no step"),
        }
    }

    // Whether units 1 to 255 are loaded and cross, and none ends its file.
    fn open_units_cross(&mut self) -> bool {
        for ldu in 1..=255 {
            if !self.open_unit_crosses(ldu) {
                return false;
            }
        }
        true
    }

    // Whether as many files are given up, one after the other, as may be.
    fn gives_up_most(&mut self) -> bool {
        for _ in 0..127 {
            if !self.made(Step::GiveUp) {
                return false;
            }
        }
        true
    }

    fn open_unit_crosses(&mut self, ldu: u8) -> bool {
        let Some(unit) = byte_unit(self.alloc, self.profile, 0) else {
            return false;
        };
        self.made(Step::Load(unit))
            && self.crosses(RTS)
            && self.answers(CTS)
            && self.crosses(with_odd_parity(0x6001_0023 | u32::from(ldu) << 8))
            && self.crosses(PART)
            && self.crosses(0xF0A3_F523)
            && self.answers(with_odd_parity(0x4501_00A3 | u32::from(ldu) << 8))
    }

    // Whether the source sends this word, and the sink takes it.
    fn crosses(&mut self, word: u32) -> bool {
        self.made(Step::Sent(seen(Bus::A, word))) && self.made(Step::SinkTakes)
    }

    // Whether the sink answers this word, and the source takes it.
    fn answers(&mut self, word: u32) -> bool {
        self.made(Step::Answered(seen(Bus::B, word))) && self.made(Step::TakeAnswer)
    }

    fn made(&mut self, step: Step) -> bool
        requires { LoadsLdu self.old.profile.now step }
    {
        self.link.apply(step) == Ok(())
    }
}

// The number of a word with these bits below its parity bit.
fn with_odd_parity(number: u32) -> u32 {
    if number.count_ones() % 2 == 0 {
        number | 0x8000_0000
    } else {
        number
    }
}

// The step of this text: its name, and after it what it is made with.
fn step(alloc: Global, profile: &Profile, text: &str) -> Option<Step>
    ensures { IfSome result (λ s. LoadsLdu profile.now s) }
{
    match text {
        "Load open" => Some(Step::Load(byte_unit(alloc, profile, 0)?)),
        "Load final" => Some(Step::Load(byte_unit(alloc, profile, 1)?)),
        "Load two words" => Some(Step::Load(two_word_unit(alloc, profile)?)),
        "SentLost" => Some(Step::SentLost),
        "TimeOut" => Some(Step::TimeOut),
        "TakeAnswer" => Some(Step::TakeAnswer),
        "LoseAnswer" => Some(Step::LoseAnswer),
        "SinkTakes" => Some(Step::SinkTakes),
        "GiveUp" => Some(Step::GiveUp),
        _ => recorded_step(text),
    }
}

// A step that records a word: its name, the bus and the word.
fn recorded_step(text: &str) -> Option<Step>
    ensures { IfSome result (λ s. (p : Contents) → LoadsLdu p s) }
{
    let (name, word) = text.rsplit_once(' ')?;
    let word = Word::parse_hex(word.as_bytes())?;
    match name {
        "Sent A" => Some(Step::Sent(Seen { bus: Bus::A, word })),
        "Sent B" => Some(Step::Sent(Seen { bus: Bus::B, word })),
        "Answered B" => Some(Step::Answered(Seen { bus: Bus::B, word })),
        "FreeSeen A" => Some(Step::FreeSeen(Seen { bus: Bus::A, word })),
        "FreeSeen B" => Some(Step::FreeSeen(Seen { bus: Bus::B, word })),
        _ => None,
    }
}

// The link data unit of the byte 41 with these flags, of which 1 ends its file.
fn byte_unit(alloc: Global, profile: &Profile, flags: u8) -> Option<Ldu>
    requires { flags ≤ 15 }
    ensures { IfSome result (λ u. IsLdu profile.now u) }
{
    let words = [Word::from_u32(PART)];
    match Ldu::new(alloc, profile, 0, flags, 0xA3F5, &words) {
        Ok(unit) => Some(unit),
        Err(_) => None,
    }
}

// A link data unit of two data words that ends its file, with a check word that is not theirs.
fn two_word_unit(alloc: Global, profile: &Profile) -> Option<Ldu>
    ensures { IfSome result (λ u. IsLdu profile.now u) }
{
    let words = [Word::from_u32(0x0342_4123), Word::from_u32(0x9100_0423)];
    match Ldu::new(alloc, profile, 0, 1, 0xA3F5, &words) {
        Ok(unit) => Some(unit),
        Err(_) => None,
    }
}
