//! Link data units: the parts in which a file is sent.

ghost use Rattle.std.specs.Prelude.{◌≡◌, ◌≢◌, ◌≤◌, ◌<◌, Err, IfOk, IfErr, slice_index};
ghost use Rattle.a429_ldu.specs.Ldu.{ldu_of, count_of, block_of, HasLength, IsLdu, IsFirstLduFault};

use crate::carried::block_bytes;
use crate::check_words::agrees;
use crate::fault::LduFault;
use crate::forms::Form;
use crate::forms::writing::word_of;
use a429_profile::Profile;
use a429_word::Word;
use std::alloc::Global;
use std::marker::Model;

/// The most data words of a link data unit (profile); its block has a start word and an end word more.
pub const MOST_DATA_WORDS: usize = 253;

/// The most bytes that so many data words carry.
pub const MOST_UNIT_BYTES: usize = 632;

/// A link data unit (ARINC 429 Part 3): 1 to 253 data words, and the numbers of the start and end words
/// around them.
#[derive(Debug, Drop)]
pub struct Ldu {
    gfi: u8,
    flags: u8,
    check: u16,
    words: Vec<Word>,
}

impl Model for Ldu {
    ghost use Rattle.std.specs.Prelude.{◌≤◌, length};
    ghost use Rattle.a429_ldu.specs.Ldu.{LduValue, most_data_words};

    ghost Value = { LduValue };

    ghost view = { λ u. record { gfi = u.gfi; flags = u.flags; check = u.check; words = u.words.items } };

    ghost invariant = { λ u. (u.gfi ≤ 15) × (u.flags ≤ 15) × (1 ≤ length u.words.items) × (length u.words.items ≤ most_data_words) };
}

impl Ldu {
    /// The link data unit with these data words, 1 to 253 of bus A. General format identifier and flags are 0 to 15.
    /// The fault is the first that applies; out of memory is returned only if none does.
    pub fn new(
        alloc: Global,
        profile: &Profile,
        gfi: u8,
        flags: u8,
        check: u16,
        words: &[Word],
    ) -> Result<Ldu, LduFault>
        requires gfi { gfi ≤ 15 }
        requires flags { flags ≤ 15 }
        ensures value { IfOk result (λ u. u ≡ ldu_of gfi flags check words.now) }
        ensures sound { IfOk result (λ u. IsLdu profile.now u) }
        ensures err { IfErr result (λ f. f ≢ LduFault.OutOfMemory → IsFirstLduFault profile.now check words.now f) }
        ensures memory { result ≡ Err LduFault.OutOfMemory → IsLdu profile.now (ldu_of gfi flags check words.now) }
    {
        if words.is_empty() || words.len() > MOST_DATA_WORDS {
            return Err(LduFault::Count);
        }
        let Some(bytes) = block_bytes(profile, words) else {
            return Err(LduFault::NotBytes);
        };
        if !agrees(profile.check_tables(), &bytes, check) {
            return Err(LduFault::CheckWrong);
        }
        match Vec::from_slice(alloc, words) {
            Ok(words) => Ok(Ldu {
                gfi,
                flags,
                check,
                words,
            }),
            Err(_) => Err(LduFault::OutOfMemory),
        }
    }

    /// The link data unit of these parts, with a general format identifier of 0.
    pub(crate) fn of_parts(flags: u8, check: u16, words: Vec<Word>) -> Ldu
        requires flags { flags ≤ 15 }
        requires words { HasLength words.items }
        ensures { result ≡ ldu_of 0 flags check words.items }
    {
        Ldu {
            gfi: 0,
            flags,
            check,
            words,
        }
    }

    /// The general format identifier, 0 to 15.
    pub fn gfi(&self) -> u8
        ensures value { result ≡ self.now.gfi }
        ensures range { result ≤ 15 }
    {
        self.gfi
    }

    /// The flags of the end word, 0 to 15, the lowest being bit 25 of that word.
    pub fn flags(&self) -> u8
        ensures value { result ≡ self.now.flags }
        ensures range { result ≤ 15 }
    {
        self.flags
    }

    /// The check word.
    pub fn check(&self) -> u16
        ensures { result ≡ self.now.check }
    {
        self.check
    }

    /// The data words, 1 to 253.
    pub fn words(&self) -> &[Word]
        ensures { result.now ≡ self.now.words }
    {
        self.words.as_slice()
    }

    /// How many words its block has, 3 to 255: the data words, a start word and an end word.
    pub fn count(&self) -> u8
        ensures value { result ≡ count_of self.now }
        ensures least { 3 ≤ result }
    {
        self.words.len() as u8 + 2
    }

    /// Word k of its block (ARINC 429 Part 3), k from 0 and below its count: the start word with this file number and
    /// this number of the unit, the data words, the end word.
    pub fn word(&self, profile: &Profile, k: u8, file: u8, ldu: u8) -> Word
        requires { k < count_of self.now }
        ensures { result ≡ slice_index (block_of profile.now.codes self.now file ldu) k }
    {
        let at = k as usize;
        if at == 0 {
            let start = Form::Sot {
                gfi: self.gfi,
                file,
                ldu,
            };
            word_of(profile, &start)
        } else if at <= self.words.len() {
            self.words[at - 1]
        } else {
            let end = Form::Eot {
                flags: self.flags(),
                check: self.check(),
            };
            word_of(profile, &end)
        }
    }
}
