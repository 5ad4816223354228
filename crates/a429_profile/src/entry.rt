//! An entry of the label table: how the words of one label are read.

ghost use Rattle.std.specs.Prelude.{◌≡◌, ◌++◌, codes, string_bytes, IfOk, OnOk};
ghost use Rattle.std.specs.List.{flat_map};
ghost use Rattle.a429_profile.specs.Flags.{both_texts};

use std::alloc::{AllocError, Global};
use std::fmt::{self, Debug, Formatter, Write};
use std::marker::Model;

/// A text of a profile. In a profile that was read it is short and of printable ASCII; `new` takes any.
#[derive(Debug, Drop)]
pub struct Text {
    text: String,
}

impl Model for Text {
    ghost use Rattle.std.specs.Prelude.{List, ℕ, string_bytes};

    ghost Value = { List ℕ };

    ghost view = { λ t. string_bytes t.text };
}

impl Text {
    /// The text that this string holds.
    pub fn new(text: String) -> Text
        ensures { result ≡ string_bytes text }
    {
        Text { text }
    }

    /// The text, borrowed.
    pub fn as_str(&self) -> &str
        ensures { result.now ≡ self.now }
    {
        self.text.as_str()
    }

    /// The string that holds it, without taking memory.
    pub fn into_string(self) -> String
        ensures { string_bytes result ≡ self }
    {
        let Text { text } = self;
        text
    }
}

/// A list of numbers from 0 to 255.
#[derive(Debug, Drop)]
pub struct Numbers {
    numbers: Vec<u8>,
}

impl Model for Numbers {
    ghost use Rattle.std.specs.Prelude.{List, ℕ};

    ghost Value = { List ℕ };

    ghost view = { λ n. n.numbers.items };
}

impl Numbers {
    /// The numbers of this list, in its order.
    pub fn new(numbers: Vec<u8>) -> Numbers
        ensures { result ≡ numbers.items }
    {
        Numbers { numbers }
    }

    /// The numbers, borrowed.
    pub fn as_slice(&self) -> &[u8]
        ensures { result.now ≡ self.now }
    {
        self.numbers.as_slice()
    }

    /// The list that holds them, without taking memory.
    pub fn into_vec(self) -> Vec<u8>
        ensures { result.items ≡ self }
    {
        let Numbers { numbers } = self;
        numbers
    }
}

/// A bit of a discrete word that has a meaning of its own.
#[derive(Debug, Drop)]
pub struct Flag {
    /// The bit of the word, 11 to 29, counted from 1.
    pub bit: u8,
    pub name: Text,
}

/// The flags of a discrete word, in the order of the file.
#[derive(Drop)]
pub struct Flags {
    flags: Vec<Flag>,
    // What is shown of each flag, where its bit is 0 and where it is 1.
    texts: Vec<u8>,
}

impl Model for Flags {
    ghost use Rattle.std.specs.Prelude.{◌≡◌, List};
    ghost use Rattle.std.specs.List.{flat_map};
    ghost use Rattle.a429_profile.specs.declared.entry.Flag.{Flag};
    ghost use Rattle.a429_profile.specs.Flags.{both_texts};

    ghost Value = { List Flag };

    ghost view = { λ f. f.flags.items };

    ghost invariant = { λ f. f.texts.items ≡ flat_map both_texts f.flags.items };
}

impl Debug for Flags {
    fn fmt<W: Write>(&self, f: &mut Formatter<W>) -> fmt::Result {
        f.debug_struct("Flags").field("flags", &self.flags).finish()
    }
}

impl Flags {
    /// The same flags, owned, with the texts of each. The error is out of memory.
    pub fn new(alloc: Global, flags: Vec<Flag>) -> Result<Flags, AllocError>
        ensures { IfOk result (λ f. f ≡ flags.items) }
    {
        let texts = texts_of(alloc, flags.as_slice())?;
        Ok(Flags { flags, texts })
    }

    /// The flags, borrowed.
    pub fn as_slice(&self) -> &[Flag]
        ensures { result.now ≡ self.now }
    {
        self.flags.as_slice()
    }

    /// What is shown of each flag, one after the other, ready to be written: ` name=0` and then ` name=1`.
    pub fn texts(&self) -> &[u8]
        ensures { result.now ≡ flat_map both_texts self.now }
    {
        self.texts.as_slice()
    }

    /// The list that holds them, without taking memory.
    pub fn into_vec(self) -> Vec<Flag>
        ensures { result.items ≡ self }
    {
        let Flags { flags, .. } = self;
        flags
    }
}

// The texts of flags.
fn texts_of(alloc: Global, flags: &[Flag]) -> Result<Vec<u8>, AllocError>
    ensures { IfOk result (λ v. v.items ≡ flat_map both_texts flags.now) }
{
    let mut texts = Vec::new(alloc);
    for flag in flags {
        push_both(&mut texts, flag)?;
    }
    Ok(texts)
}

// Adds both texts of a flag.
fn push_both(texts: &mut Vec<u8>, flag: &Flag) -> Result<(), AllocError>
    ensures { OnOk result (texts.new.items ≡ texts.old.items ++ both_texts flag.now) }
{
    push_text(texts, flag, b"=0")?;
    push_text(texts, flag, b"=1")
}

// Adds a space, the name of a flag and some bytes.
fn push_text(texts: &mut Vec<u8>, flag: &Flag, end: &[u8]) -> Result<(), AllocError>
    ensures { OnOk result (texts.new.items ≡ texts.old.items ++ (codes " " ++ flag.now.name ++ end.now)) }
{
    texts.extend_from_slice(b" ")?;
    texts.extend_from_slice(flag.name.as_str().as_bytes())?;
    texts.extend_from_slice(end)
}

/// How the data field of a label's words is read (ARINC 429 Part 1).
#[derive(Debug, Drop)]
pub enum Kind {
    /// A binary number in two's complement: `bits` significant bits, 1 to 18, below the sign. Values lie from `-range`
    /// to below `range`, in units of `10^-decimals`. `range` is 1 to 1,000,000,000, `decimals` 0 to 6.
    Bnr { bits: u8, range: u32, decimals: u8 },
    /// A decimal number: `digits` digits, 1 to 5, in units of `10^-decimals`, 0 to 6.
    Bcd { digits: u8, decimals: u8 },
    /// Single bits, 1 to 19 of them.
    Discrete { flags: Flags },
}

/// The words for the kinds of labels.
#[derive(Clone, Copy)]
pub(crate) enum KindWord {
    Bnr,
    Bcd,
    Discrete,
}

/// An entry of the label table (profile): how the words of one label are read.
#[derive(Debug, Drop)]
pub struct LabelEntry {
    /// The label, 0 to 255: the number of its three octal digits.
    pub label: u8,
    /// The SDI of the words that it is for, 0 to 3; `None` where it is for any.
    pub sdi: Option<u8>,
    /// What is shown before a value: 1 to 32 printable characters.
    pub name: Text,
    /// What is shown after a value: 0 to 16 printable characters.
    pub unit: Text,
    pub kind: Kind,
}
