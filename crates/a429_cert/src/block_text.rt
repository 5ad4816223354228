//! The lines of the words inside a block, written before they are needed, as one text.

ghost use Rattle.std.specs.Prelude.{◌≡◌, ◌+◌, ◌≤◌, ◌-◌, ◌∷◌, ◌++◌, drop, length, take, OnOk};
ghost use Rattle.a429_cert.specs.declared.line.CertLine.TheVariants.{Moved};
ghost use Rattle.a429_cert.specs.Line.{spelling};
ghost use Rattle.a429_cert.specs.BlockText.{block_lines, start_of};
ghost use Rattle.a429_cert.specs.Likely.{values_below};

use crate::fault::OutOfMemory;
use crate::likely::{sent_line, taken_line};
use crate::line::MovedLine;
use crate::writing::moved_text;
use std::alloc::Global;

// How many words of a block have such lines. The first has others: its lines are there for the places of the rest.
const WORDS: u8 = 254;

/// The lines of each word of a block that is sent and then taken, with nothing else on its way, word after word. Each line
/// begins with the line feed that ends the line before it.
#[derive(Drop)]
pub struct BlockText {
    text: Vec<u8>,
    // Where the lines of each word begin, and where those of the last end.
    starts: Vec<usize>,
    ghost whole: { text.items ≡ block_lines 0 254 },
    ghost parts: { starts.items ≡ values_below start_of 255 },
}

impl BlockText {
    ghost use Rattle.a429_cert.specs.BlockText.{block_lines, start_of};
    ghost use Rattle.a429_cert.specs.Likely.{values_below};

    /// The text. The error is out of memory.
    pub fn new(alloc: Global) -> Result<BlockText, OutOfMemory> {
        let mut text = Vec::new(alloc);
        let mut starts = Vec::new(alloc);
        'words: for k in 0..WORDS {
            starts.push(text.len())?;
            push_line(sent_line(k), &mut text)?;
            push_line(taken_line(k), &mut text)?;
        }
        starts.push(text.len())?;
        Ok(BlockText { text, starts })
    }

    /// The lines of so many words, from the one at this place of its block on, counted from 0. Those of word 0, the start word, are
    /// others: they fill its place only.
    #[inline(always)]
    pub fn lines(&self, place: u8, words: u8) -> &[u8]
        requires { place + words ≤ 254 }
        ensures { result.now ≡ block_lines place words }
    {
        let from = self.starts[place as usize];
        let to = self.starts[(place + words) as usize];
        part(&self.text, from, to)
    }
}

// The bytes from one place to another.
#[inline(always)]
fn part(text: &[u8], from: usize, to: usize) -> &[u8]
    requires ordered { from ≤ to }
    requires inside { to ≤ length text.now }
    ensures { result.now ≡ take (to - from) (drop from text.now) }
{
    &text[from..to]
}

// Appends a line feed and a line.
fn push_line(line: MovedLine, text: &mut Vec<u8>) -> Result<(), OutOfMemory>
    ensures { OnOk result (text.new.items ≡ text.old.items ++ 10 ∷ spelling (Moved line)) }
{
    text.push(b'\n')?;
    text.extend_from_slice(moved_text(line).as_slice())?;
    Ok(())
}
