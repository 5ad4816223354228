//! `a429 word HEX`: what a word holds, a line for each part.

ghost use Rattle.std.specs.Prelude.{◌≡◌, IfOk, IfErr};
ghost use Rattle.a429_commands.specs.Ends.{Ends};
ghost use Rattle.a429_commands.specs.Output.{output};
ghost use Rattle.a429_commands.specs.Word.{IsNoWord, IsWordOf, of_word};

use crate::engines::text::{Text, write_at_once};
use crate::fault::RunFault;
use a429_view::put_word;
use a429_word::{Sheet, Tally, Word};
use std::io::Write;

/// Writes what the word that `text` names holds, in seven lines, and answers status 0. A text that
/// is not eight hexadecimal digits is `BadWord`, and then nothing is written.
pub fn run_word<W: Write>(text: &str, out: &mut Tally<W>) -> Result<u8, RunFault>
    ensures { Ends (output W.contents out.old out.new) (of_word text.now) result }
{
    write_at_once(word_in(text), out)
}

fn word_in(text: &str) -> Result<Word, RunFault>
    ensures ok { IfOk result (IsWordOf text.now) }
    ensures err { IfErr result (IsNoWord text.now) }
{
    match Word::parse_hex(text.as_bytes()) {
        Some(word) => Ok(word),
        None => Err(RunFault::BadWord),
    }
}

// The seven lines of a word.
impl Text for Word {
    ghost use Rattle.std.specs.Prelude.{◌≡◌};
    ghost use Rattle.a429_view.specs.Word.{word_lines};

    ghost says = { λ w status text. (status ≡ 0) × (text ≡ word_lines w) };

    ghost begins = { λ w text. text ≡ word_lines w };

    fn put<W: Write>(&self, sheet: &mut Sheet<'_, W>) -> u8 {
        put_word(sheet, *self);
        0
    }
}
