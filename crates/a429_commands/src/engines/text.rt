//! What is written once all is read: the frame of each command that writes nothing before.

ghost use Rattle.std.specs.Prelude.{◌≡◌, ◌↔◌, [], ℕ, List, ⊤, true, false, IsErr, IfOk};
ghost use Rattle.a429_word.specs.Tally.{has_failed};
ghost use Rattle.a429_word.specs.Sheet.{sheet_failed, SaysSome};
ghost use Rattle.a429_commands.specs.Ends.{Ends, of_read, of_text};
ghost use Rattle.a429_commands.specs.Output.{output, PutsPrefixOf, PutsText};

use crate::fault::RunFault;
use a429_word::{Device, Page, Sheet, Tally};
use std::alloc::Global;
use std::io::Write;

/// What was read, and the text that is written of it.
pub(crate) trait Text {
    // The text, with a status.
    ghost says: { Self → ℕ → List ℕ → Type 0 };

    // A text of which a prefix may be written where the output fails.
    ghost begins: { Self → List ℕ → Type 0 };

    /// Puts the text, and answers the status.
    fn put<W: Write>(&self, sheet: &mut Sheet<'_, W>) -> u8
        ensures first { SaysSome W.contents sheet.old sheet.new (begins self.now) }
        ensures all { sheet_failed sheet.new ≡ false → SaysSome W.contents sheet.old sheet.new (says self.now result) };
}

/// Writes the text of what was read, by a page; nothing where there is a fault.
pub(crate) fn write<T: Text + Drop, W: Write>(
    alloc: Global,
    read: Result<T, RunFault>,
    out: &mut Tally<W>,
) -> Result<u8, RunFault>
    ensures { Ends (output W.contents out.old out.new) (of_read T.says T.begins ⊤ read) result }
{
    match read {
        Ok(text) => write_text(alloc, &text, out),
        Err(fault) => Err(fault),
    }
}

/// The same without a page, so that it takes no memory.
pub(crate) fn write_at_once<T: Text + Drop, W: Write>(
    read: Result<T, RunFault>,
    out: &mut Tally<W>,
) -> Result<u8, RunFault>
    ensures { Ends (output W.contents out.old out.new) (of_read T.says T.begins ⊥ read) result }
{
    match read {
        Ok(text) => Ok(put_by(Page::without_room(), &text, out)?),
        Err(fault) => Err(fault),
    }
}

fn write_text<T: Text, W: Write>(
    alloc: Global,
    text: &T,
    out: &mut Tally<W>,
) -> Result<u8, RunFault>
    ensures { Ends (output W.contents out.old out.new) (of_text (T.says text.now) (T.begins text.now) ⊤) result }
{
    let page = Page::new(alloc)?;
    Ok(put_by(page, text, out)?)
}

// By an empty page.
fn put_by<T: Text, W: Write>(page: Page, text: &T, out: &mut Tally<W>) -> Result<u8, Device>
    requires { page ≡ [] }
    ensures ok { IfOk result (λ status. PutsText W.contents out.old out.new (T.says text.now status)) }
    ensures prefix { PutsPrefixOf W.contents out.old out.new (T.begins text.now) }
    ensures device { IsErr result ↔ (has_failed out.new ≡ true) }
{
    let mut page = page;
    let mut sheet = Sheet::new(out, &mut page);
    let status = text.put(&mut sheet);
    sheet.finish()?;
    Ok(status)
}
