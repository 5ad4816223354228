//! Recordings, written whole, and their lines.

ghost use Rattle.std.specs.Prelude.{◌≡◌, ◌↔◌, [], true, IsErr, IsErrOf, OnOk};
ghost use Rattle.std.specs.List.{flat_map};
ghost use Rattle.a429_word.specs.Tally.{has_failed, Puts, PutsFront};
ghost use Rattle.a429_word.specs.Sheet.{Says, Writes};
ghost use Rattle.a429_record.specs.Writing.{header_text, line_text, lined_form, written_form};
ghost use Rattle.a429_record.specs.Recording.{IsRecordable};
ghost use Rattle.a429_word.specs.declared.trouble.Trouble.TheVariants as fault;

use crate::entry::Entry;
use crate::entry_text::EntryText;
use a429_word::{Device, Failing, Page, Sheet, Tally, Trouble};
use std::alloc::Global;
use std::io::Write;

/// Why a recording was not written.
pub type WriteFault = Trouble;

/// Writes entries, at most 1,000,000 whose times never fall, as a text recording, which reads back as these entries. In
/// all else it is `write_text`.
pub fn write_entries<W: Write>(
    alloc: Global,
    out: &mut Tally<W>,
    entries: &[Entry],
) -> Result<(), WriteFault>
    requires { IsRecordable entries.now }
    ensures ok { OnOk result (Puts W.contents out.old out.new (written_form entries.now)) }
    ensures device { IsErrOf result fault.Device ↔ (has_failed out.new ≡ true) }
    ensures prefix { PutsFront W.contents out.old out.new (written_form entries.now) }
    ensures memory { IsErrOf result fault.OutOfMemory → out.new ≡ out.old }
{
    write_text(alloc, out, entries)
}

/// Writes entries, however many and at whatever times, as a text: the header of a recording, and a line for each. If
/// memory runs out, nothing is written; after `Device` a prefix has been.
pub fn write_text<W: Write>(
    alloc: Global,
    out: &mut Tally<W>,
    entries: &[Entry],
) -> Result<(), WriteFault>
    ensures ok { OnOk result (Puts W.contents out.old out.new (written_form entries.now)) }
    ensures device { IsErrOf result fault.Device ↔ (has_failed out.new ≡ true) }
    ensures prefix { PutsFront W.contents out.old out.new (written_form entries.now) }
    ensures memory { IsErrOf result fault.OutOfMemory → out.new ≡ out.old }
{
    write_lines(alloc, out, entries, b"", &[])
}

/// Writes a text recording, some lines of which are made already: the header, a line for each entry of `before`, then `lines`,
/// and a line for each entry of `after`. In all else it is `write_text`.
pub fn write_lines<W: Write>(
    alloc: Global,
    out: &mut Tally<W>,
    before: &[Entry],
    lines: &[u8],
    after: &[Entry],
) -> Result<(), WriteFault>
    ensures ok { OnOk result (Puts W.contents out.old out.new (lined_form before.now lines.now after.now)) }
    ensures device { IsErrOf result fault.Device ↔ (has_failed out.new ≡ true) }
    ensures prefix { PutsFront W.contents out.old out.new (lined_form before.now lines.now after.now) }
    ensures memory { IsErrOf result fault.OutOfMemory → out.new ≡ out.old }
{
    if out.failed() {
        return Err(WriteFault::Device);
    }
    let page = Page::new(alloc)?;
    put_all(page, out, before, lines, after)?;
    Ok(())
}

// Writes them, on a page that is empty.
fn put_all<W: Write>(
    page: Page,
    out: &mut Tally<W>,
    before: &[Entry],
    lines: &[u8],
    after: &[Entry],
) -> Result<(), Device>
    requires { page ≡ [] }
    ensures written { Writes W.contents out.old out.new (lined_form before.now lines.now after.now) }
    ensures device { IsErr result ↔ (has_failed out.new ≡ true) }
{
    let mut page = page;
    let mut sheet = Sheet::new(out, &mut page);
    put_header(&mut sheet);
    put_lines(&mut sheet, before);
    sheet.put(lines);
    put_lines(&mut sheet, after);
    sheet.finish()
}

// A line for each entry.
fn put_lines<W: Write>(sheet: &mut Sheet<'_, W>, entries: &[Entry])
    ensures { Says W.contents sheet.old sheet.new (flat_map line_text entries.now) }
{
    let mut text = EntryText::new();
    for entry in entries {
        if sheet.failed() {
            return;
        }
        text.put_line(sheet, *entry);
    }
}

/// Puts the header of a recording.
pub fn put_header<W: Write>(sheet: &mut Sheet<'_, W>)
    ensures { Says W.contents sheet.old sheet.new header_text }
{
    sheet.put(b"time,bus,word\n");
}
