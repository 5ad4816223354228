//! Binary recordings, written whole.

ghost use Rattle.std.specs.Prelude.{◌≡◌, ◌↔◌, ◌≤◌, true, length, flat_map, IsErr};
ghost use Rattle.a429_word.specs.Tally.{has_failed};
ghost use Rattle.a429_word.specs.Sheet.{Says, Writes};
ghost use Rattle.a429_record.specs.Binary.{entry_piece, binary_form};
ghost use Rattle.a429_record.specs.Recording.{IsRecordable};

use crate::binary::{ENTRY_BYTES, MAGIC, piece_of};
use crate::entry::Entry;
use a429_word::{Device, Page, Sheet, Tally};
use std::io::Write;

// How many entries are put at once.
const GROUP: usize = 4096;

/// Writes entries, at most 1,000,000 whose times never fall, as a binary recording: eight bytes, and 13 for each
/// entry. It takes no memory. After `Device` a prefix of the recording has been written.
pub fn write_binary<W: Write>(out: &mut Tally<W>, entries: &[Entry]) -> Result<(), Device>
    requires { IsRecordable entries.now }
    ensures written { Writes W.contents out.old out.new (binary_form entries.now) }
    ensures device { IsErr result ↔ (has_failed out.new ≡ true) }
{
    let mut page = Page::without_room();
    let mut sheet = Sheet::new(out, &mut page);
    put_binary(&mut sheet, entries);
    sheet.finish()
}

// The magic, and the entries group by group.
fn put_binary<W: Write>(sheet: &mut Sheet<'_, W>, entries: &[Entry])
    ensures { Says W.contents sheet.old sheet.new (binary_form entries.now) }
{
    sheet.put(&MAGIC);
    let mut rest = entries;
    'groups: while !rest.is_empty() {
        if sheet.failed() {
            return;
        }
        let (group, more) = rest.split_at(rest.len().min(GROUP));
        put_group(sheet, group);
        rest = more;
    }
}

// The bytes of a few entries at once.
fn put_group<W: Write>(sheet: &mut Sheet<'_, W>, group: &[Entry])
    requires { length group.now ≤ 4096 }
    ensures { Says W.contents sheet.old sheet.new (flat_map entry_piece group.now) }
{
    let mut bytes = [0; GROUP * ENTRY_BYTES];
    let mut at = 0;
    for entry in group {
        bytes[at..at + ENTRY_BYTES].copy_from_slice(&piece_of(*entry));
        at += ENTRY_BYTES;
    }
    sheet.put(&bytes[..at]);
}
