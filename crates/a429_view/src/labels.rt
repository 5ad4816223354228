//! The label table of a profile, a line for each entry.

ghost use Rattle.std.specs.Prelude.{◌≡◌, ◌++◌, codes, length, true};
ghost use Rattle.std.specs.Fmt.{decimal};
ghost use Rattle.a429_word.specs.Sheet.{Says};
ghost use Rattle.a429_view.specs.Labels.{sdi_text, kind_text, address_text, label_line, label_lines};

use a429_profile::{Flag, Kind, LabelEntry, Profile};
use a429_word::{Sheet, octal};
use std::io::Write;

/// Puts the label table of a profile, a line for each entry in their order: label, SDI, kind with its numbers, and name.
pub fn put_labels<W: Write>(sheet: &mut Sheet<'_, W>, profile: &Profile)
    ensures { Says W.contents sheet.old sheet.new (label_lines profile.now.labels) }
{
    for i in 0..profile.entry_count() {
        match profile.entries(i) {
            Some(entry) => put_entry(sheet, entry),
            None => unreachable!(),
        }
    }
}

fn put_entry<W: Write>(sheet: &mut Sheet<'_, W>, entry: &LabelEntry)
    ensures { Says W.contents sheet.old sheet.new (label_line entry.now) }
{
    put_address(sheet, entry);
    sheet.put(b" ");
    put_kind(sheet, &entry.kind);
    sheet.put(b" ");
    sheet.put(entry.name.as_str().as_bytes());
    sheet.put(b"\n");
}

// The words that the entry is for.
fn put_address<W: Write>(sheet: &mut Sheet<'_, W>, entry: &LabelEntry)
    ensures { Says W.contents sheet.old sheet.new (address_text entry.now) }
{
    sheet.put(&octal(entry.label));
    sheet.put(b" ");
    put_sdi(sheet, entry.sdi);
}

fn put_sdi<W: Write>(sheet: &mut Sheet<'_, W>, sdi: Option<u8>)
    ensures { Says W.contents sheet.old sheet.new (sdi_text sdi) }
{
    match sdi {
        None => sheet.put(b"*"),
        Some(sdi) => sheet.put_number(u64::from(sdi)),
    }
}

fn put_kind<W: Write>(sheet: &mut Sheet<'_, W>, kind: &Kind)
    ensures { Says W.contents sheet.old sheet.new (kind_text kind.now) }
{
    match kind {
        Kind::Bnr {
            bits,
            range,
            decimals,
        } => put_bnr(sheet, *bits, *range, *decimals),
        Kind::Bcd { digits, decimals } => put_bcd(sheet, *digits, *decimals),
        Kind::Discrete { flags } => put_discrete(sheet, flags.as_slice()),
    }
}

fn put_bnr<W: Write>(sheet: &mut Sheet<'_, W>, bits: u8, range: u32, decimals: u8)
    ensures { Says W.contents sheet.old sheet.new (kind_text (Kind.Bnr bits range decimals)) }
{
    sheet.put(b"bnr ");
    sheet.put_number(u64::from(bits));
    sheet.put(b" ");
    sheet.put_number(u64::from(range));
    sheet.put(b" ");
    sheet.put_number(u64::from(decimals));
}

fn put_bcd<W: Write>(sheet: &mut Sheet<'_, W>, digits: u8, decimals: u8)
    ensures { Says W.contents sheet.old sheet.new (kind_text (Kind.Bcd digits decimals)) }
{
    sheet.put(b"bcd ");
    sheet.put_number(u64::from(digits));
    sheet.put(b" ");
    sheet.put_number(u64::from(decimals));
}

fn put_discrete<W: Write>(sheet: &mut Sheet<'_, W>, flags: &[Flag])
    ensures { Says W.contents sheet.old sheet.new (codes "discrete " ++ decimal (length flags.now)) }
{
    sheet.put(b"discrete ");
    sheet.put_number(flags.len() as u64);
}
