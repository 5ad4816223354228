//! `a429 import MAP EXPORT OUT`: the recording that an export of another program is.

ghost use Rattle.std.specs.Prelude.{◌≡◌, [], true, false, Err, IfOk, IfErr, OnOk};
ghost use Rattle.a429_word.specs.Sheet.{Says};
ghost use Rattle.a429_word.specs.Tally.{has_failed, unread};
ghost use Rattle.a429_commands.specs.Ends.{Ends};
ghost use Rattle.a429_commands.specs.Import.{EndsImported, IsImported, IsImportedBy, import_text, of_rows, reported, under_map};
ghost use Rattle.a429_commands.specs.Output.{output};

use crate::engines::map::map_of;
use crate::engines::text::{Text, write_at_once};
use crate::fault::RunFault;
use a429_import::{Import, ImportFault, Map, Turning, put_counts, put_import, put_places};
use a429_word::{Page, Sheet, Tally};
use std::alloc::Global;
use std::io::{Read, Write};

/// Writes the recording that an export is by a map to `new_rec`, as a text recording, then prints on `out` the places at which its clock
/// jumps and what became of its lines, and answers status 0. `map` is the bytes of its text. The export is read line by line, and
/// none of them is kept. Where it has a fault, the header and the rows of the entries before it are written to `new_rec`; then, and
/// where a device fails or memory is refused before the counts are written, nothing is written to `out`.
pub fn run_import<R: Read, C: Write, W: Write>(
    alloc: Global,
    map: &[u8],
    export: &mut Tally<R>,
    new_rec: &mut Tally<C>,
    out: &mut Tally<W>,
) -> Result<u8, RunFault>
    requires { has_failed export.old ≡ false }
    ensures { EndsImported (record { map = map.now; export = unread R.remaining export.old; failed = has_failed export.new }) (output C.contents new_rec.old new_rec.new) (output W.contents out.old out.new) result }
{
    match write_import(alloc, map, export, new_rec) {
        Ok(report) => write_at_once(Ok(report), out),
        Err(fault) => Err(fault),
    }
}

// What became of the lines of an export, and how its words were turned.
#[derive(Drop)]
pub(crate) struct ImportReport {
    turning: Turning,
    import: Import,
}

impl Text for ImportReport {
    ghost use Rattle.std.specs.Prelude.{◌≡◌};
    ghost use Rattle.a429_commands.specs.Import.{import_text};

    ghost says = { λ r status text. (status ≡ 0) × (text ≡ import_text r.turning r.import) };

    ghost begins = { λ r text. text ≡ import_text r.turning r.import };

    fn put<W: Write>(&self, sheet: &mut Sheet<'_, W>) -> u8 {
        put_report(sheet, self.turning, &self.import);
        0
    }
}

// Puts the places, and then the counts.
fn put_report<W: Write>(sheet: &mut Sheet<'_, W>, turning: Turning, import: &Import)
    ensures { Says W.contents sheet.old sheet.new (import_text turning import.now) }
{
    put_places(sheet, import.places.as_slice());
    put_counts(sheet, turning, &import.counts);
}

// Writes the recording, and answers what became of the lines.
fn write_import<R: Read, C: Write>(
    alloc: Global,
    map: &[u8],
    export: &mut Tally<R>,
    new_rec: &mut Tally<C>,
) -> Result<ImportReport, RunFault>
    requires { has_failed export.old ≡ false }
    ensures ok { IfOk result (λ r. IsImportedBy map.now (unread R.remaining export.old) (output C.contents new_rec.old new_rec.new) r.turning r.import) }
    ensures works { OnOk result (has_failed export.new ≡ false) }
    ensures err { IfErr result (λ e. Ends (output C.contents new_rec.old new_rec.new) (of_rows (record { map = map.now; export = unread R.remaining export.old; failed = has_failed export.new })) (Err e)) }
{
    let map = map_of(alloc, map)?;
    let page = Page::new(alloc)?;
    let report = import_by(alloc, page, &map, export, new_rec);
    drop(map);
    report
}

// By a map that was read, and an empty page.
fn import_by<R: Read, C: Write>(
    alloc: Global,
    page: Page,
    map: &Map,
    export: &mut Tally<R>,
    new_rec: &mut Tally<C>,
) -> Result<ImportReport, RunFault>
    requires page { page ≡ [] }
    requires works { has_failed export.old ≡ false }
    ensures turning { IfOk result (λ r. r.turning ≡ map.now.turning) }
    ensures ok { IfOk result (λ r. IsImported map.now (unread R.remaining export.old) (output C.contents new_rec.old new_rec.new) r.import) }
    ensures works { OnOk result (has_failed export.new ≡ false) }
    ensures err { IfErr result (λ e. Ends (output C.contents new_rec.old new_rec.new) (under_map map.now (unread R.remaining export.old) (has_failed export.new)) (Err e)) }
{
    let mut page = page;
    let mut sheet = Sheet::new(new_rec, &mut page);
    let import = put_import(alloc, map, export, &mut sheet);
    sheet.finish()?;
    match import {
        Ok(import) => Ok(ImportReport {
            turning: map.turning,
            import,
        }),
        Err(fault) => Err(fault_of(fault)),
    }
}

// How the command reports why an export was not imported to its end.
fn fault_of(fault: ImportFault) -> RunFault
    ensures { result ≡ reported fault }
{
    match fault {
        ImportFault::Export(fault) => RunFault::Export(fault),
        ImportFault::Device => RunFault::Device,
        ImportFault::OutOfMemory => RunFault::Memory,
    }
}
