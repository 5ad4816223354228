//! The rows of a certificate's link data units, written as its steps are reported.

ghost use Rattle.std.specs.Prelude.{◌≡◌, ◌↔◌, [], None, true, false, IsErr, IsErrOf, IfOk, OnOk};
ghost use Rattle.a429_word.specs.Tally.{has_failed};
ghost use Rattle.a429_word.specs.Page.{PutsOn};
ghost use Rattle.a429_cert.specs.Report.{Makes};
ghost use Rattle.a429_view.specs.UnitSteps.{line_before, NoneWaits, PutsAll, PutsInPart};

use crate::units::row::UnitRow;
use crate::units::text::put_line_before;
use a429_cert::{Act, Listener};
use a429_ldu::Ldu;
use a429_link::UnitNumber;
use a429_profile::Profile;
use a429_record::Entry;
use a429_word::{Device, Failing, Page, Sheet, Tally, Trouble};
use std::alloc::{AllocError, Global};
use std::io::Write;

/// An output for the rows of link data units. The steps of a certificate are reported to it, and it puts the row of a
/// unit once the next one is loaded; `finish` puts the last. The names of the columns come first.
#[derive(Drop)]
pub struct UnitRows<W> {
    pub out: Tally<W>,
    page: Page,
    // that of the unit that was loaded last
    row: Option<UnitRow>,
}

impl<W: Write + Drop> UnitRows<W> {
    /// Rows of which none is begun, over this output.
    pub fn new(alloc: Global, out: Tally<W>) -> Result<UnitRows<W>, AllocError>
        ensures out { IfOk result (λ rows. rows.out ≡ out) }
        ensures fresh { IfOk result (λ rows. (rows.page ≡ []) × (rows.row ≡ None)) }
    {
        Ok(UnitRows {
            page: Page::new(alloc)?,
            out,
            row: None,
        })
    }
}

impl<W: Write> UnitRows<W> {
    /// Puts the row of the last unit, or the names of the columns alone where none was loaded, and all that waits
    /// to be put.
    pub fn finish(&mut self) -> Result<(), Device>
        ensures ok { OnOk result (PutsAll W.contents self.old self.new (line_before self.old.row)) }
        ensures none_waits { OnOk result (NoneWaits W.contents self.new) }
        ensures part { PutsInPart W.contents self.old self.new (line_before self.old.row) }
        ensures device { IsErr result ↔ (has_failed self.new.out ≡ true) }
    {
        self.put_last()?;
        self.put_waiting()
    }

    /// Puts the rows that wait to be put, those of units after which another was loaded, and nothing else. The row that is
    /// begun stays.
    pub fn put_waiting(&mut self) -> Result<(), Device>
        ensures ok { OnOk result (PutsAll W.contents self.old self.new []) }
        ensures none_waits { OnOk result (NoneWaits W.contents self.new) }
        ensures row { self.new.row ≡ self.old.row }
        ensures part { PutsInPart W.contents self.old self.new [] }
        ensures device { IsErr result ↔ (has_failed self.new.out ≡ true) }
    {
        let mut sheet = Sheet::new(&mut self.out, &mut self.page);
        sheet.finish()
    }

    // Puts the row of the last unit, or the names of the columns where there is none.
    fn put_last(&mut self) -> Result<(), Device>
        ensures part { PutsInPart W.contents self.old self.new (line_before self.old.row) }
        ensures ok { OnOk result (PutsOn W.contents self.old.out self.old.page self.new.out self.new.page (line_before self.old.row)) }
        ensures row { self.new.row ≡ self.old.row }
        ensures device { IsErr result ↔ (has_failed self.new.out ≡ true) }
    {
        let mut sheet = Sheet::new(&mut self.out, &mut self.page);
        put_line_before(&mut sheet, &self.row);
        if sheet.failed() { Err(Device) } else { Ok(()) }
    }
}

impl<W> Failing for UnitRows<W> {
    ghost use Rattle.a429_word.specs.Tally.{has_failed};

    ghost failed = { λ rows. has_failed rows.out };

    fn failed(&self) -> bool {
        self.out.failed()
    }
}

impl<W: Write> Listener for UnitRows<W> {
    ghost use Rattle.a429_view.specs.UnitSteps.{HearsRows, TriesRows};

    ghost hears = { λ p old report new. HearsRows W.contents p old report new };

    ghost tries = { λ p old report new. TriesRows W.contents p old report new };

    fn load(&mut self, profile: &Profile, number: UnitNumber, unit: &Ldu) -> Result<(), Trouble> {
        if self.put_last().is_err() {
            return Err(Trouble::Device);
        }
        self.row = Some(UnitRow::new(profile, number, unit));
        Ok(())
    }

    fn make(
        &mut self,
        profile: &Profile,
        act: Act,
        entry: Option<(usize, Entry)>,
    ) -> Result<(), Trouble> {
        let Some(row) = &mut self.row else {
            return Ok(());
        };
        match row.add(profile, act, &entry) {
            Ok(()) => Ok(()),
            Err(_) => Err(Trouble::OutOfMemory),
        }
    }
}
