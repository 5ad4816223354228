//! Acknowledged link data units, by their files.

ghost use Rattle.std.specs.Prelude.{◌≡◌, [], IfOk, OnOk, List};
ghost use Rattle.a429_link.specs.Sink.{latest_number};
ghost use Rattle.a429_profile.specs.declared.codes.Codes.{Codes};
ghost use Rattle.std.specs.Prelude.{length, take};
ghost use Rattle.a429_sink.specs.FileUnits.{AreUnits, left_at, units_mark};
ghost use Rattle.a429_sink.specs.History.{alone, goes_with, grown, is_whole, with_unit};
ghost use Rattle.a429_sink.specs.declared.file_units.FileUnits.{FileUnits as AFileUnits};

use a429_link::Latest;
use a429_profile::Profile;
use std::alloc::{AllocError, Global};

/// Link data units of one file that are acknowledged one after the other.
#[derive(Clone, Copy, Debug)]
pub struct FileUnits {
    pub file: u8,
    /// The number of the first of them in its file, and that of the last.
    pub first: u16,
    pub last: u16,
    /// The last of them ends the file.
    pub ended: bool,
}

impl FileUnits {
    // This unit by itself.
    fn alone(unit: Latest) -> FileUnits
        ensures { result ≡ alone (latest_number unit) }
    {
        FileUnits {
            file: unit.number.file,
            first: unit.number.ldu,
            last: unit.number.ldu,
            ended: unit.is_final,
        }
    }

    // This unit goes on with the file of those before it.
    fn goes_with(self, profile: &Profile, unit: Latest) -> bool
        ensures { result ≡ goes_with profile.now.codes self (latest_number unit) }
    {
        !self.ended
            && self.file == unit.number.file
            && unit.number.ldu != u16::from(profile.codes().first_ldu)
    }

    // They and this unit.
    fn grown(self, unit: Latest) -> FileUnits
        ensures { result ≡ grown self (latest_number unit) }
    {
        FileUnits {
            last: unit.number.ldu,
            ended: unit.is_final,
            ..self
        }
    }

    // They are all units of their file.
    fn is_whole(self, profile: &Profile) -> bool
        ensures { result ≡ is_whole profile.now.codes self }
    {
        self.first == u16::from(profile.codes().first_ldu) && self.ended
    }
}

/// How many acknowledged units there were at some place in a recording.
#[derive(Clone, Copy)]
pub(crate) struct UnitsMark {
    earlier: usize,
    newest: Option<FileUnits>,
}

/// The acknowledged units so far, of files of which not all are there, and the units acknowledged last.
#[derive(Drop)]
pub(crate) struct OpenUnits {
    earlier: Vec<FileUnits>,
    newest: Option<FileUnits>,
}

impl OpenUnits {
    /// None.
    pub(crate) fn new(alloc: Global) -> OpenUnits
        ensures { (c : Codes) → AreUnits c [] result }
    {
        OpenUnits {
            earlier: Vec::new(alloc),
            newest: None,
        }
    }

    /// Those that there are now.
    pub(crate) fn mark(&self) -> UnitsMark
        ensures { result ≡ units_mark self.now }
    {
        UnitsMark {
            earlier: self.earlier.len(),
            newest: self.newest,
        }
    }

    /// Adds one that is acknowledged. Where there is no memory, nothing changes.
    pub(crate) fn add(&mut self, profile: &Profile, unit: Latest) -> Result<(), AllocError>
        ensures added { (us : List AFileUnits) → AreUnits profile.now.codes us self.old → OnOk result (AreUnits profile.now.codes (with_unit profile.now.codes (latest_number unit) us) self.new) }
        ensures earlier { take (length self.old.earlier.items) self.new.earlier.items ≡ self.old.earlier.items }
    {
        let Some(newest) = self.newest else {
            self.newest = Some(FileUnits::alone(unit));
            return Ok(());
        };
        if newest.goes_with(profile, unit) {
            self.newest = Some(newest.grown(unit));
            return Ok(());
        }
        if !newest.is_whole(profile) {
            self.earlier.push(newest)?;
        }
        self.newest = Some(FileUnits::alone(unit));
        Ok(())
    }

    /// Those of files of which not all units were there at the mark, in order.
    pub(crate) fn finish(
        self,
        profile: &Profile,
        mark: UnitsMark,
    ) -> Result<Vec<FileUnits>, AllocError>
        ensures { IfOk result (λ left. left.items ≡ left_at profile.now.codes mark self) }
    {
        let mut earlier = self.earlier;
        earlier.truncate(mark.earlier);
        if let Some(newest) = mark.newest {
            if !newest.is_whole(profile) {
                earlier.push(newest)?;
            }
        }
        Ok(earlier)
    }
}
