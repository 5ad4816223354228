//! The row of a link data unit.

ghost use Rattle.std.specs.Prelude.{◌≡◌, OnOk};
ghost use Rattle.a429_cert.specs.Report.{Makes};
ghost use Rattle.a429_view.specs.UnitSteps.{begun, with_step};

use crate::units::counts::UnitCounts;
use crate::units::size::UnitSize;
use crate::units::span::UnitSpan;
use a429_cert::{Act, OutOfMemory};
use a429_ldu::Ldu;
use a429_link::UnitNumber;
use a429_profile::Profile;
use a429_record::Entry;

/// What is known of a link data unit that was loaded, and of the steps since then.
#[derive(Clone, Copy)]
pub struct UnitRow {
    pub number: UnitNumber,
    pub size: UnitSize,
    pub counts: UnitCounts,
    pub span: UnitSpan,
}

impl UnitRow {
    /// The row of a unit that has just been loaded.
    pub fn new(profile: &Profile, number: UnitNumber, unit: &Ldu) -> UnitRow
        ensures { result ≡ begun profile.now.codes number unit.now }
    {
        UnitRow {
            number,
            size: UnitSize::of(profile, unit),
            counts: UnitCounts::NONE,
            span: UnitSpan::NONE,
        }
    }

    /// Takes one more step into the row.
    pub fn add(
        &mut self,
        profile: &Profile,
        act: Act,
        entry: &Option<(usize, Entry)>,
    ) -> Result<(), OutOfMemory>
        ensures { OnOk result (self.new ≡ with_step profile.now.codes (Makes act entry.now) self.old) }
    {
        self.span.note(profile, act, entry);
        self.counts.count(profile, act, entry)
    }
}
