//! What a recording that begins anywhere says so far.

ghost use Rattle.std.specs.Prelude.{◌≡◌, ◌++◌, ◌∷◌, [], List, IfOk, IfErr, IsErrOf, OnOk, length, take};
ghost use Rattle.a429_link.specs.declared.seen.Seen.{Seen};
ghost use Rattle.a429_profile.specs.Profile.{Contents};
ghost use Rattle.a429_sink.specs.FileUnits.{left_at, units_mark};
ghost use Rattle.a429_sink.specs.GlimpsedTrace.{IsGlimpseStop, IsGlimpsedTrace, MakesSure};
ghost use Rattle.a429_sink.specs.declared.fault.SinkFault.TheVariants as fault;

use crate::fault::SinkFault;
use crate::file_units::{FileUnits, OpenUnits, UnitsMark};
use crate::glimpsed::GlimpsedSink;
use a429_link::{FileBytes, Seen};
use a429_profile::Profile;
use std::alloc::{AllocError, Global};

/// What the words of a recording say so far, of which it is not known what came before: whether some run may record them, which files
/// have crossed by their end, here or before, and which units of other files are acknowledged. It keeps the bytes of the file that is
/// not whole, and of files of which not all units are there 8 bytes each.
#[derive(Drop)]
pub(crate) struct GlimpsedTrace {
    sink: GlimpsedSink,
    units: OpenUnits,
}

impl GlimpsedTrace {
    /// A recording of no entries.
    pub(crate) fn new(alloc: Global) -> GlimpsedTrace
        ensures { (p : Contents) → IsGlimpsedTrace p [] result }
    {
        GlimpsedTrace {
            sink: GlimpsedSink::new(alloc),
            units: OpenUnits::new(alloc),
        }
    }

    /// Goes on with one more word, and answers the file that is sure by it: one at most. `Refused` where no run records the word after
    /// those before it, whatever it recorded before them.
    pub(crate) fn see(
        &mut self,
        alloc: Global,
        profile: &Profile,
        seen: Seen,
    ) -> Result<Vec<FileBytes>, SinkFault>
        ensures goes_on { OnOk result ((items : List Seen) → IsGlimpsedTrace profile.now items self.old → IsGlimpsedTrace profile.now (items ++ seen ∷ []) self.new) }
        ensures files { IfOk result (λ files. (items : List Seen) → IsGlimpsedTrace profile.now items self.old → MakesSure profile.now items seen files.items) }
        ensures stop { IfErr result (λ stop. (items : List Seen) → IsGlimpsedTrace profile.now items self.old → IsGlimpseStop profile.now items seen stop) }
        ensures earlier { OnOk result (take (length self.old.units.earlier.items) self.new.units.earlier.items ≡ self.old.units.earlier.items) }
        ensures unchanged { IsErrOf result fault.Refused → self.new ≡ self.old }
    {
        match self.sink.see(alloc, profile, seen) {
            Ok(None) => Ok(Vec::new(alloc)),
            Ok(Some(accepted)) => match self.units.add(profile, accepted.unit) {
                Ok(()) => Ok(accepted.files),
                Err(_) => Err(SinkFault::OutOfMemory),
            },
            Err(fault) => Err(fault),
        }
    }

    /// The units that are acknowledged so far.
    pub(crate) fn mark(&self) -> UnitsMark
        ensures { result ≡ units_mark self.now.units }
    {
        self.units.mark()
    }

    /// The units that were acknowledged at the mark, of files whose beginning or end was not there then, in order.
    pub(crate) fn into_open_units(
        self,
        profile: &Profile,
        mark: UnitsMark,
    ) -> Result<Vec<FileUnits>, AllocError>
        ensures { IfOk result (λ units. units.items ≡ left_at profile.now.codes mark self.units) }
    {
        self.units.finish(profile, mark)
    }
}
