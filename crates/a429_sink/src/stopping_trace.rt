//! The words of a piece, up to the one at which it stops.

ghost use Rattle.std.specs.Prelude.{◌≡◌, ◌++◌, ◌∷◌, [], List, IfOk, OnOk};
ghost use Rattle.a429_link.specs.declared.seen.Seen.{Seen};
ghost use Rattle.a429_profile.specs.Profile.{Contents};
ghost use Rattle.a429_sink.specs.StoppingTrace.{GrowsBy, IsLater, IsStoppingTrace};

use crate::fault::SinkFault;
use crate::glimpsed_trace::GlimpsedTrace;
use a429_link::{FileBytes, Seen};
use a429_profile::Profile;
use std::alloc::{AllocError, Global};

/// A word that no run records after those of its piece before it, whatever came before these.
#[derive(Clone, Copy)]
pub(crate) struct Stop {
    /// Its place in the piece, from 0.
    pub(crate) place: usize,
    pub(crate) seen: Seen,
}

/// What the words of a piece say so far, up to the one at which it stops.
#[derive(Drop)]
pub(crate) struct StoppingTrace {
    pub(crate) trace: GlimpsedTrace,
    /// How many words the piece has.
    pub(crate) size: usize,
    /// How many files are sure.
    pub(crate) files: usize,
    pub(crate) stop: Option<Stop>,
}

impl StoppingTrace {
    /// A piece of no words.
    pub(crate) fn new(alloc: Global) -> StoppingTrace
        ensures { (p : Contents) → IsStoppingTrace p [] result }
    {
        StoppingTrace {
            trace: GlimpsedTrace::new(alloc),
            size: 0,
            files: 0,
            stop: None,
        }
    }

    /// Takes the next word, and answers the file that is sure by it: one at most. There may be as many words as a `usize` counts.
    pub(crate) fn see(
        &mut self,
        alloc: Global,
        profile: &Profile,
        seen: Seen,
    ) -> Result<Vec<FileBytes>, AllocError>
        ensures goes_on { OnOk result ((items : List Seen) → IsStoppingTrace profile.now items self.old → IsStoppingTrace profile.now (items ++ seen ∷ []) self.new) }
        ensures files { IfOk result (λ files. (items : List Seen) → IsStoppingTrace profile.now items self.old → GrowsBy profile.now items seen self.old self.new files.items) }
        ensures later { OnOk result (IsLater self.old self.new) }
    {
        let (bus, word) = (seen.bus, seen.word);
        let Some(size) = self.size.checked_add(1) else {
            return Err(AllocError);
        };
        if self.stop.is_some() {
            self.size = size;
            return Ok(Vec::new(alloc));
        }
        match self.trace.see(alloc, profile, seen) {
            Ok(files) => {
                let Some(count) = self.files.checked_add(files.len()) else {
                    return Err(AllocError);
                };
                self.files = count;
                self.size = size;
                Ok(files)
            }
            Err(SinkFault::Refused) => {
                let place = self.size;
                let seen = Seen { bus, word };
                self.stop = Some(Stop { place, seen });
                self.size = size;
                Ok(Vec::new(alloc))
            }
            Err(SinkFault::OutOfMemory) => Err(AllocError),
        }
    }
}
