//! What the words of a piece say so far, and where it ends.

ghost use Rattle.std.specs.Prelude.{◌≡◌, ◌++◌, ◌∷◌, [], List, None, IfOk, OnOk};
ghost use Rattle.a429_link.specs.declared.seen.Seen.{Seen};
ghost use Rattle.a429_profile.specs.Profile.{Contents};
ghost use Rattle.a429_sink.specs.FileUnits.{left_at};
ghost use Rattle.a429_sink.specs.Piece.{IsPieceTrace, IsSettled, end_at_last, end_of, mark_of, settled_of, stop_at};
ghost use Rattle.a429_sink.specs.StoppingTrace.{GrowsBy};
ghost use Rattle.a429_sink.specs.declared.piece.Settled.{Settled as ASettled};

use crate::file_units::{FileUnits, UnitsMark};
use crate::requests::{Mark, Requests};
use crate::stopping_trace::{Stop, StoppingTrace};
use a429_link::{FileBytes, Seen, form_of};
use a429_profile::Profile;
use std::alloc::{AllocError, Global};

/// How many entries, and how many sure files.
#[derive(Clone, Copy)]
pub(crate) struct Settled {
    pub(crate) entries: usize,
    pub(crate) files: usize,
}

/// What the words of a piece say so far: which files are sure, where it stops, and where it may end. It ends at the last request with
/// which a file begins, at or before the word at which it stops; if there is none so early, at the next one. It keeps no words.
#[derive(Drop)]
pub(crate) struct PieceTrace {
    trace: StoppingTrace,
    requests: Requests,
}

impl PieceTrace {
    /// A piece of no words.
    pub(crate) fn new(alloc: Global) -> PieceTrace
        ensures piece { (p : Contents) → IsPieceTrace p [] result }
        ensures goes_on { end_of result ≡ None }
    {
        PieceTrace {
            trace: StoppingTrace::new(alloc),
            requests: Requests::new(),
        }
    }

    /// What is said of the words so far.
    pub(crate) fn mark(&self) -> Mark
        ensures { result ≡ mark_of self.now }
    {
        Mark {
            place: self.trace.size,
            begun_before: self.requests.is_begun_before(),
            files: self.trace.files,
            units: self.trace.trace.mark(),
        }
    }

    /// Takes the next word, and answers the file that is sure by it: one at most. A piece that has ended says nothing of later words.
    pub(crate) fn see(
        &mut self,
        alloc: Global,
        profile: &Profile,
        seen: Seen,
    ) -> Result<Vec<FileBytes>, AllocError>
        ensures piece { OnOk result ((items : List Seen) → IsPieceTrace profile.now items self.old → end_of self.old ≡ None → IsPieceTrace profile.now (items ++ seen ∷ []) self.new) }
        ensures files { IfOk result (λ files. (items : List Seen) → IsPieceTrace profile.now items self.old → GrowsBy profile.now items seen self.old.trace self.new.trace files.items) }
        ensures settled { OnOk result ((s : ASettled) → IsSettled s self.old → IsSettled s self.new) }
    {
        let (bus, word) = (seen.bus, seen.word);
        let mark = self.mark();
        let files = match self.trace.see(alloc, profile, seen) {
            Ok(files) => files,
            Err(fault) => return Err(fault),
        };
        let form = form_of(profile, bus, word);
        self.requests.take(profile, bus, &form, mark);
        Ok(files)
    }

    /// Where the piece ends, if that is known: it has stopped, and no request is in doubt at which it may end in place of this one.
    pub(crate) fn end(&self) -> Option<Mark>
        ensures { result ≡ end_of self.now }
    {
        let stop = self.trace.stop?;
        let place = self.requests.place?;
        match self.requests.doubt {
            Some(doubt) if doubt.place <= stop.place => None,
            _ => Some(place),
        }
    }

    /// Where it ends, if no more words come and there are words after it.
    pub(crate) fn end_at_last(&self) -> Option<Mark>
        ensures { result ≡ end_at_last self.now }
    {
        let _ = self.trace.stop?;
        self.requests.place
    }

    /// What belongs to the piece, whatever words come: all before the last place where it may end, or before the one in doubt.
    pub(crate) fn settled(&self) -> Settled
        ensures { result ≡ settled_of self.now }
    {
        let requests = self.requests;
        match requests.place.or(requests.doubt) {
            Some(mark) => Settled {
                entries: mark.place,
                files: mark.files,
            },
            None => Settled {
                entries: self.trace.size,
                files: self.trace.files,
            },
        }
    }

    /// Where it stops, if it ends at this place.
    pub(crate) fn stop_at(&self, place: usize) -> Option<Stop>
        ensures { result ≡ stop_at place self.now.trace.stop }
    {
        match self.trace.stop {
            Some(stop) if stop.place < place => Some(stop),
            _ => None,
        }
    }

    /// The units that were acknowledged at the mark, of files whose beginning or end was not there then, in order.
    pub(crate) fn into_open_units(
        self,
        profile: &Profile,
        mark: UnitsMark,
    ) -> Result<Vec<FileUnits>, AllocError>
        ensures { IfOk result (λ units. units.items ≡ left_at profile.now.codes mark self.trace.trace.units) }
    {
        self.trace.trace.into_open_units(profile, mark)
    }
}
