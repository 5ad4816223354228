//! What is said of the pieces of a recording.

ghost use Rattle.std.specs.Prelude.{◌≡◌, ◌++◌, ◌∷◌, [], List, IfOk, OnOk, option_map};
ghost use Rattle.a429_link.specs.declared.file.FileBytes.{FileBytes as AFile};
ghost use Rattle.a429_link.specs.Implied.{sizes_of};
ghost use Rattle.a429_sink.specs.Pieces.{SaidPiece};
ghost use Rattle.a429_sink.specs.Summary.{AreSummaries, AreTold, Says, stopped_from};

use crate::file_units::FileUnits;
use crate::stopping_trace::Stop;
use a429_link::{Crossing, FileBytes, Seen};
use std::alloc::{AllocError, Global};
use std::mem;

/// The entry of a recording at which a piece stops: no run records it after those of the piece before it, whatever came before these.
#[derive(Clone, Copy, Debug)]
pub struct Stopped {
    /// Its number in the recording, from 0.
    pub entry: usize,
    pub seen: Seen,
}

/// What is said of a piece of a recording.
#[derive(Drop)]
pub struct PieceSummary {
    /// The number of its first entry in the recording, from 0.
    pub from: usize,
    /// How many entries it has.
    pub entries: usize,
    /// The first start word after a request is not that of a file's first unit.
    pub begun_before: bool,
    /// Where it stops, if it does.
    pub stop: Option<Stopped>,
    /// The number and the length of each file that is sure of it, in order.
    pub files: Vec<Crossing>,
    /// Its acknowledged units, of files whose beginning or end is not there, in order.
    pub units: Vec<FileUnits>,
}

/// What is said of a piece at its end, besides its files.
#[derive(Drop)]
pub(crate) struct PieceEnd {
    pub(crate) entries: usize,
    pub(crate) begun_before: bool,
    pub(crate) stop: Option<Stop>,
    pub(crate) units: Vec<FileUnits>,
}

/// What is said of the pieces that have ended, and of the files of the one under way.
#[derive(Drop)]
pub(crate) struct Summaries {
    told: Vec<PieceSummary>,
    // How many entries the pieces that have ended have.
    from: usize,
    files: Vec<Crossing>,
}

impl Summaries {
    /// Of no pieces.
    pub(crate) fn new(alloc: Global) -> Summaries
        ensures { AreTold [] [] result }
    {
        Summaries {
            told: Vec::new(alloc),
            from: 0,
            files: Vec::new(alloc),
        }
    }

    /// More files are sure of the piece under way.
    pub(crate) fn add_files(&mut self, files: &[FileBytes]) -> Result<(), AllocError>
        ensures { OnOk result ((said : List SaidPiece) (before : List AFile) → AreTold said before self.old → AreTold said (before ++ files.now) self.new) }
    {
        add_sizes(&mut self.files, files)
    }

    /// The piece under way ends. There may be as many entries as a `usize` counts.
    pub(crate) fn end(&mut self, alloc: Global, end: PieceEnd) -> Result<(), AllocError>
        ensures { OnOk result ((said : List SaidPiece) (s : SaidPiece) → AreTold said s.told.files self.old → Says s end → AreTold (said ++ s ∷ []) [] self.new) }
    {
        let Some(next) = self.from.checked_add(end.entries) else {
            return Err(AllocError);
        };
        let stop = stopped_from(self.from, end.stop)?;
        let from = mem::replace(&mut self.from, next);
        let files = mem::replace(&mut self.files, Vec::new(alloc));
        self.told.push(PieceSummary {
            from,
            entries: end.entries,
            begun_before: end.begun_before,
            stop,
            files,
            units: end.units,
        })?;
        Ok(())
    }

    /// What is said of each piece, in order.
    pub(crate) fn into_told(self) -> Vec<PieceSummary>
        ensures { (said : List SaidPiece) (files : List AFile) → AreTold said files self → AreSummaries 0 said result.items }
    {
        self.told
    }
}

// Adds the number and the length of each file.
fn add_sizes(sizes: &mut Vec<Crossing>, files: &[FileBytes]) -> Result<(), AllocError>
    ensures { OnOk result (sizes.new.items ≡ sizes.old.items ++ sizes_of files.now) }
{
    for file in files {
        sizes.push(Crossing {
            number: file.number,
            bytes: file.bytes.as_slice().len(),
        })?;
    }
    Ok(())
}

// Where a piece stops that begins with this entry.
fn stopped_from(from: usize, stop: Option<Stop>) -> Result<Option<Stopped>, AllocError>
    ensures { IfOk result (λ stopped. stopped ≡ option_map (stopped_from from) stop) }
{
    let Some(stop) = stop else {
        return Ok(None);
    };
    let Some(entry) = from.checked_add(stop.place) else {
        return Err(AllocError);
    };
    let seen = stop.seen;
    Ok(Some(Stopped { entry, seen }))
}
