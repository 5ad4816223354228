//! A recording in pieces, while it is read.

ghost use Rattle.std.specs.Prelude.{◌≡◌, ◌⊎◌, ◌++◌, ◌∷◌, [], take, drop, Bool, List, Option, true, false, IfErr, IfOk, IsErrOf, OnOk};
ghost use Rattle.a429_link.specs.declared.seen.Seen.{Seen};
ghost use Rattle.a429_profile.specs.Profile.{Contents};
ghost use Rattle.a429_record.specs.declared.entry.Entry.{Entry as AnEntry};
ghost use Rattle.a429_record.specs.declared.fault.ReadFault.TheVariants as read;
ghost use Rattle.a429_parts.specs.Keeping.{taken};
ghost use Rattle.a429_sink.specs.Pieces.{IsBetweenPieces, PutPieces};
ghost use Rattle.a429_sink.specs.Splitting.{HasBegunAnew, EndsPiece, EndsThere, HasAll, IsSplit, PutsUntil, Replays, SeesNext, Splits, SplitsAll, SplitsUntil};

use crate::piece::{PieceTrace, Settled};
use crate::pieces::Pieces;
use crate::requests::Mark;
use crate::summary::{PieceEnd, PieceSummary, Summaries};
use a429_cert::seen;
use a429_link::FileBytes;
use a429_parts::{drop_front, fault_by, next_of};
use a429_profile::Profile;
use a429_record::{Entry, EntryLine, EntryReader, ReadFault};
use a429_word::{Failing, Trouble};
use std::alloc::{AllocError, Global};
use std::io::Read;
use std::mem;

/// Puts the pieces of a recording as it is read, each of which may be the end of a run, and says of each what is sure of it. A piece stops
/// at the first word that no run records after those before it, whatever came before these. It ends before the last request with which a
/// file begins, at or before that word; if there is none so early, before the next one. That it was cut there is an assumption. Kept in
/// memory are the entries since the last request with which a file begins, and the files that are sure since then; of each file before
/// them its number and its length. At a piece's end these entries are seen again as those of the next piece. No file begins with a
/// request among them but the first, except with the last one, if that is in doubt: so no piece ends while they are seen again, and each
/// entry is seen three times at most. A reader that has failed is no end of the recording: the fault is `Device`.
pub fn put_pieces<R: Read, P: Pieces>(
    alloc: Global,
    profile: &Profile,
    rec: &mut EntryReader<R>,
    pieces: &mut P,
) -> Result<Vec<PieceSummary>, ReadFault>
    requires { IsBetweenPieces (P.known pieces.old) }
    ensures all { IfOk result (λ told. SplitsAll profile.now (taken rec.old rec.new) (P.known pieces.old) (P.known pieces.new) told.items) }
    ensures until { IfErr result (SplitsUntil profile.now (taken rec.old rec.new) (P.known pieces.old) (P.known pieces.new)) }
    ensures device { IsErrOf result read.Device → (rec.new.failed ≡ true) ⊎ (P.failed pieces.new ≡ true) }
    ensures works { OnOk result ((rec.new.failed ≡ false) × (P.failed pieces.new ≡ false)) }
{
    let mut splitting = Splitting::new(alloc);
    let mut line = EntryLine::new();
    'entries: loop {
        match next_of(rec, &mut line) {
            Ok(Some(entry)) => match splitting.take(alloc, profile, &entry, pieces) {
                Ok(()) => {}
                Err(trouble) => return Err(fault_by(trouble)),
            },
            Ok(None) => {
                return match splitting.finish(alloc, profile, pieces) {
                    Ok(told) => Ok(told),
                    Err(trouble) => Err(fault_by(trouble)),
                };
            }
            Err(fault) => return Err(fault),
        }
    }
}

/// A recording that is being put in pieces.
#[derive(Drop)]
pub(crate) struct Splitting {
    // What the entries of the piece under way say.
    piece: PieceTrace,
    // How many of them are put, and how many of its files.
    put: Settled,
    // The others.
    held: Vec<Entry>,
    files: Vec<FileBytes>,
    // What is said of the pieces that are put, and of what is put of the one under way.
    summaries: Summaries,
}

// Nothing is put of a piece.
const NOTHING: Settled = Settled {
    entries: 0,
    files: 0,
};

impl Splitting {
    // Nothing has come.
    fn new(alloc: Global) -> Splitting
        ensures { (p : Contents) (known : Option PutPieces) → IsBetweenPieces known → Splits p false known known [] result }
    {
        Splitting {
            piece: PieceTrace::new(alloc),
            put: NOTHING,
            held: Vec::new(alloc),
            files: Vec::new(alloc),
            summaries: Summaries::new(alloc),
        }
    }

    // Takes the next entry, and puts what belongs to the piece under way, whatever entries come.
    fn take<P: Pieces>(
        &mut self,
        alloc: Global,
        profile: &Profile,
        entry: &Entry,
        pieces: &mut P,
    ) -> Result<(), Trouble>
        ensures ok { OnOk result ((first : Option PutPieces) (es : List AnEntry) → Splits profile.now false first (P.known pieces.old) es self.old → Splits profile.now false first (P.known pieces.new) (es ++ entry.now ∷ []) self.new) }
        ensures device { IsErrOf result Trouble.Device → P.failed pieces.new ≡ true }
    {
        match self.held.push(*entry) {
            Ok(()) => {}
            Err(_) => return Err(Trouble::OutOfMemory),
        }
        match self.see(alloc, profile, entry) {
            Ok(()) => {}
            Err(_) => return Err(Trouble::OutOfMemory),
        }
        if let Some(mark) = self.piece.end() {
            match self.begin_anew(alloc, profile, mark, pieces) {
                Ok(()) => {}
                Err(trouble) => return Err(trouble),
            }
        }
        let upto = self.piece.settled();
        self.put_until(upto, pieces)
    }

    // Puts the pieces that are left, at the end of the recording.
    fn finish<P: Pieces>(
        self,
        alloc: Global,
        profile: &Profile,
        pieces: &mut P,
    ) -> Result<Vec<PieceSummary>, Trouble>
        ensures ok { IfOk result (λ told. (first : Option PutPieces) (es : List AnEntry) → Splits profile.now false first (P.known pieces.old) es self → HasAll profile.now first (P.known pieces.new) told.items es) }
        ensures device { IsErrOf result Trouble.Device → P.failed pieces.new ≡ true }
        ensures works { OnOk result (P.failed pieces.new ≡ false) }
    {
        let mut splitting = self;
        if let Some(mark) = splitting.piece.end_at_last() {
            match splitting.begin_anew(alloc, profile, mark, pieces) {
                Ok(()) => {}
                Err(trouble) => return Err(trouble),
            }
        }
        let all = splitting.piece.mark();
        match splitting.end_piece(alloc, profile, all, pieces) {
            Ok(()) => Ok(splitting.summaries.into_told()),
            Err(trouble) => Err(trouble),
        }
    }

    // Sees an entry as the next one of the piece under way.
    fn see(&mut self, alloc: Global, profile: &Profile, entry: &Entry) -> Result<(), AllocError>
        ensures sees { OnOk result ((items : List Seen) → SeesNext profile.now items entry.now self.old self.new) }
        ensures same { OnOk result ((self.new.put ≡ self.old.put) × (self.new.held ≡ self.old.held) × (self.new.summaries ≡ self.old.summaries)) }
    {
        match self.piece.see(alloc, profile, seen(*entry)) {
            Ok(mut files) => self.files.append(&mut files),
            Err(fault) => Err(fault),
        }
    }

    // Ends the piece under way at the mark, and sees the entries after it again, as those of the next piece.
    fn begin_anew<P: Pieces>(
        &mut self,
        alloc: Global,
        profile: &Profile,
        mark: Mark,
        pieces: &mut P,
    ) -> Result<(), Trouble>
        ensures ok { OnOk result ((at_end : Bool) (first : Option PutPieces) (es : List AnEntry) → IsSplit profile.now at_end first (P.known pieces.old) es self.old → EndsThere at_end self.old mark → HasBegunAnew profile.now at_end first (P.known pieces.new) es self.new) }
        ensures device { IsErrOf result Trouble.Device → P.failed pieces.new ≡ true }
    {
        match self.end_piece(alloc, profile, mark, pieces) {
            Ok(()) => {}
            Err(trouble) => return Err(trouble),
        }
        match self.see_again(alloc, profile) {
            Ok(()) => Ok(()),
            Err(_) => Err(Trouble::OutOfMemory),
        }
    }

    // Ends the piece under way at the mark. The entries after it are held, and none of them is seen.
    fn end_piece<P: Pieces>(
        &mut self,
        alloc: Global,
        profile: &Profile,
        mark: Mark,
        pieces: &mut P,
    ) -> Result<(), Trouble>
        ensures ok { OnOk result (EndsPiece profile.now.codes mark (P.known pieces.old) (P.known pieces.new) self.old self.new) }
        ensures device { IsErrOf result Trouble.Device → P.failed pieces.new ≡ true }
        ensures works { OnOk result (P.failed pieces.new ≡ false) }
    {
        let upto = Settled {
            entries: mark.place,
            files: mark.files,
        };
        match self.put_until(upto, pieces) {
            Ok(()) => {}
            Err(trouble) => return Err(trouble),
        }
        let piece = mem::replace(&mut self.piece, PieceTrace::new(alloc));
        let stop = piece.stop_at(mark.place);
        let Ok(units) = piece.into_open_units(profile, mark.units) else {
            return Err(Trouble::OutOfMemory);
        };
        let end = PieceEnd {
            entries: mark.place,
            begun_before: mark.begun_before,
            stop,
            units,
        };
        match self.summaries.end(alloc, end) {
            Ok(()) => {}
            Err(_) => return Err(Trouble::OutOfMemory),
        }
        match pieces.end() {
            Ok(()) => {}
            Err(trouble) => return Err(trouble),
        }
        self.put = NOTHING;
        self.files.clear();
        Ok(())
    }

    // Sees the entries that are held, of which none is seen yet.
    fn see_again(&mut self, alloc: Global, profile: &Profile) -> Result<(), AllocError>
        ensures { OnOk result ((at_end : Bool) (first : Option PutPieces) (now : Option PutPieces) (es : List AnEntry) → Replays profile.now at_end first now es 0 self.old → HasBegunAnew profile.now at_end first now es self.new) }
    {
        let mut next = 0;
        'entries: loop {
            let Some(entry) = self.held.get(next) else {
                return Ok(());
            };
            let entry = *entry;
            match self.see(alloc, profile, &entry) {
                Ok(()) => {}
                Err(fault) => return Err(fault),
            }
            next += 1;
        }
    }

    // Puts the entries and files of the piece under way that are not put yet, up to there.
    fn put_until<P: Pieces>(&mut self, upto: Settled, pieces: &mut P) -> Result<(), Trouble>
        ensures same { OnOk result (self.new.piece ≡ self.old.piece) }
        ensures ok { OnOk result (PutsUntil upto (P.known pieces.old) (P.known pieces.new) self.old self.new) }
        ensures device { IsErrOf result Trouble.Device → P.failed pieces.new ≡ true }
    {
        if upto.entries == self.put.entries && upto.files == self.put.files {
            return Ok(());
        }
        let entries = upto.entries.saturating_sub(self.put.entries);
        let entries = entries.min(self.held.len());
        let files = upto.files.saturating_sub(self.put.files);
        let Ok(files) = take_front(&mut self.files, files) else {
            return Err(Trouble::OutOfMemory);
        };
        match self.summaries.add_files(files.as_slice()) {
            Ok(()) => {}
            Err(_) => return Err(Trouble::OutOfMemory),
        }
        match pieces.put(&self.held[..entries], files) {
            Ok(()) => {}
            Err(trouble) => return Err(trouble),
        }
        drop_front(&mut self.held, entries);
        self.put = upto;
        Ok(())
    }
}

// Takes the first files out.
fn take_front(files: &mut Vec<FileBytes>, size: usize) -> Result<Vec<FileBytes>, AllocError>
    ensures taken { IfOk result (λ front. front.items ≡ take size files.old.items) }
    ensures left { OnOk result (files.new.items ≡ drop size files.old.items) }
{
    let size = size.min(files.len());
    let rest = files.split_off(size)?;
    Ok(mem::replace(files, rest))
}
