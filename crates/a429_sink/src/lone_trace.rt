//! What a recording so far says of its sink by itself.

ghost use Rattle.std.specs.Prelude.{◌≡◌, ◌+◌, ◌<◌, ◌^◌, ◌++◌, ◌∷◌, [], List, IsSome, IfErr, OnErr, OnOk};
ghost use Rattle.a429_link.specs.declared.seen.Seen.{Seen};
ghost use Rattle.a429_profile.specs.Profile.{Contents};
ghost use Rattle.a429_ldu.specs.Form.{form_of};
ghost use Rattle.a429_sink.specs.Alone.{on_bus};
ghost use Rattle.a429_sink.specs.Lone.{listed};
ghost use Rattle.a429_sink.specs.LoneTrace.{IsLater, IsLoneStop, IsLoneTrace, WasOwed};
ghost use Rattle.a429_sink.specs.Owed.{IsRequest};

use crate::fault::SinkFault;
use crate::lone::LoneSink;
use crate::owed::Owed;
use a429_ldu::Form;
use a429_link::{Crossing, Seen, form_of};
use a429_profile::Profile;
use a429_word::{Bus, Word};
use std::alloc::{AllocError, Global};

/// The first entry of a recording that no sink sends which keeps the rules.
#[derive(Clone, Copy, Debug)]
pub struct Refusal {
    /// Its number, from 0.
    pub entry: usize,
    /// The number of the last request before it, where the sink owed this answer until that request came.
    pub owed_before: Option<usize>,
    /// What the sink owes in its place.
    pub owed: Owed,
}

/// Why a recording does not go on.
#[derive(Clone, Copy, Debug)]
pub enum LoneStop {
    /// No sink that keeps the rules sends this word after those before it.
    Refused(Refusal),
    OutOfMemory,
}

// The last request of a recording, and what the sink owed when it came.
#[derive(Clone, Copy)]
pub(crate) struct Request {
    entry: usize,
    owed: Owed,
}

/// What the entries of a recording so far say of its sink by itself, whatever its source sends. Of each file that has crossed it keeps
/// the number and the length, 16 bytes; of the one that is not whole, its bytes.
#[derive(Drop)]
pub struct LoneTrace {
    sink: LoneSink,
    files: Vec<Crossing>,
    entries: usize,
    request: Option<Request>,
}

impl LoneTrace {
    /// A recording of no entries.
    pub fn new(alloc: Global) -> LoneTrace
        ensures { (p : Contents) → IsLoneTrace p [] result }
    {
        LoneTrace {
            sink: LoneSink::new(alloc),
            files: Vec::new(alloc),
            entries: 0,
            request: None,
        }
    }

    /// The files that have crossed, in order.
    pub fn files(&self) -> &[Crossing]
        ensures { result.now ≡ self.now.files.items }
    {
        self.files.as_slice()
    }

    /// The same as a vector.
    pub fn into_files(self) -> Vec<Crossing>
        ensures { result.items ≡ self.files.items }
    {
        self.files
    }

    /// Goes on with one more entry. `Refused` where no sink that keeps the rules sends its word after those before it; an acknowledgement
    /// alone may want memory. There may be as many entries as a `usize` counts.
    pub fn see(&mut self, alloc: Global, profile: &Profile, seen: Seen) -> Result<(), LoneStop>
        requires few { self.old.entries + 1 < 2 ^ 64 }
        ensures goes_on { OnOk result ((items : List Seen) → IsLoneTrace profile.now items self.old → IsLoneTrace profile.now (items ++ seen ∷ []) self.new) }
        ensures stop { IfErr result (λ stop. (items : List Seen) → IsLoneTrace profile.now items self.old → IsLoneStop profile.now items seen stop) }
    {
        let (bus, word) = (seen.bus, seen.word);
        let owed = self.sink.owes();
        let crossing = match self.sink.see(alloc, profile, seen) {
            Ok(crossing) => crossing,
            Err(SinkFault::OutOfMemory) => return Err(LoneStop::OutOfMemory),
            Err(SinkFault::Refused) => {
                return Err(LoneStop::Refused(Refusal {
                    entry: self.entries,
                    owed_before: owed_before(self.request, profile, bus, word),
                    owed,
                }));
            }
        };
        match add_file(&mut self.files, crossing) {
            Ok(()) => {}
            Err(_) => return Err(LoneStop::OutOfMemory),
        }
        let entry = self.entries;
        self.request = last_request(self.request, profile, bus, word, Request { entry, owed });
        self.entries = entry + 1;
        Ok(())
    }
}

// Adds the file that crosses, if one does.
fn add_file(files: &mut Vec<Crossing>, crossing: Option<Crossing>) -> Result<(), AllocError>
    ensures added { OnOk result (files.new.items ≡ files.old.items ++ listed crossing) }
    ensures memory { OnErr result (IsSome crossing) }
{
    if let Some(file) = crossing {
        files.push(file)?;
    }
    Ok(())
}

// The last request after this word: the new one, if it is a request, else the old one.
fn last_request(
    old: Option<Request>,
    profile: &Profile,
    bus: Bus,
    word: Word,
    new: Request,
) -> Option<Request>
    ensures { IsLater (IsRequest profile.now (on_bus bus word)) old new result }
{
    match (bus, form_of(profile, bus, word)) {
        (Bus::A, Some(Form::Rts { .. })) => Some(new),
        _ => old,
    }
}

// The number of the last request, where this word was owed when it came.
fn owed_before(request: Option<Request>, profile: &Profile, bus: Bus, word: Word) -> Option<usize>
    ensures { WasOwed request (form_of profile.now.codes bus word) result }
{
    let request = request?;
    let form = form_of(profile, bus, word)?;
    if request.owed.allows(&form) {
        Some(request.entry)
    } else {
        None
    }
}
