//! What a recording implies of its sink, a line for each word of the transfer.

ghost use Rattle.std.specs.Prelude.{◌≡◌, ◌++◌, [], IfErr, IfOk, OnOk, Some};
ghost use Rattle.a429_word.specs.Sheet.{Says};
ghost use Rattle.a429_view.specs.Forms.{other_text};
ghost use Rattle.a429_ldu.specs.Sight.{form_in};
ghost use Rattle.a429_link.specs.Observer.{AllowsForm};
ghost use Rattle.a429_link.specs.Implied.{crossings_of, does, implies_form, observer_of};
ghost use Rattle.a429_profile.specs.Profile.{Contents, IsProfile};
ghost use Rattle.a429_view.specs.Trace.{GoesOn, IsTrace, IsTraceStop, has_line, line_head, line_of, refused_text, stop_text};

mod block;
mod count;
pub(crate) mod text;

use crate::line::Line;
use crate::trace::block::InBlockText;
use crate::trace::count::EntryCount;
use crate::trace::text::{put_allowed, put_free, put_refused};
use a429_cert::seen;
use a429_ldu::{Form, Sight, form};
use a429_link::{Crossing, Doing, ImpliedSink};
use a429_profile::Profile;
use a429_record::{Entry, EntryText};
use a429_word::{Bus, Sheet};
use std::alloc::{AllocError, Global};
use std::io::Write;

/// Why a trace does not go on.
#[derive(Clone, Copy, Debug)]
pub enum TraceStop {
    /// No run records this word after those before it.
    Refused(Sight),
    /// There is no memory.
    OutOfMemory,
}

/// What the entries of a recording so far imply of its sink, whatever its source did. Of each file that has crossed it
/// keeps the number and the length, 16 bytes; of the one that is not whole, its bytes.
#[derive(Drop)]
pub struct Trace {
    sink: ImpliedSink,
    files: Vec<Crossing>,
    entries: EntryCount,
    // the text of an entry: what it puts does not depend on the entries before
    text: EntryText,
    // made anew where the sink is in another block
    block: InBlockText,
    // where a line is put together
    line: Line,
}

impl Trace {
    /// A trace of no entries.
    pub fn new(alloc: Global) -> Trace
        ensures { (p : Contents) → IsTrace p result [] }
    {
        Trace {
            sink: ImpliedSink::new(alloc),
            files: Vec::new(alloc),
            entries: EntryCount::new(),
            text: EntryText::new(),
            block: InBlockText::of(0, 0, 0),
            line: Line::new(),
        }
    }

    /// How many entries there are.
    pub fn entries(&self) -> usize
        ensures { result ≡ self.now.entries }
    {
        self.entries.count()
    }

    /// The files that have crossed, in order.
    pub fn files(&self) -> &[Crossing]
        ensures { result.now ≡ self.now.files.items }
    {
        self.files.as_slice()
    }

    /// Goes on with one more entry, and puts its line, if its word has the transfer's label of its bus: what the word
    /// is, and what the sink does then (ARINC 429 Part 3; the layout is the profile's). `Refused` where no run records
    /// the word after those before it: the line then says what the recording could go on with.
    pub fn put_entry<W: Write>(
        &mut self,
        alloc: Global,
        sheet: &mut Sheet<'_, W>,
        profile: &Profile,
        entry: &Entry,
    ) -> Result<(), TraceStop>
        ensures goes_on { OnOk result (GoesOn profile.now entry.now self.old self.new) }
        ensures line { OnOk result (Says W.contents sheet.old sheet.new (line_of profile.now self.old.entries self.old.sink entry.now)) }
        ensures stop { IfErr result (IsTraceStop profile.now self.old.sink entry.now) }
        ensures sound { IsProfile profile.now }
        ensures stop_line { IfErr result (λ stop. Says W.contents sheet.old sheet.new (stop_text profile.now self.old.entries self.old.sink entry.now stop)) }
    {
        if !has_line(profile, entry) {
            self.entries.add_one();
            return Ok(());
        }
        match form(profile, entry.bus, entry.word) {
            Sight::Free => put_free(sheet, profile, &self.entries, &mut self.text, entry),
            Sight::Form(form) => {
                if !self.sink.allows(entry.bus, &form) {
                    return Err(self.refuse(sheet, profile, entry, Sight::Form(form)));
                }
                let Ok(doing) = self.take(alloc, profile, entry, &form) else {
                    return Err(TraceStop::OutOfMemory);
                };
                put_allowed(
                    sheet,
                    profile,
                    &self.entries,
                    &mut self.text,
                    &mut self.block,
                    &mut self.line,
                    entry,
                    &form,
                    &doing,
                );
            }
            Sight::NoForm => return Err(self.refuse(sheet, profile, entry, Sight::NoForm)),
        }
        self.entries.add_one();
        Ok(())
    }

    // Puts the line of a word that is not free, and that no run records.
    fn refuse<W: Write>(
        &self,
        sheet: &mut Sheet<'_, W>,
        profile: &Profile,
        entry: &Entry,
        sight: Sight,
    ) -> TraceStop
        ensures stop { result ≡ TraceStop.Refused sight }
        ensures line { Says W.contents sheet.old sheet.new (line_head self.now.entries entry.now ++ refused_text profile.now.codes (form_in sight) (other_text profile.now.codes entry.now.bus entry.now.word) self.now.sink) }
    {
        let next = self.sink.next();
        put_refused(sheet, profile, &self.entries, entry, sight.form(), next);
        TraceStop::Refused(sight)
    }

    // Takes the word of an entry, which has this allowed form.
    fn take(
        &mut self,
        alloc: Global,
        profile: &Profile,
        entry: &Entry,
        form: &Form,
    ) -> Result<Doing, AllocError>
        requires { AllowsForm (observer_of self.old.sink) entry.now.bus (Some form.now) }
        ensures entries { self.new.entries ≡ self.old.entries }
        ensures sink { OnOk result (self.new.sink ≡ implies_form profile.now entry.now.bus entry.now.word (Some form.now) self.old.sink) }
        ensures does { IfOk result (λ doing. doing ≡ does profile.now entry.now.bus entry.now.word form.now self.old.sink.sink) }
        ensures files { OnOk result (self.new.files.items ≡ self.old.files.items ++ crossings_of (does profile.now entry.now.bus entry.now.word form.now self.old.sink.sink)) }
    {
        let doing = self.sink.take(alloc, profile, seen(*entry), form)?;
        if let Doing::Accepts {
            crossing: Some(file),
            ..
        } = doing
        {
            self.files.push(file)?;
        }
        Ok(doing)
    }
}

/// The word has the transfer's label of its bus.
pub(crate) fn has_line(profile: &Profile, entry: &Entry) -> bool
    ensures value { result ≡ has_line profile.now.codes entry.now }
    ensures sound { IsProfile profile.now }
{
    let codes = profile.codes();
    let label = match entry.bus {
        Bus::A => codes.to_sink,
        Bus::B => codes.to_source,
    };
    entry.word.label() == label
}
