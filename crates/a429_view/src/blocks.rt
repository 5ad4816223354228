//! The attempts of a recording, a row for each.

ghost use Rattle.std.specs.Prelude.{◌≡◌, ◌<◌, ◌+◌, ◌-◌, ◌^◌, ◌∷◌, ◌++◌, [], List, length, min, not, option_map, ◌&&◌, Some, IfErr, OnErr, OnOk};
ghost use Rattle.a429_word.specs.Sheet.{Says};
ghost use Rattle.a429_link.specs.Implied.{observer_of};
ghost use Rattle.a429_link.specs.Observer.{Allows};
ghost use Rattle.a429_profile.specs.Profile.{Contents, IsProfile};
ghost use Rattle.a429_ldu.specs.declared.forms.Form.{Form};
ghost use Rattle.a429_link.specs.declared.doing.Doing.{Doing};
ghost use Rattle.a429_record.specs.declared.entry.Entry.{Entry};
ghost use Rattle.a429_cert.specs.Explained.{seen_of};
ghost use Rattle.a429_view.specs.Trace.{IsTraceStop};
ghost use Rattle.a429_view.specs.Blocks.{IsBlocks, PutsOnTo, asked_by, begun_text, blocks_text, form_at, is_a, is_odd, last_line, not_allowed_line, stopped_text};
ghost use Rattle.a429_view.specs.BlockSteps.{StepsOn, line_before, noted, passed, place_next, row_after};

pub(crate) mod row;
mod text;

use crate::blocks::row::AttemptRow;
use crate::blocks::text::{COLUMNS, put_ended, put_last, put_not_allowed};
use crate::trace::{TraceStop, has_line};
use crate::units::span::Moment;
use a429_cert::seen;
use a429_ldu::{Form, Sight, form};
use a429_link::{Doing, ImpliedSink};
use a429_profile::Profile;
use a429_record::Entry;
use a429_word::{Bus, Sheet, Word};
use std::alloc::Global;
use std::io::Write;

/// The attempts of a recording whose entries come one by one: what they imply of the sink, and the row of the attempt that is
/// under way. Of the files it keeps the bytes of the one that is not whole.
#[derive(Drop)]
pub struct Blocks {
    sink: ImpliedSink,
    entries: usize,
    row: Option<AttemptRow>,
}

impl Blocks {
    /// Those of no entries: puts the names of the columns.
    pub fn begin<W: Write>(alloc: Global, sheet: &mut Sheet<'_, W>) -> Blocks
        ensures none { (p : Contents) → IsBlocks p result [] }
        ensures columns { (p : Contents) → Says W.contents sheet.old sheet.new (begun_text p []) }
    {
        sheet.put(COLUMNS);
        Blocks {
            sink: ImpliedSink::new(alloc),
            entries: 0,
            row: None,
        }
    }

    /// Goes on with one more entry: where it is a request, it puts the row of the attempt that ends there (ARINC 429 Part 3;
    /// the layout is the profile's). `Refused` where no run records its word after those before it: the row of the attempt
    /// under way is put then, and a last one that names the entry.
    pub fn put_entry<W: Write>(
        &mut self,
        alloc: Global,
        sheet: &mut Sheet<'_, W>,
        profile: &Profile,
        entry: &Entry,
    ) -> Result<(), TraceStop>
        ensures next { OnOk result ((es : List Entry) → length es + 1 < 2 ^ 64 → IsBlocks profile.now self.old es → IsBlocks profile.now self.new (es ++ entry.now ∷ [])) }
        ensures rows { OnOk result ((es : List Entry) → length es + 1 < 2 ^ 64 → IsBlocks profile.now self.old es → PutsOnTo W.contents sheet.old sheet.new (begun_text profile.now es) (begun_text profile.now (es ++ entry.now ∷ []))) }
        ensures allowed { OnOk result (Allows profile.now (observer_of self.old.sink) (seen_of entry.now)) }
        ensures stop { IfErr result (IsTraceStop profile.now self.old.sink entry.now) }
        ensures stop_rows { IfErr result (λ stop. (es : List Entry) → IsBlocks profile.now self.old es → PutsOnTo W.contents sheet.old sheet.new (begun_text profile.now es) (stopped_text profile.now es entry.now stop)) }
        ensures sound { IsProfile profile.now }
    {
        match self.go_on(alloc, sheet, profile, entry) {
            Ok(()) => Ok(()),
            Err(TraceStop::OutOfMemory) => Err(TraceStop::OutOfMemory),
            Err(TraceStop::Refused(sight)) => {
                put_last(sheet, &self.row);
                put_not_allowed(sheet, self.entries, entry.time);
                Err(TraceStop::Refused(sight))
            }
        }
    }

    /// Puts the row of the last attempt, where there is one: the recording ends.
    pub fn put_last<W: Write>(&self, sheet: &mut Sheet<'_, W>)
        ensures { (p : Contents) (es : List Entry) → IsBlocks p self.now es → PutsOnTo W.contents sheet.old sheet.new (begun_text p es) (blocks_text p es) }
    {
        put_last(sheet, &self.row);
    }

    // Takes one more entry, and puts the row of the attempt that it ends. It is unchanged, and nothing is put, where it does not go on.
    fn go_on<W: Write>(
        &mut self,
        alloc: Global,
        sheet: &mut Sheet<'_, W>,
        profile: &Profile,
        entry: &Entry,
    ) -> Result<(), TraceStop>
        ensures steps { OnOk result (StepsOn profile.now entry.now self.old self.new) }
        ensures line { OnOk result (Says W.contents sheet.old sheet.new (line_before (asked_by (form_at profile.now.codes (place_next self.old entry.now))) self.old.row)) }
        ensures stop { IfErr result (IsTraceStop profile.now self.old.sink entry.now) }
        ensures stays { OnErr result (self.new ≡ self.old) }
        ensures nothing { OnErr result (sheet.new ≡ sheet.old) }
        ensures sound { IsProfile profile.now }
    {
        if !has_line(profile, entry) {
            self.count_one();
            return Ok(());
        }
        match form(profile, entry.bus, entry.word) {
            Sight::Free => self.pass(entry),
            Sight::Form(form) => {
                if !self.sink.allows(entry.bus, &form) {
                    return Err(TraceStop::Refused(Sight::Form(form)));
                }
                let Ok(doing) = self.sink.take(alloc, profile, seen(*entry), &form) else {
                    return Err(TraceStop::OutOfMemory);
                };
                self.note(sheet, entry, &form, &doing);
            }
            Sight::NoForm => return Err(TraceStop::Refused(Sight::NoForm)),
        }
        self.count_one();
        Ok(())
    }

    // One more entry. The greatest count stays as it is.
    fn count_one(&mut self)
        ensures { self.new ≡ record (self.old) { entries = min (self.old.entries + 1) (2 ^ 64 - 1) } }
    {
        self.entries = self.entries.saturating_add(1);
    }

    // Notes a free word with the transfer's label in the row of the attempt under way.
    fn pass(&mut self, entry: &Entry)
        ensures { self.new ≡ record (self.old) { row = option_map (passed (record { entry = self.old.entries; time = entry.now.time }) (is_a entry.now.bus && not (is_odd entry.now.word))) self.old.row } }
    {
        let moment = self.moment(entry);
        if let Some(row) = &mut self.row {
            row.pass(moment, is_damaged(entry.bus, entry.word));
        }
    }

    // Notes a word of this form, after which the sink does this. A request ends the attempt under way, whose row is put, and begins
    // another.
    fn note<W: Write>(
        &mut self,
        sheet: &mut Sheet<'_, W>,
        entry: &Entry,
        form: &Form,
        doing: &Doing,
    )
        ensures row { self.new ≡ record (self.old) { row = row_after (record { entry = self.old.entries; time = entry.now.time }) (asked_by (Some form.now)) (option_map (noted (record { entry = self.old.entries; time = entry.now.time }) form.now doing.now) self.old.row) } }
        ensures line { Says W.contents sheet.old sheet.new (line_before (asked_by (Some form.now)) self.old.row) }
    {
        let moment = self.moment(entry);
        if let Form::Rts { count } = *form {
            put_ended(sheet, &self.row);
            self.row = Some(AttemptRow::new(moment, count));
        } else if let Some(row) = &mut self.row {
            row.note(moment, form, doing);
        }
    }

    // The number and the time of an entry that comes next.
    fn moment(&self, entry: &Entry) -> Moment
        ensures { result ≡ record { entry = self.now.entries; time = entry.now.time } }
    {
        Moment {
            entry: self.entries,
            time: entry.time,
        }
    }
}

// A word of bus A has wrong parity.
fn is_damaged(bus: Bus, word: Word) -> bool
    ensures { result ≡ (is_a bus && not (is_odd word)) }
{
    match bus {
        Bus::A => !word.parity_ok(),
        Bus::B => false,
    }
}
