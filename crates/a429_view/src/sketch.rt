//! A listener that notes the rows of a picture.

ghost use Rattle.std.specs.Prelude.{◌≡◌, ◌≤◌, ◌+◌, length};
ghost use Rattle.a429_view.specs.Mark.{file_ended, acknowledges, crossing, still_due, unseen, is_within};

use crate::mark::{Mark, Recorded, Span};
use crate::units::counts::form_of;
use crate::units::span::is_ack_form;
use a429_cert::{Act, Listener};
use a429_ldu::Ldu;
use a429_link::{UnitNumber, is_final};
use a429_profile::Profile;
use a429_record::Entry;
use a429_word::{Failing, Trouble};
use std::alloc::Global;

/// The most steps that a picture shows (profile).
pub const MOST_STEPS: usize = 2000;

/// Where the steps are that were reported.
#[derive(Clone, Copy, Debug)]
pub struct Place {
    /// The number of the entry that comes next.
    pub next: u128,
    /// The file that crosses with the next acknowledgement, if one does.
    pub due: Option<u8>,
}

/// The rows of a picture, noted step by step.
#[derive(Drop)]
pub struct Sketch {
    span: Span,
    at: Place,
    // how many steps lie in the span, up to one too many
    steps: usize,
    rows: Vec<Mark>,
    ghost few: { length rows.items ≤ steps },
}

impl Sketch {
    ghost use Rattle.std.specs.Prelude.{◌≡◌, ◌↔◌, ◌<◌, ◌≤◌, IfErr, IsTrue, OnOk};
    ghost use Rattle.a429_cert.specs.Report.{Makes};
    ghost use Rattle.a429_view.specs.Sketch.{most_steps, Hears, IsBlank, Notes};

    /// A sketch of this span, without rows.
    pub fn new(alloc: Global, span: Span) -> Sketch
        ensures { IsBlank span result }
    {
        Sketch {
            span,
            at: Place { next: 0, due: None },
            steps: 0,
            rows: Vec::new(alloc),
        }
    }

    /// Whether the span has more steps than a picture shows.
    pub fn is_too_long(&self) -> bool
        ensures { IsTrue result ↔ most_steps < self.now.steps }
    {
        self.steps > MOST_STEPS
    }

    /// The rows, where they are not too many.
    pub fn rows(&self) -> &[Mark]
        ensures { result.now ≡ self.now.rows.items }
    {
        self.rows.as_slice()
    }

    // Notes a step that records an entry, which has this number.
    fn note_recorded(
        &mut self,
        profile: &Profile,
        act: Act,
        number: usize,
        entry: Entry,
    ) -> Result<(), Trouble>
        ensures heard { OnOk result (Hears profile.now self.old (Makes act (Some (number, entry))) self.new) }
        ensures memory { IfErr result (λ f. f ≡ Trouble.OutOfMemory) }
    {
        let due = self.at.due;
        let acknowledged = acknowledges(profile, act, &entry);
        let row = seen(act, number, entry, crossing(acknowledged, due));
        let next = place_after(number, still_due(acknowledged, due));
        self.note(row, next)
    }

    // Notes a step, where it lies in the span.
    fn note(&mut self, row: Option<Mark>, next: Place) -> Result<(), Trouble>
        ensures noted { OnOk result (Notes self.old row next self.new) }
        ensures memory { IfErr result (λ f. f ≡ Trouble.OutOfMemory) }
    {
        if self.steps <= MOST_STEPS && is_within(self.span, self.at.next) {
            self.steps += 1;
            if let Some(row) = row
                && self.rows.push(row).is_err()
            {
                return Err(Trouble::OutOfMemory);
            }
        }
        self.at = next;
        Ok(())
    }
}

impl Failing for Sketch {
    ghost use Rattle.std.specs.Prelude.{false};

    ghost failed = { λ _. false };

    fn failed(&self) -> bool {
        false
    }
}

impl Listener for Sketch {
    ghost use Rattle.std.specs.Prelude.{OnOk, ⊤};
    ghost use Rattle.a429_view.specs.Sketch.{Hears};

    ghost hears = { Hears };

    ghost tries = { λ _ _ _ _. ⊤ };

    fn load(&mut self, profile: &Profile, number: UnitNumber, unit: &Ldu) -> Result<(), Trouble> {
        let next = Place {
            next: self.at.next,
            due: file_ended(profile, number, unit),
        };
        self.note(Some(Mark::Load(number)), next)
    }

    fn make(
        &mut self,
        profile: &Profile,
        act: Act,
        entry: Option<(usize, Entry)>,
    ) -> Result<(), Trouble> {
        match entry {
            None => {
                let at = self.at;
                self.note(unseen(act), at)
            }
            Some((number, entry)) => self.note_recorded(profile, act, number, entry),
        }
    }
}

// The file that ends with a link data unit, where one does.
fn file_ended(profile: &Profile, number: UnitNumber, unit: &Ldu) -> Option<u8>
    ensures { result ≡ file_ended profile.now.codes number unit.now }
{
    if is_final(profile, unit.flags()) {
        Some(number.file)
    } else {
        None
    }
}

// Where the steps are after the one that records this entry.
fn place_after(number: usize, due: Option<u8>) -> Place
    ensures { result ≡ record { next = number + 1; due = due } }
{
    Place {
        next: number as u128 + 1,
        due,
    }
}

// Whether a step records an acknowledgement.
fn acknowledges(profile: &Profile, act: Act, entry: &Entry) -> bool
    ensures { result ≡ acknowledges profile.now.codes act entry.now }
{
    match act {
        Act::Answered => is_ack_form(form_of(profile, entry)),
        _ => false,
    }
}

// The file that crosses with a step, if it acknowledges.
fn crossing(acknowledged: bool, due: Option<u8>) -> Option<u8>
    ensures { result ≡ crossing acknowledged due }
{
    if acknowledged { due } else { None }
}

// The file that is still to cross after it.
fn still_due(acknowledged: bool, due: Option<u8>) -> Option<u8>
    ensures { result ≡ still_due acknowledged due }
{
    if acknowledged { None } else { due }
}

// The row of a step that records an entry.
fn seen(act: Act, number: usize, entry: Entry, crosses: Option<u8>) -> Option<Mark>
    ensures { result ≡ Some (Mark.Seen (record { act = act; number = number; entry = entry; crosses = crosses })) }
{
    let recorded = Recorded {
        act,
        number,
        entry,
        crosses,
    };
    Some(Mark::Seen(recorded))
}

// The row of a step that records nothing, where it has one.
fn unseen(act: Act) -> Option<Mark>
    ensures { result ≡ unseen act }
{
    match act {
        Act::SinkTakes | Act::TakeAnswer => None,
        act => Some(Mark::Unseen(act)),
    }
}

// Whether this entry is one of the span.
fn is_within(span: Span, next: u128) -> bool
    ensures { result ≡ is_within span next }
{
    span.from as u128 <= next && next <= span.to as u128
}
