//! The lines of a certificate after its first, kept short as they are made.

ghost use Rattle.std.specs.Prelude.{◌≡◌, ◌<◌, ◌^◌, ◌-◌, ◌++◌, OnOk};
ghost use Rattle.std.specs.List.{flat_map};
ghost use Rattle.a429_word.specs.Digits.{hex_text};
ghost use Rattle.a429_word.specs.Sheet.{Says};
ghost use Rattle.a429_cert.specs.BlockText.{word_lines};
ghost use Rattle.a429_cert.specs.Field.{field};
ghost use Rattle.a429_cert.specs.Line.{AreHeld, IsHeld};
ghost use Rattle.a429_cert.specs.declared.line.CertLine.TheVariants.{First, Load, Moved};
ghost use Rattle.a429_link.specs.declared.state.SourceState.TheVariants.{Waiting};
ghost use Rattle.a429_explain.specs.Next.{lost};
ghost use Rattle.a429_explain.specs.Note.{line_after, line_of, load_head, note_text, rest_lines, word_fields};

use crate::next::{carried, is_same, next_line, sending};
use crate::note::{Note, ShortWord, put_note, with_word};
use a429_cert::{Act, BlockText, MovedLine, OutOfMemory};
use a429_ldu::Ldu;
use a429_link::{SinkState, SourceState, States};
use a429_word::{Sheet, Word};
use std::alloc::Global;
use std::io::Write;
use std::marker::Model;

// What source and sink do at the start: a line before all others.
const START: MovedLine = MovedLine {
    act: Act::FreeSeen,
    states: States {
        source: SourceState::Idle,
        sink: SinkState::Quiet,
        to_sink: 0,
        to_source: 0,
    },
};

/// The lines of a certificate after its first, each begun with the line feed that ends the line before it. Contracts see
/// their text; notes are kept of it, far shorter where lines follow from one another.
#[derive(Drop)]
pub(crate) struct Lines {
    notes: Vec<Note>,
    // The last note, to which the next line may belong.
    note: Note,
    // The last line of that note, where it is one of steps.
    last: MovedLine,
    // What is put in place of the words of a block.
    block: BlockText,
}

impl Model for Lines {
    ghost use Rattle.std.specs.Prelude.{List, ℕ, ◌++◌};
    ghost use Rattle.std.specs.List.{flat_map};
    ghost use Rattle.a429_explain.specs.Note.{note_text, EndsWith};

    ghost Value = { List ℕ };

    ghost view = { λ l. flat_map note_text l.notes.items ++ note_text l.note };

    ghost invariant = { λ l. EndsWith l.note l.last };
}

impl Lines {
    /// The line with the number of the first file.
    pub(crate) fn new(alloc: Global, block: BlockText, first_file: u8) -> Lines
        ensures { result ≡ line_after (First first_file) }
    {
        Lines {
            notes: Vec::new(alloc),
            note: Note::First(first_file),
            last: START,
            block,
        }
    }

    /// Adds the line of a step that is no load.
    #[inline(always)]
    pub(crate) fn put_move(&mut self, line: MovedLine) -> Result<(), OutOfMemory>
        ensures ok { OnOk result (self.new ≡ self.old ++ line_after (Moved line)) }
        ensures held { IsHeld (Moved line) }
    {
        if let Note::Moves { first, more } = self.note {
            if more < u8::MAX && is_same(next_line(self.last), line) {
                let more = more + 1;
                self.note = Note::Moves { first, more };
                self.last = line;
                return Ok(());
            }
        }
        self.notes.push(self.note)?;
        self.note = Note::Moves {
            first: line,
            more: 0,
        };
        self.last = line;
        Ok(())
    }

    /// Adds both lines of a word of a block, counted from 0, that is sent and then taken, with nothing else on its way.
    pub(crate) fn put_word_lines(&mut self, place: u8) -> Result<(), OutOfMemory>
        requires { place < 254 }
        ensures { OnOk result (self.new ≡ self.old ++ word_lines place) }
    {
        if let Note::Moves { first, more } = self.note {
            if more < u8::MAX - 1 && is_same(self.last, carried(place)) {
                let more = more + 2;
                self.note = Note::Moves { first, more };
                self.last = carried(place + 1);
                return Ok(());
            }
        }
        self.put_move(sending(place))?;
        self.put_move(carried(place + 1))
    }

    /// Adds the lines of the last words of a block, which are lost: those after which so many words are sent, from `first` on and below
    /// `end`, and the very last. The sink and the words on their way are as in these states.
    #[tactic(auto, using(crate::proofs::NoteFacts::notes_more))]
    pub(crate) fn put_losses(&mut self, at: States, first: u8, end: u8) -> Result<(), OutOfMemory>
        ensures ok { OnOk result (self.new ≡ self.old ++ rest_lines at first (end - first)) }
        ensures held { IsHeld (Moved (lost at Waiting)) }
    {
        self.notes.push(self.note)?;
        self.note = Note::Losses { at, first, end };
        Ok(())
    }

    /// Adds the line of a link data unit.
    #[tactic(auto, using(crate::proofs::NoteFacts::load_whole))]
    pub(crate) fn put_load(&mut self, unit: &Ldu) -> Result<(), OutOfMemory>
        ensures ok { OnOk result (self.new ≡ self.old ++ line_after (Load (line_of unit.now))) }
        ensures held { OnOk result (IsHeld (Load (line_of unit.now))) }
    {
        self.begin_load(unit.gfi(), unit.flags(), unit.check())?;
        self.put_words(unit.words())
    }

    // Begins it.
    fn begin_load(&mut self, gfi: u8, flags: u8, check: u16) -> Result<(), OutOfMemory>
        ensures ok { OnOk result (self.new ≡ self.old ++ load_head gfi flags check) }
        ensures held { check < 2 ^ 16 }
    {
        self.notes.push(self.note)?;
        self.note = Note::Load {
            gfi,
            flags,
            check: ShortWord::new(u32::from(check)),
        };
        Ok(())
    }

    // Adds its data words.
    fn put_words(&mut self, words: &[Word]) -> Result<(), OutOfMemory>
        ensures ok { OnOk result (self.new ≡ self.old ++ word_fields words.now) }
        ensures held { OnOk result (AreHeld words.now) }
    {
        for word in words {
            self.put_word(word.to_u32())?;
        }
        Ok(())
    }

    // Adds a data word.
    #[tactic(auto, using(crate::proofs::NoteFacts::note_grows, crate::proofs::NoteFacts::notes_more, crate::proofs::NoteFacts::one_word))]
    fn put_word(&mut self, number: u32) -> Result<(), OutOfMemory>
        ensures { OnOk result (self.new ≡ self.old ++ field (hex_text number)) }
    {
        let word = ShortWord::new(number);
        if let Some(note) = with_word(self.note, word) {
            self.note = note;
            return Ok(());
        }
        self.notes.push(self.note)?;
        self.note = Note::Words { word, times: 1 };
        Ok(())
    }

    /// Puts their text on a sheet.
    pub(crate) fn put_on<W: Write>(&self, sheet: &mut Sheet<'_, W>)
        ensures { Says W.contents sheet.old sheet.new self.now }
    {
        put_notes(sheet, &self.block, self.notes.as_slice());
        put_note(sheet, &self.block, self.note);
    }
}

fn put_notes<W: Write>(sheet: &mut Sheet<'_, W>, block: &BlockText, notes: &[Note])
    ensures { Says W.contents sheet.old sheet.new (flat_map note_text notes.now) }
{
    for note in notes {
        if sheet.failed() {
            return;
        }
        put_note(sheet, block, *note);
    }
}
