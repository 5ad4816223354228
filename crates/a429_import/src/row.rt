//! A row of an export's table, and the entry that it is.

ghost use Rattle.std.specs.Prelude.{◌≡◌, ◌≤◌, ◌<◌, ◌^◌, unwrap_or, slice_get, Ok, Err, All};
ghost use Rattle.a429_import.specs.Channel.{heard_on};
ghost use Rattle.a429_import.specs.Columns.{field_at};
ghost use Rattle.a429_import.specs.Fields.{fields_left};
ghost use Rattle.a429_import.specs.Order.{meant};
ghost use Rattle.a429_import.specs.Part.{IsSoundPart};
ghost use Rattle.a429_import.specs.Row.{channel_lot, entry_lot, finished, lot_at, part_values, row_lot, status_of_row, word_after, word_of};

use crate::channel::Channel;
use crate::columns::Columns;
use crate::fault::ExportFault;
use crate::fields::Fields;
use crate::lot::Lot;
use crate::map::Map;
use crate::parity::{ParityBit, Verdict};
use crate::part::Part;
use crate::past::Past;
use crate::time::{Reading, read_time};
use a429_record::Entry;
use a429_word::Bus;

/// A row of the table of an export.
#[derive(Drop)]
pub(crate) struct Row<'a> {
    pub(crate) map: &'a Map,
    pub(crate) columns: &'a Columns,
    pub(crate) fields: Fields<'a>,
    /// The number of its line, from 1.
    pub(crate) line: u64,
    /// The entries before it.
    pub(crate) past: &'a Past,
}

impl Row<'_> {
    /// What becomes of it.
    pub(crate) fn lot(&self) -> Result<Lot, ExportFault>
        ensures { result ≡ row_lot self.now.map.now self.now.columns.now self.now.line self.now.past.now (fields_left self.now.fields) }
    {
        if self.fields.get(self.columns.last).is_none() {
            return Err(ExportFault::Fields(self.line));
        }
        match self.map.channels.find(self.fields.at(self.columns.channel)) {
            Channel::Line(bus) => self.entry(bus),
            Channel::Passed => Ok(Lot::ChannelPassed),
            Channel::Unknown => Err(ExportFault::Channel(self.line)),
        }
    }

    // The entry that it is, on this line.
    fn entry(&self, bus: Bus) -> Result<Lot, ExportFault>
        ensures { result ≡ entry_lot self.now.map.now self.now.columns.now self.now.line self.now.past.now (fields_left self.now.fields) bus }
    {
        let rule = &self.map.time;
        let Some(reading) = read_time(rule.form, rule.unit, self.fields.at(self.columns.time))
        else {
            return Err(ExportFault::Time(self.line));
        };
        let Some(status) = self.status() else {
            return Err(ExportFault::Status(self.line));
        };
        match self.word() {
            Ok(word) => self.finished(bus, reading, status, word),
            Err(part) => Err(ExportFault::Part(self.line, part)),
        }
    }

    // What it says of the parity; only a map with a status column looks at a field.
    fn status(&self) -> Option<Verdict>
        ensures { result ≡ status_of_row self.now.map.now.parity (field_at (fields_left self.now.fields) self.now.columns.now.status) }
    {
        match &self.map.parity {
            ParityBit::Status(status) => status.verdict(self.fields.at(self.columns.status)),
            _ => Some(Verdict::Received),
        }
    }

    // The word that its parts make, or the number of the first part, from 0, that its field lacks.
    fn word(&self) -> Result<u32, usize>
        ensures { result ≡ word_after 0 0 (part_values self.now.map.now.parts self.now.columns.now.parts (fields_left self.now.fields)) }
    {
        let parts = self.map.parts.as_slice();
        let places = self.columns.parts.as_slice();
        let mut word = 0;
        for k in 0..parts.len().min(places.len()) {
            match parts[k].read(self.fields.at(places[k])) {
                Some(bits) => word |= bits,
                None => return Err(k),
            }
        }
        Ok(word)
    }

    // The entry with this word, as the map says it: turned, and its parity judged.
    fn finished(
        &self,
        bus: Bus,
        reading: Reading,
        status: Verdict,
        word: u32,
    ) -> Result<Lot, ExportFault>
        ensures { result ≡ finished self.now.map.now self.now.line self.now.past.now bus reading status word }
    {
        let word = self.map.turning.turn(word);
        let verdict = self.map.parity.verdict(status, word);
        self.dated(bus, reading, verdict, word)
    }

    // The entry at this time, unless it is one of the last again.
    fn dated(
        &self,
        bus: Bus,
        reading: Reading,
        verdict: Verdict,
        word: u32,
    ) -> Result<Lot, ExportFault>
        ensures { result ≡ lot_at self.now.map.now self.now.line self.now.past.now bus reading verdict word (meant self.now.map.now.time.order self.now.past.now.clock reading.micros) }
    {
        let order = self.map.time.order;
        let clock = self.past.clock;
        let Some(moved) = order.meant(clock, reading.micros) else {
            return Err(ExportFault::Time(self.line));
        };
        let word = verdict.mark(word);
        let entry = Entry {
            time: moved.time as u64,
            bus,
            word,
        };
        if self.past.last.have(self.map.repeats, entry) {
            return Ok(Lot::Repeated);
        }
        match order.settle(clock, reading.micros, moved) {
            Some(ordered) => Ok(Lot::Written {
                entry: Entry {
                    time: ordered.time,
                    bus,
                    word,
                },
                is_cut: reading.is_cut,
                verdict,
                mend: ordered.mend,
            }),
            None => Err(ExportFault::TimeBack(self.line)),
        }
    }
}
