//! The records of a line, one byte at a time, as `csv` reads them. `csv` builds its tables anew for each
//! reader, which takes some fifty times as long as such a line.

ghost use Rattle.std.specs.Prelude.{◌≡◌, [], IfOk, IfSome, OnOk};
ghost use Rattle.csv.specs.Machine as Machine;
ghost use Rattle.csv.specs.Reading.{default_config};
ghost use Rattle.csv.specs.Records.{fields_of, partial_of};
ghost use Rattle.csv.specs.declared.parser.State.TheVariants as st;
ghost use Rattle.a429_record.specs.Scan.{state_of, action_of, ScansTo};

use csv::ByteRecord;
use std::alloc::AllocError;

/// Where in a record a scan is.
#[derive(Clone, Copy, Drop)]
pub enum Place {
    /// Before its first byte.
    Start,
    /// After a comma.
    FieldStart,
    /// In a field, outside quotes.
    Field,
    /// In a field, inside quotes.
    Quoted,
    /// After a quote that ended a quoted part of a field.
    AfterQuote,
    /// After a carriage return that ended the record before.
    AfterReturn,
}

/// What a byte does.
#[derive(Clone, Copy, Drop)]
enum Deed {
    Skip,
    Copy,
    EndField,
    EndRecord,
}

/// What one byte leads to.
#[derive(Clone, Copy, Drop)]
struct Turn {
    place: Place,
    deed: Deed,
}

/// The end of a record.
#[derive(Clone, Copy, Drop)]
pub struct RecordEnd {
    /// Where the scan is after it.
    pub place: Place,
    /// How many bytes it took.
    pub len: usize,
}

/// Why a scan ended without an answer.
#[derive(Clone, Copy, Drop)]
pub enum ScanFault {
    /// A quote is inside a quoted field, as two quotes. Such a line is left to `csv`.
    QuoteInside,
    /// Memory was refused.
    OutOfMemory,
}

impl From<AllocError> for ScanFault {
    fn from(_fault: AllocError) -> Self {
        ScanFault::OutOfMemory
    }
}

// The next place of the scan, and what is done on the way there.
#[inline(always)]
fn to(place: Place, deed: Deed) -> Turn
    ensures place { result.place ≡ place }
    ensures deed { result.deed ≡ deed }
{
    Turn { place, deed }
}

fn in_field(byte: u8) -> Turn
    ensures { (state_of result.place, action_of result.deed) ≡ Machine.in_field default_config byte }
{
    match byte {
        b',' => to(Place::FieldStart, Deed::EndField),
        b'\r' => to(Place::AfterReturn, Deed::EndRecord),
        b'\n' => to(Place::Start, Deed::EndRecord),
        _ => to(Place::Field, Deed::Copy),
    }
}

fn start_field(byte: u8) -> Turn
    ensures { (state_of result.place, action_of result.deed) ≡ Machine.start_field default_config byte }
{
    if byte == b'"' {
        to(Place::Quoted, Deed::Skip)
    } else {
        in_field(byte)
    }
}

fn start_record(byte: u8) -> Turn
    ensures { (state_of result.place, action_of result.deed) ≡ Machine.start_record default_config byte }
{
    if byte == b'\r' || byte == b'\n' {
        to(Place::Start, Deed::Skip)
    } else {
        start_field(byte)
    }
}

fn in_quotes(byte: u8) -> Turn
    ensures { (state_of result.place, action_of result.deed) ≡ Machine.step default_config st.InQuoted byte }
{
    if byte == b'"' {
        to(Place::AfterQuote, Deed::Skip)
    } else {
        to(Place::Quoted, Deed::Copy)
    }
}

fn after_return(byte: u8) -> Turn
    ensures { (state_of result.place, action_of result.deed) ≡ Machine.step default_config st.AfterCr byte }
{
    if byte == b'\n' {
        to(Place::Start, Deed::Skip)
    } else {
        start_record(byte)
    }
}

// What a byte does at a place, unless it is a quote inside quotes.
fn step(place: Place, byte: u8) -> Option<Turn>
    ensures { IfSome result (λ t. (state_of t.place, action_of t.deed) ≡ Machine.step default_config (state_of place) byte) }
{
    match place {
        Place::Start => Some(start_record(byte)),
        Place::FieldStart => Some(start_field(byte)),
        Place::Field => Some(in_field(byte)),
        Place::Quoted => Some(in_quotes(byte)),
        Place::AfterQuote => {
            if byte == b'"' {
                None
            } else {
                Some(in_field(byte))
            }
        }
        Place::AfterReturn => Some(after_return(byte)),
    }
}

fn is_end(deed: Deed) -> bool
    ensures { result ≡ Machine.is_end (action_of deed) }
{
    match deed {
        Deed::EndRecord => true,
        _ => false,
    }
}

// Whether a record ends where the bytes end at this place.
fn ends_at_end(place: Place) -> bool
    ensures { result ≡ Machine.ends_at_end (state_of place) }
{
    match place {
        Place::Start | Place::AfterReturn => false,
        _ => true,
    }
}

// Does what a byte does: it ends the field, joins it, or changes nothing.
#[inline(always)]
fn act(deed: Deed, byte: u8, row: &mut ByteRecord, field: &mut Vec<u8>) -> Result<(), AllocError>
    requires { partial_of row.old ≡ [] }
    ensures fields { OnOk result (fields_of row.new ≡ Machine.fields_after (action_of deed) (fields_of row.old) field.old.items) }
    ensures field { OnOk result (field.new.items ≡ Machine.field_after (action_of deed) byte field.old.items) }
    ensures partial { OnOk result (partial_of row.new ≡ []) }
{
    match deed {
        Deed::Skip => {}
        Deed::Copy => field.push(byte)?,
        Deed::EndField | Deed::EndRecord => {
            row.push_field(field.as_slice())?;
            field.clear();
        }
    }
    Ok(())
}

/// The next record of bytes, from a place, and where it ends, if there is one. `field` is room to work in. A
/// quote inside quotes is a fault.
pub fn next_record(
    place: Place,
    bytes: &[u8],
    row: &mut ByteRecord,
    field: &mut Vec<u8>,
) -> Result<Option<RecordEnd>, ScanFault>
    ensures { IfOk result (λ end. ScansTo (state_of place) bytes.now (fields_of row.new) end) }
{
    row.clear();
    field.clear();
    let mut place = place;
    'bytes: for at in 0..bytes.len() {
        let byte = bytes[at];
        let Some(next) = step(place, byte) else {
            return Err(ScanFault::QuoteInside);
        };
        act(next.deed, byte, row, field)?;
        place = next.place;
        if is_end(next.deed) {
            return Ok(Some(RecordEnd { place, len: at + 1 }));
        }
    }
    if ends_at_end(place) {
        row.push_field(field.as_slice())?;
        return Ok(Some(RecordEnd {
            place: Place::Start,
            len: bytes.len(),
        }));
    }
    Ok(None)
}
