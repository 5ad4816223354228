//! `a429 series PROFILE DIR`: whether the certificates of a recording's parts explain all of it.

ghost use Rattle.std.specs.Prelude.{◌≡◌, ◌++◌, codes, true, false, Ok, IsErrOf, IfOk, IfErr, IfSome, OnOk};
ghost use Rattle.std.specs.Fmt.{decimal};
ghost use Rattle.a429_word.specs.Tally.{unread};
ghost use Rattle.a429_word.specs.Sheet.{Says};
ghost use Rattle.a429_profile.specs.Profile.{IsProfile};
ghost use Rattle.a429_record.specs.declared.fault.ReadFault.TheVariants as read;
ghost use Rattle.a429_cert.specs.Series.{IsPartFault, Joins, RefusesPart};
ghost use Rattle.a429_cert.specs.declared.fault.CertFault.{CertFault};
ghost use Rattle.a429_commands.specs.Ends.{Ends};
ghost use Rattle.a429_commands.specs.Output.{output};
ghost use Rattle.a429_commands.specs.Verdict.{of_stream};
ghost use Rattle.a429_view.specs.Verdict.{fault_text};
ghost use Rattle.a429_commands.specs.Series.{of_series, part_text, series_input, status_of_series, text_of_series, AnswersSeries, IsListFault, IsPartsAnswer, IsPartsFault, IsRefusal, IsSeriesAnswer, IsSeriesFault, IsStopOf};

use crate::engines::part_list::read_parts;
use crate::engines::part_source::{OpenPart, PartSource};
use crate::engines::profile::profile_of;
use crate::engines::text::{Text, write_at_once};
use crate::engines::verdict::of_certificate;
use crate::fault::RunFault;
use a429_cert::{CertFault, OutOfMemory, Series, StreamFault};
use a429_profile::Profile;
use a429_view::{put_fault, put_yes};
use a429_word::{Failing, Sheet, Tally, Trouble};
use std::alloc::Global;
use std::io::{Read, Write};

/// What is answered of a recording's parts.
#[derive(Drop)]
pub(crate) enum SeriesAnswer {
    /// They are one run, which delivers files of these numbers and lengths.
    Files(Vec<(u8, u32)>),
    /// The part at this place has this fault.
    Refused(u64, CertFault),
    /// The part at this place has so many entries, and another number is listed.
    Miscounted(u64, u64),
    /// There is no list of parts.
    NotListed,
}

/// Writes the verdict on the parts of a recording, and answers its status: 0 where their certificates explain them as
/// one run, so that each run that records the same words delivers the files that are listed, and 2 where a part is
/// refused, has another number of entries than the list says, or there is no list. `profile` and `list` are bytes of
/// texts. The parts are opened one after the other, and each is read as a stream.
pub fn run_series<R: Read + Drop, C: Read + Drop, P: PartSource<R, C>, W: Write>(
    alloc: Global,
    profile: &[u8],
    list: &[u8],
    parts: &mut P,
    out: &mut Tally<W>,
) -> Result<u8, RunFault>
    ensures { Ends (output W.contents out.old out.new) (of_series (series_input profile.now list.now (P.part parts.old)) (P.failed parts.old) (P.failed parts.new)) result }
{
    write_at_once(judge_series(alloc, profile, list, parts), out)
}

// Judges the parts, under the profile whose text the bytes are.
fn judge_series<R: Read + Drop, C: Read + Drop, P: PartSource<R, C>>(
    alloc: Global,
    profile: &[u8],
    list: &[u8],
    parts: &mut P,
) -> Result<SeriesAnswer, RunFault>
    ensures judged { IfOk result (AnswersSeries (series_input profile.now list.now (P.part parts.old))) }
    ensures works { OnOk result (P.failed parts.old ≡ false → P.failed parts.new ≡ false) }
    ensures err { IfErr result (IsSeriesFault (series_input profile.now list.now (P.part parts.old)) (P.failed parts.new ≡ true)) }
{
    let profile = profile_of(alloc, profile)?;
    let answer = judge_list(alloc, &profile, list, parts);
    drop(profile);
    answer
}

// Judges the parts that a list names, if it is a list.
fn judge_list<R: Read + Drop, C: Read + Drop, P: PartSource<R, C>>(
    alloc: Global,
    profile: &Profile,
    list: &[u8],
    parts: &mut P,
) -> Result<SeriesAnswer, RunFault>
    ensures judged { IfOk result (IsSeriesAnswer profile.now list.now (P.part parts.old)) }
    ensures works { OnOk result (P.failed parts.old ≡ false → P.failed parts.new ≡ false) }
    ensures err { IfErr result (IsListFault profile.now list.now (P.part parts.old) (P.failed parts.new ≡ true)) }
{
    match read_parts(alloc, list) {
        Ok(Some(counts)) => judge_parts(alloc, profile, counts.as_slice(), parts),
        Ok(None) => Ok(SeriesAnswer::NotListed),
        Err(OutOfMemory) => Err(RunFault::Memory),
    }
}

// Judges the parts, which are to have so many entries.
fn judge_parts<R: Read + Drop, C: Read + Drop, P: PartSource<R, C>>(
    alloc: Global,
    profile: &Profile,
    counts: &[u64],
    parts: &mut P,
) -> Result<SeriesAnswer, RunFault>
    ensures judged { IfOk result (IsPartsAnswer profile.now (P.part parts.old) counts.now) }
    ensures works { OnOk result (P.failed parts.old ≡ false → P.failed parts.new ≡ false) }
    ensures err { IfErr result (IsPartsFault profile.now (P.part parts.old) counts.now (P.failed parts.new ≡ true)) }
{
    // (for the proof: the profile is sound)
    let _codes = profile.codes();
    let mut series = Series::new(alloc, profile);
    let mut place: u64 = 0;
    'parts: for count in counts {
        place += 1;
        series = match add_part(series, parts, place) {
            Ok(series) => series,
            Err(fault) => return refused(place, fault),
        };
        let entries = series.entries() as u64;
        if entries != *count {
            return Ok(SeriesAnswer::Miscounted(place, entries));
        }
    }
    Ok(SeriesAnswer::Files(series.into_files()))
}

// Adds the part at this place.
fn add_part<'a, R: Read + Drop, C: Read + Drop, P: PartSource<R, C>>(
    series: Series<'a>,
    parts: &mut P,
    place: u64,
) -> Result<Series<'a>, StreamFault>
    ensures ok { IfOk result (λ new. IfSome (P.part parts.old place) (λ q. Joins series.entry (Some q.certificate) (Some q.recording) new)) }
    ensures err { IfErr result (λ f. IfSome (P.part parts.old place) (λ q. IsPartFault series.entry f q.certificate q.recording)) }
    ensures works { OnOk result (P.failed parts.new ≡ false) }
    ensures refused { IfErr result (λ f. (g : CertFault) → f ≡ StreamFault.Cert g → P.failed parts.new ≡ false) }
    ensures device { IsErrOf result StreamFault.Device → P.failed parts.new ≡ true }
    ensures read { IsErrOf result (StreamFault.Read read.Device) → P.failed parts.new ≡ true }
    ensures same { P.part parts.new ≡ P.part parts.old }
{
    match parts.open(place) {
        Ok(part) => add_open(series, parts, part),
        Err(Trouble::Device) => Err(StreamFault::Device),
        Err(Trouble::OutOfMemory) => Err(StreamFault::OutOfMemory),
    }
}

// Adds a part that was opened.
fn add_open<'a, R: Read + Drop, C: Read + Drop, P: PartSource<R, C>>(
    series: Series<'a>,
    parts: &mut P,
    part: OpenPart<R, C>,
) -> Result<Series<'a>, StreamFault>
    ensures ok { IfOk result (Joins series.entry (unread C.remaining part.cert) part.rec.to_come) }
    ensures err { IfErr result (RefusesPart series.entry (unread C.remaining part.cert) part.rec.to_come) }
    ensures works { IfOk result (λ _. P.failed parts.new ≡ false) }
    ensures refused { IfErr result (λ f. (g : CertFault) → f ≡ StreamFault.Cert g → P.failed parts.new ≡ false) }
    ensures device { IsErrOf result StreamFault.Device → P.failed parts.new ≡ true }
    ensures read { IsErrOf result (StreamFault.Read read.Device) → P.failed parts.new ≡ true }
    ensures same { P.part parts.new ≡ P.part parts.old }
{
    let mut part = part;
    let added = series.add(&mut part.rec, &mut part.cert);
    parts.note(part.rec.failed() || part.cert.failed());
    unless_failed(parts.failed(), added)
}

// What was added, unless something has failed.
fn unless_failed<'a>(
    has_failed: bool,
    added: Result<Series<'a>, StreamFault>,
) -> Result<Series<'a>, StreamFault>
    ensures ok { IfOk result (λ new. (has_failed ≡ false) × (added.entry ≡ Ok new)) }
    ensures err { IfErr result (IsStopOf has_failed added.entry) }
{
    if has_failed {
        return Err(StreamFault::Device);
    }
    added
}

// The answer where the part at this place is refused.
fn refused(place: u64, fault: StreamFault) -> Result<SeriesAnswer, RunFault>
    ensures ok { IfOk result (IsRefusal place fault) }
    ensures err { IfErr result (λ e. e ≡ of_stream fault) }
{
    match of_certificate(fault) {
        Ok(fault) => Ok(SeriesAnswer::Refused(place, fault)),
        Err(fault) => Err(fault),
    }
}

impl Text for SeriesAnswer {
    ghost use Rattle.std.specs.Prelude.{◌≡◌};
    ghost use Rattle.a429_commands.specs.Series.{status_of_series, text_of_series};

    ghost says = { λ a status text. (status ≡ status_of_series a) × (text ≡ text_of_series a) };

    ghost begins = { λ a text. text ≡ text_of_series a };

    fn put<W: Write>(&self, sheet: &mut Sheet<'_, W>) -> u8 {
        put_series(sheet, self);
        status_of(self)
    }
}

fn status_of(answer: &SeriesAnswer) -> u8
    ensures { result ≡ status_of_series answer.now }
{
    match answer {
        SeriesAnswer::Files(_) => 0,
        SeriesAnswer::Refused(..) | SeriesAnswer::Miscounted(..) | SeriesAnswer::NotListed => 2,
    }
}

fn put_series<W: Write>(sheet: &mut Sheet<'_, W>, answer: &SeriesAnswer)
    ensures { Says W.contents sheet.old sheet.new (text_of_series answer.now) }
{
    match answer {
        SeriesAnswer::Files(files) => put_yes(sheet, files.as_slice()),
        SeriesAnswer::Refused(place, fault) => put_refused(sheet, *place, *fault),
        SeriesAnswer::Miscounted(place, entries) => put_miscounted(sheet, *place, *entries),
        SeriesAnswer::NotListed => sheet.put(b"NO parts\n"),
    }
}

fn put_refused<W: Write>(sheet: &mut Sheet<'_, W>, place: u64, fault: CertFault)
    ensures { Says W.contents sheet.old sheet.new (part_text place ++ codes " " ++ fault_text fault) }
{
    put_part(sheet, place);
    sheet.put(b" ");
    put_fault(sheet, fault);
}

fn put_miscounted<W: Write>(sheet: &mut Sheet<'_, W>, place: u64, entries: u64)
    ensures { Says W.contents sheet.old sheet.new (part_text place ++ codes " entries " ++ decimal entries ++ codes "\n") }
{
    put_part(sheet, place);
    sheet.put(b" entries ");
    sheet.put_number(entries);
    sheet.put(b"\n");
}

fn put_part<W: Write>(sheet: &mut Sheet<'_, W>, place: u64)
    ensures { Says W.contents sheet.old sheet.new (part_text place) }
{
    sheet.put(b"NO part ");
    sheet.put_number(place);
}
