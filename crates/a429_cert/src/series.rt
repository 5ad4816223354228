//! A recording in parts, each with a certificate of its own, held against one run.

ghost use Rattle.std.specs.Prelude.{◌≡◌, [], true, false, IfOk, IfErr, IsErrOf, OnOk, Some};
ghost use Rattle.a429_profile.specs.Profile.{IsProfile};
ghost use Rattle.a429_link.specs.Run.{end_of};
ghost use Rattle.a429_record.specs.declared.fault.ReadFault.TheVariants as read;
ghost use Rattle.a429_word.specs.Tally.{has_failed, unread};
ghost use Rattle.a429_cert.specs.Series.{Joins, RefusesPart, begun, gap, give_ups, no_parts};

use crate::explained::Head;
use crate::fault::OutOfMemory;
use crate::likely::WordLines;
use crate::line_reader::LineReader;
use crate::listener::NoListener;
use crate::replay::Replay;
use crate::shelf::NoShelf;
use crate::stream_end::none_left;
use crate::stream_fault::StreamFault;
use crate::stream_head::begin;
use crate::stream_next::take_next;
use a429_link::{Link, Step};
use a429_profile::Profile;
use a429_record::EntryReader;
use a429_word::Tally;
use std::alloc::Global;
use std::io::Read;
use std::marker::Model;

/// The parts of a recording, added one after the other, each with a certificate of its own: one run of source and sink goes through all
/// of them. It keeps where this run is, and the number and the length of each file that has crossed.
#[derive(Drop)]
pub struct Series<'a> {
    alloc: Global,
    profile: &'a Profile,
    // where the parts lead; none before the first
    link: Option<Link<'a>>,
    // of the last part
    entries: usize,
    files: Vec<(u8, u32)>,
}

impl<'a> Model for Series<'a> {
    ghost use Rattle.std.specs.Prelude.{option_map};
    ghost use Rattle.a429_cert.specs.Series.{IsBetweenParts, SeriesValue};

    ghost Value = { SeriesValue };

    ghost view = { λ s. record {
      profile = s.profile.now;
      state = option_map (λ l. l.state) s.link;
      entries = s.entries;
      files = s.files.items;
    } };

    ghost invariant = { λ s. IsBetweenParts s.profile.now s.link };
}

impl<'a> Series<'a> {
    /// A series without a part.
    pub fn new(alloc: Global, profile: &'a Profile) -> Series<'a>
        ensures { result ≡ no_parts profile.now }
    {
        Series {
            alloc,
            profile,
            link: None,
            entries: 0,
            files: Vec::new(alloc),
        }
    }

    /// Adds the next part: its recording, and the certificate of it, both read as streams. The run goes on with the certificate's steps.
    /// Where the number of the part's first file is past the source's, and the source is idle and may give up so many files, it gives
    /// up those between first (profile). A part whose lines do not go on from there is refused with its first fault, as of
    /// `verify_stream`, and there is no series any more.
    pub fn add<R: Read, C: Read>(
        self,
        rec: &mut EntryReader<R>,
        cert: &mut Tally<C>,
    ) -> Result<Series<'a>, StreamFault>
        ensures ok { IfOk result (Joins self.entry (unread C.remaining cert.old) rec.old.to_come) }
        ensures err { IfErr result (RefusesPart self.entry (unread C.remaining cert.old) rec.old.to_come) }
        ensures works { OnOk result (has_failed cert.new ≡ false) }
        ensures device { IsErrOf result StreamFault.Device → has_failed cert.new ≡ true }
        ensures read { IsErrOf result (StreamFault.Read read.Device) → rec.new.failed ≡ true }
    {
        // No line is empty of bytes, so that lines and entries are no more than the bytes that may come.
        let _most: u64 = cert.left();
        let words = match WordLines::new(self.alloc) {
            Ok(words) => words,
            Err(OutOfMemory) => return Err(StreamFault::OutOfMemory),
        };
        let mut lines = LineReader::new();
        let head = match begin(self.alloc, &mut lines, cert) {
            Ok(head) => head,
            Err(fault) => return Err(fault),
        };
        let mut replay = self.begin_part(head);
        'lines: loop {
            let found = match take_next(
                &mut replay,
                &words,
                &mut lines,
                cert,
                rec,
                &mut NoShelf,
                &mut NoListener,
            ) {
                Ok(found) => found,
                Err(fault) => return Err(fault),
            };
            if !found {
                break;
            }
        }
        match none_left(rec, replay.used) {
            Ok(()) => Ok(Series::past(replay)),
            Err(fault) => Err(fault),
        }
    }

    /// How many entries the recording of the last part has; 0 before the first part.
    pub fn entries(&self) -> usize
        ensures { result ≡ self.now.entries }
    {
        self.entries
    }

    /// The number and the length of each file that has crossed, in their order, lent.
    pub fn files(&self) -> &[(u8, u32)]
        ensures { result.now ≡ self.now.files }
    {
        self.files.as_slice()
    }

    /// The same, given away.
    pub fn into_files(self) -> Vec<(u8, u32)>
        ensures { result.items ≡ self.entry.files }
    {
        let Series { files, .. } = self;
        files
    }

    // The replay of a part whose certificate begins so, before its third line.
    fn begin_part(self, head: Head) -> Replay<'a>
        ensures sound { IsProfile self.entry.profile }
        ensures profile { result.profile.now ≡ self.entry.profile }
        ensures version { result.version ≡ head.version }
        ensures link { result.link ≡ record { profile = self.entry.profile; state = begun self.entry.profile self.entry.state head.first } }
        ensures lines { result.lines ≡ 2 }
        ensures used { result.used ≡ 0 }
        ensures files { result.files.items ≡ self.entry.files }
    {
        let Series {
            alloc,
            profile,
            link,
            files,
            ..
        } = self;
        // (for the proof: the profile is sound)
        let _codes = profile.codes();
        let link = match link {
            None => Link::start(alloc, profile, head.first),
            Some(link) => give_up_to(link, head.first),
        };
        Replay {
            alloc,
            profile,
            version: head.version,
            link,
            lines: 2,
            used: 0,
            files,
        }
    }

    // The series past a part.
    fn past(replay: Replay<'a>) -> Series<'a>
        requires profile { replay.link.profile ≡ replay.profile.now }
        requires files { replay.link.state.sink.received.files ≡ [] }
        ensures { result ≡ record { profile = replay.entry.profile.now; state = Some replay.entry.link.state; entries = replay.entry.used; files = replay.entry.files.items } }
    {
        let Replay {
            alloc,
            profile,
            link,
            used,
            files,
            ..
        } = replay;
        Series {
            alloc,
            profile,
            link: Some(link),
            entries: used,
            files,
        }
    }
}

// Gives up the files up to the one of this number, if the source may give up so many.
fn give_up_to(mut link: Link<'_>, first: u8) -> Link<'_>
    ensures { result ≡ record (link.entry) { state = end_of link.entry.profile (give_ups (gap link.entry.state first)) link.entry.state } }
{
    let mut left = first.wrapping_sub(link.number().file);
    if !link.may_give_up(left) {
        return link;
    }
    'files: while left > 0 {
        match link.apply(Step::GiveUp) {
            Ok(()) => left -= 1,
            Err(_) => unreachable!(),
        }
    }
    link
}
