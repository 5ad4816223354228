//! Two lines of a certificate at once: a data word that is sent, and then taken.

ghost use Rattle.std.specs.Prelude.{◌≡◌, ◌≤◌, ◌<◌, ◌+◌, ◌^◌, ◌++◌, ◌⊎◌, ◌↔◌, Some, true, length, option_map, IfOk, IfErr, IfSome, IfNone, IsErrOf, IsTrue, OnOk, OnErr};
ghost use Rattle.a429_record.specs.declared.fault.ReadFault.TheVariants as read;
ghost use Rattle.a429_link.specs.Carry.{on_a, IsAtWord};
ghost use Rattle.a429_cert.specs.Change.{change};
ghost use Rattle.a429_cert.specs.Explained.{seen_of};
ghost use Rattle.a429_cert.specs.LineReader.{bytes_ahead};
ghost use Rattle.a429_cert.specs.Likely.{pair_text, sent_text};
ghost use Rattle.a429_cert.specs.Pair.{HearsBoth, HearsMade, IsEntry, replay_taken};
ghost use Rattle.a429_cert.specs.Stream.{EndsReplay, GivesAtFault, GivesFor, IsFaultNext, IsUnreported, TakesNext, WantsEntry};
ghost use Rattle.a429_cert.specs.StreamNext.{at_next};
ghost use Rattle.a429_cert.specs.Report.{listening, TriesSome, IsNextEntry};
ghost use Rattle.a429_cert.specs.Version.{read_as};

use crate::act::Act;
use crate::fault::CertFault;
use crate::likely::WordLines;
use crate::line_reader::LineReader;
use crate::listener::Listener;
use crate::replay::{Replay, numbered};
use crate::stream_fault::{StreamFault, of_read, of_trouble};
use a429_link::{Link, NextWord};
use a429_profile::Profile;
use a429_record::{Entry, EntryReader, ReadFault};
use a429_word::{Bus, Trouble, Word};
use std::io::Read;

/// The next data word of a block, where the next two lines list that it is sent and taken: they are handed out.
#[inline(always)]
pub fn next_pair(link: &Link<'_>, words: &WordLines, lines: &mut LineReader) -> Option<NextWord>
    ensures word { IfSome result (λ next. IsAtWord link.now.profile next link.now.state × (next.place < 254)) }
    ensures lines { IfSome result (λ next. bytes_ahead lines.old ≡ pair_text next.place ++ bytes_ahead lines.new) }
    ensures few { length (bytes_ahead lines.old) ≤ 2288 }
    ensures none { IfNone result (lines.new ≡ lines.old) }
{
    let next = link.next_word()?;
    let text = words.pair(next.place)?;
    if lines.take_both(text) {
        Some(next)
    } else {
        None
    }
}

/// Takes both lines of such a word, over the next entry, and reports both steps to a listener.
#[inline(always)]
pub fn carry_and_report<R: Read, T: Listener>(
    replay: &mut Replay<'_>,
    next: NextWord,
    rec: &mut EntryReader<R>,
    listener: &mut T,
) -> Result<(), StreamFault>
    requires profile { replay.old.link.profile ≡ replay.old.profile.now }
    requires word { IsAtWord replay.old.profile.now next replay.old.link.state × (next.place < 254) }
    requires few { replay.old.used ≤ replay.old.lines }
    requires room { replay.old.lines + 2 < 2 ^ 64 }
    ensures taken { OnOk result (replay.new ≡ replay_taken next.word replay.old) }
    ensures entry { OnOk result (IsEntry next.word rec.old.to_come rec.new.to_come) }
    ensures counts { OnOk result (rec.new.count ≡ rec.old.count + 1) }
    ensures heard { OnOk result (HearsBoth (listening T.hears listener.old listener.new) replay.old.profile.now replay.old.used rec.old.to_come) }
    ensures refused { IfErr result (EndsReplay (at_next replay.old) (Some (sent_text next.place)) rec.old.to_come) }
    ensures given { IfErr result (λ f. GivesAtFault
        (WantsEntry replay.old.profile.now (read_as replay.old.version (Some (sent_text next.place))) replay.old.link.state) f
        rec.old.count rec.new.count) }
    ensures unreported { IfErr result (IsUnreported listener.old listener.new) }
    ensures device { IsErrOf result StreamFault.Device → T.failed listener.new ≡ true }
    ensures read { IsErrOf result (StreamFault.Read read.Device) → rec.new.failed ≡ true }
    ensures tried { TriesSome (listening T.tries listener.old listener.new) replay.old.profile.now }
{
    let entry = match next_entry(rec) {
        Ok(entry) => entry,
        Err(fault) => return Err(of_read(fault)),
    };
    if !is_word(&entry, next.word) {
        return Err(StreamFault::Cert(CertFault::WordDiffers {
            line: replay.lines + 1,
            entry: replay.used,
        }));
    }
    match report_both(replay.profile, replay.used, entry, listener) {
        Ok(()) => {}
        Err(trouble) => return Err(of_trouble(trouble)),
    }
    replay.link.carry(next);
    replay.lines += 2;
    replay.used += 1;
    Ok(())
}

// The next entry, which a step wants.
#[inline(always)]
fn next_entry<R: Read>(rec: &mut EntryReader<R>) -> Result<Option<Entry>, ReadFault>
    ensures taken { IfOk result (λ next. TakesNext 1 rec.old.to_come rec.new.to_come (option_map seen_of next)) }
    ensures entry { IfOk result (IsNextEntry 1 rec.old.to_come) }
    ensures given { IfOk result (λ next. GivesFor 1 next rec.old.count rec.new.count) }
    ensures fault { IfErr result (IsFaultNext 1 rec.old.to_come) }
    ensures none { OnErr result (rec.new.count ≡ rec.old.count) }
    ensures device { IsErrOf result read.Device → rec.new.failed ≡ true }
{
    rec.next()
}

// An entry is this word on bus A.
#[inline(always)]
fn is_word(entry: &Option<Entry>, word: Word) -> bool
    ensures { IsTrue result ↔ (option_map seen_of entry.now ≡ Some (on_a word)) }
{
    match entry {
        Some(entry) => entry.bus == Bus::A && entry.word == word,
        None => false,
    }
}

// Reports both steps.
#[inline(always)]
fn report_both<T: Listener>(
    profile: &Profile,
    number: usize,
    entry: Option<Entry>,
    listener: &mut T,
) -> Result<(), Trouble>
    ensures heard { OnOk result (HearsMade (listening T.hears listener.old listener.new) profile.now number entry) }
    ensures device { IsErrOf result Trouble.Device → T.failed listener.new ≡ true }
    ensures tried { TriesSome (listening T.tries listener.old listener.new) profile.now }
{
    match listener.make(profile, Act::Sent, numbered(number, entry)) {
        Ok(()) => {}
        Err(trouble) => return Err(trouble),
    }
    listener.make(profile, Act::SinkTakes, None)
}
