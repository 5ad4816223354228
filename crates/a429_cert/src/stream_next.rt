//! The next line of a certificate that is read as a stream.

ghost use Rattle.std.specs.Prelude.{◌≡◌, ◌≤◌, ◌<◌, ◌+◌, ◌^◌, [], true, false, length, IfOk, IfErr, IfSome};
ghost use Rattle.a429_profile.specs.Profile.{IsProfile};
ghost use Rattle.a429_word.specs.Tally.{has_failed, unread};
ghost use Rattle.a429_cert.specs.LikelyLine.{IsLikelyLine};
ghost use Rattle.a429_cert.specs.LineReader.{bytes_ahead, room_left, to_come};
ghost use Rattle.a429_cert.specs.Report.{listening, TriesSome};
ghost use Rattle.a429_cert.specs.StreamNext.{progress, unread_of, GoesFurther, Halts, IsAtEnd, TakesOne, TakesSome};

use crate::likely::{LikelyLine, WordLines};
use crate::line_reader::LineReader;
use crate::listener::Listener;
use crate::pair::{carry_and_report, next_pair};
use crate::replay::{Replay, replay_and_put};
use crate::shelf::Shelf;
use crate::stream_fault::StreamFault;
use a429_link::Link;
use a429_record::EntryReader;
use a429_word::Tally;
use std::io::Read;

/// Takes the next line, or the next two where they list a data word that is sent and taken, over the next entry, if a step uses
/// one, reports each step to a listener, and puts the files that it delivers. Answers whether a line was left.
#[inline(always)]
pub fn take_next<R: Read, C: Read, S: Shelf, T: Listener>(
    replay: &mut Replay<'_>,
    words: &WordLines,
    lines: &mut LineReader,
    cert: &mut Tally<C>,
    rec: &mut EntryReader<R>,
    shelf: &mut S,
    listener: &mut T,
) -> Result<bool, StreamFault>
    requires sound { IsProfile replay.old.profile.now }
    requires profile { replay.old.link.profile ≡ replay.old.profile.now }
    requires none_left { replay.old.link.state.sink.received.files ≡ [] }
    requires few { replay.old.used ≤ replay.old.lines }
    requires room { replay.old.lines + room_left lines.old cert.old < 2 ^ 64 }
    ensures further { IfOk result (λ found. found ≡ true → GoesFurther (TakesSome S.files T.hears) (room_left lines.old cert.old) (room_left lines.new cert.new)
        (progress replay.old (to_come C.remaining lines.old cert.old) rec.old shelf.old listener.old)
        (progress replay.new (to_come C.remaining lines.new cert.new) rec.new shelf.new listener.new)) }
    ensures at_end { IfOk result (λ found. found ≡ false → IsAtEnd (length (bytes_ahead lines.new)) (has_failed cert.new)
        (progress replay.old (to_come C.remaining lines.old cert.old) rec.old shelf.old listener.old)
        (progress replay.new (to_come C.remaining lines.new cert.new) rec.new shelf.new listener.new)) }
    ensures halted { IfErr result (Halts S.files S.failed T.failed (unread_of (unread C.remaining cert.new) (has_failed cert.new))
        (progress replay.old (to_come C.remaining lines.old cert.old) rec.old shelf.old listener.old)
        (progress replay.new (to_come C.remaining lines.new cert.new) rec.new shelf.new listener.new)) }
    ensures tried { TriesSome (listening T.tries listener.old listener.new) replay.old.profile.now }
{
    let Some(next) = next_pair(&replay.link, words, lines) else {
        return take_one(replay, words, lines, cert, rec, shelf, listener);
    };
    match carry_and_report(replay, next, rec, listener) {
        Ok(()) => Ok(true),
        Err(fault) => Err(fault),
    }
}

// Takes the next line alone.
fn take_one<R: Read, C: Read, S: Shelf, T: Listener>(
    replay: &mut Replay<'_>,
    words: &WordLines,
    lines: &mut LineReader,
    cert: &mut Tally<C>,
    rec: &mut EntryReader<R>,
    shelf: &mut S,
    listener: &mut T,
) -> Result<bool, StreamFault>
    requires sound { IsProfile replay.old.profile.now }
    requires profile { replay.old.link.profile ≡ replay.old.profile.now }
    requires few { replay.old.used ≤ replay.old.lines }
    requires room { replay.old.lines + room_left lines.old cert.old < 2 ^ 64 }
    ensures further { IfOk result (λ found. found ≡ true → GoesFurther (TakesOne S.files T.hears) (room_left lines.old cert.old) (room_left lines.new cert.new)
        (progress replay.old (to_come C.remaining lines.old cert.old) rec.old shelf.old listener.old)
        (progress replay.new (to_come C.remaining lines.new cert.new) rec.new shelf.new listener.new)) }
    ensures at_end { IfOk result (λ found. found ≡ false → IsAtEnd (length (bytes_ahead lines.new)) (has_failed cert.new)
        (progress replay.old (to_come C.remaining lines.old cert.old) rec.old shelf.old listener.old)
        (progress replay.new (to_come C.remaining lines.new cert.new) rec.new shelf.new listener.new)) }
    ensures halted { IfErr result (Halts S.files S.failed T.failed (unread_of (unread C.remaining cert.new) (has_failed cert.new))
        (progress replay.old (to_come C.remaining lines.old cert.old) rec.old shelf.old listener.old)
        (progress replay.new (to_come C.remaining lines.new cert.new) rec.new shelf.new listener.new)) }
    ensures ahead { length (bytes_ahead lines.new) ≤ 2288 }
    ensures tried { TriesSome (listening T.tries listener.old listener.new) replay.old.profile.now }
{
    let likely = likely_line(&replay.link, words, lines);
    let Ok(next) = lines.next_near(cert, likely) else {
        return Err(StreamFault::Device);
    };
    if !next.found {
        return Ok(false);
    }
    replay.lines += 1;
    match replay_and_put(replay, lines.line(), next.known, rec, shelf, listener) {
        Ok(used) => {
            replay.used += used;
            Ok(true)
        }
        Err(fault) => Err(fault),
    }
}

// The line that is likely the next, where it begins as what was read.
#[inline(always)]
fn likely_line<'w>(
    link: &Link<'_>,
    words: &'w WordLines,
    lines: &LineReader,
) -> Option<LikelyLine<'w>>
    ensures { IfSome result IsLikelyLine }
{
    let (letter, source) = lines.letters()?;
    words.likely(link.states(), letter, source)
}
