//! `a429 why PROFILE REC`: the verdict of `decide`, and what its entry is held against.

ghost use Rattle.std.specs.Prelude.{◌≡◌, false, IfOk, IfErr, IfSome, OnOk};
ghost use Rattle.std.specs.Fmt.{decimal};
ghost use Rattle.a429_word.specs.Digits.{hex_text};
ghost use Rattle.a429_word.specs.Sheet.{Says};
ghost use Rattle.a429_word.specs.Tally.{has_failed, unread};
ghost use Rattle.a429_cert.specs.Explained.{items_of};
ghost use Rattle.a429_commands.specs.Ends.{Ends, heard, unheard_causes};
ghost use Rattle.a429_commands.specs.Fault.{ComesBy};
ghost use Rattle.a429_commands.specs.Output.{output};
ghost use Rattle.a429_commands.specs.Recording.{IsReadFault};
ghost use Rattle.a429_commands.specs.Why.{IsAnswerBy, IsAnswerOn, IsAnswerUnder, IsHeldBy, after_lines, against_line, against_lines, allowed_line, check_line, counts_lines, lines_if_any, more_lines, not_first_line, number_text, of_why, rival_lines, semis_line, words_lines};

use crate::engines::check::{put_verdict, status_of, verdict_by};
use crate::engines::profile::profile_of;
use crate::engines::recording::entries_of;
use crate::engines::rule::Rule;
use crate::engines::text::{Text, write};
use crate::fault::RunFault;
use a429_contradiction::{Against, Rival, held_against};
use a429_explain::Verdict;
use a429_link::{Next, UnitNumber};
use a429_profile::Profile;
use a429_record::Entry;
use a429_view::{put_hex, put_next};
use a429_word::{Sheet, Tally, Word};
use std::alloc::{AllocError, Global};
use std::io::{Read, Write};

/// Writes the verdict of `decide` on a recording, and below it, where it is impossible, what the entry is held against: what may
/// come in its place, or the earlier word that it contradicts (the layout is the profile's). The status is that of `decide`: 0
/// explained, 1 impossible, 2 unexplained. `profile` is the bytes of its text. The recording is read to its end first: nothing is
/// written where the profile or the recording has a fault, or the reader fails.
pub fn run_why<R: Read, W: Write>(
    alloc: Global,
    profile: &[u8],
    rec: &mut Tally<R>,
    out: &mut Tally<W>,
) -> Result<u8, RunFault>
    ensures { Ends (output W.contents out.old out.new) (of_why profile.now (heard R.remaining rec.old rec.new)) result }
{
    write(alloc, answer_on(alloc, profile, rec), out)
}

// A verdict, and what its entry is held against.
#[derive(Drop)]
struct Answer {
    verdict: Verdict,
    against: Option<Against>,
}

impl Text for Answer {
    ghost use Rattle.std.specs.Prelude.{◌≡◌};
    ghost use Rattle.a429_commands.specs.Check.{verdict_status};
    ghost use Rattle.a429_commands.specs.Why.{why_text};

    ghost says = { λ a status text. (status ≡ verdict_status a.verdict) × (text ≡ why_text a) };

    ghost begins = { λ a text. text ≡ why_text a };

    fn put<W: Write>(&self, sheet: &mut Sheet<'_, W>) -> u8 {
        put_verdict(sheet, &self.verdict);
        put_if_any(sheet, &self.against);
        status_of(&self.verdict)
    }
}

// The answer on a recording.
fn answer_on<R: Read>(alloc: Global, profile: &[u8], rec: &mut Tally<R>) -> Result<Answer, RunFault>
    ensures ok { IfOk result (IsAnswerOn profile.now (unread R.remaining rec.old)) }
    ensures device { OnOk result (has_failed rec.new ≡ false) }
    ensures err { IfErr result (ComesBy (unheard_causes profile.now (heard R.remaining rec.old rec.new))) }
{
    let profile = profile_of(alloc, profile)?;
    let answer = answer_under(alloc, &profile, rec);
    drop(profile);
    answer
}

// The same under a profile that was read.
fn answer_under<R: Read>(
    alloc: Global,
    profile: &Profile,
    rec: &mut Tally<R>,
) -> Result<Answer, RunFault>
    ensures ok { IfOk result (IsAnswerUnder profile.now (unread R.remaining rec.old)) }
    ensures device { OnOk result (has_failed rec.new ≡ false) }
    ensures err { IfErr result (IsReadFault (unread R.remaining rec.old) (has_failed rec.new)) }
{
    let entries = entries_of(alloc, rec)?;
    answer_to(alloc, profile, entries.as_slice())
}

// The same of its entries.
fn answer_to(alloc: Global, profile: &Profile, entries: &[Entry]) -> Result<Answer, RunFault>
    ensures ok { IfOk result (IsAnswerBy profile.now (items_of entries.now)) }
    ensures err { IfErr result (λ e. e ≡ RunFault.Memory) }
{
    match verdict_by(alloc, profile, entries, Rule::Decide) {
        Ok(verdict) => match against_of(alloc, profile, entries, &verdict) {
            Ok(against) => Ok(Answer { verdict, against }),
            Err(_) => Err(RunFault::Memory),
        },
        Err(_) => Err(RunFault::Memory),
    }
}

// What the entry of a verdict is held against.
fn against_of(
    alloc: Global,
    profile: &Profile,
    entries: &[Entry],
    verdict: &Verdict,
) -> Result<Option<Against>, AllocError>
    ensures { IfOk result (λ found. IfSome found (IsHeldBy profile.now (items_of entries.now) verdict.now)) }
{
    match verdict {
        Verdict::Impossible { entry, reason } if *entry < entries.len() => {
            held_against(alloc, profile, entries, *entry, *reason)
        }
        _ => Ok(None),
    }
}

fn put_if_any<W: Write>(sheet: &mut Sheet<'_, W>, against: &Option<Against>)
    ensures { Says W.contents sheet.old sheet.new (lines_if_any against.now) }
{
    if let Some(against) = against {
        put_against(sheet, *against);
    }
}

fn put_against<W: Write>(sheet: &mut Sheet<'_, W>, against: Against)
    ensures { Says W.contents sheet.old sheet.new (against_lines against) }
{
    match against {
        Against::Allowed(next) => put_allowed(sheet, next),
        Against::Semis(semis) => put_semis(sheet, semis),
        Against::Check { recorded, of_bytes } => put_check(sheet, recorded, of_bytes),
        Against::NotFirst(number) => put_not_first(sheet, number),
        Against::AfterAck {
            number,
            last,
            entry,
        } => put_after(sheet, entry, number, last),
        Against::AfterStart {
            number,
            last,
            entry,
            ..
        } => put_after(sheet, entry, number, last),
        Against::OtherStart { word, start, entry } => {
            put_words(sheet, entry, b"start word ", word, b", before ", start)
        }
        Against::OtherCount {
            count,
            before,
            entry,
            ..
        } => put_counts(sheet, entry, count, before),
        Against::OtherEnd { word, end, entry } => {
            put_words(sheet, entry, b"end word ", word, b", before ", end)
        }
        Against::OtherWord {
            word,
            next,
            entry,
            ..
        } => put_words(
            sheet,
            entry,
            b"word ",
            word,
            b", the block goes on with ",
            next,
        ),
        Against::Rival(rival) => put_rival(sheet, rival),
    }
}

fn put_allowed<W: Write>(sheet: &mut Sheet<'_, W>, next: Next)
    ensures { Says W.contents sheet.old sheet.new (allowed_line next) }
{
    sheet.put(b"allowed: ");
    put_next(sheet, next);
    sheet.put(b"\n");
}

fn put_semis<W: Write>(sheet: &mut Sheet<'_, W>, semis: usize)
    ensures { Says W.contents sheet.old sheet.new (semis_line semis) }
{
    sheet.put(b"semi-octets ");
    sheet.put_number(semis as u64);
    sheet.put(b", no whole bytes\n");
}

fn put_check<W: Write>(sheet: &mut Sheet<'_, W>, recorded: u16, of_bytes: u16)
    ensures { Says W.contents sheet.old sheet.new (check_line recorded of_bytes) }
{
    sheet.put(b"check word ");
    put_hex(sheet, recorded);
    sheet.put(b", that of the bytes is ");
    put_hex(sheet, of_bytes);
    sheet.put(b"\n");
}

fn put_not_first<W: Write>(sheet: &mut Sheet<'_, W>, number: UnitNumber)
    ensures { Says W.contents sheet.old sheet.new (not_first_line number) }
{
    sheet.put(b"number ");
    put_number(sheet, number);
    sheet.put(b", none acknowledged before\n");
}

fn put_after<W: Write>(sheet: &mut Sheet<'_, W>, entry: usize, number: UnitNumber, last: UnitNumber)
    ensures { Says W.contents sheet.old sheet.new (after_lines entry number last) }
{
    put_entry(sheet, entry);
    sheet.put(b"number ");
    put_number(sheet, number);
    sheet.put(b" after ");
    put_number(sheet, last);
    sheet.put(b"\n");
}

fn put_words<W: Write>(
    sheet: &mut Sheet<'_, W>,
    entry: usize,
    name: &[u8],
    word: Word,
    between: &[u8],
    other: Word,
)
    ensures { Says W.contents sheet.old sheet.new (words_lines entry name.now word between.now other) }
{
    put_entry(sheet, entry);
    sheet.put(name);
    put_word(sheet, word);
    sheet.put(between);
    put_word(sheet, other);
    sheet.put(b"\n");
}

fn put_counts<W: Write>(sheet: &mut Sheet<'_, W>, entry: usize, count: u8, before: u8)
    ensures { Says W.contents sheet.old sheet.new (counts_lines entry count before) }
{
    put_entry(sheet, entry);
    sheet.put(b"count ");
    put_count(sheet, count);
    sheet.put(b", before ");
    put_count(sheet, before);
    sheet.put(b"\n");
}

fn put_rival<W: Write>(sheet: &mut Sheet<'_, W>, rival: Rival)
    ensures { Says W.contents sheet.old sheet.new (rival_lines rival) }
{
    if rival.before == rival.count {
        put_more(sheet, rival.request, rival.count);
    } else {
        put_counts(sheet, rival.request, rival.count, rival.before);
    }
}

fn put_more<W: Write>(sheet: &mut Sheet<'_, W>, entry: usize, count: u8)
    ensures { Says W.contents sheet.old sheet.new (more_lines entry count) }
{
    put_entry(sheet, entry);
    sheet.put(b"words of both, more than ");
    put_count(sheet, count);
    sheet.put(b"\n");
}

fn put_entry<W: Write>(sheet: &mut Sheet<'_, W>, entry: usize)
    ensures { Says W.contents sheet.old sheet.new (against_line entry) }
{
    sheet.put(b"against ");
    sheet.put_number(entry as u64);
    sheet.put(b"\n");
}

fn put_number<W: Write>(sheet: &mut Sheet<'_, W>, number: UnitNumber)
    ensures { Says W.contents sheet.old sheet.new (number_text number) }
{
    put_count(sheet, number.file);
    sheet.put(b" ");
    sheet.put_number(u64::from(number.ldu));
}

fn put_count<W: Write>(sheet: &mut Sheet<'_, W>, count: u8)
    ensures { Says W.contents sheet.old sheet.new (decimal count) }
{
    sheet.put_number(u64::from(count));
}

fn put_word<W: Write>(sheet: &mut Sheet<'_, W>, word: Word)
    ensures { Says W.contents sheet.old sheet.new (hex_text word) }
{
    sheet.put(&word.hex());
}
