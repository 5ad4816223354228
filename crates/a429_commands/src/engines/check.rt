//! `a429 check PROFILE REC CERT`: finds a certificate for a recording, or says why there is none; and `a429 decide`,
//! which does the same, tests whether words contradict each other, and searches for a run, or for the first word at which none
//! goes on.

ghost use Rattle.std.specs.Prelude.{◌≡◌, ◌↔◌, [], true, false, Ok, IsErr, IfOk, IfErr, OnOk, OnErr};
ghost use Rattle.std.specs.Fmt.{decimal};
ghost use Rattle.a429_word.specs.Tally.{has_failed, unread};
ghost use Rattle.a429_word.specs.Sheet.{Says, Writes};
ghost use Rattle.a429_cert.specs.Explained.{items_of};
ghost use Rattle.a429_explain.specs.Verdict.{IsImpossibility};
ghost use Rattle.a429_commands.specs.declared.engines.rule.Rule.TheVariants as rules;
ghost use Rattle.a429_commands.specs.Ends.{EndsWithFile, HasGained, heard, unheard_causes};
ghost use Rattle.a429_commands.specs.Fault.{ComesBy};
ghost use Rattle.a429_commands.specs.Output.{output};
ghost use Rattle.a429_commands.specs.Recording.{IsReadFault};
ghost use Rattle.a429_search.specs.Deciding.{IsExact};
ghost use Rattle.a429_commands.specs.Check.{reason_text, doubt_text, verdict_text, verdict_status, certificate_of, note_text, of_check, of_told, IsEarliest, IsToldBy, IsToldOn, IsToldUnder, IsVerdictBy, LeavesCertificate};

use crate::engines::profile::profile_of;
use crate::engines::recording::entries_of;
use crate::engines::rule::Rule;
use crate::engines::text::{Text, write_at_once};
use crate::fault::RunFault;
use a429_cert::OutOfMemory;
use a429_explain::{Certificate, Doubt, Reason, Verdict, check};
use a429_profile::Profile;
use a429_record::Entry;
use a429_search::{Decision, begins_a_run, decide};
use a429_view::put_explained;
use a429_word::{Device, Page, Sheet, Tally};
use std::alloc::Global;
use std::io::{Read, Write};

/// Writes the verdict on a recording to `out`, and where it is explained the certificate to
/// `cert` before, and answers the verdict's status: 0 explained, 1 impossible, 2 unexplained.
/// `profile` is the bytes of its text. Where a writer fails, a prefix of the certificate may be written.
pub fn run_check<R: Read, C: Write, W: Write>(
    alloc: Global,
    profile: &[u8],
    rec: &mut Tally<R>,
    cert: &mut Tally<C>,
    out: &mut Tally<W>,
) -> Result<u8, RunFault>
    ensures { EndsWithFile (output C.contents cert.old cert.new) (output W.contents out.old out.new) (of_check rules.Check profile.now (heard R.remaining rec.old rec.new)) result }
{
    run_by_rule(alloc, profile, rec, cert, out, Rule::Check)
}

/// Does what `run_check` does, with these differences. A recording is impossible, too, from the first word on that contradicts
/// what was recorded before it, or from an earlier one on, by `NoRun`, at which a search finds that no run goes on. Where `check`
/// has a doubt, and there is no such word, the run that the search finds explains the recording. And of an entry that is
/// impossible it is looked whether the words before it are those of a run, so that no earlier entry is impossible. Where that is
/// not found a second line says so.
pub fn run_decide<R: Read, C: Write, W: Write>(
    alloc: Global,
    profile: &[u8],
    rec: &mut Tally<R>,
    cert: &mut Tally<C>,
    out: &mut Tally<W>,
) -> Result<u8, RunFault>
    ensures { EndsWithFile (output C.contents cert.old cert.new) (output W.contents out.old out.new) (of_check rules.Decide profile.now (heard R.remaining rec.old rec.new)) result }
{
    run_by_rule(alloc, profile, rec, cert, out, Rule::Decide)
}

/// Does what `run_check` or `run_decide` does, by this rule.
pub fn run_by_rule<R: Read, C: Write, W: Write>(
    alloc: Global,
    profile: &[u8],
    rec: &mut Tally<R>,
    cert: &mut Tally<C>,
    out: &mut Tally<W>,
    rule: Rule,
) -> Result<u8, RunFault>
    ensures { EndsWithFile (output C.contents cert.old cert.new) (output W.contents out.old out.new) (of_check rule profile.now (heard R.remaining rec.old rec.new)) result }
{
    let told = told_on(alloc, profile, rec, rule)?;
    write_found(alloc, cert, out, told)
}

// A verdict, and whether a line after it says that the entries before an impossible one are not explained.
#[derive(Drop)]
struct Told {
    verdict: Verdict,
    has_note: bool,
}

// Writes the certificate of a verdict and then the verdict, and answers its status.
fn write_found<C: Write, W: Write>(
    alloc: Global,
    cert: &mut Tally<C>,
    out: &mut Tally<W>,
    told: Told,
) -> Result<u8, RunFault>
    ensures { EndsWithFile (output C.contents cert.old cert.new) (output W.contents out.old out.new) (of_told (λ t. t ≡ told) (λ e. e ≡ RunFault.Memory)) result }
{
    let page = Page::new(alloc)?;
    write_certificate(page, cert, &told.verdict)?;
    write_at_once(Ok(told), out)
}

// The verdict on a recording, by this rule.
fn told_on<R: Read>(
    alloc: Global,
    profile: &[u8],
    rec: &mut Tally<R>,
    rule: Rule,
) -> Result<Told, RunFault>
    ensures told { IfOk result (IsToldOn rule profile.now (unread R.remaining rec.old)) }
    ensures device { OnOk result (has_failed rec.new ≡ false) }
    ensures err { IfErr result (ComesBy (unheard_causes profile.now (heard R.remaining rec.old rec.new))) }
{
    let profile = profile_of(alloc, profile)?;
    let told = told_under(alloc, &profile, rec, rule);
    drop(profile);
    told
}

// The same under a profile that was read.
fn told_under<R: Read>(
    alloc: Global,
    profile: &Profile,
    rec: &mut Tally<R>,
    rule: Rule,
) -> Result<Told, RunFault>
    ensures told { IfOk result (IsToldUnder rule profile.now (unread R.remaining rec.old)) }
    ensures device { OnOk result (has_failed rec.new ≡ false) }
    ensures err { IfErr result (IsReadFault (unread R.remaining rec.old) (has_failed rec.new)) }
{
    let entries = entries_of(alloc, rec)?;
    found(told_by(alloc, profile, entries.as_slice(), rule))
}

// The verdict that was found, if memory sufficed.
fn found(told: Result<Told, OutOfMemory>) -> Result<Told, RunFault>
    ensures ok { IfOk result (λ t. told ≡ Ok t) }
    ensures err { IfErr result (λ e. e ≡ RunFault.Memory) }
{
    match told {
        Ok(told) => Ok(told),
        Err(_) => Err(RunFault::Memory),
    }
}

// The verdict on these entries, with a note or none. `check` does not look at the words before an entry.
fn told_by(
    alloc: Global,
    profile: &Profile,
    entries: &[Entry],
    rule: Rule,
) -> Result<Told, OutOfMemory>
    ensures { IfOk result (IsToldBy rule profile.now (items_of entries.now)) }
{
    match rule {
        Rule::Check => {
            let verdict = verdict_by(alloc, profile, entries, rule)?;
            let has_note = false;
            Ok(Told { verdict, has_note })
        }
        Rule::Decide => {
            let Decision { verdict, cut } = decided(alloc, profile, entries)?;
            let has_note = cut.is_some() && !is_earliest(alloc, profile, entries, &verdict)?;
            Ok(Told { verdict, has_note })
        }
    }
}

// No entry before the one that is impossible is so: the words before it are those of a run. `false` where that is not found.
fn is_earliest(
    alloc: Global,
    profile: &Profile,
    entries: &[Entry],
    verdict: &Verdict,
) -> Result<bool, OutOfMemory>
    ensures earliest { result ≡ Ok true → IsEarliest profile.now (items_of entries.now) verdict.now }
    ensures only { result ≡ Ok false → IsImpossibility verdict.now }
{
    match verdict {
        Verdict::Impossible { entry, .. } if *entry <= entries.len() => {
            begins_a_run(alloc, profile, &entries[..*entry])
        }
        Verdict::Impossible { .. } => Ok(false),
        Verdict::Explained { .. } | Verdict::Unexplained { .. } => Ok(true),
    }
}

/// The verdict on these entries, under a profile that was read, by the call of the library that has this rule.
pub(crate) fn verdict_by(
    alloc: Global,
    profile: &Profile,
    entries: &[Entry],
    rule: Rule,
) -> Result<Verdict, OutOfMemory>
    ensures { IfOk result (IsVerdictBy rule profile.now (items_of entries.now)) }
{
    match rule {
        Rule::Check => check(alloc, profile, entries),
        Rule::Decide => Ok(decided(alloc, profile, entries)?.verdict),
    }
}

// The verdict of `decide`, and the limit by which its search was cut short, if it was.
fn decided(alloc: Global, profile: &Profile, entries: &[Entry]) -> Result<Decision, OutOfMemory>
    ensures verdict { IfOk result (λ d. IsVerdictBy rules.Decide profile.now (items_of entries.now) d.verdict) }
    ensures exact { IfOk result (λ d. IsExact profile.now (items_of entries.now) d.cut d.verdict) }
{
    decide(alloc, profile, entries)
}

// Writes the certificate of a verdict, where there is one, by an empty page.
fn write_certificate<W: Write>(
    page: Page,
    out: &mut Tally<W>,
    verdict: &Verdict,
) -> Result<(), Device>
    requires { page ≡ [] }
    ensures ok { OnOk result (HasGained (output W.contents out.old out.new) (certificate_of verdict.now)) }
    ensures err { OnErr result (LeavesCertificate (output W.contents out.old out.new) verdict.now) }
{
    match verdict {
        Verdict::Explained { certificate, .. } => write_text(page, out, certificate),
        Verdict::Impossible { .. } | Verdict::Unexplained { .. } => Ok(()),
    }
}

// Writes the text of a certificate, by an empty page.
fn write_text<W: Write>(
    page: Page,
    out: &mut Tally<W>,
    certificate: &Certificate,
) -> Result<(), Device>
    requires { page ≡ [] }
    ensures written { Writes W.contents out.old out.new certificate.now }
    ensures device { IsErr result ↔ (has_failed out.new ≡ true) }
{
    let mut page = page;
    let mut sheet = Sheet::new(out, &mut page);
    certificate.put_on(&mut sheet);
    sheet.finish()
}

impl Text for Told {
    ghost use Rattle.std.specs.Prelude.{◌≡◌};
    ghost use Rattle.a429_commands.specs.Check.{told_text, verdict_status};

    ghost says = { λ t status text. (status ≡ verdict_status t.verdict) × (text ≡ told_text t) };

    ghost begins = { λ t text. text ≡ told_text t };

    fn put<W: Write>(&self, sheet: &mut Sheet<'_, W>) -> u8 {
        put_verdict(sheet, &self.verdict);
        put_note(sheet, self.has_note);
        status_of(&self.verdict)
    }
}

// Puts the note, where there is one.
fn put_note<W: Write>(sheet: &mut Sheet<'_, W>, has_note: bool)
    ensures { Says W.contents sheet.old sheet.new (note_text has_note) }
{
    if has_note {
        sheet.put(b"the entries before it are not explained\n");
    }
}

/// The status of a verdict.
pub(crate) fn status_of(verdict: &Verdict) -> u8
    ensures { result ≡ verdict_status verdict.now }
{
    match verdict {
        Verdict::Explained { .. } => 0,
        Verdict::Impossible { .. } => 1,
        Verdict::Unexplained { .. } => 2,
    }
}

/// Puts a verdict, without its certificate.
pub(crate) fn put_verdict<W: Write>(sheet: &mut Sheet<'_, W>, verdict: &Verdict)
    ensures { Says W.contents sheet.old sheet.new (verdict_text verdict.now) }
{
    match verdict {
        Verdict::Explained { files, .. } => put_explained(sheet, files.files()),
        Verdict::Impossible { entry, reason } => put_impossible(sheet, *entry, *reason),
        Verdict::Unexplained { entry, doubt } => put_unexplained(sheet, *entry, *doubt),
    }
}

/// Puts that no run records an entry, and why.
pub(crate) fn put_impossible<W: Write>(sheet: &mut Sheet<'_, W>, entry: usize, reason: Reason)
    ensures { Says W.contents sheet.old sheet.new (verdict_text (Verdict.Impossible entry reason)) }
{
    sheet.put(b"IMPOSSIBLE ");
    sheet.put_number(entry as u64);
    sheet.put(name_of_reason(reason));
}

fn put_unexplained<W: Write>(sheet: &mut Sheet<'_, W>, entry: usize, doubt: Doubt)
    ensures { Says W.contents sheet.old sheet.new (verdict_text (Verdict.Unexplained entry doubt)) }
{
    sheet.put(b"UNEXPLAINED ");
    sheet.put_number(entry as u64);
    sheet.put(name_of_doubt(doubt));
}

fn name_of_reason(reason: Reason) -> &'static [u8]
    ensures { result.now ≡ reason_text reason }
{
    match reason {
        Reason::NoForm => b" NoForm\n",
        Reason::NotGranted => b" NotGranted\n",
        Reason::WrongAnswer => b" WrongAnswer\n",
        Reason::BadBlock => b" BadBlock\n",
        Reason::WrongNumber => b" WrongNumber\n",
        Reason::OtherBlock => b" OtherBlock\n",
        Reason::NoRun => b" NoRun\n",
    }
}

fn name_of_doubt(doubt: Doubt) -> &'static [u8]
    ensures { result.now ≡ doubt_text doubt }
{
    match doubt {
        Doubt::NeverWhole => b" NeverWhole\n",
        Doubt::NotOneBlock => b" NotOneBlock\n",
        Doubt::NotReplayed => b" NotReplayed\n",
        Doubt::OutOfSteps => b" OutOfSteps\n",
    }
}
