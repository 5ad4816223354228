//! Judges a certificate against a recording, both read as a stream, and writes the verdict, as each command that
//! takes a certificate does.

ghost use Rattle.std.specs.Prelude.{◌≡◌, ◌↔◌, ◌≢◌, ◌||◌, true, false, IsErr, IfOk, IfErr, OnOk, Err};
ghost use Rattle.a429_word.specs.Tally.{has_failed};
ghost use Rattle.a429_word.specs.Sheet.{Says, Writes};
ghost use Rattle.a429_cert.specs.BreakOff.{readers, shelved};
ghost use Rattle.a429_commands.specs.Extract.{progress, Leaves};
ghost use Rattle.a429_commands.specs.Verdict.{text_of_answer, status_of_answer, of_stream, input, HearsJudged, HearsUntil, IsAnswerOf, IsJudged, IsNoAnswer, IsVerifyFault, TriesUntil};
ghost use Rattle.a429_cert.specs.Report.{listening, TriesSome};

use crate::engines::profile::profile_of;
use crate::engines::streaming::fault_of;
use crate::engines::text::Text;
use crate::fault::RunFault;
use a429_cert::{CertFault, Listener, Shelf, StreamFault, replay_stream};
use a429_profile::Profile;
use a429_record::EntryReader;
use a429_view::{put_no, put_yes};
use a429_word::{Device, Failing, Page, Sheet, Tally};
use std::alloc::Global;
use std::io::{Read, Write};

/// The numbers and lengths of the files that a certificate puts on a shelf, or why it is refused.
pub(crate) type Answer = Result<Vec<(u8, u32)>, CertFault>;

/// A certificate, judged under a profile.
#[derive(Drop)]
pub(crate) struct Judged {
    pub(crate) profile: Profile,
    pub(crate) answer: Answer,
}

/// Judges a certificate against a recording, under the profile whose text the bytes are. Files are put on the shelf,
/// and the listener hears the steps, as `replay_stream` says. The fault is `Device` where a reader, the shelf or the
/// listener has failed.
pub(crate) fn judge<R: Read, C: Read, S: Shelf, T: Listener>(
    alloc: Global,
    profile: &[u8],
    rec: &mut EntryReader<R>,
    cert: &mut Tally<C>,
    shelf: &mut S,
    listener: &mut T,
) -> Result<Judged, RunFault>
    ensures judged { IfOk result (IsJudged (input profile.now C.remaining cert.old rec.old) (shelved S.files S.failed shelf.old shelf.new)) }
    ensures heard { IfOk result (HearsJudged (listening T.hears listener.old listener.new) (input profile.now C.remaining cert.old rec.old)) }
    ensures until { IfErr result (HearsUntil (listening T.hears listener.old listener.new) (input profile.now C.remaining cert.old rec.old)) }
    ensures works { OnOk result ((T.failed listener.new || (S.failed shelf.new || (rec.new.failed || has_failed cert.new))) ≡ false) }
    ensures err { IfErr result (IsVerifyFault (input profile.now C.remaining cert.old rec.old) (shelved S.files S.failed shelf.old shelf.new)
        ((T.failed listener.new || (S.failed shelf.new || (rec.new.failed || has_failed cert.new))) ≡ true)) }
    ensures files { IfErr result (Leaves profile.now
        (progress (readers C.remaining cert.old cert.new rec.old rec.new) (shelved S.files S.failed shelf.old shelf.new) (T.failed listener.new))
        ((T.failed listener.new || (S.failed shelf.new || (rec.new.failed || has_failed cert.new))) ≡ true)) }
    ensures tried { IfOk result (λ j. TriesSome (listening T.tries listener.old listener.new) j.profile) }
    ensures untried { IfErr result (TriesUntil T.failed (listening T.tries listener.old listener.new) profile.now) }
{
    let profile = profile_of(alloc, profile)?;
    let answer = replay_stream(alloc, &profile, rec, cert, shelf, listener);
    match answer_of(answer, any_failed(rec, cert, shelf, listener)) {
        Ok(answer) => Ok(Judged { profile, answer }),
        Err(fault) => {
            drop(profile);
            Err(fault)
        }
    }
}

// The answer of a stream as that on its certificate, unless something has failed.
fn answer_of(
    answer: Result<Vec<(u8, u32)>, StreamFault>,
    has_failed: bool,
) -> Result<Answer, RunFault>
    ensures ok { IfOk result (IsAnswerOf has_failed answer) }
    ensures err { IfErr result (IsNoAnswer has_failed answer) }
{
    if has_failed {
        return Err(RunFault::Device);
    }
    match answer {
        Ok(files) => Ok(Ok(files)),
        Err(fault) => match of_certificate(fault) {
            Ok(fault) => Ok(Err(fault)),
            Err(fault) => Err(fault),
        },
    }
}

// Whether a reader, the shelf or the listener has failed.
fn any_failed<R: Read, C: Read, S: Shelf, T: Listener>(
    rec: &EntryReader<R>,
    cert: &Tally<C>,
    shelf: &S,
    listener: &T,
) -> bool
    ensures { result ≡ (T.failed listener.now || (S.failed shelf.now || (rec.now.failed || has_failed cert.now))) }
{
    listener.failed() || shelf.failed() || rec.failed() || cert.failed()
}

/// The fault, where it is one of the certificate.
pub(crate) fn of_certificate(fault: StreamFault) -> Result<CertFault, RunFault>
    ensures ok { IfOk result (λ f. (fault ≡ StreamFault.Cert f) × (f ≢ CertFault.OutOfMemory)) }
    ensures err { IfErr result (λ e. e ≡ of_stream fault) }
{
    match fault {
        StreamFault::Cert(CertFault::OutOfMemory) | StreamFault::OutOfMemory => Err(
            RunFault::Memory,
        ),
        StreamFault::Cert(fault) => Ok(fault),
        StreamFault::Device => Err(RunFault::Device),
        StreamFault::Read(fault) => Err(fault_of(fault)),
    }
}

impl Text for Judged {
    ghost use Rattle.std.specs.Prelude.{◌≡◌};
    ghost use Rattle.a429_commands.specs.Verdict.{SaysAnswer, text_of_answer};

    ghost says = { λ j. SaysAnswer j.answer };

    ghost begins = { λ j text. text ≡ text_of_answer j.answer };

    fn put<W: Write>(&self, sheet: &mut Sheet<'_, W>) -> u8 {
        put_answer(sheet, &self.answer);
        status_of(&self.answer)
    }
}

/// Writes the verdict, a yes with its files or a no, and answers its status: 0 for a yes, 2 for a no.
pub(crate) fn write_answer<W: Write>(out: &mut Tally<W>, answer: &Answer) -> Result<u8, Device>
    ensures status { IfOk result (λ status. status ≡ status_of_answer answer.now) }
    ensures written { Writes W.contents out.old out.new (text_of_answer answer.now) }
    ensures device { IsErr result ↔ (has_failed out.new ≡ true) }
{
    let mut page = Page::without_room();
    let mut sheet = Sheet::new(out, &mut page);
    put_answer(&mut sheet, answer);
    sheet.finish()?;
    Ok(status_of(answer))
}

fn status_of(answer: &Answer) -> u8
    ensures { result ≡ status_of_answer answer.now }
{
    match answer {
        Ok(_) => 0,
        Err(_) => 2,
    }
}

fn put_answer<W: Write>(sheet: &mut Sheet<'_, W>, answer: &Answer)
    ensures { Says W.contents sheet.old sheet.new (text_of_answer answer.now) }
{
    match answer {
        Ok(files) => put_yes(sheet, files.as_slice()),
        Err(fault) => put_no(sheet, *fault),
    }
}
