//! What a verdict says, as numbers and bytes.

ghost use Rattle.std.specs.Prelude.{◌≡◌, IfOk};
ghost use Rattle.a429_c.specs.Verdict.{status_of, entry_of, files_of, reason_of, number_of_reason, number_of_doubt, certificate_of};

use crate::fault::Fault;
use a429_explain::{Certificate, Doubt, Reason, Verdict};
use a429_link::FileBytes;
use a429_word::{Device, Tally};
use std::alloc::Global;

/// The status of a verdict.
pub fn status_told(verdict: &Verdict) -> u8
    ensures { result ≡ status_of verdict.now }
{
    match verdict {
        Verdict::Explained { .. } => 0,
        Verdict::Impossible { .. } => 1,
        Verdict::Unexplained { .. } => 2,
    }
}

/// The entry that a verdict names; 0 where it names none.
pub fn entry_named(verdict: &Verdict) -> usize
    ensures { result ≡ entry_of verdict.now }
{
    match verdict {
        Verdict::Explained { .. } => 0,
        Verdict::Impossible { entry, .. } | Verdict::Unexplained { entry, .. } => *entry,
    }
}

/// The files that cross by a verdict.
pub fn files_told(verdict: &Verdict) -> &[FileBytes]
    ensures { result.now ≡ files_of verdict.now }
{
    match verdict {
        Verdict::Explained { files, .. } => files.files(),
        Verdict::Impossible { .. } | Verdict::Unexplained { .. } => &[],
    }
}

/// Why a verdict is no yes, as a number; 0 of a yes.
pub fn reason_told(verdict: &Verdict) -> u32
    ensures { result ≡ reason_of verdict.now }
{
    match verdict {
        Verdict::Explained { .. } => 0,
        Verdict::Impossible { reason, .. } => number_of_reason(*reason),
        Verdict::Unexplained { doubt, .. } => number_of_doubt(*doubt),
    }
}

fn number_of_reason(reason: Reason) -> u32
    ensures { result ≡ number_of_reason reason }
{
    match reason {
        Reason::NoForm => 1,
        Reason::NotGranted => 2,
        Reason::WrongAnswer => 3,
        Reason::BadBlock => 4,
        Reason::WrongNumber => 5,
        Reason::OtherBlock => 6,
        Reason::NoRun => 7,
    }
}

fn number_of_doubt(doubt: Doubt) -> u32
    ensures { result ≡ number_of_doubt doubt }
{
    match doubt {
        Doubt::NeverWhole => 11,
        Doubt::NotOneBlock => 12,
        Doubt::NotReplayed => 13,
        Doubt::OutOfSteps => 14,
    }
}

/// The certificate of a verdict; no bytes where it has none.
pub fn certificate_text(alloc: Global, verdict: &Verdict) -> Result<Vec<u8>, Fault>
    ensures { IfOk result (λ text. text.items ≡ certificate_of verdict.now) }
{
    match verdict {
        Verdict::Explained { certificate, .. } => spelled_out(alloc, certificate),
        Verdict::Impossible { .. } | Verdict::Unexplained { .. } => Ok(Vec::new(alloc)),
    }
}

// The bytes of a certificate. A writer over memory fails only where memory is refused.
fn spelled_out(alloc: Global, certificate: &Certificate) -> Result<Vec<u8>, Fault>
    ensures { IfOk result (λ text. text.items ≡ certificate.now) }
{
    let mut out = Tally::new(Vec::new(alloc), 0);
    match certificate.write(&mut out) {
        Ok(()) => Ok(out.into_inner()),
        Err(Device) => Err(Fault::Memory),
    }
}
