//! The sample profile, and the checker on recordings under it.

use crate::sample::PROFILE;
use a429_explain::{Certificate, Verdict, check};
use a429_profile::{Profile, read_profile};
use a429_record::{Entry, read_entries};
use a429_word::Tally;
use std::alloc::{AllocError, Global};
use std::fmt::Debug;
use std::process::Abort;

// How many bytes of a text are read at most.
pub const MOST: u64 = 1_000_000;

/// What is read of a text, which has to be a profile.
pub fn read(rt: &(impl Abort + AllocGlobal), text: &str) -> Profile {
    read_profile(rt.alloc(), text).expect(rt, "a profile")
}

/// The sample profile.
pub fn sample(rt: &(impl Abort + AllocGlobal)) -> Profile {
    read(rt, PROFILE)
}

/// A value as a test prints it.
pub fn debug<T: Debug>(alloc: Global, value: &T) -> Result<String, AllocError> {
    format!(in alloc; "{value:?}")
}

/// The entries of a recording.
pub fn entries_of(alloc: Global, recording: &str) -> Option<Vec<Entry>> {
    read_entries(alloc, &mut Tally::new(recording.as_bytes(), MOST)).ok()
}

/// What the checker says of a recording.
pub fn verdict_on(alloc: Global, profile: &Profile, recording: &str) -> Option<Verdict> {
    let entries = entries_of(alloc, recording)?;
    check(alloc, profile, &entries).ok()
}

/// The text of a certificate.
pub fn text_of(alloc: Global, certificate: &Certificate) -> Option<Vec<u8>> {
    let mut text = Vec::new(alloc);
    certificate.write(&mut Tally::new(&mut text, 0)).ok()?;
    Some(text)
}

/// The text of the certificate that the checker finds for a recording.
pub fn certificate_of(alloc: Global, profile: &Profile, recording: &str) -> Option<Vec<u8>> {
    match verdict_on(alloc, profile, recording)? {
        Verdict::Explained { certificate, .. } => certificate.into_vec(alloc).ok(),
        _ => None,
    }
}
