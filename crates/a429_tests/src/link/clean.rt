//! What a run without loss records.

use crate::calls::sample;
use a429_ldu::CutFault;
use a429_link::{CleanFault, Seen, clean_run};
use a429_profile::Profile;
use a429_word::Bus;
use std::alloc::{AllocError, Global};

// These bytes, each as a file.
fn files(alloc: Global, texts: &[&[u8]]) -> Result<Vec<Vec<u8>>, AllocError> {
    let mut files = Vec::new(alloc);
    for text in texts {
        let file = Vec::from_slice(alloc, text)?;
        files.push(file)?;
    }
    Ok(files)
}

// The run without loss of these files in the smallest units.
fn run(alloc: Global, profile: &Profile, texts: &[&[u8]]) -> Option<Result<Vec<Seen>, CleanFault>> {
    let files = files(alloc, texts).ok()?;
    Some(clean_run(alloc, profile, 1, 3, files.as_slice()))
}

// Why there is no run of these files.
fn fault(alloc: Global, profile: &Profile, texts: &[&[u8]]) -> Option<CleanFault> {
    run(alloc, profile, texts)?.err()
}

// A recorded word and its bus.
fn word_at(run: &[Seen], place: usize) -> Option<(Bus, u32)> {
    if place < run.len() {
        Some((run[place].bus, run[place].word.to_u32()))
    } else {
        None
    }
}

// How many words the run of a file has, and those at places 3 and 5, each with its bus.
fn words_of(alloc: Global, profile: &Profile, text: &[u8]) -> Option<(usize, [(Bus, u32); 2])> {
    let run = run(alloc, profile, &[text])?.ok()?;
    Some((run.len(), [word_at(&run, 3)?, word_at(&run, 5)?]))
}

#[test]
fn three_bytes_in_the_smallest_units(rt: HostRuntime) {
    let profile = sample(&rt);
    let words = words_of(rt.alloc(), &profile, &[0x41, 0x42, 0x43]);
    assert!(rt; words == Some((12, [(Bus::A, 0x1442_4123), (Bus::B, 0x4501_01A3)])));
}

// Whether there is no run of these files for this fault of one of them.
fn is_refused(
    alloc: Global,
    profile: &Profile,
    texts: &[&[u8]],
    file: usize,
    wanted: CutFault,
) -> bool {
    match fault(alloc, profile, texts) {
        Some(CleanFault::Cut(number, fault)) => number == file && fault == wanted,
        _ => false,
    }
}

#[test]
fn files_that_are_refused(rt: HostRuntime) {
    let profile = sample(&rt);
    assert!(rt; is_refused(rt.alloc(), &profile, &[&[0x41], &[]], 1, CutFault::Empty));
    assert!(rt; is_refused(rt.alloc(), &profile, &[&[0; 511]], 0, CutFault::TooLong));
}
