//! Files of an earlier call, in a folder that a command is to write to.

use crate::fault::RunFault;
use std::fs;
use std::io::ErrorKind;
use std::rt::Files;

// Refuses a folder that has a file with a number of six digits or more, or several of them with `-` between, and this ending. What is not there, or is no folder, has none.
pub(crate) fn refuse_numbered<F: Files + AllocGlobal + Clone + Drop>(
    rt: &F,
    dir: &str,
    ending: &str,
) -> Result<(), RunFault> {
    let entries = match fs::read_dir(rt, dir) {
        Ok(entries) => entries,
        Err(error) => return refused_by(error.kind()),
    };
    'entries: for entry in entries {
        match entry {
            Ok(entry) if is_numbered(entry.file_name(), ending) => return Err(RunFault::OldFiles),
            Ok(_) => {}
            Err(error) => refused_by(error.kind())?,
        }
    }
    Ok(())
}

// Refuses a name that is there.
pub(crate) fn refuse_named(rt: &impl Files, path: &str) -> Result<(), RunFault> {
    match fs::symlink_metadata(rt, path) {
        Ok(_) => Err(RunFault::OldFiles),
        Err(error) => refused_by(error.kind()),
    }
}

// What is not there, and a name that is no text, is no old file.
fn refused_by(kind: ErrorKind) -> Result<(), RunFault> {
    match kind {
        ErrorKind::NotFound | ErrorKind::NotADirectory | ErrorKind::InvalidFilename => Ok(()),
        ErrorKind::OutOfMemory => Err(RunFault::Memory),
        _ => Err(RunFault::Device),
    }
}

// Whether the name is a number of six digits or more, or several of them with `-` between, and this ending.
fn is_numbered(name: &str, ending: &str) -> bool {
    match name.strip_suffix(ending) {
        Some(number) => number.len() >= 6
            && number.bytes().all(|b| b.is_ascii_digit() || b == b'-'),
        None => false,
    }
}
