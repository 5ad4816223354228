//! A file that gets its name once it is whole.

use a429_word::{Device, Tally, Trouble};
use std::alloc::Global;
use std::fs;
use std::fs::File;
use std::io::ErrorKind;
use std::rt::Files;

// How many drafts of one name may be there.
const MOST_DRAFTS: u32 = 99;

/// A file to write. Its bytes go into a draft beside it, `NAME.new1` or the first such name that is free, and `settle` renames
/// the draft: so under its own name there is never a part of it. A name that is there and is no plain file, as that of a pipe or a link,
/// is written to at once.
#[derive(Drop)]
pub struct NewFile<'a, F: Files> {
    rt: &'a F,
    path: String,
    draft: Option<String>,
    pub out: Tally<F::File>,
}

impl<'a, F: Files> NewFile<'a, F> {
    /// A file of this name. What is there stays until it is replaced.
    pub fn create(rt: &'a F, alloc: Global, path: &str) -> Result<NewFile<'a, F>, Trouble> {
        let path = String::from_str(alloc, path)?;
        let (draft, file) = free_draft(rt, alloc, path.as_str())?;
        Ok(NewFile {
            rt,
            path,
            draft: Some(draft),
            out: Tally::new(file, 0),
        })
    }

    /// A file of this name, which is emptied at once, whatever follows.
    pub fn create_empty(rt: &'a F, alloc: Global, path: &str) -> Result<NewFile<'a, F>, Trouble> {
        let file = fs::create(rt, path).map_err(|_| Trouble::Device)?;
        if is_plain(rt, path) {
            return NewFile::create(rt, alloc, path);
        }
        Ok(NewFile {
            rt,
            path: String::from_str(alloc, path)?,
            draft: None,
            out: Tally::new(file, 0),
        })
    }

    /// The end of writing: where all went well the file is whole, and gets its name; else its draft is removed.
    pub fn settle<T: Drop, E: From<Device> + Drop>(self, written: Result<T, E>) -> Result<T, E> {
        match written {
            Ok(value) => {
                self.keep()?;
                Ok(value)
            }
            Err(fault) => {
                self.discard();
                Err(fault)
            }
        }
    }

    // The draft is closed, and gets its name.
    fn keep(self) -> Result<(), Device> {
        let NewFile {
            rt,
            path,
            draft,
            out,
        } = self;
        drop(out);
        let Some(draft) = draft else {
            return Ok(());
        };
        if fs::rename(rt, draft.as_str(), path.as_str()).is_err() {
            remove(rt, draft.as_str());
            return Err(Device);
        }
        Ok(())
    }

    // The draft is closed, and removed.
    fn discard(self) {
        let NewFile {
            rt,
            path,
            draft,
            out,
        } = self;
        drop(out);
        drop(path);
        if let Some(draft) = draft {
            remove(rt, draft.as_str());
        }
    }
}

// A draft of this name that was not there, opened.
fn free_draft<F: Files>(rt: &F, alloc: Global, path: &str) -> Result<(String, F::File), Trouble> {
    'drafts: for number in 1..=MOST_DRAFTS {
        let Ok(draft) = format!(in alloc; "{path}.new{number}") else {
            return Err(Trouble::OutOfMemory);
        };
        match File::create_new(rt, draft.as_str()) {
            Ok(file) => return Ok((draft, file)),
            Err(error) if error.kind() == ErrorKind::AlreadyExists => {}
            Err(_) => return Err(Trouble::Device),
        }
    }
    Err(Trouble::Device)
}

// Whether the name is that of a plain file, and no link.
fn is_plain(rt: &impl Files, path: &str) -> bool {
    match fs::symlink_metadata(rt, path) {
        Ok(metadata) => metadata.is_file(),
        Err(_) => false,
    }
}

// Removes a draft. Where that fails it stays, under a name that no command reads.
fn remove(rt: &impl Files, draft: &str) {
    let _ = fs::remove_file(rt, draft);
}
