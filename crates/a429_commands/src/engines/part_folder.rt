//! A folder, in which the parts of a recording are kept.

ghost use Rattle.std.specs.Prelude.{◌≡◌, None, false, IfOk};

use crate::engines::new_file::NewFile;
use crate::engines::old_files::{refuse_named, refuse_numbered};
use crate::fault::RunFault;
use a429_parts::{Parts, Rows};
use a429_word::{Failing, Trouble};
use std::alloc::Global;
use std::rt::Files;

/// The name of the list.
pub(crate) const LIST: &str = "parts.txt";

/// Where the program puts the parts of a recording: a folder, in which each part is written at once, as a text recording
/// under its number in six digits, and the list of them as `parts.txt`. A name that is there is that of a whole file, and the list
/// is there once `settle` says that all has gone well. What it holds is not known to contracts.
#[derive(Drop)]
pub struct PartFolder<'a, F: Files> {
    rt: &'a F,
    alloc: Global,
    dir: String,
    list: Option<NewFile<'a, F>>,
    is_failed: bool,
}

impl<'a, F: Files> PartFolder<'a, F> {
    /// The folder of this name. One that has a list or a file of a part's name already is refused: it would be taken for a new one.
    pub fn open(rt: &'a F, alloc: Global, dir: &str) -> Result<PartFolder<'a, F>, RunFault>
    where
        F: AllocGlobal + Clone + Drop,
        ensures fresh { IfOk result (λ f. f.is_failed ≡ false) }
    {
        refuse_numbered(rt, dir, ".csv")?;
        refuse_named(rt, format!(in alloc; "{dir}/{LIST}")?.as_str())?;
        Ok(PartFolder {
            rt,
            alloc,
            dir: String::from_str(alloc, dir)?,
            list: None,
            is_failed: false,
        })
    }

    /// The end of the command: where all has gone well the list gets its name, else there is none.
    pub fn settle(self, status: Result<u8, RunFault>) -> Result<u8, RunFault> {
        let PartFolder {
            rt: _,
            alloc: _,
            dir,
            list,
            is_failed: _,
        } = self;
        drop(dir);
        match list {
            Some(list) => list.settle(status),
            None => status,
        }
    }

    // Writes a part.
    fn write(&self, number: usize, rows: &Rows<'_>) -> Result<(), Trouble> {
        let path = format!(in self.alloc; "{}/{number:06}.csv", self.dir.as_str())?;
        let mut part = NewFile::create(self.rt, self.alloc, path.as_str())?;
        let written = rows.write(self.alloc, &mut part.out);
        part.settle(written)
    }

    // Writes the list, which has no name of its own yet.
    fn write_list(&self, text: &[u8]) -> Result<NewFile<'a, F>, Trouble> {
        let path = format!(in self.alloc; "{}/{LIST}", self.dir.as_str())?;
        let mut list = NewFile::create(self.rt, self.alloc, path.as_str())?;
        match list.out.put(text) {
            Ok(()) => Ok(list),
            written => {
                list.settle(written)?;
                Err(Trouble::Device)
            }
        }
    }
}

impl<F: Files> Failing for PartFolder<'_, F> {
    ghost failed = { λ f. f.is_failed };

    fn failed(&self) -> bool {
        self.is_failed
    }
}

impl<F: Files> Parts for PartFolder<'_, F> {
    ghost known = { λ f. None };

    fn put(&mut self, number: usize, rows: &Rows<'_>) -> Result<(), Trouble> {
        if self.is_failed {
            return Err(Trouble::Device);
        }
        match self.write(number, rows) {
            Err(Trouble::Device) => {
                self.is_failed = true;
                Err(Trouble::Device)
            }
            answer => answer,
        }
    }

    fn put_list(&mut self, text: &[u8]) -> Result<(), Trouble> {
        if self.is_failed {
            return Err(Trouble::Device);
        }
        match self.write_list(text) {
            Ok(list) => {
                self.list = Some(list);
                Ok(())
            }
            Err(Trouble::Device) => {
                self.is_failed = true;
                Err(Trouble::Device)
            }
            Err(Trouble::OutOfMemory) => Err(Trouble::OutOfMemory),
        }
    }
}
