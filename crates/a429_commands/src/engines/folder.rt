//! A folder, in which the files of a certificate are kept.

ghost use Rattle.std.specs.Prelude.{◌≡◌, None, false, IfOk};

use crate::engines::new_file::NewFile;
use crate::engines::old_files::refuse_numbered;
use crate::fault::RunFault;
use a429_cert::Shelf;
use a429_word::{Failing, Trouble};
use std::alloc::Global;
use std::rt::Files;

/// The program's shelf: a folder, in which each file is written at once, under its place in six digits. A name that is there is
/// that of a whole file. What it holds is not known to contracts.
#[derive(Drop)]
pub struct Folder<'a, F: Files> {
    rt: &'a F,
    alloc: Global,
    dir: String,
    is_failed: bool,
}

impl<'a, F: Files> Folder<'a, F> {
    /// The folder of this name. One that has a file of such a name already is refused: it would be taken for a new one.
    pub fn open(rt: &'a F, alloc: Global, dir: &str) -> Result<Folder<'a, F>, RunFault>
    where
        F: AllocGlobal + Clone + Drop,
        ensures fresh { IfOk result (λ f. f.is_failed ≡ false) }
    {
        refuse_numbered(rt, dir, ".bin")?;
        Ok(Folder {
            rt,
            alloc,
            dir: String::from_str(alloc, dir)?,
            is_failed: false,
        })
    }

    // Writes a file.
    fn write(&self, path: &str, bytes: &[u8]) -> Result<(), Trouble> {
        let mut file = NewFile::create(self.rt, self.alloc, path)?;
        let written = file.out.put(bytes);
        Ok(file.settle(written)?)
    }
}

impl<F: Files> Failing for Folder<'_, F> {
    ghost failed = { λ f. f.is_failed };

    fn failed(&self) -> bool {
        self.is_failed
    }
}

impl<F: Files> Shelf for Folder<'_, F> {
    ghost files = { λ f. None };

    fn put(&mut self, index: u32, _: u8, bytes: &[u8]) -> Result<(), Trouble> {
        if self.is_failed {
            return Err(Trouble::Device);
        }
        let Ok(path) = format!(in self.alloc; "{}/{index:06}.bin", self.dir.as_str()) else {
            return Err(Trouble::OutOfMemory);
        };
        match self.write(path.as_str(), bytes) {
            Err(Trouble::Device) => {
                self.is_failed = true;
                Err(Trouble::Device)
            }
            answer => answer,
        }
    }
}
