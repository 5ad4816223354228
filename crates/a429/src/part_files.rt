//! A folder with the parts of a recording, and their certificates.

ghost use Rattle.std.specs.Prelude.{◌≡◌, None, false, IfOk};

use crate::{CAP, bytes_of, opened, opened_certificate};
use a429_commands::{OpenPart, PartSource, RunFault};
use a429_record::EntryReader;
use a429_word::{Failing, Trouble};
use std::alloc::Global;
use std::io::BufReader;
use std::rt::Files;

/// A folder whose files `000001.csv`, `000001.cert` and so on are the parts of a recording, and `parts.txt` their list.
/// What they hold is not known to contracts.
#[derive(Drop)]
pub struct PartFiles<'a, F: Files> {
    rt: &'a F,
    alloc: Global,
    dir: &'a str,
    is_failed: bool,
}

impl<'a, F: Files> PartFiles<'a, F> {
    /// The folder of this name, of which nothing is asked yet.
    pub fn new(rt: &'a F, alloc: Global, dir: &'a str) -> PartFiles<'a, F>
        ensures fresh { result.is_failed ≡ false }
    {
        PartFiles {
            rt,
            alloc,
            dir,
            is_failed: false,
        }
    }

    /// The bytes of the list.
    pub fn list(&self) -> Result<Vec<u8>, RunFault> {
        let Ok(path) = format!(in self.alloc; "{}/parts.txt", self.dir) else {
            return Err(RunFault::Memory);
        };
        bytes_of(self.rt, self.alloc, path.as_str())
    }

    // The readers of the part at this place.
    fn readers(&self, place: u64) -> Result<OpenPart<F::File, BufReader<F::File>>, RunFault> {
        let rec = self.path(place, "csv")?;
        let rec = opened(self.rt, rec.as_str(), CAP)?;
        let cert = self.path(place, "cert")?;
        Ok(OpenPart {
            rec: EntryReader::new(self.alloc, rec),
            cert: opened_certificate(self.rt, self.alloc, cert.as_str())?,
        })
    }

    // The path of the part's file with this ending.
    fn path(&self, place: u64, ending: &str) -> Result<String, RunFault> {
        format!(in self.alloc; "{}/{place:06}.{ending}", self.dir).map_err(|_| RunFault::Memory)
    }
}

impl<F: Files> Failing for PartFiles<'_, F> {
    ghost failed = { λ f. f.is_failed };

    fn failed(&self) -> bool {
        self.is_failed
    }
}

impl<F: Files> PartSource<F::File, BufReader<F::File>> for PartFiles<'_, F> {
    ghost part = { λ f place. None };

    fn open(&mut self, place: u64) -> Result<OpenPart<F::File, BufReader<F::File>>, Trouble> {
        match self.readers(place) {
            Ok(part) => Ok(part),
            Err(RunFault::Memory) => Err(Trouble::OutOfMemory),
            Err(_) => {
                self.is_failed = true;
                Err(Trouble::Device)
            }
        }
    }

    fn note(&mut self, has_failed: bool) {
        self.is_failed |= has_failed;
    }
}
