//! A folder, in which the pieces of a recording are kept, with the files that are sure of each.

ghost use Rattle.std.specs.Prelude.{◌≡◌, None, true, false, IfOk, IsErrOf, OnOk, flat_map};
ghost use Rattle.a429_word.specs.Sheet.{Says};
ghost use Rattle.a429_record.specs.Writing.{line_text};

use crate::engines::cut::fault_by;
use crate::engines::new_file::NewFile;
use crate::engines::old_files::{refuse_named, refuse_numbered};
use crate::engines::part_folder::LIST;
use crate::fault::RunFault;
use a429_link::FileBytes;
use a429_record::{Entry, EntryText, put_header};
use a429_sink::Pieces;
use a429_word::{Failing, Page, Sheet, Trouble};
use std::alloc::Global;
use std::io::Write;
use std::mem;
use std::rt::Files;

/// Where the program puts the pieces of a recording: a folder, in which each is a text recording under its number in six digits, and each
/// file that is sure of it has that number, `-` and its place, from 1, in six digits; and the list of the pieces as `parts.txt`. A name that
/// is there is that of a whole file, and the list is there once `settle` says that all has gone well. What it holds is not known to contracts.
#[derive(Drop)]
pub struct PieceFolder<'a, F: Files> {
    files: PieceFiles<'a, F>,
    is_failed: bool,
}

impl<'a, F: Files> PieceFolder<'a, F> {
    /// The folder of this name. One that has a list, a piece or a file already is refused: it would be taken for a new one.
    pub fn open(rt: &'a F, alloc: Global, dir: &str) -> Result<PieceFolder<'a, F>, RunFault>
    where
        F: AllocGlobal + Clone + Drop,
        ensures fresh { IfOk result (λ f. f.is_failed ≡ false) }
    {
        refuse_numbered(rt, dir, ".csv")?;
        refuse_numbered(rt, dir, ".bin")?;
        refuse_named(rt, format!(in alloc; "{dir}/{LIST}")?.as_str())?;
        let files = PieceFiles {
            rt,
            alloc,
            dir: String::from_str(alloc, dir)?,
            page: Page::new(alloc)?,
            text: EntryText::new(),
            draft: None,
            number: 1,
            entries: 0,
            sure: 0,
            from: 0,
            list: String::new(alloc),
        };
        let is_failed = false;
        Ok(PieceFolder { files, is_failed })
    }

    /// The end of the command: where all has gone well the list is written, else there is none, and no file of a piece that has not ended.
    pub fn settle(self, status: Result<u8, RunFault>) -> Result<u8, RunFault> {
        let PieceFolder { files, is_failed } = self;
        let _ = is_failed;
        files.settle(status)
    }

    // The answer, where a device that has failed stays so.
    fn note(&mut self, answer: Result<(), Trouble>) -> Result<(), Trouble>
        requires { self.old.is_failed ≡ false }
        ensures device { IsErrOf result Trouble.Device → self.new.is_failed ≡ true }
        ensures works { OnOk result (self.new.is_failed ≡ false) }
    {
        if let Err(Trouble::Device) = answer {
            self.is_failed = true;
        }
        answer
    }
}

impl<F: Files> Failing for PieceFolder<'_, F> {
    ghost failed = { λ f. f.is_failed };

    fn failed(&self) -> bool {
        self.is_failed
    }
}

impl<F: Files> Pieces for PieceFolder<'_, F> {
    ghost known = { λ f. None };

    fn put(&mut self, entries: &[Entry], files: Vec<FileBytes>) -> Result<(), Trouble> {
        if self.is_failed {
            return Err(Trouble::Device);
        }
        let answer = self.files.put(entries, files.as_slice());
        self.note(answer)
    }

    fn end(&mut self) -> Result<(), Trouble> {
        if self.is_failed {
            return Err(Trouble::Device);
        }
        let answer = self.files.end();
        self.note(answer)
    }
}

// The files of the pieces.
#[derive(Drop)]
struct PieceFiles<'a, F: Files> {
    rt: &'a F,
    alloc: Global,
    dir: String,
    // where rows are put together
    page: Page,
    text: EntryText,
    // the piece under way, once something of it was put
    draft: Option<NewFile<'a, F>>,
    // its number, from 1; how many entries and files of it were put
    number: usize,
    entries: usize,
    sure: usize,
    // how many entries the pieces before it have, and their lines
    from: usize,
    list: String,
}

impl<'a, F: Files> PieceFiles<'a, F> {
    fn put(&mut self, entries: &[Entry], files: &[FileBytes]) -> Result<(), Trouble> {
        self.put_rows(entries)?;
        for file in files {
            self.put_file(file)?;
        }
        Ok(())
    }

    // Writes rows of the piece under way.
    fn put_rows(&mut self, entries: &[Entry]) -> Result<(), Trouble> {
        self.begin()?;
        let Some(draft) = &mut self.draft else {
            return Err(Trouble::Device);
        };
        let mut sheet = Sheet::new(&mut draft.out, &mut self.page);
        put_lines(&mut sheet, &mut self.text, entries);
        sheet.finish()?;
        self.entries = sum(self.entries, entries.len())?;
        Ok(())
    }

    // Begins the piece under way, if nothing of it was put.
    fn begin(&mut self) -> Result<(), Trouble> {
        if self.draft.is_some() {
            return Ok(());
        }
        let (dir, number) = (self.dir.as_str(), self.number);
        let path = format!(in self.alloc; "{dir}/{number:06}.csv")?;
        let mut draft = NewFile::create(self.rt, self.alloc, path.as_str())?;
        let mut sheet = Sheet::new(&mut draft.out, &mut self.page);
        put_header(&mut sheet);
        let written = sheet.finish();
        self.draft = Some(draft);
        Ok(written?)
    }

    // Writes a file that is sure of the piece under way.
    fn put_file(&mut self, file: &FileBytes) -> Result<(), Trouble> {
        let place = sum(self.sure, 1)?;
        let (dir, number) = (self.dir.as_str(), self.number);
        let path = format!(in self.alloc; "{dir}/{number:06}-{place:06}.bin")?;
        let mut new = NewFile::create(self.rt, self.alloc, path.as_str())?;
        let written = new.out.put(file.bytes.as_slice());
        new.settle(written)?;
        self.sure = place;
        Ok(())
    }

    // Ends the piece under way, which gets its name.
    fn end(&mut self) -> Result<(), Trouble> {
        self.begin()?;
        if let Some(draft) = mem::replace(&mut self.draft, None) {
            draft.settle(Ok::<(), Trouble>(()))?;
        }
        let (number, entries, from) = (self.number, self.entries, self.from);
        let line = format!(in self.alloc; "part {number} entries {entries} from {from}\n")?;
        self.list.push_str(line.as_str())?;
        self.number = sum(number, 1)?;
        self.from = sum(from, entries)?;
        self.entries = 0;
        self.sure = 0;
        Ok(())
    }

    fn settle(self, status: Result<u8, RunFault>) -> Result<u8, RunFault> {
        let PieceFiles {
            rt,
            alloc,
            dir,
            draft,
            list,
            ..
        } = self;
        if let Some(draft) = draft {
            return draft.settle(status);
        }
        let status = status?;
        match write_list(rt, alloc, dir.as_str(), list.as_str()) {
            Ok(()) => Ok(status),
            Err(trouble) => Err(fault_by(trouble)),
        }
    }
}

// A line for each entry.
fn put_lines<W: Write>(sheet: &mut Sheet<'_, W>, text: &mut EntryText, entries: &[Entry])
    ensures { Says W.contents sheet.old sheet.new (flat_map line_text entries.now) }
{
    for entry in entries {
        text.put_line(sheet, *entry);
    }
}

// Writes the list of the pieces.
fn write_list(rt: &impl Files, alloc: Global, dir: &str, list: &str) -> Result<(), Trouble> {
    let path = format!(in alloc; "{dir}/{LIST}")?;
    let mut file = NewFile::create(rt, alloc, path.as_str())?;
    let written = file.out.put(list.as_bytes());
    Ok(file.settle(written)?)
}

fn sum(some: usize, more: usize) -> Result<usize, Trouble> {
    some.checked_add(more).ok_or(Trouble::OutOfMemory)
}
