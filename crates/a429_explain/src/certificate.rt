//! The text of a certificate.

ghost use Rattle.std.specs.Prelude.{◌≡◌, ◌↔◌, IsErr, IfOk, true, if◌then◌else◌};
ghost use Rattle.a429_word.specs.Sheet.{Says, Writes};
ghost use Rattle.a429_word.specs.Tally.{has_failed};
ghost use Rattle.a429_cert.specs.declared.version.Version.TheVariants.{One, Two};
ghost use Rattle.a429_cert.specs.Version.{version_line};
ghost use Rattle.a429_explain.specs.Note.{in_version};

use crate::lines::Lines;
use a429_cert::OutOfMemory;
use a429_word::{Device, Page, Sheet, Tally};
use std::alloc::Global;
use std::io::Write;
use std::marker::Model;

/// The text of a certificate. Contracts see its bytes. It is kept short, and spelled out as it is written.
#[derive(Drop)]
pub struct Certificate {
    // A file is given up, so it is of version 2.
    gave_up: bool,
    lines: Lines,
}

impl Model for Certificate {
    ghost use Rattle.std.specs.Prelude.{List, ℕ};
    ghost use Rattle.a429_explain.specs.Note.{in_version};

    ghost Value = { List ℕ };

    ghost view = { λ c. in_version c.gave_up c.lines };
}

impl Certificate {
    /// The certificate with these lines after its first, of version 2 where a file is given up.
    pub(crate) fn new(gave_up: bool, lines: Lines) -> Certificate
        ensures { result ≡ in_version gave_up lines }
    {
        Certificate { gave_up, lines }
    }

    /// Puts the text on a sheet. It takes no memory.
    pub fn put_on<W: Write>(&self, sheet: &mut Sheet<'_, W>)
        ensures { Says W.contents sheet.old sheet.new self.now }
    {
        sheet.put(first_line(self.gave_up));
        self.lines.put_on(sheet);
        sheet.put(b"\n");
    }

    /// Writes the text in many small writes: use a writer with a buffer. It takes no memory. After `Device` a prefix of the
    /// text has been written.
    pub fn write<W: Write>(&self, out: &mut Tally<W>) -> Result<(), Device>
        ensures written { Writes W.contents out.old out.new self.now }
        ensures device { IsErr result ↔ (has_failed out.new ≡ true) }
    {
        let mut page = Page::without_room();
        let mut sheet = Sheet::new(out, &mut page);
        self.put_on(&mut sheet);
        sheet.finish()
    }

    /// The text, spelled out into a list of bytes.
    pub fn into_vec(self, alloc: Global) -> Result<Vec<u8>, OutOfMemory>
        ensures { IfOk result (λ text. text.items ≡ self) }
    {
        let mut out = Tally::new(Vec::new(alloc), 0);
        match self.write(&mut out) {
            Ok(()) => Ok(out.into_inner()),
            Err(Device) => Err(OutOfMemory),
        }
    }
}

// The first line, without its line feed.
fn first_line(gave_up: bool) -> &'static [u8]
    ensures { result.now ≡ version_line (if gave_up then Two else One) }
{
    if gave_up {
        b"arinc429-cert 2"
    } else {
        b"arinc429-cert 1"
    }
}
