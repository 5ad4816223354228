//! `a429 version`: the version of the program, and those of the certificates that it reads.

ghost use Rattle.a429_commands.specs.Ends.{Ends};
ghost use Rattle.a429_commands.specs.Output.{output};
ghost use Rattle.a429_commands.specs.Version.{of_version};

use crate::engines::text::{Text, write_at_once};
use crate::fault::RunFault;
use a429_word::{Sheet, Tally};
use std::io::Write;

/// Writes the version of the program, and the versions of the certificates that it reads, and answers status 0.
pub fn run_version<W: Write>(out: &mut Tally<W>) -> Result<u8, RunFault>
    ensures { Ends (output W.contents out.old out.new) of_version result }
{
    write_at_once(Ok(Versions), out)
}

// Those of the program and of the certificates.
#[derive(Drop)]
struct Versions;

impl Text for Versions {
    ghost use Rattle.a429_commands.specs.Version.{IsVersionText, says_version};

    ghost says = { λ v. says_version };

    ghost begins = { λ v. IsVersionText };

    fn put<W: Write>(&self, sheet: &mut Sheet<'_, W>) -> u8 {
        sheet.put(b"a429 1.0.0\ncertificates 1 2\n");
        0
    }
}
