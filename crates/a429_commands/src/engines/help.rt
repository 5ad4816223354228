//! `a429 --help`: the commands, a line for each.

ghost use Rattle.a429_commands.specs.Ends.{Ends};
ghost use Rattle.a429_commands.specs.Help.{of_help};
ghost use Rattle.a429_commands.specs.Output.{output};

use crate::engines::text::{Text, write_at_once};
use crate::fault::RunFault;
use a429_word::{Sheet, Tally};
use std::io::Write;

/// Writes what the commands are, a line for each, and answers status 0.
pub fn run_help<W: Write>(out: &mut Tally<W>) -> Result<u8, RunFault>
    ensures { Ends (output W.contents out.old out.new) of_help result }
{
    write_at_once(Ok(Help), out)
}

// The commands.
#[derive(Drop)]
struct Help;

impl Text for Help {
    ghost use Rattle.a429_commands.specs.Help.{IsHelpText, says_help};

    ghost says = { λ h. says_help };

    ghost begins = { λ h. IsHelpText };

    fn put<W: Write>(&self, sheet: &mut Sheet<'_, W>) -> u8 {
        sheet.put(COMMANDS.as_bytes());
        0
    }
}

// The commands with their words, as README lists them.
const COMMANDS: &str = "a429 COMMAND WORD..
  version: prints the version of the program
  word HEX: shows a word
  labels PROFILE: lists the label table of a profile
  show PROFILE REC: shows each word of a recording with its value
  forms PROFILE REC: says what each word is to the file transfer
  survey PROFILE REC: counts what a recording of any length has
  trace PROFILE REC: says what the sink is doing after each word of the transfer
  blocks PROFILE REC: lists the attempts to send a block in a recording of any length
  sink PROFILE REC: judges the sink of a recording of any length by itself
  history PROFILE REC DIR: puts a recording of any length in pieces into DIR
  keep PROFILE REC: writes the entries of a recording of any length whose words have the label of the transfer
  cut PROFILE REC DIR [MOST]: writes the parts of a recording of any length into DIR
  side PROFILE REC LINE OUT [ANSWER]: writes the words of one direction into OUT
  import MAP EXPORT OUT: makes a recording of what another program exported
  make PROFILE FILE..: writes the recording of a transfer of files in which nothing is lost
  pack REC: writes a recording in binary
  decide PROFILE REC CERT: finds out whether files crossed
  why PROFILE REC: prints the verdict of decide
  check PROFILE REC CERT: does the same as decide by a fixed rule alone
  verify PROFILE REC CERT: checks a certificate against a recording
  series PROFILE DIR: checks the certificates of a recording in parts
  extract PROFILE REC CERT DIR: checks a certificate and writes each file that crossed into DIR
  units PROFILE REC CERT: checks a certificate and lists the link data units that it loads
  picture PROFILE REC CERT FROM TO: draws what happened at the entries FROM to TO
  upgrade CERT OUT: writes a certificate of version 1 to OUT as one of version 2
man a429 says more.
";
