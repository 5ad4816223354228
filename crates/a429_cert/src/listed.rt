//! The steps that the lines of a certificate list, before their entries are known.

ghost use Rattle.std.specs.Prelude.{◌≡◌};
ghost use Rattle.a429_cert.specs.Passing.{uses_listed};

use crate::act::used_by;
use crate::line::MovedLine;
use a429_ldu::Ldu;

/// The step that a line lists, without the entry that it uses.
#[derive(Drop)]
pub enum Listed {
    /// This link data unit is loaded at the source.
    Load(Ldu),
    /// A step that is no load, and what it leaves.
    Moved(MovedLine),
}

impl Listed {
    /// How many entries it uses, 0 or 1.
    pub fn used(&self) -> usize
        ensures { result ≡ uses_listed self.now }
    {
        match self {
            Listed::Load(_) => 0,
            Listed::Moved(line) => used_by(line.act),
        }
    }
}
