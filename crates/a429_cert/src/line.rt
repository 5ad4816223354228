//! A line of a certificate.

use crate::act::Act;
use crate::words::Words;
use a429_link::States;

/// A line of a certificate after its first, which only names the version (profile).
#[derive(Debug, Drop)]
pub enum CertLine {
    /// The number of the first file, 0 to 255.
    First(u8),
    /// A link data unit is loaded at the source.
    Load(LoadLine),
    /// A step that is no load, and what it leaves.
    Moved(MovedLine),
}

/// The line of a link data unit.
#[derive(Debug, Drop)]
pub struct LoadLine {
    /// The general format identifier of its start word, 0 to 15.
    pub gfi: u8,
    /// The flags of its end word, 0 to 15.
    pub flags: u8,
    /// The check word of its end word.
    pub check: u16,
    /// Its data words, 1 to 253.
    pub words: Words,
}

/// The line of a step that is no load. It takes no memory.
#[derive(Clone, Copy, Debug)]
pub struct MovedLine {
    /// The step.
    pub act: Act,
    /// Where source and sink are after it. Of a block that is still on its way, the source has sent at
    /// most 254 words, and the sink has 1 to 254.
    pub states: States,
}
