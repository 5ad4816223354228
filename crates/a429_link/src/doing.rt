//! What a sink does after a word.

use crate::why::Why;

/// A file that is whole: its number, 0 to 255, and how many bytes it has.
#[derive(Clone, Copy, Debug)]
pub struct Crossing {
    pub number: u8,
    pub bytes: usize,
}

/// What the sink of a file is doing after a word (ARINC 429 Part 3).
#[derive(Clone, Copy, Debug)]
pub enum Doing {
    /// It waits for a request.
    Quiet,
    /// It has taken a request, and owes the clear answer with this count.
    OwesClear(u8),
    /// It has given the clear answer with this count, and waits for a start word.
    Granted(u8),
    /// It is in a block of a link data unit, and has taken so many data words of those that were asked for.
    InBlock {
        file: u8,
        ldu: u8,
        taken: usize,
        asked: u8,
    },
    /// It has taken a good block of a link data unit, and owes the acknowledgement.
    OwesAck {
        file: u8,
        ldu: u8,
    },
    /// It owes the negative answer, for this reason.
    OwesNak(Why),
    /// It has acknowledged a link data unit, and accepts it; a file crosses where this was its last.
    Accepts {
        file: u8,
        ldu: u8,
        crossing: Option<Crossing>,
    },
    /// It has acknowledged the link data unit again that it accepted last.
    Again {
        file: u8,
        ldu: u8,
    },
}
