//! Where the source and the sink stand, as a certificate writes it.

/// What the source of a file is doing (ARINC 429 Part 3).
#[derive(Clone, Copy, Debug, PartialEq, Eq)]
pub enum SourceState {
    /// It has asked for nothing.
    Idle,
    /// It has asked to send, and waits for the clear answer.
    Awaiting,
    /// It has sent so many words of the block, 0 to 254.
    Sending(u8),
    /// It has sent the whole block, and waits for the answer.
    Waiting,
}

/// What the sink of a file is doing (ARINC 429 Part 3).
#[derive(Clone, Copy, Debug, PartialEq, Eq)]
pub enum SinkState {
    /// It waits for a request.
    Quiet,
    /// It has taken a request, and owes the clear answer.
    OwesClear,
    /// It has given the clear answer, and waits for a start word.
    Granted,
    /// It has taken so many words of a block, its start word among them, 1 to 254.
    InBlock(u8),
    /// It has taken a good block, and owes the acknowledgement.
    OwesAck,
    /// It has taken a block that is not good, and owes the negative answer.
    OwesNak,
}

/// What the source and the sink are doing, and how many words are on their way between them.
#[derive(Clone, Copy, Debug, PartialEq, Eq)]
pub struct States {
    /// What the source is doing.
    pub source: SourceState,
    /// What the sink is doing.
    pub sink: SinkState,
    /// How many recorded words the sink has not taken, 0 to 255.
    pub to_sink: u8,
    /// How many recorded answers the source has not taken, 0 or 1.
    pub to_source: u8,
}
