//! What a recording may go on with.

/// What a recording may go on with, free words aside, which may always come: a request always, and what its sink waits for or
/// owes.
#[derive(Clone, Copy, Debug)]
pub enum Next {
    /// A request, and nothing else.
    Request,
    /// The clear answer with this count.
    Clear(u8),
    /// An end word; a start word where none was recorded, and a data word where fewer were than were asked for.
    Block { start: bool, data: bool },
    /// The acknowledgement of this link data unit, or the negative answer.
    Ack { file: u8, ldu: u8 },
    /// The negative answer.
    Nak,
}
