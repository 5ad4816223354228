//! What a sink owes.

ghost use Rattle.std.specs.Prelude.{◌↔◌, IsTrue};
ghost use Rattle.a429_sink.specs.Owed.{IsOwed};

use a429_ldu::Form;

/// The answer that a sink owes (ARINC 429 Part 3).
#[derive(Clone, Copy, Debug)]
pub enum Owed {
    /// None.
    Nothing,
    /// The clear answer, with the count of the request.
    Clear(u8),
    /// The acknowledgement of this link data unit, or a negative answer in its place.
    Ack { file: u8, ldu: u8 },
    /// A negative answer, with any bits.
    Nak,
}

impl Owed {
    /// Whether an answer of this form is owed.
    pub fn allows(&self, form: &Form) -> bool
        ensures { IsTrue result ↔ IsOwed self.now form.now }
    {
        match (*self, *form) {
            (Owed::Clear(asked), Form::Cts { count }) => count == asked,
            (Owed::Ack { file, ldu }, Form::Ack { file: f, ldu: l }) => f == file && l == ldu,
            (Owed::Ack { .. } | Owed::Nak, Form::Nak { .. }) => true,
            _ => false,
        }
    }
}
