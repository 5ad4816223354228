//! The rule by which a command finds the verdict on a recording.

/// Which command asks for a verdict.
#[derive(Clone, Copy, Debug)]
pub enum Rule {
    /// `check`: the fixed rule alone.
    Check,
    /// `decide`: that of `check`; where it is no yes, contradictions, and where it has a doubt a search, and then attempts to
    /// send one unit that no unit has.
    Decide,
}
