//! What becomes of each message of a link.

/// What becomes of one message.
#[derive(Clone, Copy, Debug, PartialEq, Eq, Drop)]
pub enum Verdict {
    /// It goes through.
    Pass,
    /// It is lost.
    Lose,
    /// It goes through two times.
    Twice,
    /// It goes through behind the copies of the n-th message after it: with 0 at its own place.
    Hold(u16),
}

/// The verdicts of a link's messages, in order. Messages past its end pass.
#[derive(Debug, PartialEq, Eq, Drop)]
pub struct LinkScript(pub Vec<Verdict>);
