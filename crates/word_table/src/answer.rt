//! What a try of a sequence on a fabric came to.

/// What a try of a sequence came to.
#[derive(Clone, Copy, Debug, PartialEq, Eq)]
pub enum MicroAnswer {
    /// Its next micro-step is made.
    Stepped,
    /// The word that its next micro-step needs was not ready.
    NotYet,
    /// It has made all its micro-steps.
    Finished,
}
