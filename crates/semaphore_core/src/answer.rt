//! What a try of a sequence in a state came to.

/// What a try of a sequence came to.
#[derive(Clone, Copy, Debug, PartialEq, Eq)]
pub enum StepAnswer {
    /// Its next micro-step was enabled, and is made.
    Stepped,
    /// Its next micro-step is not enabled. Nothing changed.
    NotYet,
    /// It has made all its micro-steps. Nothing changed.
    Finished,
}
