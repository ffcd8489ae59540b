//! The laws of the durations of texts, which callers of `durations_of` cite.
ghost use Rattle.durations.specs.Accepted.{AcceptedAreDurations};
ghost use Rattle.durations.specs.Fitting.{DurationsFit};

/// The durations of every text that is accepted are for operators of its architecture, and last at most
/// 1,000,000,000 ticks each. So `durations_of` may be called with whatever a text was read as.
pub fn accepted_are_durations()
    ensures { AcceptedAreDurations }
{}

/// The durations of a text are those of their flat graph and of the text's architecture, and the set half of a delay
/// may stand wherever its get half may.
pub fn durations_fit()
    ensures { DurationsFit }
{}
