//! The laws of sequences that wait for each other's events.
ghost use Rattle.interleavings.specs.CutLaws.{CutsAreConsistent, MakesProgress, CountsPasses};

/// Nothing made is a consistent cut, and a ready event may be made.
pub fn ready_events_keep_the_cut_consistent()
    ensures { CutsAreConsistent }
{}

/// Until all is done some sequence is ready, where needs go down in one serial order.
pub fn some_sequence_is_ready()
    ensures { MakesProgress }
{}

/// How often a test was passed, where it holds at one site of a sequence.
pub fn passes_are_counted()
    ensures { CountsPasses }
{}
