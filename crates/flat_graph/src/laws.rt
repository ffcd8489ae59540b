//! The laws of the flat meaning, each the contract of a function that does nothing and is not called: the crates above
//! take the lemmas in `proofs/`.
ghost use Rattle.flat_graph.specs.Cycles.{RoundsFindCycles};
ghost use Rattle.flat_graph.specs.Laws.{IsFired, IsFixedPoint, IsKept, KeepsLengths, RunsInWindows};

/// Each operation gives what it makes of what its sources give.
#[tactic(auto, using(crate::proofs::Settled::fixed_point))]
pub fn values_are_a_fixed_point()
    ensures { IsFixedPoint }
{}

/// The outputs of an operation are those of `fire` on its cell, what it senses and what its sources
/// give.
#[tactic(auto, using(crate::proofs::Fired::is_fired))]
pub fn outputs_are_fired()
    ensures { IsFired }
{}

/// The next cell of a delay is what `fire` of its set half keeps, on the cell and what its sources
/// give.
pub fn cells_are_kept()
    ensures { IsKept }
{}

/// A run may be cut into windows.
#[tactic(auto, using(crate::proofs::Windows::runs_in_windows))]
pub fn runs_in_windows()
    ensures { RunsInWindows }
{}

/// With a row and cells of the right lengths each output has its length, and the cells keep theirs.
pub fn lengths_are_kept()
    ensures { KeepsLengths }
{}

/// As many rounds as there are operations do all of them exactly where none depends on itself.
#[tactic(auto, using(crate::proofs::Loops::rounds_find_cycles))]
pub fn rounds_find_cycles()
    ensures { RoundsFindCycles }
{}
