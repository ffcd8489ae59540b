//! What holds of the definitions of every accepted text before any of them is linked to another.
ghost use Rattle.algo_laws.specs.Accepted.{AcceptedAreWellRead};
ghost use Rattle.algo_laws.specs.Few.{AcceptedAreFew};
ghost use Rattle.algo_laws.specs.Periods.{AcceptedHavePeriods};

/// The definitions of every text that is accepted are well read: names are names; definitions, the ports of one
/// definition, the references of a graph and the outer names of a repetition are each named once; vectors have 1 to
/// 64 elements; a delay looks back 1 to 16 reactions, with a vector of initial values for each; a definition has at
/// most 64 inputs, outputs, references, cases or frontier lines each; a function has an output, and its formulas name
/// inputs of its own; a repetition has 1 to 64 copies.
pub fn accepted_are_well_read()
    ensures { AcceptedAreWellRead }
{}

/// Every text that is accepted has at most as many definitions as lines, so that a text that was read is not too
/// long to be resolved.
pub fn accepted_are_few()
    ensures { AcceptedAreFew }
{}

/// In every text that is accepted a reference with a mark stands in version 3 alone, and the number of the mark is
/// from 1 to 16.
pub fn accepted_have_periods()
    ensures { AcceptedHavePeriods }
{}
