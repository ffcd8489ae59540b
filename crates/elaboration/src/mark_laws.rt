//! The law of accepted marks, the contract of a function that does nothing.
ghost use Rattle.elaboration.specs.Stand.{AcceptedMarksStand};

/// Of definitions as an accepted text has them, that resolve to a tree and whose marks are accepted, each mark
/// is on a reference of the main graph that may have one; in the pruned tree too.
pub fn accepted_marks_stand()
    ensures { AcceptedMarksStand }
{}
