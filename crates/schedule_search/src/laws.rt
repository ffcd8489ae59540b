//! The law of drafts that are done.
ghost use Rattle.schedule_search.specs.Drafts.{DraftsAreValid};

/// Decisions that are right and leave no candidate are a valid schedule, whoever chose them. A candidate
/// that is placed where it may stand leaves decisions right (`placements_are_right` of `comm_routing`),
/// so a draft in which nothing is left to place is one.
#[tactic(auto, using(crate::proofs::Whole::drafts_are_valid))]
pub fn drafts_are_valid()
    ensures { DraftsAreValid }
{}
