//! The law of tight schedules, act by act, which says what the definition means.
ghost use Rattle.schedule.specs.Tight.{TightActByAct};

/// A schedule is tight exactly where each act starts at the greatest end of the act before it in its line
/// and of those before it that make what it reads.
#[tactic(auto, using(crate::proofs::Tight::tight_act_by_act))]
pub fn tight_act_by_act()
    ensures { TightActByAct }
{}
