//! The laws of the bound and of a longest chain.
ghost use Rattle.lower_bound.specs.Chain.{ChainLastsLongest};
ghost use Rattle.lower_bound.specs.Laws.{NoValidScheduleIsShorter, TransfersOnlyLengthen};

/// No valid schedule is shorter than the bound, whatever the flat graph, the architecture and the
/// durations are.
#[tactic(auto, using(crate::proofs::Below::no_valid_schedule_is_shorter))]
pub fn no_valid_schedule_is_shorter()
    ensures { NoValidScheduleIsShorter }
{}

/// The least durations of the operations of a longest chain add up to it, each of them is needed by
/// the next, and the first needs none, whatever the flat graph and the durations are.
pub fn chain_lasts_longest()
    ensures { ChainLastsLongest }
{}

/// Where each operation may stand on some operator, the longest chain with transfers is no shorter
/// than the longest chain of least durations, over any media.
pub fn transfers_only_lengthen()
    ensures { TransfersOnlyLengthen }
{}
