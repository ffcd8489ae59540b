//! How much a search does.
use plan_costs::Goal;

/// How long to search, and for what: this many tries, by the chances of a seed.
#[derive(Clone, Copy, Debug, PartialEq, Eq)]
pub struct Effort {
    pub tries: u32,
    pub seed: u64,
    pub goal: Goal,
}
