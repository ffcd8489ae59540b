//! Sources and guards: where a value comes from, and under which condition a node is active.
use syn_base::Items;

/// The source of an edge within one level. The number of an own input, of a vertex and of an
/// output count from 0 in declared order.
#[derive(Clone, Copy, Debug, PartialEq, Eq)]
pub enum Source {
    /// An input of the level itself.
    Own(u32),
    /// A vertex of the level and one of its outputs.
    Of(u32, u32),
}

/// The condition that a conditioning input selects a case. The value of `source` selects the first
/// case with that value, or the one after the last (`otherwise`).
#[derive(Drop)]
pub struct Guard {
    pub source: Source,
    /// The values of the cases, in order.
    pub values: Items<i64>,
    /// The number of the case that has to be selected, at most the number of values.
    pub case: u32,
}
