//! What a seat of the table knows. No value of these types is made: they stand in proofs alone.
use phase_laws::Job;
use syn_base::Items;

/// A sequence that is driven, and how many micro-steps it has made.
#[derive(Clone, Copy, Drop)]
pub struct Count {
    pub seq: u32,
    pub made: u64,
}

/// The job, the sequences that are driven, and the last look.
#[derive(Drop)]
pub struct Knowledge<'a> {
    pub job: Job<'a>,
    pub driven: Items<Count>,
    /// How many looks were recorded.
    pub looks: u64,
    /// The word that was looked at last, and what was found.
    pub word: u64,
    pub found: u64,
}

/// The view of a seat.
#[derive(Drop)]
pub enum View<'a> {
    /// Another seat took all over.
    Spent,
    Holds(Knowledge<'a>),
}
