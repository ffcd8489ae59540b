//! Room for the end of a fabric, laid out with it.
use syn_base::{ActRows, Items};

/// What is laid out for the end of a fabric, so that closing it takes no memory.
#[derive(Drop)]
pub struct Remains {
    /// Room for the count of each sequence, and for the words.
    pub counts: Vec<u64>,
    pub words: Vec<u64>,
    /// The opening cells of the delays, and rows of zeros of all actuators.
    pub cells: Vec<Items<i64>>,
    pub rows: ActRows,
    /// The sequence that calls each operation, and the one that calls each delay.
    pub callers: Vec<u32>,
    pub cell_owners: Vec<u32>,
}
