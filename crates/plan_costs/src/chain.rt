//! The chain of operations that fixes what a plan costs: each made the one before it start so late.
use crate::numbers::{NOBODY, number_at, put_number};
use std::alloc::Global;
use syn_base::OutOfMemory;

/// Operations, the last one first.
#[derive(Drop)]
pub struct Chain {
    ops: Vec<u32>,
    /// How many of the places are used.
    pub links: u32,
}

impl Chain {
    /// No operation so far, with room for this many.
    pub fn new(alloc: Global, most: usize) -> Result<Chain, OutOfMemory> {
        let ops = vec![in alloc; NOBODY; most]?;
        Ok(Chain { ops, links: 0 })
    }

    /// For how many operations there is room.
    pub fn most(&self) -> usize {
        self.ops.len()
    }

    /// No operation is left.
    pub fn clear(&mut self) {
        self.links = 0;
    }

    /// Adds an operation.
    pub fn add(&mut self, op: u32) {
        put_number(self.ops.as_mut_slice(), self.links, op);
        self.links = self.links.saturating_add(1);
    }

    /// The operation at a place, `NOBODY` where there is none.
    pub fn op(&self, link: u32) -> u32 {
        number_at(self.ops.as_slice(), link)
    }
}
