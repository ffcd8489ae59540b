//! The ticks that operations and transfers really last, reaction by reaction, as callers hand them
//! to `dates_of`.
use std::alloc::Global;
use std::marker::Model;
use syn_base::{Items, OutOfMemory};

/// How long each entry of a schedule lasts, in ticks, reaction by reaction: first the operations by
/// number, and then the transfers in the order of the decisions. Contracts see the list of reactions,
/// each a list of ticks.
#[derive(Drop)]
pub struct Actual {
    alloc: Global,
    reactions: Vec<Items<u64>>,
}

impl Model for Actual {
    ghost use Rattle.std.specs.Prelude.{ℕ, List};

    ghost Value = { List (List ℕ) };

    ghost view = { λ s. s.reactions.items };
}

impl Actual {
    ghost use Rattle.std.specs.Prelude.{◌≡◌, ◌++◌, ◌∷◌, [], OnOk, OnErr};

    /// No reaction yet. It takes no memory.
    pub fn new(alloc: Global) -> Actual
        ensures { result ≡ [] }
    {
        Actual {
            alloc,
            reactions: Vec::new(alloc),
        }
    }

    /// Adds a reaction with the ticks of its entries. After want of memory all is as before.
    pub fn push(&mut self, ticks: &[u64]) -> Result<(), OutOfMemory>
        ensures ok { OnOk result (self.new ≡ self.old ++ ticks.now ∷ []) }
        ensures err { OnErr result (self.new ≡ self.old) }
    {
        let ticks = Vec::from_slice(self.alloc, ticks)?;
        self.reactions.push(Items::new(ticks))?;
        Ok(())
    }

    /// The ticks of each reaction.
    pub(crate) fn reactions(&self) -> &[Items<u64>]
        ensures { result.now ≡ self.now }
    {
        self.reactions.as_slice()
    }
}
