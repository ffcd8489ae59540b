//! Names in first-seen order, each once, found by hash.
ghost use Rattle.std.specs.Prelude.{◌≡◌, not, OnErr, IfOk, List, ℕ, map, position, nat_eq, if◌then◌else◌, ◌++◌, ◌∷◌, []};
ghost use Rattle.std.specs.List.{list_any};
ghost use Rattle.std.specs.Cmp.Lexicographic.{pointwise};

use crate::key::TableKey;
use indexmap::IndexSet;
use std::alloc::Global;
use std::marker::Model;
use syn_base::OutOfMemory;

/// Names in first-seen order, each once, borrowed from a text. A name is found in the time of its
/// length. Contracts see the list of the names.
#[derive(Drop)]
pub struct Names<'a> {
    set: IndexSet<&'a [u8], TableKey>,
}

impl<'a> Model for Names<'a> {
    ghost Value = { List (List ℕ) };

    ghost view = { λ s. map (λ k. k.now) s.set.keys };
}

impl<'a> Names<'a> {
    /// No names, which are to be hashed by this key. It takes no memory.
    pub fn new(alloc: Global, key: TableKey) -> Self
        ensures { result ≡ [] }
    {
        Names {
            set: IndexSet::with_hasher(alloc, key),
        }
    }

    /// Adds a name at the end, unless it is there, and returns whether it is new.
    /// After want of memory the names are as before.
    pub fn add(&mut self, name: &'a [u8]) -> Result<bool, OutOfMemory>
        ensures new { IfOk result (λ r. r ≡ not (list_any (pointwise nat_eq name.now) self.old)) }
        ensures after { IfOk result (λ r. self.new ≡ (if r then self.old ++ name.now ∷ [] else self.old)) }
        ensures err { OnErr result (self.new ≡ self.old) }
    {
        let (_, added) = self.set.insert_full(name)?;
        Ok(added)
    }

    /// The place of a name. It takes no memory.
    pub fn find(&self, name: &[u8]) -> Option<usize>
        ensures { result ≡ position (pointwise nat_eq name.now) self.now }
    {
        self.set.get_index_of(name)
    }
}
