//! What is kept of closed tables, over all windows of a run.
ghost use Rattle.std.specs.Prelude.{◌≡◌};
ghost use Rattle.word_rule.specs.Driven.{new_driven};

use std::alloc::Global;
use std::marker::Model;

/// The micro-steps made on closed tables, up to the last value of their number, and the counts and the words
/// of the table that was closed last. Only `Fabric::close` changes it.
#[derive(Drop)]
pub struct Driven {
    pub(crate) number: u64,
    pub(crate) counts: Vec<u64>,
    pub(crate) words: Vec<u64>,
}

impl Model for Driven {
    ghost use Rattle.word_rule.specs.Driven.{Driven};

    ghost Value = { Driven };

    ghost view = { λ d. record { number = d.number; counts = d.counts.items; words = d.words.items } };
}

impl Driven {
    /// When no table was closed. It takes no memory.
    pub fn new(alloc: Global) -> Driven
        ensures { result ≡ new_driven }
    {
        Driven {
            number: 0,
            counts: Vec::new(alloc),
            words: Vec::new(alloc),
        }
    }

    /// The micro-steps made on closed tables; at its last value the number stands. It takes no memory.
    pub fn number(&self) -> u64
        ensures { result ≡ self.now.number }
    {
        self.number
    }

    /// The counts of the table that was closed last, by sequence. It takes no memory.
    pub fn counts(&self) -> &[u64]
        ensures { result.now ≡ self.now.counts }
    {
        self.counts.as_slice()
    }

    /// The words of the table that was closed last: for each pair its empty and its full semaphore, for each
    /// medium its turn, and the elements of the buffers by buffer, place and number, and of the wires by
    /// medium and number. It takes no memory.
    pub fn words(&self) -> &[u64]
        ensures { result.now ≡ self.now.words }
    {
        self.words.as_slice()
    }
}
