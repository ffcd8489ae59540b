//! The list of the numbers that a processor declares, with a test of whether one is among them.
ghost use Rattle.std.specs.Prelude.{◌≡◌, ◌++◌, ◌∷◌, [], OnOk, true};
ghost use Rattle.executive_program.specs.Archi.{ascends_from};
ghost use Rattle.macro_code.specs.ReadText.{follows, is_among, last_of};

use std::alloc::Global;
use std::marker::Model;
use syn_base::OutOfMemory;

/// Numbers that ascend, so that one among them is found by halving. Contracts see their list.
#[derive(Drop)]
pub struct Numbers {
    list: Vec<u64>,
}

impl Model for Numbers {
    ghost use Rattle.std.specs.Prelude.{List, ℕ};
    ghost use Rattle.std.specs.List.Sorted.{IsNonDecreasing};

    ghost Value = { List ℕ };

    ghost view = { λ s. s.list.items };

    ghost invariant = { λ s. IsNonDecreasing s.list.items };
}

impl Numbers {
    /// No numbers.
    pub fn new(alloc: Global) -> Self
        ensures { result ≡ [] }
    {
        Numbers {
            list: Vec::new(alloc),
        }
    }

    /// Numbers of which each is above the one before it.
    pub fn of(list: Vec<u64>) -> Self
        requires { ascends_from 0 list.items ≡ true }
        ensures { result ≡ list.items }
    {
        Numbers { list }
    }

    /// Adds a number that is above the last one.
    pub fn add(&mut self, number: u64) -> Result<(), OutOfMemory>
        requires { follows (last_of self.old) number ≡ true }
        ensures { OnOk result (self.new ≡ self.old ++ number ∷ []) }
    {
        self.list.push(number)?;
        Ok(())
    }

    /// Whether a number is among them.
    pub fn has(&self, number: u64) -> bool
        ensures { result ≡ is_among self.now number }
    {
        self.list.binary_search(&number).is_ok()
    }

    /// Whether a number is above the last one.
    pub fn are_followed_by(&self, number: u64) -> bool
        ensures { result ≡ follows (last_of self.now) number }
    {
        match self.list.last() {
            Some(last) => *last < number,
            None => true,
        }
    }

    /// The numbers.
    pub fn as_slice(&self) -> &[u64]
        ensures { result.now ≡ self.now }
    {
        self.list.as_slice()
    }
}
