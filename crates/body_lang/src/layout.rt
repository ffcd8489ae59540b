//! How the vectors of several ports lie in one flat row: `Layout`, with which `Ins` finds its vectors.
ghost use Rattle.std.specs.Prelude.{◌≡◌, ◌+◌, ◌^◌, ◌<◌, ◌≤◌, length, slice_index, take, sum, IfOk};

use std::alloc::Global;
use std::marker::Model;
use syn_base::OutOfMemory;

/// The lengths of vectors that lie one after another in a flat row, kept as the places where they
/// begin, and where the last one ends: one short list, since each value of a reaction is found by
/// it. Contracts see the lengths.
#[derive(Drop)]
pub struct Layout {
    bounds: Vec<usize>,
}

impl Model for Layout {
    ghost use Rattle.std.specs.Prelude.{◌≡◌, ℕ, List};
    ghost use Rattle.body_lang.specs.Layout.{bounds_of, lengths_between};

    ghost Value = { List ℕ };

    ghost view = { λ s. lengths_between s.bounds.items };

    ghost invariant = { λ s. s.bounds.items ≡ bounds_of (lengths_between s.bounds.items) };
}

impl Layout {
    /// The layout of vectors of these lengths.
    pub fn new(alloc: Global, lens: &[u32]) -> Result<Layout, OutOfMemory>
        ensures { IfOk result (λ s. s ≡ lens.now) }
    {
        let mut bounds = Vec::new(alloc);
        let mut width: usize = 0;
        bounds.push(width)?;
        for len in lens {
            // More elements than that are in no memory.
            width = width.checked_add(*len as usize).ok_or(OutOfMemory)?;
            bounds.push(width)?;
        }
        Ok(Layout { bounds })
    }

    /// How many vectors there are.
    pub fn count(&self) -> usize
        ensures { result ≡ length self.now }
    {
        self.bounds.len() - 1
    }

    /// The length of the row.
    pub fn width(&self) -> usize
        ensures { result ≡ sum self.now }
    {
        self.bounds[self.bounds.len() - 1]
    }

    /// The length of a vector.
    pub fn len_of(&self, vector: usize) -> usize
        requires { vector < length self.now }
        ensures { result ≡ slice_index self.now vector }
    {
        self.bounds[vector + 1] - self.bounds[vector]
    }

    /// Where a vector begins in the row.
    pub fn start(&self, vector: usize) -> usize
        requires { vector < length self.now }
        ensures start { result ≡ sum (take vector self.now) }
        ensures inside { result + slice_index self.now vector ≤ sum self.now }
        ensures fits { sum self.now < 2 ^ 64 }
    {
        // The width is the sum of the lengths: reading it tells that the sum fits in 64 bits.
        let _width = self.width();
        self.bounds[vector]
    }
}
