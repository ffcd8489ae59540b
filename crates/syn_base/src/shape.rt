//! How vectors of given lengths lie in one flat row: `Shape`, for the rows of sensors and actuators.
ghost use Rattle.std.specs.Prelude.{◌≡◌, ◌+◌, ◌^◌, ◌<◌, ◌≤◌, length, slice_index, take, sum, IfOk};

use crate::memory::OutOfMemory;
use std::alloc::Global;
use std::marker::Model;

/// The lengths of vectors that lie one after the other in a flat row, with the place at which each
/// begins.
#[derive(Drop)]
pub struct Shape {
    lens: Vec<u32>,
    starts: Vec<usize>,
    width: usize,
}

impl Model for Shape {
    ghost use Rattle.std.specs.Prelude.{◌≡◌, ℕ, List, sum};
    ghost use Rattle.syn_base.specs.Rows.{StartsAre};

    ghost Value = { List ℕ };

    ghost view = { λ s. s.lens.items };

    ghost invariant = { λ s. record {
      width_is : s.width ≡ sum s.lens.items;
      starts_are : StartsAre s.lens.items s.starts.items;
    } };
}

impl Shape {
    /// The shape of vectors of these lengths.
    pub fn new(alloc: Global, lens: &[u32]) -> Result<Shape, OutOfMemory>
        ensures { IfOk result (λ s. s ≡ lens.now) }
    {
        let mut starts = Vec::new(alloc);
        let mut width: usize = 0;
        for len in lens {
            starts.push(width)?;
            // More elements than that are in no memory.
            width = width.checked_add(*len as usize).ok_or(OutOfMemory)?;
        }
        Ok(Shape {
            lens: Vec::from_slice(alloc, lens)?,
            starts,
            width,
        })
    }

    /// The lengths.
    pub fn lens(&self) -> &[u32]
        ensures { result.now ≡ self.now }
    {
        self.lens.as_slice()
    }

    /// The length of a vector.
    pub fn len_of(&self, vector: usize) -> usize
        requires { vector < length self.now }
        ensures { result ≡ slice_index self.now vector }
    {
        self.lens[vector] as usize
    }

    /// The length of the row.
    pub fn width(&self) -> usize
        ensures { result ≡ sum self.now }
    {
        self.width
    }

    /// Where a vector begins in the row.
    pub fn start(&self, vector: usize) -> usize
        requires { vector < length self.now }
        ensures start { result ≡ sum (take vector self.now) }
        ensures inside { result + slice_index self.now vector ≤ sum self.now }
        ensures fits { sum self.now < 2 ^ 64 }
    {
        // The width is the sum of the lengths: reading it tells that the sum fits in 64 bits.
        let _width = self.width;
        self.starts[vector]
    }
}
