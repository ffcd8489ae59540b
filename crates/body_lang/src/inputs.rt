//! The values at the ports of an operation: `Ins`, over which expressions are evaluated.
ghost use Rattle.std.specs.Prelude.{◌≡◌, ◌+◌, ◌<◌, ◌≤◌, ◌++◌, length, take, drop, slice_index_or, slice_set, map, replicate, pos, IfOk};
ghost use Rattle.syn_base.specs.Rows.{with_value};
ghost use Rattle.syn_base.specs.Vectors.{vector_at, zeros};

use crate::layout::Layout;
use std::alloc::{AllocError, Global};
use std::marker::Model;
use syn_base::OutOfMemory;

/// A vector for each port, of lengths that do not change. Contracts see the list of the vectors.
#[derive(Drop)]
pub struct Ins {
    shape: Layout,
    elements: Vec<i64>,
}

impl Model for Ins {
    ghost use Rattle.std.specs.Prelude.{◌≡◌, length, sum};
    ghost use Rattle.syn_base.specs.Rows.{cut};
    ghost use Rattle.syn_base.specs.Vectors.{Values};

    ghost Value = { Values };

    ghost view = { λ s. cut s.shape s.elements.items };

    ghost invariant = { λ s. length s.elements.items ≡ sum s.shape };
}

impl Ins {
    /// Vectors of these lengths, all zeros.
    pub fn new(alloc: Global, lens: &[u32]) -> Result<Ins, OutOfMemory>
        ensures { IfOk result (λ s. s ≡ map zeros lens.now) }
    {
        let shape = Layout::new(alloc, lens)?;
        let elements = all_zeros(alloc, shape.width())?;
        Ok(Ins { shape, elements })
    }

    /// How many vectors there are.
    pub fn count(&self) -> usize
        ensures { result ≡ length self.now }
    {
        self.shape.count()
    }

    /// The vector of a port.
    pub fn vector(&self, port: usize) -> &[i64]
        requires { port < length self.now }
        ensures { result.now ≡ vector_at self.now port }
    {
        let start = self.shape.start(port);
        let len = self.shape.len_of(port);
        &self.elements[start..start + len]
    }

    /// Element j of the vector of a port.
    pub fn get(&self, port: usize, j: usize) -> i64
        requires port { port < length self.now }
        requires place { j < length (vector_at self.now port) }
        ensures { result ≡ slice_index_or (vector_at self.now port) j (pos 0) }
    {
        self.vector(port)[j]
    }

    /// Puts a value in the place of element j of the vector of a port. It takes no memory.
    pub fn set(&mut self, port: usize, j: usize, v: i64)
        requires port { port < length self.old }
        requires place { j < length (vector_at self.old port) }
        ensures { self.new ≡ with_value self.old port j v }
    {
        let place = self.shape.start(port) + j;
        self.elements[place] = v;
    }

    /// Puts a vector of the same length in the place of that of a port. It takes no memory.
    pub fn set_vector(&mut self, port: usize, vector: &[i64])
        requires port { port < length self.old }
        requires len { length vector.now ≡ length (vector_at self.old port) }
        ensures { self.new ≡ slice_set self.old port vector.now }
    {
        let start = self.shape.start(port);
        put(&mut self.elements, start, vector);
    }
}

/// A row of zeros of this length.
fn all_zeros(alloc: Global, len: usize) -> Result<Vec<i64>, AllocError>
    ensures { IfOk result (λ v. v.items ≡ replicate len (pos 0)) }
{
    vec![in alloc; 0i64; len]
}

/// Writes a vector into a row, from a place on.
fn put(row: &mut [i64], start: usize, vector: &[i64])
    requires { start + length vector.now ≤ length row.old }
    ensures { row.new ≡ take start row.old ++ (vector.now ++ drop (start + length vector.now) row.old) }
{
    row[start..start + vector.len()].copy_from_slice(vector);
}
