//! The vectors of each reaction: what the sensors gave, and what the actuators take.
ghost use Rattle.std.specs.Prelude.{◌≡◌, ◌+◌, ◌<◌, ◌≤◌, ◌++◌, ◌∷◌, [], length, take, drop, slice_index, sum, IfOk, OnOk, OnErr};
ghost use Rattle.syn_base.specs.Rows.{cut, element, with_element, vector_of, AreCut};

use crate::items::Items;
use crate::memory::OutOfMemory;
use crate::shape::Shape;
use std::alloc::Global;
use std::marker::Model;

/// The vectors of each reaction, of the same lengths in all.
#[derive(Drop)]
struct Rows {
    alloc: Global,
    shape: Shape,
    rows: Vec<Items<i64>>,
}

impl Model for Rows {
    ghost use Rattle.syn_base.specs.Rows.{Reactions, AreLong, cut_all};
    ghost use Rattle.std.specs.Prelude.{sum};

    ghost Value = { Reactions };

    ghost view = { λ s. record { lens = s.shape; reactions = cut_all s.shape s.rows.items } };

    ghost invariant = { λ s. AreLong (sum s.shape) s.rows.items };
}

impl Rows {
    /// No reaction yet, of vectors of these lengths.
    fn new(alloc: Global, lens: &[u32]) -> Result<Rows, OutOfMemory>
        ensures { IfOk result (λ s. s ≡ record { lens = lens.now; reactions = [] }) }
    {
        Ok(Rows {
            alloc,
            shape: Shape::new(alloc, lens)?,
            rows: Vec::new(alloc),
        })
    }

    /// The lengths of the vectors of a reaction.
    fn lens(&self) -> &[u32]
        ensures { result.now ≡ self.now.lens }
    {
        self.shape.lens()
    }

    /// Adds a reaction, its vectors one after the other. After want of memory all is as before.
    fn push(&mut self, row: &[i64]) -> Result<(), OutOfMemory>
        requires { length row.now ≡ sum self.old.lens }
        ensures ok { OnOk result (self.new ≡ record self.old {
          reactions = self.old.reactions ++
              cut self.old.lens row.now ∷ [];
        }) }
        ensures err { OnErr result (self.new ≡ self.old) }
    {
        let row = Vec::from_slice(self.alloc, row)?;
        self.rows.push(Items::new(row))?;
        Ok(())
    }

    /// How many reactions there are.
    fn count(&self) -> usize
        ensures { result ≡ length self.now.reactions }
    {
        self.rows.len()
    }

    /// A vector of reaction k.
    fn vector(&self, k: usize, vector: usize) -> &[i64]
        requires reaction { k < length self.now.reactions }
        requires vector { vector < length self.now.lens }
        ensures value { result.now ≡ vector_of self.now.reactions k vector }
        ensures len { length result.now ≡ slice_index self.now.lens vector }
    {
        let start = self.shape.start(vector);
        let len = self.shape.len_of(vector);
        &self.rows[k].as_slice()[start..start + len]
    }

    /// As many reactions as are counted, from this one on, as rows of their own.
    fn window(&self, from: usize, count: usize) -> Result<Rows, OutOfMemory>
        requires { from + count ≤ length self.now.reactions }
        ensures { IfOk result (λ s. s ≡ record self.now { reactions = take count (drop from self.now.reactions) }) }
    {
        let mut window = Rows::new(self.alloc, self.shape.lens())?;
        for row in &self.rows[from..from + count] {
            window.push(row.as_slice())?;
        }
        Ok(window)
    }

    /// That each reaction has a vector of each length: a law, which runs nothing.
    fn are_cut(&self)
        ensures { AreCut self.now }
    {
        // What holds of all rows is known where a field is named: each flat row has the width of the shape.
        let _ = &self.rows;
    }

    /// Puts a value in the place of element j of a vector of reaction k. It takes no memory.
    fn set(&mut self, k: usize, vector: usize, j: usize, v: i64)
        requires reaction { k < length self.old.reactions }
        requires vector { vector < length self.old.lens }
        requires place { j < slice_index self.old.lens vector }
        ensures { self.new ≡ record self.old { reactions = with_element self.old.reactions k vector j v } }
    {
        let place = self.shape.start(vector) + j;
        self.rows[k].set(place, v);
    }
}

/// What the sensors give in each reaction: vectors of the sensors' lengths, sensors in declared
/// order. Contracts see the lengths, and the list of reactions.
pub struct SensorRows {
    rows: Rows,
}

/// By hand, so that a proof walks through what it drops here alone, and not on each way out of each
/// function that owns one.
impl Drop for SensorRows {
    fn drop(self) {
        let SensorRows { rows: _ } = self;
    }
}

impl Model for SensorRows {
    ghost use Rattle.syn_base.specs.Rows.{Reactions};

    ghost Value = { Reactions };

    ghost view = { λ s. s.rows };
}

impl SensorRows {
    /// No reaction yet, of vectors of these lengths.
    pub fn new(alloc: Global, lens: &[u32]) -> Result<SensorRows, OutOfMemory>
        ensures { IfOk result (λ s. s ≡ record { lens = lens.now; reactions = [] }) }
    {
        Ok(SensorRows {
            rows: Rows::new(alloc, lens)?,
        })
    }

    /// The lengths of the vectors of a reaction.
    pub fn lens(&self) -> &[u32]
        ensures { result.now ≡ self.now.lens }
    {
        self.rows.lens()
    }

    /// Adds a reaction, its vectors one after the other. After want of memory all is as before.
    pub fn push(&mut self, row: &[i64]) -> Result<(), OutOfMemory>
        requires { length row.now ≡ sum self.old.lens }
        ensures ok { OnOk result (self.new ≡ record self.old {
          reactions = self.old.reactions ++
              cut self.old.lens row.now ∷ [];
        }) }
        ensures err { OnErr result (self.new ≡ self.old) }
    {
        self.rows.push(row)
    }

    /// How many reactions there are.
    pub fn count(&self) -> usize
        ensures { result ≡ length self.now.reactions }
    {
        self.rows.count()
    }

    /// As many reactions as are counted, from this one on, as rows of their own.
    pub fn window(&self, from: usize, count: usize) -> Result<SensorRows, OutOfMemory>
        requires { from + count ≤ length self.now.reactions }
        ensures { IfOk result (λ s. s ≡ record self.now { reactions = take count (drop from self.now.reactions) }) }
    {
        Ok(SensorRows {
            rows: self.rows.window(from, count)?,
        })
    }

    /// That each reaction has a vector of its length for each sensor: a law, which runs nothing.
    pub fn are_cut(&self)
        ensures { AreCut self.now }
    {
        self.rows.are_cut();
    }

    /// A vector of reaction k.
    pub fn vector(&self, k: usize, vector: usize) -> &[i64]
        requires reaction { k < length self.now.reactions }
        requires vector { vector < length self.now.lens }
        ensures value { result.now ≡ vector_of self.now.reactions k vector }
        ensures len { length result.now ≡ slice_index self.now.lens vector }
    {
        self.rows.vector(k, vector)
    }

    /// Element j of a vector of reaction k.
    pub fn get(&self, k: usize, vector: usize, j: usize) -> i64
        requires reaction { k < length self.now.reactions }
        requires vector { vector < length self.now.lens }
        requires place { j < slice_index self.now.lens vector }
        ensures { result ≡ element self.now.reactions k vector j }
    {
        self.rows.vector(k, vector)[j]
    }
}

/// What the actuators take in each reaction: vectors of the actuators' lengths, actuators in declared
/// order. Contracts see the lengths, and the list of reactions.
pub struct ActRows {
    rows: Rows,
}

/// By hand, so that a proof walks through what it drops here alone, and not on each way out of each
/// function that owns one.
impl Drop for ActRows {
    fn drop(self) {
        let ActRows { rows: _ } = self;
    }
}

impl Model for ActRows {
    ghost use Rattle.syn_base.specs.Rows.{Reactions};

    ghost Value = { Reactions };

    ghost view = { λ s. s.rows };
}

impl ActRows {
    /// No reaction yet, of vectors of these lengths.
    pub fn new(alloc: Global, lens: &[u32]) -> Result<ActRows, OutOfMemory>
        ensures { IfOk result (λ s. s ≡ record { lens = lens.now; reactions = [] }) }
    {
        Ok(ActRows {
            rows: Rows::new(alloc, lens)?,
        })
    }

    /// The lengths of the vectors of a reaction.
    pub fn lens(&self) -> &[u32]
        ensures { result.now ≡ self.now.lens }
    {
        self.rows.lens()
    }

    /// Adds a reaction, its vectors one after the other. After want of memory all is as before.
    pub fn push(&mut self, row: &[i64]) -> Result<(), OutOfMemory>
        requires { length row.now ≡ sum self.old.lens }
        ensures ok { OnOk result (self.new ≡ record self.old {
          reactions = self.old.reactions ++
              cut self.old.lens row.now ∷ [];
        }) }
        ensures err { OnErr result (self.new ≡ self.old) }
    {
        self.rows.push(row)
    }

    /// How many reactions there are.
    pub fn count(&self) -> usize
        ensures { result ≡ length self.now.reactions }
    {
        self.rows.count()
    }

    /// A vector of reaction k.
    pub fn vector(&self, k: usize, vector: usize) -> &[i64]
        requires reaction { k < length self.now.reactions }
        requires vector { vector < length self.now.lens }
        ensures value { result.now ≡ vector_of self.now.reactions k vector }
        ensures len { length result.now ≡ slice_index self.now.lens vector }
    {
        self.rows.vector(k, vector)
    }

    /// Element j of a vector of reaction k.
    pub fn get(&self, k: usize, vector: usize, j: usize) -> i64
        requires reaction { k < length self.now.reactions }
        requires vector { vector < length self.now.lens }
        requires place { j < slice_index self.now.lens vector }
        ensures { result ≡ element self.now.reactions k vector j }
    {
        self.rows.vector(k, vector)[j]
    }

    /// Puts a value in the place of element j of a vector of reaction k. It takes no memory.
    pub fn set(&mut self, k: usize, vector: usize, j: usize, v: i64)
        requires reaction { k < length self.old.reactions }
        requires vector { vector < length self.old.lens }
        requires place { j < slice_index self.old.lens vector }
        ensures { self.new ≡ record self.old { reactions = with_element self.old.reactions k vector j v } }
    {
        self.rows.set(k, vector, j, v);
    }
}
