//! The registers of a sequence: what its current instruction has loaded or computed.
ghost use Rattle.std.specs.Prelude.{◌≡◌, ◌+◌, ◌<◌, ◌≤◌, ◌++◌, ◌∷◌, [], take, length, cond, pos, slice_index_or, IfOk, vec_len, map, sum};
ghost use Rattle.executive_program.specs.Level.{all_joined};
ghost use Rattle.operation_desks.specs.Registers.{gathered};

use executive_program::Ins;
use std::alloc::Global;
use std::marker::Model;
use syn_base::OutOfMemory;

/// Registers, of which the first ones are in use.
#[derive(Drop)]
pub struct Registers {
    values: Vec<i64>,
    used: usize,
}

impl Model for Registers {
    ghost use Rattle.std.specs.Prelude.{◌≤◌, take, vec_len};
    ghost use Rattle.operation_desks.specs.RegisterFile.{RegisterFile};

    ghost Value = { RegisterFile };

    ghost view = { λ s. record { values = take s.used s.values.items; room = vec_len s.values } };

    ghost invariant = { λ s. s.used ≤ vec_len s.values };
}

impl Registers {
    /// Room for this many registers, of which none is in use.
    pub fn new(alloc: Global, room: usize) -> Result<Registers, OutOfMemory>
        ensures { IfOk result (λ s. s ≡ record { values = []; room = room }) }
    {
        Ok(Registers {
            values: vec![in alloc; 0; room]?,
            used: 0,
        })
    }

    /// The value of a register, 0 for one that is not in use. It takes no memory.
    pub fn get(&self, at: usize) -> i64
        ensures { result ≡ slice_index_or self.now.values at (pos 0) }
    {
        if at < self.used { self.values[at] } else { 0 }
    }

    /// The value of a register, whose number may be above all that there can be. It takes no memory.
    pub fn get_wide(&self, at: u128) -> i64
        ensures { result ≡ slice_index_or self.now.values at (pos 0) }
    {
        if at < self.used as u128 {
            self.values[at as usize]
        } else {
            0
        }
    }

    /// Puts a value in the register of this number, which is the last one in use then. It takes no
    /// memory.
    pub fn put(&mut self, at: usize, value: i64)
        requires { at < self.old.room }
        ensures { self.new ≡ record self.old { values = gathered self.old.values at value } }
    {
        if at < self.used {
            self.used = at;
        }
        self.values[self.used] = value;
        self.used += 1;
    }

    /// Puts a value in the next register. It takes no memory.
    fn push(&mut self, value: i64)
        requires { length self.old.values < self.old.room }
        ensures { self.new ≡ record self.old { values = self.old.values ++ value ∷ [] } }
    {
        self.values[self.used] = value;
        self.used += 1;
    }

    /// Puts a vector in the next registers. It takes no memory.
    pub fn extend(&mut self, vector: &[i64])
        requires { length self.old.values + length vector.now ≤ self.old.room }
        ensures { self.new ≡ record self.old { values = self.old.values ++ vector.now } }
    {
        for value in vector {
            self.push(*value);
        }
    }

    /// Puts the vectors of all ports in the registers, one after the other. It takes no memory.
    pub fn fill(&mut self, vectors: &Ins)
        requires { sum (map length vectors.now) ≤ self.old.room }
        ensures { self.new ≡ record self.old { values = all_joined vectors.now } }
    {
        self.clear();
        for port in 0..vectors.count() {
            self.extend(vectors.vector(port));
        }
    }

    /// Takes all registers out of use.
    pub fn clear(&mut self)
        ensures { self.new ≡ record self.old { values = [] } }
    {
        self.used = 0;
    }

    /// Takes all registers out of use where no more micro-steps of the instruction follow.
    pub fn keep(&mut self, more: bool)
        ensures { self.new ≡ record self.old { values = cond more self.old.values [] } }
    {
        if !more {
            self.clear();
        }
    }
}
