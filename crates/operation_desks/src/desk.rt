//! The desk of an operation: what it reads and what it gives, in room that was taken before.
ghost use Rattle.std.specs.Prelude.{◌≡◌, ◌+◌, ◌<◌, ◌≤◌, length, map, take, drop, sum, IfOk};
ghost use Rattle.executive_program.specs.Fire.{fired_at, kept_at, cell_len, seen_len, out_lens, read_lens};
ghost use Rattle.executive_program.specs.Level.{all_joined};
ghost use Rattle.operation_desks.specs.Desk.{loaded_in, lens_of_desk};
ghost use Rattle.syn_base.specs.Vectors.{vector_at};

use crate::reading::read_ports;
use crate::registers::Registers;
use executive_program::{Flat, Ins, fire};
use std::alloc::Global;
use std::marker::Model;
use syn_base::OutOfMemory;

/// What an operation reads and gives, in room that was taken before.
#[derive(Drop)]
pub struct Desk {
    read: Ins,
    outs: Ins,
    guards: u32,
    inputs: u32,
    delay: Option<u32>,
}

impl Model for Desk {
    ghost use Rattle.operation_desks.specs.Desk.{DeskData};

    ghost Value = { DeskData };

    ghost view = { λ s. record {
      read = s.read;
      outs = s.outs;
      guards = s.guards;
      inputs = s.inputs;
      delay = s.delay;
    } };
}

impl Desk {
    /// A desk for what has these lengths.
    pub fn new(
        alloc: Global,
        reads: &[u32],
        gives: &[u32],
        guards: u32,
        inputs: u32,
        delay: Option<u32>,
    ) -> Result<Desk, OutOfMemory>
        ensures { IfOk result (λ d. lens_of_desk d ≡
            record {
              reads = reads.now;
              gives = gives.now;
              guards = guards;
              inputs = inputs;
              delay = delay;
            }) }
    {
        Ok(Desk {
            read: Ins::new(alloc, reads)?,
            outs: Ins::new(alloc, gives)?,
            guards,
            inputs,
            delay,
        })
    }

    /// The number of the delay of which the operation is a half.
    pub fn delay(&self) -> Option<u32>
        ensures { result ≡ self.now.delay }
    {
        self.delay
    }

    /// The vector of an input.
    pub fn input(&self, port: usize) -> &[i64]
        requires { port < length self.now.read }
        ensures { result.now ≡ vector_at self.now.read port }
    {
        self.read.vector(port)
    }

    /// Reads the vectors of the operation's sources from the registers.
    pub fn read(&mut self, registers: &Registers)
        requires { self.old.inputs + self.old.guards ≡ length self.old.read }
        ensures conditions { drop self.old.inputs self.new.read ≡
            take self.old.guards (loaded_in self.old registers.now.values) }
        ensures inputs { take self.old.inputs self.new.read ≡
            drop self.old.guards (loaded_in self.old registers.now.values) }
        ensures lens { map length self.new.read ≡ map length self.old.read }
        ensures rest { self.new ≡ record self.old { read = self.new.read } }
    {
        let after = read_ports(&mut self.read, self.inputs, self.guards, registers, 0);
        let _ = read_ports(&mut self.read, 0, self.inputs, registers, after);
    }

    /// Computes the operation on what was read.
    pub fn fire(&mut self, flat: &Flat, vertex: u32, cell: &mut [i64], seen: &[i64])
        requires there { vertex < length flat.now.vertices }
        requires reads { map length self.old.read ≡ read_lens flat.now vertex }
        requires gives { map length self.old.outs ≡ out_lens flat.now vertex }
        requires cell { length cell.old ≡ cell_len flat.now vertex }
        requires seen { length seen.now ≡ seen_len flat.now vertex }
        ensures outs { self.new ≡ record self.old { outs = fired_at flat.now vertex cell.old seen.now self.old.read } }
        ensures cell { cell.new ≡ kept_at flat.now vertex cell.old self.old.read }
    {
        fire(flat, vertex, &self.read, cell, seen, &mut self.outs);
    }

    /// Puts the operation's outputs in the registers.
    pub fn give(&self, registers: &mut Registers)
        requires { sum (map length self.now.outs) ≤ registers.old.room }
        ensures { registers.new ≡ record registers.old { values = all_joined self.now.outs } }
    {
        registers.fill(&self.outs);
    }
}
