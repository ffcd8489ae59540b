//! What sequences have of their own: their registers, and the cells, rows and desks of their operations.
ghost use Rattle.std.specs.Prelude.{◌≡◌, ℕ, ◌<◌, true, false, length, map, replicate, slice_index_or, IfOk};
ghost use Rattle.semaphore_core.specs.Job.{zero_rows};
ghost use Rattle.semaphore_core.specs.AtOpening.{AreAtOpening};
ghost use Rattle.operation_desks.specs.RowLens.{lens_for};
ghost use Rattle.semaphore_core.specs.Held.{AreReady, IsLaid, LoadIsLaid, StoreIsLaid};
ghost use Rattle.operation_desks.specs.Rooms.{top_load, top_store};
ghost use Rattle.semaphore_core.specs.Parts.{with_load, with_store, value_stored};
ghost use Rattle.syn_base.specs.Vectors.{zeros};
ghost use Rattle.executive_program.specs.FlatLaws.{actuator_lens};

use crate::job::Job;
use crate::operations::Operations;
use executive_program::{OnLoad, OnStore, SeqSteps};
use operation_desks::{Registers, all_registers};
use std::alloc::Global;
use std::marker::Model;
use syn_base::{ActRows, OutOfMemory};

/// What the sequences of a state or of a driver have of their own: the registers of each, and the cells, rows
/// and desks of the operations. A load or a store of a sequence changes the registers of that sequence alone.
#[derive(Drop)]
pub struct OwnParts {
    registers: Vec<Registers>,
    operations: Operations,
}

impl Model for OwnParts {
    ghost use Rattle.std.specs.Prelude.{map};
    ghost use Rattle.semaphore_core.specs.Parts.{Parts};

    ghost Value = { Parts };

    ghost view = { λ s. record {
      registers = map (λ r. r.values) s.registers.items;
      rooms = map (λ r. r.room) s.registers.items;
      kept = s.operations;
    } };
}

impl OwnParts {
    /// What sequences with these micro-steps have before any is made, with the rows of all operations.
    pub fn new(alloc: Global, job: &Job, steps: &[SeqSteps]) -> Result<OwnParts, OutOfMemory>
        ensures opening { IfOk result (λ p. AreAtOpening job.now steps.now p) }
        ensures lens { IfOk result (λ p. p.kept.lens
            ≡ actuator_lens job.now.graph job.now.graph.vertices) }
        ensures rows { IfOk result (λ p. p.kept.rows ≡ zero_rows job.now) }
        ensures laid_out { IfOk result (λ p. (v : ℕ) → IsLaid job.now p.kept.lens p.kept.desks v) }
    {
        Ok(OwnParts {
            registers: all_registers(alloc, job.flat(), steps)?,
            operations: Operations::new(alloc, job)?,
        })
    }

    /// The same with rows and desks laid out for some operations alone: `mine` says which, by their number.
    /// Only these may be computed then.
    pub fn for_some(
        alloc: Global,
        job: &Job,
        steps: &[SeqSteps],
        mine: &[bool],
    ) -> Result<OwnParts, OutOfMemory>
        ensures opening { IfOk result (λ p. AreAtOpening job.now steps.now p) }
        ensures lens { IfOk result (λ p. p.kept.lens
            ≡ lens_for job.now.graph (λ v. slice_index_or mine.now v false) 0 job.now.graph.vertices) }
        ensures rows { IfOk result (λ p. p.kept.rows
            ≡ replicate (length job.now.sensors) (map zeros p.kept.lens)) }
        ensures laid_out { IfOk result (λ p. (v : ℕ)
            → slice_index_or mine.now v false ≡ true → IsLaid job.now p.kept.lens p.kept.desks v) }
    {
        Ok(OwnParts {
            registers: all_registers(alloc, job.flat(), steps)?,
            operations: Operations::for_some(alloc, job, mine)?,
        })
    }

    /// The rows of the actuators. It takes no memory.
    pub fn rows(&self) -> &ActRows
        ensures { result.now ≡ record { lens = self.now.kept.lens; reactions = self.now.kept.rows } }
    {
        self.operations.rows()
    }

    /// The cells of the delays and the rows of the actuators, handed out. It takes no memory.
    pub fn into_parts(self) -> (Vec<Vec<i64>>, ActRows)
        ensures cells { map (λ c. c.items) result.0.items ≡ self.kept.cells }
        ensures rows { result.1 ≡ record { lens = self.kept.lens; reactions = self.kept.rows } }
    {
        self.operations.into_parts()
    }

    /// What a load of a sequence does with the element. It takes no memory.
    pub fn absorb(&mut self, job: &Job, seq: usize, reaction: u64, then: OnLoad, value: i64)
        requires ready { AreReady job.now self.old.kept }
        requires laid { LoadIsLaid job.now self.old.kept.lens self.old.kept.desks then }
        requires reaction { reaction < length job.now.sensors }
        requires there { seq < length self.old.rooms }
        requires room { top_load job.now.graph then < slice_index_or self.old.rooms seq 0 }
        ensures { self.new ≡ with_load job.now self.old seq reaction then value }
    {
        let registers = &mut self.registers[seq];
        self.operations
            .absorb(job, reaction, then, value, registers);
    }

    /// What a store of a sequence stores; it leaves what is there after that. It takes no memory.
    pub fn emit(&mut self, job: &Job, seq: usize, reaction: u64, what: OnStore) -> i64
        requires ready { AreReady job.now self.old.kept }
        requires laid { StoreIsLaid job.now self.old.kept.lens self.old.kept.desks what }
        requires reaction { reaction < length job.now.sensors }
        requires there { seq < length self.old.rooms }
        requires room { top_store job.now.graph what < slice_index_or self.old.rooms seq 0 }
        ensures value { result ≡ value_stored job.now self.old seq reaction what }
        ensures own { self.new ≡ with_store job.now self.old seq reaction what }
    {
        let registers = &mut self.registers[seq];
        self.operations.emit(job, reaction, what, registers)
    }
}
