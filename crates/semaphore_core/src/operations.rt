//! The operations of a job, computed on their desks: what they keep and take, for `OwnParts`.
ghost use Rattle.std.specs.Prelude.{◌≡◌, ℕ, true, ◌<◌, length, map, slice_get, slice_index_or, Some, None, [], IfOk, false, replicate};
ghost use Rattle.operation_desks.specs.RowLens.{lens_for};
ghost use Rattle.executive_program.specs.declared.Kind.TheVariants.{Actuator, Sensor};
ghost use Rattle.executive_program.specs.Graph.{lens_of};
ghost use Rattle.executive_program.specs.FlatValid.{is_flat};
ghost use Rattle.executive_program.specs.Fire.{fired_at, kept_at, cell_len, seen_len, out_lens, read_lens};
ghost use Rattle.executive_program.specs.FlatLaws.{actuator_lens};
ghost use Rattle.operation_desks.specs.Operation.{cell_at, with_cell, rows_by, HasCell, delay_of};
ghost use Rattle.operation_desks.specs.Desk.{IsDesk, lens_of_desk};
ghost use Rattle.semaphore_core.specs.Job.{zero_rows};
ghost use Rattle.semaphore_core.specs.IsJob.{IsJob};
ghost use Rattle.semaphore_core.specs.Rows.{with_vector, TakesRow};
ghost use Rattle.semaphore_core.specs.Held.{AreReady, IsLaid, LoadIsLaid, StoreIsLaid};
ghost use Rattle.operation_desks.specs.Rooms.{outputs_len, top_load, top_store};
ghost use Rattle.semaphore_core.specs.Parts.{own_of, own_with, computed, computed_by, absorbed, emitted, left, with_values, with_kept};
ghost use Rattle.syn_base.specs.Vectors.{vector_at, zeros};

use crate::job::Job;
use executive_program::{Flat, Kind, OnLoad, OnStore, Vertex};
use operation_desks::{
    Desk, Registers, actuator_lens, copy_of, desks_for, desks_of, row_lens, zero_rows,
};
use std::alloc::Global;
use std::marker::Model;
use syn_base::{ActRows, OutOfMemory};

/// Computes an operation on its desk, with the cell of its delay, if it is a half of one.
fn fire_on(desk: &mut Desk, flat: &Flat, vertex: u32, cells: &mut Vec<Vec<i64>>, seen: &[i64])
    requires there { vertex < length flat.now.vertices }
    requires reads { map length desk.old.read ≡ read_lens flat.now vertex }
    requires gives { map length desk.old.outs ≡ out_lens flat.now vertex }
    requires cell { HasCell (map (λ c. c.items) cells.old.items) desk.old.delay (cell_len flat.now vertex) }
    requires seen { length seen.now ≡ seen_len flat.now vertex }
    ensures outs { desk.new ≡ record desk.old {
      outs = fired_at flat.now vertex
          (cell_at (map (λ c. c.items) cells.old.items) desk.old.delay) seen.now desk.old.read;
    } }
    ensures cells { map (λ c. c.items) cells.new.items ≡
        with_cell (map (λ c. c.items) cells.old.items) desk.old.delay
        (kept_at flat.now vertex (cell_at (map (λ c. c.items) cells.old.items) desk.old.delay)
        desk.old.read) }
{
    match desk.delay() {
        None => desk.fire(flat, vertex, &mut [], seen),
        Some(delay) => {
            let cell = &mut cells[delay as usize];
            desk.fire(flat, vertex, cell.as_mut_slice(), seen);
        }
    }
}

/// Puts a vector in the place of that of an actuator in a reaction. It takes no memory.
pub fn put_row(rows: &mut ActRows, reaction: usize, actuator: usize, vector: &[i64])
    requires reaction { reaction < length rows.old.reactions }
    requires actuator { actuator < length rows.old.lens }
    requires len { length vector.now ≡ slice_index_or rows.old.lens actuator 0 }
    ensures { rows.new ≡ record rows.old { reactions = with_vector rows.old.reactions reaction actuator vector.now } }
{
    // The clause of `vector` is that the vector that stands there has the length of its actuator, so that all of it is
    // replaced.
    let _len = rows.vector(reaction, actuator).len();
    for j in 0..vector.len() {
        rows.set(reaction, actuator, j, vector[j]);
    }
}

/// An actuator takes its input.
fn take_row(rows: &mut ActRows, vertex: &Vertex, reaction: usize, desk: &Desk)
    requires reaction { reaction < length rows.old.reactions }
    requires actuator { TakesRow vertex.now rows.old.lens desk.now.read }
    ensures { rows.new ≡ record rows.old {
      reactions = rows_by vertex.now.kind reaction
          (vector_at desk.now.read 0) rows.old.reactions;
    } }
{
    match &vertex.kind {
        Kind::Actuator(actuator) => put_row(rows, reaction, *actuator as usize, desk.input(0)),
        _ => {}
    }
}

/// Which operation is made, and in which reaction: its number, and what it is.
struct Call<'x> {
    vertex: u32,
    x: &'x Vertex,
    reaction: usize,
}

/// Makes an operation on its desk: it reads the registers, and leaves its outputs in them.
fn operate(
    job: &Job,
    call: Call,
    desk: &mut Desk,
    cells: &mut Vec<Vec<i64>>,
    rows: &mut ActRows,
    registers: &mut Registers,
)
    requires valid { is_flat job.now.graph ≡ true }
    requires there { slice_get job.now.graph.vertices call.vertex ≡ Some call.x.now }
    requires desk { IsDesk job.now.graph call.vertex call.x.now (lens_of_desk desk.old) }
    requires cell { HasCell (map (λ c. c.items) cells.old.items)
        (delay_of job.now.graph call.vertex call.x.now) (cell_len job.now.graph call.vertex) }
    requires sensor { (i : ℕ) → call.x.now.kind ≡ Sensor i →
        (i < length job.now.lens) × (slice_index_or job.now.lens i 0 ≡
        seen_len job.now.graph call.vertex) }
    requires actuator { (a : ℕ) → call.x.now.kind ≡ Actuator a →
        (a < length rows.old.lens) × (slice_index_or rows.old.lens a 0 ≡
        slice_index_or (lens_of job.now.graph.vertices call.x.now.ins) 0 0) }
    requires reaction { (call.reaction < length job.now.sensors) × (call.reaction < length rows.old.reactions) }
    requires room { outputs_len job.now.graph call.vertex < registers.old.room }
    ensures registers { let own = own_with registers.old (map (λ c. c.items) cells.old.items) rows.old in
        registers.new ≡ with_values registers.old
        (computed_by job.now call.entry.vertex call.entry.x.now call.entry.reaction own) }
    ensures cells { let own = own_with registers.old (map (λ c. c.items) cells.old.items) rows.old in
        map (λ c. c.items) cells.new.items ≡
        (computed_by job.now call.entry.vertex call.entry.x.now call.entry.reaction own).cells }
    ensures rows { let own = own_with registers.old (map (λ c. c.items) cells.old.items) rows.old in
        rows.new ≡ record rows.old {
          reactions =
              (computed_by job.now call.entry.vertex call.entry.x.now call.entry.reaction own).rows;
        } }
    ensures desk { lens_of_desk desk.new ≡ lens_of_desk desk.old }
{
    let Call {
        vertex,
        x,
        reaction,
    } = call;
    desk.read(registers);
    fire_on(desk, job.flat(), vertex, cells, job.sensed(x, reaction));
    desk.give(registers);
    take_row(rows, x, reaction, desk);
}

/// The opening cells of a job's delays, and rows of zeros of all its actuators.
pub fn cells_and_rows(alloc: Global, job: &Job) -> Result<(Vec<Vec<i64>>, ActRows), OutOfMemory>
    ensures cells { IfOk result (λ t. map (λ c. c.items) t.0.items ≡ job.now.opening) }
    ensures lens { IfOk result (λ t. t.1.lens ≡ actuator_lens job.now.graph job.now.graph.vertices) }
    ensures rows { IfOk result (λ t. t.1.reactions ≡ zero_rows job.now) }
    ensures job { IsJob job.now }
{
    let cells = copy_of(alloc, job.opening())?;
    let lens = actuator_lens(alloc, job.flat())?;
    let rows = zero_rows(alloc, lens.as_slice(), job.reactions())?;
    Ok((cells, rows))
}

/// The cells of the delays, the rows of the actuators, and by operation its desk, where it is laid out.
#[derive(Drop)]
pub struct Operations {
    cells: Vec<Vec<i64>>,
    rows: ActRows,
    desks: Vec<Option<Desk>>,
}

impl Model for Operations {
    ghost use Rattle.std.specs.Prelude.{map, option_map};
    ghost use Rattle.semaphore_core.specs.Parts.{Kept};
    ghost use Rattle.operation_desks.specs.Desk.{lens_of_desk};

    ghost Value = { Kept };

    ghost view = { λ s. record {
      cells = map (λ c. c.items) s.cells.items;
      rows = s.rows.reactions;
      lens = s.rows.lens;
      desks = map (option_map lens_of_desk) s.desks.items;
    } };
}

impl Operations {
    /// The operations of a job before any is made: the opening cells, rows of zeros, and a desk for each.
    pub fn new(alloc: Global, job: &Job) -> Result<Operations, OutOfMemory>
        ensures cells { IfOk result (λ k. k.cells ≡ job.now.opening) }
        ensures lens { IfOk result (λ k. k.lens ≡ actuator_lens job.now.graph job.now.graph.vertices) }
        ensures rows { IfOk result (λ k. k.rows ≡ zero_rows job.now) }
        ensures ready { IfOk result (λ k. AreReady job.now k) }
        ensures laid_out { IfOk result (λ k. (v : ℕ) → IsLaid job.now k.lens k.desks v) }
    {
        let (cells, rows) = cells_and_rows(alloc, job)?;
        let desks = desks_of(alloc, job.flat())?;
        Ok(Operations { cells, rows, desks })
    }

    /// The operations of a job before any is made, with rows and desks laid out for some of them alone: `mine`
    /// says which, by their number. Only these may be computed then. The cells are those of all.
    pub fn for_some(alloc: Global, job: &Job, mine: &[bool]) -> Result<Operations, OutOfMemory>
        ensures cells { IfOk result (λ k. k.cells ≡ job.now.opening) }
        ensures lens { IfOk result (λ k. k.lens ≡ lens_for job.now.graph
            (λ v. slice_index_or mine.now v false) 0 job.now.graph.vertices) }
        ensures rows { IfOk result (λ k. k.rows ≡ replicate (length job.now.sensors) (map zeros k.lens)) }
        ensures ready { IfOk result (λ k. AreReady job.now k) }
        ensures laid_out { IfOk result (λ k. (v : ℕ) →
            slice_index_or mine.now v false ≡ true → IsLaid job.now k.lens k.desks v) }
    {
        let lens = row_lens(alloc, job.flat(), mine)?;
        Ok(Operations {
            cells: copy_of(alloc, job.opening())?,
            rows: zero_rows(alloc, lens.as_slice(), job.reactions())?,
            desks: desks_for(alloc, job.flat(), mine)?,
        })
    }

    /// The rows of the actuators.
    pub fn rows(&self) -> &ActRows
        ensures { result.now ≡ record { lens = self.now.lens; reactions = self.now.rows } }
    {
        &self.rows
    }

    /// The cells of the delays and the rows of the actuators, handed out. It takes no memory.
    pub fn into_parts(self) -> (Vec<Vec<i64>>, ActRows)
        ensures cells { map (λ c. c.items) result.0.items ≡ self.cells }
        ensures rows { result.1 ≡ record { lens = self.lens; reactions = self.rows } }
    {
        (self.cells, self.rows)
    }

    /// What a load does with an element.
    pub fn absorb(
        &mut self,
        job: &Job,
        reaction: u64,
        then: OnLoad,
        value: i64,
        registers: &mut Registers,
    )
        requires ready { AreReady job.now self.old }
        requires laid { LoadIsLaid job.now self.old.lens self.old.desks then }
        requires reaction { reaction < length job.now.sensors }
        requires room { top_load job.now.graph then < registers.old.room }
        ensures registers { registers.new ≡ with_values registers.old
            (absorbed job.now then reaction (own_of registers.old self.old) value) }
        ensures kept { self.new ≡ with_kept self.old
            (absorbed job.now then reaction (own_of registers.old self.old) value) }
    {
        match then {
            OnLoad::Carry => registers.put(0, value),
            OnLoad::Gather(register) => registers.put(register as usize, value),
            OnLoad::Compute {
                vertex,
                register,
                more,
            } => {
                registers.put(register as usize, value);
                self.compute(job, vertex, reaction, registers);
                registers.keep(more);
            }
        }
    }

    /// What a store writes.
    pub fn emit(
        &mut self,
        job: &Job,
        reaction: u64,
        what: OnStore,
        registers: &mut Registers,
    ) -> i64
        requires ready { AreReady job.now self.old }
        requires laid { StoreIsLaid job.now self.old.lens self.old.desks what }
        requires reaction { reaction < length job.now.sensors }
        requires room { top_store job.now.graph what < registers.old.room }
        ensures value { result ≡ emitted job.now what reaction (own_of registers.old self.old) }
        ensures registers { registers.new ≡ with_values registers.old
            (left job.now what reaction (own_of registers.old self.old)) }
        ensures kept { self.new ≡ with_kept self.old
            (left job.now what reaction (own_of registers.old self.old)) }
    {
        match what {
            OnStore::Carry => {
                let value = registers.get(0);
                registers.clear();
                value
            }
            OnStore::Give { register, more } => {
                let value = registers.get(register as usize);
                registers.keep(more);
                value
            }
            OnStore::Compute { vertex, more } => {
                registers.clear();
                self.compute(job, vertex, reaction, registers);
                let value = registers.get(0);
                registers.keep(more);
                value
            }
        }
    }

    /// Computes an operation on what the registers hold, which then hold its outputs.
    fn compute(&mut self, job: &Job, vertex: u32, reaction: u64, registers: &mut Registers)
        requires ready { AreReady job.now self.old }
        requires laid { IsLaid job.now self.old.lens self.old.desks vertex }
        requires reaction { reaction < length job.now.sensors }
        requires room { outputs_len job.now.graph vertex < registers.old.room }
        ensures registers { registers.new ≡ with_values registers.old
            (computed job.now vertex reaction (own_of registers.old self.old)) }
        ensures kept { self.new ≡ with_kept self.old
            (computed job.now vertex reaction (own_of registers.old self.old)) }
    {
        let vertices = job.flat().vertices();
        if (vertex as usize) < vertices.len() {
            let call = Call {
                vertex,
                x: &vertices[vertex as usize],
                reaction: reaction as usize,
            };
            match &mut self.desks[vertex as usize] {
                Some(desk) => operate(job, call, desk, &mut self.cells, &mut self.rows, registers),
                None => unreachable!(),
            }
        } else {
            registers.clear();
        }
    }
}
