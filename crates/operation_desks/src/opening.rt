//! Cells and rows as they are before a run: the delays' initial values, and zeros for all that actuators take.
ghost use Rattle.std.specs.Prelude.{◌≡◌, ◌+◌, ◌*◌, ◌<◌, ◌++◌, map, replicate, IfOk, OnOk, slice_index_or, cond, false};
ghost use Rattle.executive_program.specs.Graph.{lens_of};
ghost use Rattle.executive_program.specs.Meaning.{initial_cell, initial_cells};
ghost use Rattle.executive_program.specs.FlatLaws.{sensor_len, sensor_lens, actuator_lens, actuator_len};
ghost use Rattle.operation_desks.specs.RowLens.{lens_for};
ghost use Rattle.syn_base.specs.Vectors.{zeros};

use crate::rooms::{addressable, sum_of};
use executive_program::{Flat, Kind, Source, Vertex, len_of};
use std::alloc::Global;
use syn_base::{ActRows, Items, OutOfMemory, len_at};

/// This many zeros.
pub fn zeros(alloc: Global, len: usize) -> Result<Items<i64>, OutOfMemory>
    ensures { IfOk result (λ s. s ≡ zeros len) }
{
    Ok(Items::new(vec![in alloc; 0; len]?))
}

/// A copy of these lists.
pub fn copy_of(alloc: Global, lists: &[Items<i64>]) -> Result<Vec<Vec<i64>>, OutOfMemory>
    ensures { IfOk result (λ s. map (λ c. c.items) s.items ≡ lists.now) }
{
    let mut all = Vec::new(alloc);
    for list in lists {
        all.push(Vec::from_slice(alloc, list.as_slice())?)?;
    }
    Ok(all)
}

/// Appends the initial value of a delay, where the operation is its get half.
fn push_initial(alloc: Global, kind: &Kind, all: &mut Vec<Items<i64>>) -> Result<(), OutOfMemory>
    ensures { OnOk result (all.new.items ≡ all.old.items ++ initial_cell kind.now) }
{
    match kind {
        Kind::Get(z) => all.push(Items::new(Vec::from_slice(alloc, z.as_slice())?))?,
        _ => {}
    }
    Ok(())
}

/// The initial values of the delays.
pub fn opening_of(alloc: Global, flat: &Flat) -> Result<Items<Items<i64>>, OutOfMemory>
    ensures { IfOk result (λ s. s ≡ initial_cells flat.now.vertices) }
{
    let mut all = Vec::new(alloc);
    for x in flat.vertices() {
        push_initial(alloc, &x.kind, &mut all)?;
    }
    Ok(Items::new(all))
}

/// Appends the lengths of some sources.
pub fn push_lens(flat: &Flat, sources: &[Source], lens: &mut Vec<u32>) -> Result<(), OutOfMemory>
    ensures { OnOk result (lens.new.items ≡ lens.old.items ++ lens_of flat.now.vertices sources.now) }
{
    for source in sources {
        lens.push(len_of(flat.vertices(), *source))?;
    }
    Ok(())
}

/// Appends the length of the vector that an operation takes, where it is an actuator.
fn push_actuator(flat: &Flat, x: &Vertex, lens: &mut Vec<u32>) -> Result<(), OutOfMemory>
    ensures { OnOk result (lens.new.items ≡ lens.old.items ++ actuator_len flat.now x.now x.now.kind) }
{
    match &x.kind {
        Kind::Actuator(_) => push_lens(flat, x.ins.as_slice(), lens),
        _ => Ok(()),
    }
}

/// The lengths of the vectors that the actuators take, in order.
pub fn actuator_lens(alloc: Global, flat: &Flat) -> Result<Items<u32>, OutOfMemory>
    ensures { IfOk result (λ s. s ≡ actuator_lens flat.now flat.now.vertices) }
{
    let mut lens = Vec::new(alloc);
    for x in flat.vertices() {
        push_actuator(flat, x, &mut lens)?;
    }
    Ok(Items::new(lens))
}

/// Appends this many lengths of 0.
fn push_empty(count: usize, lens: &mut Vec<u32>) -> Result<(), OutOfMemory>
    ensures { OnOk result (lens.new.items ≡ lens.old.items ++ replicate count 0) }
{
    for _ in 0..count {
        lens.push(0)?;
    }
    Ok(())
}

/// Appends the lengths of some sources, or as many lengths of 0.
fn push_lens_if(
    flat: &Flat,
    sources: &[Source],
    mine: bool,
    lens: &mut Vec<u32>,
) -> Result<(), OutOfMemory>
    ensures { OnOk result (lens.new.items ≡ lens.old.items ++
        map (λ l. cond mine l 0) (lens_of flat.now.vertices sources.now)) }
{
    if mine {
        push_lens(flat, sources, lens)
    } else {
        push_empty(sources.len(), lens)
    }
}

/// Appends the length of the row of an operation, where it is an actuator: 0 where its rows are not laid out.
fn push_row_len(flat: &Flat, x: &Vertex, mine: bool, lens: &mut Vec<u32>) -> Result<(), OutOfMemory>
    ensures { OnOk result (lens.new.items ≡ lens.old.items ++
        map (λ l. cond mine l 0) (actuator_len flat.now x.now x.now.kind)) }
{
    match &x.kind {
        Kind::Actuator(_) => push_lens_if(flat, x.ins.as_slice(), mine, lens),
        _ => Ok(()),
    }
}

/// Whether the operation of this number is one of those that something is laid out for.
pub fn is_mine(mine: &[bool], vertex: usize) -> bool
    ensures { result ≡ slice_index_or mine.now vertex false }
{
    if vertex < mine.len() {
        mine[vertex]
    } else {
        false
    }
}

/// The lengths of the actuators' rows where they are laid out for these operations alone.
pub fn row_lens(alloc: Global, flat: &Flat, mine: &[bool]) -> Result<Items<u32>, OutOfMemory>
    ensures { IfOk result (λ s. s ≡ lens_for flat.now (λ v. slice_index_or mine.now v false) 0 flat.now.vertices) }
{
    let mut lens = Vec::new(alloc);
    let mut number = 0;
    for x in flat.vertices() {
        push_row_len(flat, x, is_mine(mine, number), &mut lens)?;
        number += 1;
    }
    Ok(Items::new(lens))
}

/// Appends the length of the vector that an operation gives, where it is a sensor.
fn push_sensor(x: &Vertex, lens: &mut Vec<u32>) -> Result<(), OutOfMemory>
    ensures { OnOk result (lens.new.items ≡ lens.old.items ++ sensor_len x.now.kind x.now.outs) }
{
    match &x.kind {
        Kind::Sensor(_) => Ok(lens.push(len_at(x.outs.as_slice(), 0))?),
        _ => Ok(()),
    }
}

/// The lengths of the vectors that the sensors give, in order: those of the rows that a job asks for.
pub fn sensor_lens(alloc: Global, flat: &Flat) -> Result<Items<u32>, OutOfMemory>
    ensures { IfOk result (λ s. s ≡ sensor_lens flat.now.vertices) }
{
    let mut lens = Vec::new(alloc);
    for x in flat.vertices() {
        push_sensor(x, &mut lens)?;
    }
    Ok(Items::new(lens))
}

/// Rows of zeros: vectors of these lengths in each of this many reactions. Where no memory can hold a row, it
/// returns want of memory.
pub fn zero_rows(alloc: Global, lens: &[u32], reactions: usize) -> Result<ActRows, OutOfMemory>
    ensures { IfOk result (λ s. s ≡ record { lens = lens.now; reactions = replicate reactions (map zeros lens.now) }) }
{
    let row = zeros(alloc, addressable(sum_of(lens))?)?;
    let mut rows = ActRows::new(alloc, lens)?;
    for _ in 0..reactions {
        rows.push(row.as_slice())?;
    }
    Ok(rows)
}
