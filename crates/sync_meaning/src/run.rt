//! The run of a flat graph over rows of its sensors: `run_flat`.
ghost use Rattle.std.specs.Prelude.{◌≡◌, ◌++◌, [], length, IfOk, OnOk};
ghost use Rattle.syn_base.specs.Rows.{AreCut};
ghost use Rattle.algo_tree.specs.Level.{all_joined};
ghost use Rattle.flat_graph.specs.Graph.{lens_of};
ghost use Rattle.flat_graph.specs.Laws.{sensor_lens};
ghost use Rattle.flat_graph.specs.Meaning.{taken, taken_by, initial_cells, inputs};
ghost use Rattle.sync_meaning.specs.Order.{IsOrder};
ghost use Rattle.sync_meaning.specs.Store.{value_at, delay_cells};
ghost use Rattle.sync_meaning.specs.Reaction.{FitsStore, kept_in};
ghost use Rattle.sync_meaning.specs.Ran.{taken_len, taken_lens, ran};
ghost use Rattle.syn_base.specs.Vectors.{vector_at};

use crate::layout::{Store, new_store, push_lens};
use crate::order::find_order;
use crate::reaction::{fire_all, keep_all};
use crate::values::value_of;
use flat_graph::{Flat, Ins, Kind, Vertex};
use std::alloc::Global;
use syn_base::{ActRows, OutOfMemory, SensorRows};

/// Appends the length of what an operation takes, where it is an actuator.
fn push_taken(vertices: &[Vertex], vertex: &Vertex, lens: &mut Vec<u32>) -> Result<(), OutOfMemory>
    ensures { OnOk result (lens.new.items ≡ lens.old.items ++ taken_len vertices.now vertex.now vertex.now.kind) }
{
    match &vertex.kind {
        Kind::Actuator(_) => push_lens(vertices, vertex.ins.as_slice(), lens),
        _ => Ok(()),
    }
}

/// The lengths of what the actuators take.
fn taken_lens(alloc: Global, vertices: &[Vertex]) -> Result<Vec<u32>, OutOfMemory>
    ensures { IfOk result (λ lens. lens.items ≡ taken_lens vertices.now vertices.now) }
{
    let mut lens = Vec::new(alloc);
    for vertex in vertices {
        push_taken(vertices, vertex, &mut lens)?;
    }
    Ok(lens)
}

/// Appends the value of an actuator's input, empty where it has none.
fn append_input(vertex: &Vertex, table: &[Ins], row: &mut Vec<i64>) -> Result<(), OutOfMemory>
    ensures { OnOk result (row.new.items ≡ row.old.items ++ vector_at (inputs (value_at table.now) vertex.now) 0) }
{
    if let Some(source) = vertex.ins.as_slice().first() {
        row.extend_from_slice(value_of(table, *source))?;
    }
    Ok(())
}

/// Appends what an operation takes, where it is an actuator.
fn append_taken(vertex: &Vertex, table: &[Ins], row: &mut Vec<i64>) -> Result<(), OutOfMemory>
    ensures { OnOk result (row.new.items ≡ row.old.items ++
        all_joined (taken_by (value_at table.now) vertex.now vertex.now.kind)) }
{
    match &vertex.kind {
        Kind::Actuator(_) => append_input(vertex, table, row),
        _ => Ok(()),
    }
}

/// What the actuators take, one after another.
fn taken_row(alloc: Global, vertices: &[Vertex], table: &[Ins]) -> Result<Vec<i64>, OutOfMemory>
    ensures { IfOk result (λ row. row.items ≡ all_joined (taken (value_at table.now) vertices.now)) }
{
    let mut row = Vec::new(alloc);
    for vertex in vertices {
        append_taken(vertex, table, &mut row)?;
    }
    Ok(row)
}

/// Adds what the actuators take in each reaction to a table without rows, where the store is as before
/// the first reaction.
fn add_reactions(
    alloc: Global,
    flat: &Flat,
    order: &[u32],
    rows: &SensorRows,
    store: &mut Store,
    taken: &mut ActRows,
) -> Result<(), OutOfMemory>
    requires order { IsOrder flat.now.vertices order.now }
    requires lens { rows.now.lens ≡ sensor_lens flat.now.vertices }
    requires fits { FitsStore flat.now store.old }
    requires first { delay_cells flat.now.vertices (kept_in store.old) ≡ initial_cells flat.now.vertices }
    requires none { taken.old ≡ record { lens = taken_lens flat.now.vertices flat.now.vertices; reactions = [] } }
    ensures { OnOk result (taken.new ≡ ran flat.now rows.now) }
{
    rows.are_cut();
    let vertices = flat.vertices();
    for k in 0..rows.count() {
        fire_all(flat, order, rows, k, store);
        let row = taken_row(alloc, vertices, &store.table)?;
        taken.push(&row)?;
        keep_all(flat, store);
    }
    Ok(())
}

/// What the actuators of a flat graph take in each reaction over these rows of its sensors, from the
/// initial values of its delays on. What is laid out is in proportion to the operations with their inputs
/// and outputs; so is the time of a reaction, in which an operation with a guard that does not hold costs
/// its guards and its outputs alone. After the first reaction it takes memory for the rows alone.
pub fn run_flat(alloc: Global, flat: &Flat, rows: &SensorRows) -> Result<ActRows, OutOfMemory>
    requires { rows.now.lens ≡ sensor_lens flat.now.vertices }
    ensures { IfOk result (λ taken. taken ≡ ran flat.now rows.now) }
{
    let vertices = flat.vertices();
    let order = find_order(alloc, vertices)?;
    let lens = taken_lens(alloc, vertices)?;
    let mut taken = ActRows::new(alloc, &lens)?;
    let mut store = new_store(alloc, flat)?;
    add_reactions(alloc, flat, &order, rows, &mut store, &mut taken)?;
    Ok(taken)
}
