//! The store of a run, as it is laid out before the first reaction.
ghost use Rattle.std.specs.Prelude.{◌≡◌, ◌++◌, length, map, replicate, IfOk, OnOk};
ghost use Rattle.flat_graph.specs.Graph.{lens_of};
ghost use Rattle.flat_graph.specs.Meaning.{initial_cells};
ghost use Rattle.sync_meaning.specs.Store.{lengths, lens_read, first_kept, Fits, delay_cells};

use flat_graph::{Flat, Guard, Ins, Kind, Source, Vertex, len_of};
use std::alloc::Global;
use syn_base::OutOfMemory;

/// What the operations read, give and keep, by their numbers: laid out once, and written over in each
/// reaction.
#[derive(Drop)]
pub struct Store {
    /// The values of an operation's inputs, and then of its guards' sources.
    pub reads: Vec<Ins>,
    /// The outputs of each operation.
    pub table: Vec<Ins>,
    /// The cell of a delay beside its get half, and nothing beside any other operation.
    pub cells: Vec<Vec<i64>>,
}

/// Appends the lengths of some sources.
pub fn push_lens(
    vertices: &[Vertex],
    sources: &[Source],
    lens: &mut Vec<u32>,
) -> Result<(), OutOfMemory>
    ensures { OnOk result (lens.new.items ≡ lens.old.items ++ lens_of vertices.now sources.now) }
{
    for source in sources {
        lens.push(len_of(vertices, *source))?;
    }
    Ok(())
}

/// Appends a length of 1 for each guard.
fn push_ones(guards: &[Guard], lens: &mut Vec<u32>) -> Result<(), OutOfMemory>
    ensures { OnOk result (lens.new.items ≡ lens.old.items ++ replicate (length guards.now) 1) }
{
    for _guard in 0..guards.len() {
        lens.push(1)?;
    }
    Ok(())
}

/// Places for what an operation reads.
fn places_read(alloc: Global, vertices: &[Vertex], vertex: &Vertex) -> Result<Ins, OutOfMemory>
    ensures { IfOk result (λ read. lengths read ≡ lens_read vertices.now vertex.now) }
{
    let mut lens = Vec::new(alloc);
    push_lens(vertices, vertex.ins.as_slice(), &mut lens)?;
    push_ones(vertex.guards.as_slice(), &mut lens)?;
    Ok(Ins::new(alloc, &lens)?)
}

/// Places for what each operation reads.
fn all_reads(alloc: Global, vertices: &[Vertex]) -> Result<Vec<Ins>, OutOfMemory>
    ensures { IfOk result (λ reads. map lengths reads.items ≡ map (lens_read vertices.now) vertices.now) }
{
    let mut reads = Vec::new(alloc);
    for vertex in vertices {
        reads.push(places_read(alloc, vertices, vertex)?)?;
    }
    Ok(reads)
}

/// Places for the outputs of each operation.
fn all_outputs(alloc: Global, vertices: &[Vertex]) -> Result<Vec<Ins>, OutOfMemory>
    ensures { IfOk result (λ table. map lengths table.items ≡ map (λ x. x.outs) vertices.now) }
{
    let mut table = Vec::new(alloc);
    for vertex in vertices {
        table.push(Ins::new(alloc, vertex.outs.as_slice())?)?;
    }
    Ok(table)
}

/// What an operation keeps at first.
fn first_kept(alloc: Global, kind: &Kind) -> Result<Vec<i64>, OutOfMemory>
    ensures { IfOk result (λ cell. cell.items ≡ first_kept kind.now) }
{
    match kind {
        Kind::Get(values) => Ok(Vec::from_slice(alloc, values.as_slice())?),
        _ => Ok(Vec::new(alloc)),
    }
}

/// What the operations keep at first.
fn first_cells(alloc: Global, vertices: &[Vertex]) -> Result<Vec<Vec<i64>>, OutOfMemory>
    ensures { IfOk result (λ cells. map (λ c. c.items) cells.items ≡ map (λ x. first_kept x.kind) vertices.now) }
{
    let mut cells = Vec::new(alloc);
    for vertex in vertices {
        cells.push(first_kept(alloc, &vertex.kind)?)?;
    }
    Ok(cells)
}

/// The store of a flat graph before the first reaction.
pub fn new_store(alloc: Global, flat: &Flat) -> Result<Store, OutOfMemory>
    ensures fits { IfOk result (λ s. Fits flat.now s.reads.items s.table.items (map (λ c. c.items) s.cells.items)) }
    ensures first { IfOk result (λ s.
        delay_cells flat.now.vertices (map (λ c. c.items) s.cells.items) ≡ initial_cells flat.now.vertices) }
{
    let vertices = flat.vertices();
    Ok(Store {
        reads: all_reads(alloc, vertices)?,
        table: all_outputs(alloc, vertices)?,
        cells: first_cells(alloc, vertices)?,
    })
}
