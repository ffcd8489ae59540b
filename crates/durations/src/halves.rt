//! The get halves of set halves, a column of the table that `rows` makes.
ghost use Rattle.std.specs.Prelude.{◌≡◌, IfOk, map};
ghost use Rattle.durations.specs.Table.{get_half_of};

use flat_graph::{Kind, Vertex};
use std::alloc::Global;
use syn_base::OutOfMemory;

/// For each operation its get half, where it is a set half.
pub fn halves(alloc: Global, vertices: &[Vertex]) -> Result<Vec<Option<u32>>, OutOfMemory>
    ensures { IfOk result (λ halves. halves.items ≡ map get_half_of vertices.now) }
{
    let mut halves = Vec::with_capacity(alloc, vertices.len())?;
    for vertex in vertices {
        halves.push(get_half(vertex))?;
    }
    Ok(halves)
}

/// The get half of an operation that is a set half.
fn get_half(vertex: &Vertex) -> Option<u32>
    ensures { result ≡ get_half_of vertex.now }
{
    match vertex.kind {
        Kind::Set => vertex.twin,
        _ => None,
    }
}
