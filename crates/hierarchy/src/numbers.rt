//! The numbers of operations: of the first of each vertex of a level. `level` calls it.
ghost use Rattle.std.specs.Prelude.{◌≡◌, ◌+◌, IfOk};
ghost use Rattle.algo_tree.specs.Counted.{operations};
ghost use Rattle.algo_tree.specs.View.{view, vertices_view};
ghost use Rattle.hierarchy.specs.Numbers.{first_numbers as numbers_of};

use algo_tree::{Vertex, count_operations};
use std::alloc::Global;
use syn_base::{OutOfMemory, to_u32};

/// The number after the operations of a vertex, of which the first has this number.
fn number_behind(first: u32, vertex: &Vertex) -> Result<u32, OutOfMemory>
    ensures { IfOk result (λ n. n ≡ first + operations (view vertex.now)) }
{
    let count = to_u32(count_operations(vertex) as usize)?;
    match first.checked_add(count) {
        Some(number) => Ok(number),
        None => Err(OutOfMemory),
    }
}

/// The number of the first operation of each vertex of a level, in order.
pub fn first_numbers(
    alloc: Global,
    first: u32,
    vertices: &[Vertex],
) -> Result<Vec<u32>, OutOfMemory>
    ensures { IfOk result (λ numbers. numbers.items ≡ numbers_of first (vertices_view vertices.now)) }
{
    let mut numbers = Vec::with_capacity(alloc, vertices.len())?;
    let mut next = first;
    for vertex in vertices {
        numbers.push(next)?;
        next = number_behind(next, vertex)?;
    }
    Ok(numbers)
}
