//! The code of a flat graph.
ghost use Rattle.std.specs.Prelude.{◌≡◌, ◌≤◌, IfOk};
ghost use Rattle.graph_code.specs.Compiled.{AreOperations, IsCodeOf};
ghost use Rattle.graph_code.specs.Places.{starts_from, width_of};

use crate::operation::{Operation, Sizes, compile_operation};
use crate::places::find_places;
use flat_graph::Flat;
use std::alloc::Global;
use syn_base::OutOfMemory;

/// The code of each operation of a flat graph, and how many words a store has for it.
#[derive(Drop)]
pub struct GraphCode {
    pub operations: Vec<Operation>,
    pub room: usize,
}

impl GraphCode {
    /// The code of a flat graph. It takes memory in proportion to the operations with their inputs and
    /// expressions.
    pub fn new(alloc: Global, flat: &Flat) -> Result<GraphCode, OutOfMemory>
        ensures { IfOk result (IsCodeOf flat.now) }
    {
        let places = find_places(alloc, flat.vertices())?;
        let mut sizes = Sizes {
            values: places.width,
            all: places.width,
        };
        let operations = compile_all(alloc, flat, &places.starts, &mut sizes)?;
        Ok(GraphCode {
            operations,
            room: sizes.all,
        })
    }
}

/// The code of each operation, in order.
fn compile_all(
    alloc: Global,
    flat: &Flat,
    starts: &[usize],
    sizes: &mut Sizes,
) -> Result<Vec<Operation>, OutOfMemory>
    requires starts { starts.now ≡ starts_from 0 flat.now.vertices }
    requires values { sizes.old.values ≡ width_of flat.now.vertices }
    ensures operations { IfOk result (λ os. AreOperations flat.now sizes.new.all os.items) }
    ensures room { sizes.old.all ≤ sizes.new.all }
{
    let mut operations = Vec::with_capacity(alloc, starts.len())?;
    for v in 0..starts.len() {
        operations.push(compile_operation(alloc, flat, v, starts, sizes)?)?;
    }
    Ok(operations)
}
