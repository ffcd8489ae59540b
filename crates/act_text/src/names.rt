//! The names of the actuators of the main graph in declared order, with which lines begin.
ghost use Rattle.std.specs.Prelude.{◌≡◌, map, IfOk};
ghost use Rattle.algo_tree.specs.View.{vertices_view};
ghost use Rattle.act_text.specs.Names.{actuator_names, actuator_names_in};

use algo_tree::{Kind, Tree, Vertex};
use std::alloc::Global;
use syn_base::OutOfMemory;

/// The names of the algorithm's actuators.
pub fn actuators_of(alloc: Global, tree: &Tree) -> Result<Vec<&[u8]>, OutOfMemory>
    ensures { IfOk result (λ v. map (λ s. s.now) v.items ≡ actuator_names tree.now) }
{
    actuators_in(alloc, tree.main().inner.as_slice())
}

/// The names of the actuators among these vertices.
fn actuators_in(alloc: Global, vertices: &[Vertex]) -> Result<Vec<&[u8]>, OutOfMemory>
    ensures { IfOk result (λ v. map (λ s. s.now) v.items ≡ actuator_names_in (vertices_view vertices.now)) }
{
    let mut names = Vec::new(alloc);
    for vertex in vertices {
        if let Kind::Actuator(_) = vertex.kind {
            names.push(vertex.part.name())?;
        }
    }
    Ok(names)
}
