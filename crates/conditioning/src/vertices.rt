//! The vertices that the pass makes again, under the guards of cases. `pass` calls it.
ghost use Rattle.std.specs.Prelude.{◌≡◌, IfOk};
ghost use Rattle.algo_tree.specs.declared.vertex.Vertex.{out-Vertex};
ghost use Rattle.algo_tree.specs.View.{kind_view, label_view, view, vertices_view};
ghost use Rattle.flat_laws.specs.Guarded.{graph_under, operation_under};

use crate::conditions::{graph_inputs, guards_under, shift_sources};
use algo_tree::{Guard, Kind, Part, Source, Vertex, copy_part, share_kind};
use std::alloc::Global;
use syn_base::{Items, OutOfMemory, Shared};

/// What a vertex keeps under guards.
#[derive(Drop)]
struct Kept {
    part: Part,
    definition: Shared<u8>,
    outs: Shared<u32>,
    names: Shared<Items<u8>>,
}

/// What a vertex keeps, its part copied and its lists shared.
fn kept_of(alloc: Global, vertex: &Vertex) -> Result<Kept, OutOfMemory>
    ensures { IfOk result (λ kept. kept ≡ record {
      part = (out-Vertex vertex.now).part;
      definition = (out-Vertex vertex.now).definition;
      outs = (out-Vertex vertex.now).outs;
      names = (out-Vertex vertex.now).names;
    }) }
{
    let definition = vertex.definition.share()?;
    let outs = vertex.outs.share()?;
    let names = vertex.names.share()?;
    let part = copy_part(alloc, &vertex.part)?;
    Ok(Kept {
        part,
        definition,
        outs,
        names,
    })
}

/// An operation under these guards, in a level that has `before` further inputs.
pub fn as_operation(
    alloc: Global,
    guards: &Shared<Guard>,
    before: u32,
    vertex: &Vertex,
) -> Result<Vertex, OutOfMemory>
    ensures { IfOk result (λ u. view u ≡ operation_under guards.now before
        (label_view (out-Vertex vertex.now)) (kind_view (out-Vertex vertex.now).kind)) }
{
    let ins = shift_sources(alloc, before, &vertex.ins)?;
    let guards = guards_under(alloc, guards, before, vertex.guards.as_slice())?;
    let kept = kept_of(alloc, vertex)?;
    let kind = share_kind(&vertex.kind)?;
    Ok(Vertex {
        part: kept.part,
        definition: kept.definition,
        ins,
        guards,
        outs: kept.outs,
        names: kept.names,
        kind,
        inner: Vec::new(alloc),
    })
}

/// A graph under these guards, with these sources of its outputs and these vertices inside, in a level
/// that has `before` further inputs.
pub fn as_graph(
    alloc: Global,
    guards: &Shared<Guard>,
    before: u32,
    vertex: &Vertex,
    outputs: Shared<Source>,
    inner: Vec<Vertex>,
) -> Result<Vertex, OutOfMemory>
    ensures { IfOk result (λ u. view u ≡ graph_under guards.now before
        (label_view (out-Vertex vertex.now)) outputs (vertices_view inner.items)) }
{
    let ins = graph_inputs(alloc, guards.as_slice(), before, &vertex.ins)?;
    let guards = vertex.guards.emptied(alloc)?;
    let kept = kept_of(alloc, vertex)?;
    Ok(Vertex {
        part: kept.part,
        definition: kept.definition,
        ins,
        guards,
        outs: kept.outs,
        names: kept.names,
        kind: Kind::Graph(outputs),
        inner,
    })
}
