//! Vertices made of others, with which they share their lists: for passes.
ghost use Rattle.std.specs.Prelude.{◌≡◌, IfOk, map};
ghost use Rattle.algo_tree.specs.declared.vertex.Vertex.{out-Vertex};
ghost use Rattle.algo_tree.specs.Tree.{vertex as plain_vertex};
ghost use Rattle.algo_tree.specs.View.{kind_view, label_view, view, vertices_view};

use crate::label_copies::copy_part;
use crate::vertex::{Kind, Vertex};
use level_meaning::{Guard, Part, Source};
use std::alloc::Global;
use syn_base::{Items, OutOfMemory, Shared};

/// The same kind. It takes no memory.
pub fn share_kind(kind: &Kind) -> Result<Kind, OutOfMemory>
    ensures { IfOk result (λ same. kind_view same ≡ kind_view kind.now) }
{
    Ok(match kind {
        Kind::Sensor(number) => Kind::Sensor(*number),
        Kind::Actuator(number) => Kind::Actuator(*number),
        Kind::Constant(values) => Kind::Constant(values.share()?),
        Kind::Delay(groups) => Kind::Delay(groups.share()?),
        Kind::Function(body) => Kind::Function(body.share()?),
        Kind::Explode => Kind::Explode,
        Kind::Implode => Kind::Implode,
        Kind::Merge(values) => Kind::Merge(values.share()?),
        Kind::Graph(sources) => Kind::Graph(sources.share()?),
        Kind::Switch(values, names) => Kind::Switch(values.share()?, names.share()?),
        Kind::Repeat(count, feeds, gives) => Kind::Repeat(*count, feeds.share()?, gives.share()?),
    })
}

/// What is said of a vertex beside its kind.
#[derive(Drop)]
struct Label {
    part: Part,
    definition: Shared<u8>,
    ins: Shared<Source>,
    guards: Shared<Guard>,
    outs: Shared<u32>,
    names: Shared<Items<u8>>,
}

/// What is said of this vertex beside its kind, its part copied and its lists shared.
fn share_label(alloc: Global, vertex: &Vertex) -> Result<Label, OutOfMemory>
    ensures { IfOk result (λ b. b ≡ record {
      part = (out-Vertex vertex.now).part;
      definition = (out-Vertex vertex.now).definition;
      ins = (out-Vertex vertex.now).ins;
      guards = (out-Vertex vertex.now).guards;
      outs = (out-Vertex vertex.now).outs;
      names = (out-Vertex vertex.now).names;
    }) }
{
    let definition = vertex.definition.share()?;
    let outs = vertex.outs.share()?;
    let names = vertex.names.share()?;
    let ins = vertex.ins.share()?;
    let guards = vertex.guards.share()?;
    let part = copy_part(alloc, &vertex.part)?;
    Ok(Label {
        part,
        definition,
        ins,
        guards,
        outs,
        names,
    })
}

/// The vertex with another kind, and other vertices inside.
pub fn rebuild(
    alloc: Global,
    vertex: &Vertex,
    kind: Kind,
    inner: Vec<Vertex>,
) -> Result<Vertex, OutOfMemory>
    ensures { IfOk result (λ u. view u ≡ plain_vertex
        (record (label_view (out-Vertex vertex.now)) { kind = kind_view kind })
        (vertices_view inner.items)) }
{
    let label = share_label(alloc, vertex)?;
    Ok(Vertex {
        part: label.part,
        definition: label.definition,
        ins: label.ins,
        guards: label.guards,
        outs: label.outs,
        names: label.names,
        kind,
        inner,
    })
}

/// The vertex with other vertices inside.
pub fn with_inside(
    alloc: Global,
    vertex: &Vertex,
    inner: Vec<Vertex>,
) -> Result<Vertex, OutOfMemory>
    ensures { IfOk result (λ u. view u ≡ plain_vertex (label_view (out-Vertex vertex.now))
        (vertices_view inner.items)) }
{
    let kind = share_kind(&vertex.kind)?;
    rebuild(alloc, vertex, kind, inner)
}

/// The same vertex, with all that is inside it. It takes memory for each vertex, whatever its ports.
#[cycle(share)]
pub fn share_vertex(alloc: Global, vertex: &Vertex) -> Result<Vertex, OutOfMemory>
    ensures { IfOk result (λ u. view u ≡ view vertex.now) }
{
    let inner = share_each(alloc, &vertex.inner)?;
    with_inside(alloc, vertex, inner)
}

/// The same vertices.
#[cycle(share)]
pub fn share_each(alloc: Global, vertices: &Vec<Vertex>) -> Result<Vec<Vertex>, OutOfMemory>
    ensures { IfOk result (λ us. map view us.items ≡ map view vertices.now.items) }
{
    let mut all = Vec::with_capacity(alloc, vertices.len())?;
    for vertex in vertices {
        all.push(share_vertex(alloc, vertex)?)?;
    }
    Ok(all)
}
