//! The inlining of graphs: from a tree without repetitions and cases to its operations. `pass` calls it.
ghost use Rattle.std.specs.Prelude.{◌≡◌, ◌==◌, ◌+◌, [], ◌∷◌, IfOk, OnOk, length};
ghost use Rattle.algo_tree.specs.Level.{Path};
ghost use Rattle.algo_tree.specs.Order.{IsAcyclic};
ghost use Rattle.algo_tree.specs.declared.vertex.Vertex.{out-Vertex};
ghost use Rattle.algo_tree.specs.Counted.{operations as count, operations_in as count_all};
ghost use Rattle.algo_tree.specs.Valid.{IsTree};
ghost use Rattle.algo_tree.specs.View.{view, vertices_view};
ghost use Rattle.algo_tree.specs.Well.{AllWell, IsWell};
ghost use Rattle.flat_laws.specs.Plain.{AllPlain, IsPlain};
ghost use Rattle.flat_laws.specs.Inlined.{inlined, inlined_all, inlined_level, operations};
ghost use Rattle.algo_tree.specs.Named.{AllNamed, IsNamed};
ghost use Rattle.hierarchy.specs.Order.{nodes_of};
ghost use Rattle.flat_laws.specs.Numbering.{HasBodiesInOrder};
ghost use Rattle.flat_laws.specs.Stands.{Stands};
ghost use Rattle.hierarchy.specs.Wires.{led};
ghost use Rattle.hierarchy.specs.Texts.{Prefixes};
ghost use Rattle.flat_laws.specs.Linked.{AllLinked};
ghost use Rattle.hierarchy.specs.Built.{Adds, graph_of};

use crate::level::lead_level;
use crate::names::joined;
pub use crate::operation::Inlined;
use crate::operation::{add_delay, add_operation};
use crate::wires::{Level, follow_all};
use algo_tree::{Kind, Source, Tree, Vertex, count_operations};
use std::alloc::Global;
use syn_base::{OutOfMemory, to_u32};

/// The operations of a tree without repetitions and cases, and the bodies of its functions.
pub fn inline(alloc: Global, tree: &Tree) -> Result<Inlined, OutOfMemory>
    requires { IsPlain tree.now }
    ensures stands { IfOk result (λ all. Stands (graph_of all) (operations tree.now)) }
    ensures order { IfOk result (λ all. HasBodiesInOrder (graph_of all)) }
{
    inline_main(alloc, tree.main())
}

/// The operations of a main graph.
fn inline_main(alloc: Global, main: &Vertex) -> Result<Inlined, OutOfMemory>
    requires tree { IsTree (view main.now) }
    requires plain { IsPlain (view main.now) }
    ensures stands { IfOk result (λ all. Stands (graph_of all) (operations (view main.now))) }
    ensures order { IfOk result (λ all. HasBodiesInOrder (graph_of all)) }
{
    let vertices = Vec::with_capacity(alloc, count_operations(main) as usize)?;
    let mut all = Inlined {
        vertices,
        bodies: Vec::new(alloc),
    };
    add_level(alloc, &[], b"", &main.inner, &mut all)?;
    Ok(all)
}

/// Adds the operations of a level, from where its own inputs lead, below the path with this text.
#[cycle(add)]
fn add_level(
    alloc: Global,
    own: &[Source],
    path: &[u8],
    vertices: &Vec<Vertex>,
    all: &mut Inlined,
) -> Result<(), OutOfMemory>
    requires well { AllWell (vertices_view vertices.now.items) }
    requires plain { AllPlain (vertices_view vertices.now.items) }
    requires names { AllNamed (vertices_view vertices.now.items) }
    requires acyclic { IsAcyclic (nodes_of vertices.now.items) }
    requires linked { (at : Path → Path) → AllLinked
        (inlined_level own.now (length all.old.vertices.items) at
        (vertices_view vertices.now.items)) }
    ensures count { OnOk result (length all.new.vertices.items ≡ length all.old.vertices.items +
        count_all (vertices_view vertices.now.items)) }
    ensures added { OnOk result ((at : Path → Path) → Prefixes path.now at →
        Adds (graph_of all.old) (graph_of all.new)
        (λ b. inlined_level own.now b at (vertices_view vertices.now.items))) }
{
    let first = to_u32(all.vertices.len())?;
    let leds = lead_level(alloc, first, own, vertices)?;
    let level = Level { own, leds: &leds };
    add_vertices(alloc, &level, path, vertices, all)
}

/// Adds the operations of the vertices of a level.
#[cycle(add)]
fn add_vertices(
    alloc: Global,
    level: &Level<'_>,
    path: &[u8],
    vertices: &Vec<Vertex>,
    all: &mut Inlined,
) -> Result<(), OutOfMemory>
    requires well { AllWell (vertices_view vertices.now.items) }
    requires plain { AllPlain (vertices_view vertices.now.items) }
    requires names { AllNamed (vertices_view vertices.now.items) }
    requires linked { (at : Path → Path) → AllLinked
        (inlined_all (led level.now.leds.now level.now.own.now) (length all.old.vertices.items) at
        (vertices_view vertices.now.items)) }
    ensures count { OnOk result (length all.new.vertices.items ≡ length all.old.vertices.items +
        count_all (vertices_view vertices.now.items)) }
    ensures added { OnOk result ((at : Path → Path) → Prefixes path.now at →
        Adds (graph_of all.old) (graph_of all.new)
        (λ b. inlined_all (led level.now.leds.now level.now.own.now) b at
        (vertices_view vertices.now.items))) }
{
    for vertex in vertices {
        add_vertex(alloc, level, path, vertex, all)?;
    }
    Ok(())
}

/// Adds the operations of a vertex.
#[cycle(add)]
fn add_vertex(
    alloc: Global,
    level: &Level<'_>,
    path: &[u8],
    vertex: &Vertex,
    all: &mut Inlined,
) -> Result<(), OutOfMemory>
    requires well { IsWell (view vertex.now) }
    requires plain { IsPlain (view vertex.now) }
    requires names { IsNamed (view vertex.now) }
    requires linked { (at : Path → Path) → AllLinked
        (inlined (led level.now.leds.now level.now.own.now) (length all.old.vertices.items) at
        (view vertex.now)) }
    ensures count { OnOk result (length all.new.vertices.items ≡ length all.old.vertices.items +
        count (view vertex.now)) }
    ensures added { OnOk result ((at : Path → Path) → Prefixes path.now at →
        Adds (graph_of all.old) (graph_of all.new)
        (λ b. inlined (led level.now.leds.now level.now.own.now) b at (view vertex.now))) }
{
    let text = joined(alloc, path, &vertex.part)?;
    match &vertex.kind {
        Kind::Graph(outputs) => add_graph(alloc, level, &text, vertex, outputs.as_slice(), all),
        Kind::Delay(groups) => add_delay(alloc, level, vertex, &text, groups.as_slice(), all),
        _ => add_operation(alloc, level, vertex, text, all),
    }
}

/// Whether a vertex stands for no operation.
fn is_idle(vertex: &Vertex) -> bool
    ensures { result ≡ (count (view vertex.now) == 0) }
{
    count_operations(vertex) == 0
}

/// Adds the operations inside a graph, whose path has this text. A graph without operations is not gone into.
#[cycle(add)]
fn add_graph(
    alloc: Global,
    level: &Level<'_>,
    text: &[u8],
    vertex: &Vertex,
    outputs: &[Source],
    all: &mut Inlined,
) -> Result<(), OutOfMemory>
    requires kind { (out-Vertex vertex.now).kind ≡ Kind.Graph outputs.now }
    requires well { IsWell (view vertex.now) }
    requires plain { IsPlain (view vertex.now) }
    requires names { IsNamed (view vertex.now) }
    requires linked { (at : Path → Path) → AllLinked
        (inlined (led level.now.leds.now level.now.own.now) (length all.old.vertices.items) at
        (view vertex.now)) }
    ensures count { OnOk result (length all.new.vertices.items ≡ length all.old.vertices.items +
        count (view vertex.now)) }
    ensures added { OnOk result ((at : Path → Path) →
        Prefixes text.now (λ q. at ((out-Vertex vertex.now).part ∷ q)) →
        Adds (graph_of all.old) (graph_of all.new)
        (λ b. inlined (led level.now.leds.now level.now.own.now) b at (view vertex.now))) }
{
    if is_idle(vertex) {
        return Ok(());
    }
    let own = follow_all(alloc, level, vertex.ins.as_slice())?;
    add_level(alloc, &own, text, &vertex.inner, all)
}
