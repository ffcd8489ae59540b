//! The vertices that the pass makes again, with others inside. `pass` calls it.
ghost use Rattle.std.specs.Prelude.{◌≡◌, ◌<◌, ◌≤◌, ◌+◌, IfOk, length, map};
ghost use Rattle.algo_tree.specs.declared.vertex.Vertex.{out-Vertex};
ghost use Rattle.algo_tree.specs.Tree.{graph, vertex as plain_vertex};
ghost use Rattle.algo_tree.specs.Meaning.{vertices_in};
ghost use Rattle.algo_tree.specs.Typed.{label_of};
ghost use Rattle.algo_tree.specs.View.{kind_view, label_view, view, vertices_view};
ghost use Rattle.algo_tree.specs.Well.{fork_names, join_names};
ghost use Rattle.flat_laws.specs.Lines.{in_line_order};
ghost use Rattle.algo_tree.specs.Relabelled.{with_kind};
ghost use Rattle.flat_laws.specs.Unrolled.{copy, give_sources as sources_given};

use crate::frontier::{Copies, MOST_COPIES, copy_ins, give_sources};
use algo_tree::{Feed, Give, Kind, Part, Vertex, rebuild};
use std::alloc::Global;
use syn_base::{OutOfMemory, Shared};

/// The graph that a repetition with these copies and outputs becomes, with what stands inside it.
pub fn as_graph(
    alloc: Global,
    vertex: &Vertex,
    copies: Copies,
    gives: &[Give],
    inner: Vec<Vertex>,
) -> Result<Vertex, OutOfMemory>
    requires some { 0 < copies.count }
    requires few { length (join_names gives.now) ≤ 2048 }
    requires small { copies.begin + copies.count ≤ MOST_COPIES }
    ensures { IfOk result (λ u. view u ≡ plain_vertex
        (with_kind (label_view (out-Vertex vertex.now))
        (graph (sources_given copies.begin copies.count 0 gives.now)))
        (vertices_view inner.items)) }
{
    let sources = give_sources(alloc, copies, gives)?;
    let kind = Kind::Graph(Shared::new(alloc, sources)?);
    rebuild(alloc, vertex, kind, inner)
}

/// Makes of an unrolled body the copy number `i`.
pub fn as_copy(
    alloc: Global,
    mut body: Vertex,
    copies: Copies,
    i: u32,
    feeds: &[Feed],
    lines: &[&Feed],
) -> Result<Vertex, OutOfMemory>
    requires lines { map (λ f. f.now) lines.now ≡ in_line_order feeds.now }
    requires few { length (fork_names feeds.now) ≤ 2048 }
    requires small { copies.begin + i ≤ MOST_COPIES }
    ensures { IfOk result (λ u. view u ≡ copy copies.begin feeds.now (label_of (view body))
        (vertices_in (view body)) i) }
{
    let ins = copy_ins(alloc, copies, i, feeds, lines)?;
    let guards = body.guards.emptied(alloc)?;
    body.part = Part::Numbered(i);
    body.ins = Shared::new(alloc, ins)?;
    body.guards = guards;
    Ok(body)
}
