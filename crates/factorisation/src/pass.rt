//! The pass over a tree, which replaces each repetition by a graph of its copies. `hierarchy` calls it.
ghost use Rattle.std.specs.Prelude.{◌≡◌, ◌<◌, ◌≤◌, ◌+◌, ◌++◌, IfOk, OnOk, length, map};
ghost use Rattle.algo_tree.specs.declared.vertex.Vertex.{out-Vertex};
ghost use Rattle.algo_tree.specs.Tree.{and_vertex, no_vertices};
ghost use Rattle.algo_tree.specs.Counted.{operations, operations_in};
ghost use Rattle.algo_tree.specs.Meaning.{vertices_in};
ghost use Rattle.algo_tree.specs.Typed.{label_of};
ghost use Rattle.algo_tree.specs.View.{view, vertices_view};
ghost use Rattle.algo_tree.specs.Well.{fork_names, IsOne, IsWell, AllWell};
ghost use Rattle.algo_tree.specs.SameMeaning.{KeepsMeaning};
ghost use Rattle.algo_tree.specs.NoRepeat.{HasNoRepeat};
ghost use Rattle.flat_laws.specs.Lines.{in_line_order as ordered};
ghost use Rattle.flat_laws.specs.Unrolled.{copies as copied, unroll as unrolled, unroll_all, unrolled_inside};

use crate::frontier::{Copies, MOST_COPIES, add_implodes, begin_of, explodes};
use crate::lines::in_line_order;
use crate::vertices::{as_copy, as_graph};
use algo_tree::{Feed, Give, Kind, Tree, Vertex, share_vertex, with_inside};
use std::alloc::Global;
use syn_base::OutOfMemory;

/// The tree without repetitions, of the same meaning: each is replaced by a graph of its copies, with
/// an explode for each fork line before them and an implode for each join line after them. `OutOfMemory`
/// comes only where memory runs out.
pub fn unroll(alloc: Global, tree: &Tree) -> Result<Tree, OutOfMemory>
    ensures same { IfOk result (λ t. t ≡ unrolled tree.now) }
    ensures kept { IfOk result (λ t. KeepsMeaning tree.now t) }
    ensures flat { IfOk result (λ t. HasNoRepeat t) }
    ensures count { IfOk result (λ t. operations t ≡ operations tree.now) }
{
    Ok(Tree::new(unroll_vertex(alloc, tree.main())?))
}

/// The vertex without repetitions.
#[cycle(unroll)]
fn unroll_vertex(alloc: Global, vertex: &Vertex) -> Result<Vertex, OutOfMemory>
    requires well { IsWell (view vertex.now) }
    requires few { operations (view vertex.now) ≤ 2048 }
    ensures { IfOk result (λ u. view u ≡ unrolled (view vertex.now)) }
{
    match &vertex.kind {
        Kind::Repeat(count, feeds, gives) => {
            unroll_repeat(alloc, vertex, *count, feeds.as_slice(), gives.as_slice())
        }
        _ => {
            let inner = unroll_each(alloc, &vertex.inner)?;
            with_inside(alloc, vertex, inner)
        }
    }
}

/// The vertices without repetitions.
#[cycle(unroll)]
fn unroll_each(alloc: Global, vertices: &Vec<Vertex>) -> Result<Vec<Vertex>, OutOfMemory>
    requires well { AllWell (vertices_view vertices.now.items) }
    requires few { operations_in (vertices_view vertices.now.items) ≤ 2048 }
    ensures { IfOk result (λ us. map view us.items ≡ map (λ v. unrolled (view v)) vertices.now.items) }
{
    let mut all = Vec::new(alloc);
    for vertex in vertices {
        all.push(unroll_vertex(alloc, vertex)?)?;
    }
    Ok(all)
}

/// The graph that a repetition with these lines becomes.
#[cycle(unroll)]
fn unroll_repeat(
    alloc: Global,
    vertex: &Vertex,
    count: u32,
    feeds: &[Feed],
    gives: &[Give],
) -> Result<Vertex, OutOfMemory>
    requires kind { (out-Vertex vertex.now).kind ≡ Kind.Repeat count feeds.now gives.now }
    requires well { IsWell (view vertex.now) }
    requires few { operations (view vertex.now) ≤ 2048 }
    ensures { IfOk result (λ u. view u ≡ unrolled (view vertex.now)) }
{
    let begin = begin_of(feeds);
    if count > MOST_COPIES - begin {
        return Err(OutOfMemory);
    }
    let copies = Copies { begin, count };
    let inner = unroll_inside(alloc, vertex, copies, feeds, gives)?;
    as_graph(alloc, vertex, copies, gives, inner)
}

/// What stands inside that graph: explodes, copies and implodes.
#[cycle(unroll)]
fn unroll_inside(
    alloc: Global,
    vertex: &Vertex,
    copies: Copies,
    feeds: &[Feed],
    gives: &[Give],
) -> Result<Vec<Vertex>, OutOfMemory>
    requires begin { copies.begin ≡ length (fork_names feeds.now) }
    requires kind { (out-Vertex vertex.now).kind ≡ Kind.Repeat copies.count feeds.now gives.now }
    requires well { IsWell (view vertex.now) }
    requires few { operations (view vertex.now) ≤ 2048 }
    requires small { copies.begin + copies.count ≤ MOST_COPIES }
    ensures { IfOk result (λ us. map view us.items ≡
        unrolled_inside (label_of (view vertex.now)).definition copies.count feeds.now gives.now
        (label_of (view vertex.now)).outs (unroll_all (vertices_in (view vertex.now)))) }
{
    let definition = &vertex.definition;
    let lines = in_line_order(alloc, feeds)?;
    let mut all = explodes(alloc, definition, copies.count, &lines)?;
    add_copies(alloc, &vertex.inner, copies, feeds, &lines, &mut all)?;
    add_implodes(
        alloc,
        definition,
        copies,
        vertex.outs.as_slice(),
        gives,
        &mut all,
    )?;
    Ok(all)
}

/// Adds the copies of the one body.
#[cycle(unroll)]
fn add_copies(
    alloc: Global,
    inner: &Vec<Vertex>,
    copies: Copies,
    feeds: &[Feed],
    lines: &[&Feed],
    all: &mut Vec<Vertex>,
) -> Result<(), OutOfMemory>
    requires lines { map (λ f. f.now) lines.now ≡ ordered feeds.now }
    requires one { IsOne (vertices_view inner.now.items) }
    requires well { AllWell (vertices_view inner.now.items) }
    requires few { length (fork_names feeds.now) ≤ 2048 }
    requires bodies { operations_in (vertices_view inner.now.items) ≤ 2048 }
    requires small { copies.begin + copies.count ≤ MOST_COPIES }
    ensures { OnOk result (map view all.new.items ≡ map view all.old.items ++
        copied copies.begin feeds.now copies.count (unroll_all (vertices_view inner.now.items))) }
{
    add_copies_of(alloc, &inner[0], copies, feeds, lines, all)
}

/// Adds the copies of a body, which is unrolled once.
#[cycle(unroll)]
fn add_copies_of(
    alloc: Global,
    body: &Vertex,
    copies: Copies,
    feeds: &[Feed],
    lines: &[&Feed],
    all: &mut Vec<Vertex>,
) -> Result<(), OutOfMemory>
    requires lines { map (λ f. f.now) lines.now ≡ ordered feeds.now }
    requires well { IsWell (view body.now) }
    requires few { length (fork_names feeds.now) ≤ 2048 }
    requires bodies { operations (view body.now) ≤ 2048 }
    requires small { copies.begin + copies.count ≤ MOST_COPIES }
    ensures { OnOk result (map view all.new.items ≡ map view all.old.items ++
        copied copies.begin feeds.now copies.count
        (and_vertex (unrolled (view body.now)) no_vertices)) }
{
    let unrolled = unroll_vertex(alloc, body)?;
    for i in 0..copies.count {
        let vertex = share_vertex(alloc, &unrolled)?;
        all.push(as_copy(alloc, vertex, copies, i, feeds, lines)?)?;
    }
    Ok(())
}
