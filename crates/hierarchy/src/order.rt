//! The order in which the vertices of a level run: `find_order`, by what was proposed and by rounds.
ghost use Rattle.std.specs.Prelude.{◌≡◌, ◌<◌, ◌&&◌, ℕ, [], IfOk, OnOk, IsTrue, length, not, true, false, replicate};
ghost use Rattle.algo_tree.specs.Order.{source_ready, sources_ready, guards_ready, is_ready, IsAcyclic};
ghost use Rattle.algo_tree.specs.View.{view};
ghost use Rattle.algo_tree.specs.Meaning.{node};
ghost use Rattle.hierarchy.specs.Order.{IsOrder, nodes_of, is_done};
ghost use Rattle.hierarchy.specs.Begun.{IsBegun, HasTried, HasRound};

use crate::proposal::proposed_order;
use algo_tree::{Guard, Kind, Source, Vertex};
use std::alloc::Global;
use syn_base::OutOfMemory;

/// Whether a source is an input of the level, or an output of a vertex that has run.
fn is_source_ready(source: Source, done: &[bool]) -> bool
    ensures { result ≡ source_ready (is_done done.now) source }
{
    match source {
        Source::Own(_) => true,
        Source::Of(r, _) => done.get(r as usize).copied().unwrap_or(false),
    }
}

/// Whether each of these sources is ready.
fn are_sources_ready(sources: &[Source], done: &[bool]) -> bool
    ensures { result ≡ sources_ready (is_done done.now) sources.now }
{
    for source in sources {
        if !is_source_ready(*source, done) {
            return false;
        }
    }
    true
}

/// Whether the source of each guard is ready.
fn are_guards_ready(guards: &[Guard], done: &[bool]) -> bool
    ensures { result ≡ guards_ready (is_done done.now) guards.now }
{
    for guard in guards {
        if !is_source_ready(guard.source, done) {
            return false;
        }
    }
    true
}

/// Whether all that the outputs of a vertex ask for is done, where each vertex has a flag. A delay's ask
/// for none of its inputs.
pub fn is_vertex_ready(vertex: &Vertex, done: &[bool]) -> bool
    ensures { result ≡ is_ready (is_done done.now) (node (view vertex.now)) }
{
    if !are_guards_ready(vertex.guards.as_slice(), done) {
        return false;
    }
    match vertex.kind {
        Kind::Delay(_) => true,
        _ => are_sources_ready(vertex.ins.as_slice(), done),
    }
}

/// Whether vertex r has not run yet and is ready.
fn may_run(vertex: &Vertex, r: usize, done: &[bool]) -> bool
    requires { r < length done.now }
    ensures { result ≡ (not (is_done done.now r) && is_ready (is_done done.now) (node (view vertex.now))) }
{
    !done[r] && is_vertex_ready(vertex, done)
}

/// Whether every vertex has run.
fn is_all_done(done: &[bool]) -> bool
    ensures { IsTrue result → (r : ℕ) → r < length done.now → is_done done.now r ≡ true }
{
    done.iter().all(|d| *d)
}

/// The vertices of a level that have run, in order, and a flag for each vertex.
#[derive(Drop)]
pub struct Begun {
    pub order: Vec<usize>,
    pub done: Vec<bool>,
}

/// Vertex r runs, if it has not yet and is ready.
fn try_vertex(vertices: &Vec<Vertex>, r: usize, begun: &mut Begun) -> Result<(), OutOfMemory>
    requires there { r < length vertices.now.items }
    requires begun { IsBegun (nodes_of vertices.now.items) begun.old }
    ensures { OnOk result (HasTried (nodes_of vertices.now.items) r begun.old begun.new) }
{
    if may_run(&vertices[r], r, &begun.done) {
        begun.order.push(r)?;
        begun.done[r] = true;
    }
    Ok(())
}

/// Each of these vertices runs that has not yet and is ready when its turn comes.
fn run_proposed(
    vertices: &Vec<Vertex>,
    proposed: &[usize],
    begun: &mut Begun,
) -> Result<(), OutOfMemory>
    requires { IsBegun (nodes_of vertices.now.items) begun.old }
    ensures { OnOk result (IsBegun (nodes_of vertices.now.items) begun.new) }
{
    for r in proposed {
        if *r < vertices.len() {
            try_vertex(vertices, *r, begun)?;
        }
    }
    Ok(())
}

/// A level of as many vertices as `count` says, before any has run.
fn none_done(alloc: Global, count: usize) -> Result<Begun, OutOfMemory>
    ensures { IfOk result (λ b. (b.order.items ≡ []) × (b.done.items ≡ replicate count false)) }
{
    Ok(Begun {
        order: Vec::with_capacity(alloc, count)?,
        done: vec![in alloc; false; count]?,
    })
}

/// Each vertex of a level runs that is ready.
fn one_round(vertices: &Vec<Vertex>, begun: &mut Begun) -> Result<(), OutOfMemory>
    requires { IsBegun (nodes_of vertices.now.items) begun.old }
    ensures { OnOk result (HasRound (nodes_of vertices.now.items) begun.old begun.new) }
{
    for r in 0..vertices.len() {
        try_vertex(vertices, r, begun)?;
    }
    Ok(())
}

/// An order of a level of which some vertices have run, found by rounds over all of them.
fn order_by_rounds(vertices: &Vec<Vertex>, mut begun: Begun) -> Result<Vec<usize>, OutOfMemory>
    requires begun { IsBegun (nodes_of vertices.now.items) begun }
    requires acyclic { IsAcyclic (nodes_of vertices.now.items) }
    ensures { IfOk result (λ order. IsOrder (nodes_of vertices.now.items) order.items) }
{
    for round in 0..vertices.len() {
        one_round(vertices, &mut begun)?;
    }
    let Begun { order, .. } = begun;
    Ok(order)
}

/// Each vertex of a level runs that is ready when its turn comes, where they run as they stand.
fn run_as_written(alloc: Global, vertices: &Vec<Vertex>) -> Result<Begun, OutOfMemory>
    ensures { IfOk result (IsBegun (nodes_of vertices.now.items)) }
{
    let mut begun = none_done(alloc, vertices.len())?;
    one_round(vertices, &mut begun)?;
    Ok(begun)
}

/// An order of a level of which some vertices have run, mostly all.
fn finish_order(vertices: &Vec<Vertex>, begun: Begun) -> Result<Vec<usize>, OutOfMemory>
    requires begun { IsBegun (nodes_of vertices.now.items) begun }
    requires acyclic { IsAcyclic (nodes_of vertices.now.items) }
    ensures { IfOk result (λ order. IsOrder (nodes_of vertices.now.items) order.items) }
{
    if is_all_done(&begun.done) {
        let Begun { order, .. } = begun;
        return Ok(order);
    }
    // The proposal leads through every level without a cycle; rounds need no proof of that.
    order_by_rounds(vertices, begun)
}

/// An order in which each vertex of a level stands after all that its outputs ask for. It takes
/// time and memory in proportion to the vertices and edges of the level. Where the vertices stand in
/// such an order, as in many a text, no other is sought.
pub fn find_order(alloc: Global, vertices: &Vec<Vertex>) -> Result<Vec<usize>, OutOfMemory>
    requires { IsAcyclic (nodes_of vertices.now.items) }
    ensures { IfOk result (λ order. IsOrder (nodes_of vertices.now.items) order.items) }
{
    let mut begun = run_as_written(alloc, vertices)?;
    if !is_all_done(&begun.done) {
        let proposed = proposed_order(alloc, vertices)?;
        run_proposed(vertices, &proposed, &mut begun)?;
    }
    finish_order(vertices, begun)
}
