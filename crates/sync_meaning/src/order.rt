//! The order in which the operations of a flat graph run: `find_order`, by what was proposed and by rounds.
ghost use Rattle.std.specs.Prelude.{◌≡◌, ℕ, ◌<◌, [], ◌&&◌, IfOk, OnOk, IsTrue, length, not, true, false, replicate};
ghost use Rattle.std.specs.List.{list_all};
ghost use Rattle.flat_graph.specs.Order.{depends_on, get_half, is_acyclic};
ghost use Rattle.sync_meaning.specs.Order.{IsOrder};
ghost use Rattle.sync_meaning.specs.Begun.{has_flag, IsBegun, HasTried, HasRound};

use crate::proposal::proposed_order;
use flat_graph::{Guard, Kind, Source, Vertex};
use std::alloc::Global;
use syn_base::{OutOfMemory, to_u32};

/// Whether the flag of this operation is set.
fn has_flag(done: &[bool], v: u32) -> bool
    ensures { result ≡ has_flag done.now v }
{
    done.get(v as usize).copied().unwrap_or(false)
}

/// Whether the operations that give the sources of these guards are done.
fn are_guards_ready(done: &[bool], guards: &[Guard]) -> bool
    ensures { result ≡ list_all (λ g. has_flag done.now g.source.vertex) guards.now }
{
    guards
        .iter()
        .all(|guard| has_flag(done, guard.source.vertex))
}

/// Whether the operations that give these sources are done.
fn are_sources_ready(done: &[bool], sources: &[Source]) -> bool
    ensures { result ≡ list_all (λ s. has_flag done.now s.vertex) sources.now }
{
    sources.iter().all(|source| has_flag(done, source.vertex))
}

/// Whether the get half is done, where the operation is a set half.
fn is_get_half_ready(done: &[bool], kind: &Kind, twin: Option<u32>) -> bool
    ensures { result ≡ list_all (has_flag done.now) (get_half kind.now twin) }
{
    match kind {
        Kind::Set => match twin {
            Some(twin) => has_flag(done, twin),
            None => true,
        },
        _ => true,
    }
}

/// Whether all that an operation depends on is done.
#[tactic(auto, using(flat_graph::proofs::Rounds::ready_by_parts))]
fn is_ready(done: &[bool], vertex: &Vertex) -> bool
    ensures { result ≡ list_all (has_flag done.now) (depends_on vertex.now) }
{
    are_guards_ready(done, vertex.guards.as_slice())
        && are_sources_ready(done, vertex.ins.as_slice())
        && is_get_half_ready(done, &vertex.kind, vertex.twin)
}

/// Whether operation v is not done yet and is ready.
fn may_run(vertex: &Vertex, v: usize, done: &[bool]) -> bool
    requires { v < length done.now }
    ensures { result ≡ (not (has_flag done.now v) && list_all (has_flag done.now) (depends_on vertex.now)) }
{
    !done[v] && is_ready(done, vertex)
}

/// Whether every operation is done.
fn is_all_done(done: &[bool]) -> bool
    ensures { IsTrue result → (v : ℕ) → v < length done.now → has_flag done.now v ≡ true }
{
    done.iter().all(|is_set| *is_set)
}

/// The operations that are in order so far, and a flag for each operation.
#[derive(Drop)]
pub struct Begun {
    pub order: Vec<u32>,
    pub done: Vec<bool>,
}

/// Operation v comes next, if it is not done yet and is ready.
fn try_operation(vertices: &[Vertex], v: u32, begun: &mut Begun) -> Result<(), OutOfMemory>
    requires there { v < length vertices.now }
    requires begun { IsBegun vertices.now begun.old }
    ensures { OnOk result (HasTried vertices.now v begun.old begun.new) }
{
    let at = v as usize;
    if may_run(&vertices[at], at, &begun.done) {
        begun.order.push(v)?;
        begun.done[at] = true;
    }
    Ok(())
}

/// Each of these operations comes next that is not done yet and is ready when its turn comes.
fn try_proposed(vertices: &[Vertex], proposed: &[u32], begun: &mut Begun) -> Result<(), OutOfMemory>
    requires { IsBegun vertices.now begun.old }
    ensures { OnOk result (IsBegun vertices.now begun.new) }
{
    for v in proposed {
        if (*v as usize) < vertices.len() {
            try_operation(vertices, *v, begun)?;
        }
    }
    Ok(())
}

/// None of this many operations is in order yet.
fn none_done(alloc: Global, count: usize) -> Result<Begun, OutOfMemory>
    ensures { IfOk result (λ b. (b.order.items ≡ []) × (b.done.items ≡ replicate count false)) }
{
    Ok(Begun {
        order: Vec::with_capacity(alloc, count)?,
        done: vec![in alloc; false; count]?,
    })
}

/// Each operation comes next that is ready when its turn comes.
fn one_round(vertices: &[Vertex], count: u32, begun: &mut Begun) -> Result<(), OutOfMemory>
    requires count { count ≡ length vertices.now }
    requires begun { IsBegun vertices.now begun.old }
    ensures { OnOk result (HasRound vertices.now begun.old begun.new) }
{
    for v in 0..count {
        try_operation(vertices, v, begun)?;
    }
    Ok(())
}

/// An order of operations of which some are in order, found by rounds over all of them.
fn order_by_rounds(
    vertices: &[Vertex],
    count: u32,
    mut begun: Begun,
) -> Result<Vec<u32>, OutOfMemory>
    requires count { count ≡ length vertices.now }
    requires begun { IsBegun vertices.now begun }
    requires acyclic { is_acyclic vertices.now ≡ true }
    ensures { IfOk result (λ order. IsOrder vertices.now order.items) }
{
    for rounds in 0..vertices.len() {
        one_round(vertices, count, &mut begun)?;
    }
    let Begun { order, .. } = begun;
    Ok(order)
}

/// The operations in the order that is proposed, each that is ready when its turn comes.
fn order_as_proposed(alloc: Global, vertices: &[Vertex], count: u32) -> Result<Begun, OutOfMemory>
    ensures { IfOk result (IsBegun vertices.now) }
{
    let mut begun = none_done(alloc, vertices.len())?;
    let proposed = proposed_order(alloc, vertices, count)?;
    try_proposed(vertices, &proposed, &mut begun)?;
    Ok(begun)
}

/// An order in which each operation stands after all that it depends on. It takes time and memory in
/// proportion to the operations and their sources.
pub fn find_order(alloc: Global, vertices: &[Vertex]) -> Result<Vec<u32>, OutOfMemory>
    requires { is_acyclic vertices.now ≡ true }
    ensures { IfOk result (λ order. IsOrder vertices.now order.items) }
{
    let count = to_u32(vertices.len())?;
    let begun = order_as_proposed(alloc, vertices, count)?;
    if is_all_done(&begun.done) {
        let Begun { order, .. } = begun;
        return Ok(order);
    }
    // The proposal leads through every graph without a cycle; rounds need no proof of that.
    order_by_rounds(vertices, count, begun)
}
