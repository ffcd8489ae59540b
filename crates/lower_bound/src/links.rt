//! The operations of a longest chain, each with its least duration.
ghost use Rattle.std.specs.Prelude.{◌≡◌, ℕ, ◌<◌, ◌≤◌, IfOk, IsTrue, length, map};
ghost use Rattle.std.specs.List.{range_with_len};
ghost use Rattle.syn_base.specs.Limits.{most_operations};
ghost use Rattle.self_timed.specs.FlatOrder.{depends_on, get_half, is_acyclic};
ghost use Rattle.self_timed.specs.Table.{entry_in};
ghost use Rattle.lower_bound.specs.Bound.{chain_to};
ghost use Rattle.lower_bound.specs.Chain.{chain_back, chain_links, first_at, latest_of, link_of};
ghost use Rattle.lower_bound.specs.Turns.{at, most_date};
ghost use Rattle.syn_base.specs.Numbers.{greatest};

use crate::arrivals::{end_at, end_of_half};
use crate::bound::greatest;
use crate::chains::chain_ends;
use crate::work::least;
use self_timed::{Durations, Flat, Guard, Kind, Source, Vertex};
use std::alloc::Global;
use syn_base::OutOfMemory;

/// An operation of a chain, with its least duration. Operations are numbered from 0, as in the flat
/// graph.
#[derive(Clone, Copy, Debug, PartialEq, Eq)]
pub struct Link {
    pub op: u32,
    pub ticks: u64,
}

/// The operations of a longest chain of least durations, from the first to the last: each needs the
/// one before it. Of operations at which a longest chain may end it takes the one with the least
/// number, and of those that may stand before an operation the first in the order of guards, inputs
/// and get half. The durations are those of the flat graph.
pub fn chain_of(alloc: Global, flat: &Flat, durations: &Durations) -> Result<Vec<Link>, OutOfMemory>
    requires { length durations.now.rows ≡ length flat.now.vertices }
    ensures { IfOk result (λ links. links.items ≡ chain_links durations.now.operators
        (entry_in durations.now) flat.now.vertices) }
{
    let mut links = links_back(alloc, flat.vertices(), durations)?;
    links.reverse();
    Ok(links)
}

/// The operations of a longest chain, from the last back to the first.
fn links_back(
    alloc: Global,
    vertices: &[Vertex],
    durations: &Durations,
) -> Result<Vec<Link>, OutOfMemory>
    requires few { length vertices.now ≤ most_operations }
    requires rows { length durations.now.rows ≡ length vertices.now }
    requires acyclic { IsTrue (is_acyclic vertices.now) }
    ensures { IfOk result (λ links. links.items ≡ map
        (link_of durations.now.operators (entry_in durations.now) vertices.now)
        (chain_back durations.now.operators (entry_in durations.now) vertices.now)) }
{
    // The proof takes from this call that each operation may stand somewhere.
    let _operations = durations.operations();
    // Without media there are no transfers.
    let ends = chain_ends(alloc, vertices, &[], durations)?;
    follow_back(alloc, &ends, vertices, durations)
}

/// The operations of a longest chain by the dates of all chains, from the last back to the first.
fn follow_back(
    alloc: Global,
    ends: &[u64],
    vertices: &[Vertex],
    durations: &Durations,
) -> Result<Vec<Link>, OutOfMemory>
    requires few { length vertices.now ≤ most_operations }
    requires rows { length durations.now.rows ≡ length vertices.now }
    requires acyclic { IsTrue (is_acyclic vertices.now) }
    requires size { length ends.now ≡ length vertices.now }
    requires low { (v : ℕ) → at ends.now v ≤ most_date }
    requires chains { (v : ℕ) → v < length vertices.now →
        at ends.now v ≡ chain_to durations.now.operators (entry_in durations.now) vertices.now v }
    ensures { IfOk result (λ links. links.items ≡ map
        (link_of durations.now.operators (entry_in durations.now) vertices.now)
        (chain_back durations.now.operators (entry_in durations.now) vertices.now)) }
{
    let mut links = Vec::new(alloc);
    let mut next = latest_operation(ends);
    for _link in 0..vertices.len() {
        let Some(op) = next else { return Ok(links) };
        let ticks = least(durations, op);
        links.push(Link { op, ticks })?;
        next = latest_before(ends, &vertices[op as usize]);
    }
    Ok(links)
}

/// The operation with the greatest date, of several the first.
fn latest_operation(ends: &[u64]) -> Option<u32>
    requires { length ends.now ≤ most_operations }
    ensures { result ≡ latest_of (at ends.now) (range_with_len 0 (length ends.now)) }
{
    let latest = greatest(ends);
    for op in 0..ends.len() {
        if ends[op] == latest {
            return Some(op as u32);
        }
    }
    None
}

/// Of those that an operation depends on, the one with the greatest date, of several the first.
fn latest_before(ends: &[u64], vertex: &Vertex) -> Option<u32>
    requires { (v : ℕ) → at ends.now v ≤ most_date }
    ensures { result ≡ latest_of (at ends.now) (depends_on vertex.now) }
{
    let latest = latest_needed(ends, vertex);
    let guard = first_guard(ends, vertex.guards.as_slice(), latest);
    let source = first_source(ends, vertex.ins.as_slice(), latest);
    guard
        .or(source)
        .or(half_at(ends, &vertex.kind, vertex.twin, latest))
}

/// The greatest date of those that an operation depends on.
fn latest_needed(ends: &[u64], vertex: &Vertex) -> u64
    requires { (v : ℕ) → at ends.now v ≤ most_date }
    ensures latest { result ≡ greatest (map (at ends.now) (depends_on vertex.now)) }
    ensures low { result ≤ most_date }
{
    let guards = latest_of_guards(ends, vertex.guards.as_slice());
    let inputs = latest_of_sources(ends, vertex.ins.as_slice());
    guards
        .max(inputs)
        .max(end_of_half(ends, &vertex.kind, vertex.twin))
}

/// The greatest date of those that these guards read.
fn latest_of_guards(ends: &[u64], guards: &[Guard]) -> u64
    ensures { result ≡ greatest (map (at ends.now) (map (λ g. g.source.vertex) guards.now)) }
{
    let mut latest = 0;
    for guard in guards {
        latest = end_at(ends, guard.source.vertex).max(latest);
    }
    latest
}

/// The greatest date of those whose outputs these are.
fn latest_of_sources(ends: &[u64], sources: &[Source]) -> u64
    ensures { result ≡ greatest (map (at ends.now) (map (λ s. s.vertex) sources.now)) }
{
    let mut latest = 0;
    for source in sources {
        latest = end_at(ends, source.vertex).max(latest);
    }
    latest
}

/// The first operation of this date of those that these guards read.
fn first_guard(ends: &[u64], guards: &[Guard], date: u64) -> Option<u32>
    ensures { result ≡ first_at (at ends.now) date (map (λ g. g.source.vertex) guards.now) }
{
    for guard in guards {
        if end_at(ends, guard.source.vertex) == date {
            return Some(guard.source.vertex);
        }
    }
    None
}

/// The first operation of this date of those whose outputs these are.
fn first_source(ends: &[u64], sources: &[Source], date: u64) -> Option<u32>
    ensures { result ≡ first_at (at ends.now) date (map (λ s. s.vertex) sources.now) }
{
    for source in sources {
        if end_at(ends, source.vertex) == date {
            return Some(source.vertex);
        }
    }
    None
}

/// The get half, where the operation is a set half and its get half has this date.
fn half_at(ends: &[u64], kind: &Kind, twin: Option<u32>, date: u64) -> Option<u32>
    ensures { result ≡ first_at (at ends.now) date (get_half kind.now twin) }
{
    match (kind, twin) {
        (Kind::Set, Some(twin)) => {
            if end_at(ends, twin) == date {
                Some(twin)
            } else {
                None
            }
        }
        _ => None,
    }
}
