//! The order of operations: that no operation depends on itself. `valid` calls it.
ghost use Rattle.std.specs.Prelude.{◌≡◌, ℕ, ◌<◌, ◌≤◌, ◌||◌, false, length, slice_get, slice_index_or};
ghost use Rattle.std.specs.List.{list_all};
ghost use Rattle.syn_base.specs.Limits.{most_operations};
ghost use Rattle.flat_graph.specs.Graph.{with_vertex};
ghost use Rattle.flat_graph.specs.Order.{depends_on, get_half, is_acyclic};

use crate::vertex::{Guard, Kind, Source, Vertex};

/// A flag for each operation.
type Flags = [bool; 2048];

/// Whether no operation depends on itself, by rounds over flags that take no memory from the heap.
pub fn is_acyclic(vertices: &[Vertex]) -> bool
    requires { length vertices.now ≤ most_operations }
    ensures { result ≡ is_acyclic vertices.now }
{
    let mut done = no_flags();
    for _rounds in 0..vertices.len() {
        done = one_round_more(&done, vertices);
    }
    are_all_set(&done[..vertices.len()])
}

/// No operation is done yet.
fn no_flags() -> Flags
    ensures { (v : ℕ) → slice_index_or result v false ≡ false }
{
    [false; 2048]
}

/// Whether all flags are set.
fn are_all_set(flags: &[bool]) -> bool
    ensures { result ≡ list_all (λ is_set. is_set) flags.now }
{
    flags.iter().all(|is_set| *is_set)
}

/// The flags after one round more: those of before, and those of the operations that depend on these alone.
fn one_round_more(before: &Flags, vertices: &[Vertex]) -> Flags
    requires { length vertices.now ≤ most_operations }
    ensures { (v : ℕ) → slice_index_or result v false ≡
        (slice_index_or before.now v false ||
        with_vertex (slice_get vertices.now v) false
        (λ x. list_all (λ u. slice_index_or before.now u false) (depends_on x))) }
{
    let mut done = *before;
    for (v, vertex) in vertices.iter().enumerate() {
        done[v] = is_done_now(before, v, vertex);
    }
    done
}

/// Whether an operation is done after one round more.
fn is_done_now(before: &Flags, v: usize, vertex: &Vertex) -> bool
    requires { v < most_operations }
    ensures { result ≡ (slice_index_or before.now v false ||
        list_all (λ u. slice_index_or before.now u false) (depends_on vertex.now)) }
{
    before[v] || is_ready(before, vertex)
}

/// Whether all that an operation depends on is done.
#[tactic(auto, using(crate::proofs::Rounds::ready_by_parts))]
fn is_ready(done: &Flags, vertex: &Vertex) -> bool
    ensures { result ≡ list_all (λ u. slice_index_or done.now u false) (depends_on vertex.now) }
{
    are_guards_ready(done, vertex.guards.as_slice())
        && are_sources_ready(done, vertex.ins.as_slice())
        && is_get_half_ready(done, &vertex.kind, vertex.twin)
}

/// Whether the operations that give the sources of these guards are done.
fn are_guards_ready(done: &Flags, guards: &[Guard]) -> bool
    ensures { result ≡ list_all (λ g. slice_index_or done.now g.source.vertex false) guards.now }
{
    guards.iter().all(|guard| is_set(done, guard.source.vertex))
}

/// Whether the operations that give these sources are done.
fn are_sources_ready(done: &Flags, sources: &[Source]) -> bool
    ensures { result ≡ list_all (λ s. slice_index_or done.now s.vertex false) sources.now }
{
    sources.iter().all(|source| is_set(done, source.vertex))
}

/// Whether the get half is done, where the operation is a set half.
fn is_get_half_ready(done: &Flags, kind: &Kind, twin: Option<u32>) -> bool
    ensures { result ≡ list_all (λ u. slice_index_or done.now u false) (get_half kind.now twin) }
{
    match kind {
        Kind::Set => match twin {
            Some(twin) => is_set(done, twin),
            None => true,
        },
        _ => true,
    }
}

/// Whether the flag of this operation is set.
fn is_set(done: &Flags, v: u32) -> bool
    ensures { result ≡ slice_index_or done.now v false }
{
    let v = v as usize;
    v < done.len() && done[v]
}
