//! The twins of operations: the two halves of each delay. `valid` calls it.
ghost use Rattle.std.specs.Prelude.{◌≡◌, false, slice_get};
ghost use Rattle.flat_graph.specs.Graph.{lens_of, with_vertex};
ghost use Rattle.flat_graph.specs.Valid.{has_get_half, has_set_half, has_twin, is_get_half_of, is_only, is_set_half_of, is_number};

use crate::lengths::len_of;
use crate::vertex::{Kind, Source, Vertex};

/// Whether a half of a delay has its other half as its twin, and any other operation has none.
pub fn has_twin(vertices: &[Vertex], v: usize, vertex: &Vertex) -> bool
    ensures { result ≡ has_twin vertices.now v vertex.now.kind vertex.now.twin }
{
    match &vertex.kind {
        Kind::Get(values) => has_set_half(vertices, v, values.as_slice().len(), vertex.twin),
        Kind::Set => has_get_half(vertices, v, vertex.twin),
        _ => vertex.twin.is_none(),
    }
}

/// Whether a get half has a later set half of this length as its twin.
fn has_set_half(vertices: &[Vertex], v: usize, len: usize, twin: Option<u32>) -> bool
    ensures { result ≡ has_set_half vertices.now v len twin }
{
    match twin {
        Some(twin) => v < twin as usize && is_set_half(vertices, v, len, twin as usize),
        None => false,
    }
}

/// Whether a set half has an earlier get half as its twin.
fn has_get_half(vertices: &[Vertex], v: usize, twin: Option<u32>) -> bool
    ensures { result ≡ has_get_half vertices.now v twin }
{
    match twin {
        Some(twin) => (twin as usize) < v && is_get_half(vertices, v, twin as usize),
        None => false,
    }
}

/// Whether `twin` is a set half of this length that has `v` as its twin.
fn is_set_half(vertices: &[Vertex], v: usize, len: usize, twin: usize) -> bool
    ensures { result ≡ with_vertex (slice_get vertices.now twin) false (is_set_half_of vertices.now v len) }
{
    match vertices.get(twin) {
        Some(twin) => {
            matches!(&twin.kind, Kind::Set)
                && is_named(twin.twin, v)
                && is_only_input(vertices, len, twin.ins.as_slice())
        }
        None => false,
    }
}

/// Whether `twin` is a get half that has `v` as its twin.
fn is_get_half(vertices: &[Vertex], v: usize, twin: usize) -> bool
    ensures { result ≡ with_vertex (slice_get vertices.now twin) false (is_get_half_of v) }
{
    match vertices.get(twin) {
        Some(twin) => matches!(&twin.kind, Kind::Get(_)) && is_named(twin.twin, v),
        None => false,
    }
}

/// Whether this twin is operation `v`.
fn is_named(twin: Option<u32>, v: usize) -> bool
    ensures { result ≡ is_number twin v }
{
    match twin {
        Some(twin) => twin as usize == v,
        None => false,
    }
}

/// Whether there is one input, of this length.
fn is_only_input(vertices: &[Vertex], len: usize, ins: &[Source]) -> bool
    ensures { result ≡ is_only len (lens_of vertices.now ins.now) }
{
    match ins {
        [only] => len_of(vertices, *only) as usize == len,
        _ => false,
    }
}
