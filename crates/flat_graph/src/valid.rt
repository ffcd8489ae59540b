//! The validity of a flat graph: which operations and bodies make one.
ghost use Rattle.std.specs.Prelude.{◌≡◌};
ghost use Rattle.std.specs.List.{list_all, list_any};
ghost use Rattle.std.specs.Str.{bytes_eq};
ghost use Rattle.flat_graph.specs.Valid.{all_from, are_named_apart, is_flat, is_guard, is_path, is_path_byte, is_vertex};

use crate::forms::fits;
use crate::lengths::{are_lens, are_there, len_of};
use crate::numbering::{are_actuators_numbered, are_sensors_numbered};
use crate::order::is_acyclic;
use crate::twins::has_twin;
use crate::vertex::{Guard, Vertex};
use body_lang::Body;

/// The most operations.
const MOST: usize = 2048;

/// Whether these operations and bodies are valid: at most 2,048 operations with distinct names of
/// allowed bytes; lengths of 1 to 64 and at most 64 outputs; sources that are there; a guard's source
/// of one element, and its case at most the number of its values; inputs and outputs of the number
/// and lengths of the kind, the parts of an explode and those of an implode equally long; bodies of one
/// expression for each output over ports that are there; the halves of each delay each other's twins, the
/// set half later; sensors and actuators numbered from 0 in order; and no operation that depends on
/// itself. It takes no memory.
pub fn is_flat(vertices: &[Vertex], bodies: &[Body]) -> bool
    ensures { result ≡ is_flat (record { vertices = vertices.now; bodies = bodies.now }) }
{
    if vertices.len() > MOST {
        return false;
    }
    are_named_apart(vertices)
        && are_all_valid(vertices, bodies)
        && are_sensors_numbered(vertices)
        && are_actuators_numbered(vertices)
        && is_acyclic(vertices)
}

/// Whether no two operations have the same name.
fn are_named_apart(vertices: &[Vertex]) -> bool
    ensures { result ≡ are_named_apart vertices.now }
{
    for (i, vertex) in vertices.iter().enumerate() {
        if is_named(&vertices[i + 1..], vertex.name.as_slice()) {
            return false;
        }
    }
    true
}

/// Whether one of these operations has this name.
fn is_named(vertices: &[Vertex], name: &[u8]) -> bool
    ensures { result ≡ list_any (λ y. bytes_eq name.now y.name) vertices.now }
{
    vertices.iter().any(|vertex| name == vertex.name.as_slice())
}

/// Whether each operation is valid.
fn are_all_valid(vertices: &[Vertex], bodies: &[Body]) -> bool
    ensures { result ≡ all_from (is_vertex (record { vertices = vertices.now; bodies = bodies.now })) 0 vertices.now }
{
    for (v, vertex) in vertices.iter().enumerate() {
        if !is_valid(vertices, bodies, v, vertex) {
            return false;
        }
    }
    true
}

/// Whether operation `v` is valid among the others.
fn is_valid(vertices: &[Vertex], bodies: &[Body], v: usize, vertex: &Vertex) -> bool
    ensures { result ≡ is_vertex (record { vertices = vertices.now; bodies = bodies.now }) v vertex.now }
{
    is_path(vertex.name.as_slice())
        && are_lens(vertex.outs.as_slice())
        && are_guards(vertices, vertex.guards.as_slice())
        && are_there(vertices, vertex.ins.as_slice())
        && fits(vertices, bodies, vertex)
        && has_twin(vertices, v, vertex)
}

/// Whether this is the text of a path: one byte at least, and allowed bytes alone.
fn is_path(name: &[u8]) -> bool
    ensures { result ≡ is_path name.now }
{
    !name.is_empty() && are_path_bytes(name)
}

/// Whether each byte may stand in a path.
fn are_path_bytes(name: &[u8]) -> bool
    ensures { result ≡ list_all is_path_byte name.now }
{
    name.iter().all(|byte| is_path_byte(*byte))
}

/// Whether this is a letter, a digit, `_`, `.`, `/` or `:`.
fn is_path_byte(byte: u8) -> bool
    ensures { result ≡ is_path_byte byte }
{
    byte.is_ascii_alphanumeric() || matches!(byte, b'_' | b'.' | b'/' | b':')
}

/// Whether each guard is valid.
fn are_guards(vertices: &[Vertex], guards: &[Guard]) -> bool
    ensures { result ≡ list_all (is_guard vertices.now) guards.now }
{
    guards.iter().all(|guard| is_guard(vertices, guard))
}

/// Whether a guard's source has one element, and its case is there.
fn is_guard(vertices: &[Vertex], guard: &Guard) -> bool
    ensures { result ≡ is_guard vertices.now guard.now }
{
    len_of(vertices, guard.source) == 1 && (guard.case as usize) <= guard.values.as_slice().len()
}
