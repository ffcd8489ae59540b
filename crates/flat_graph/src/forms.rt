//! The forms of operations: the number and lengths of the inputs and outputs of each kind. `valid` calls it.
ghost use Rattle.std.specs.Prelude.{◌≡◌, map, slice_get, Some};
ghost use Rattle.std.specs.List.{list_all};
ghost use Rattle.body_lang.specs.Expr.{view};
ghost use Rattle.flat_graph.specs.Graph.{lens_of};
ghost use Rattle.flat_graph.specs.Valid.{fits, is_body, is_in_equal_parts, is_merge, is_only, ports_below};

use crate::lengths::{adds_up, are_equal, are_equally_long, is_only, len_of, sources_add_up};
use crate::vertex::{Kind, Source, Vertex};
use body_lang::{Body, Expr, has_ports_below};

/// Whether an operation's inputs and outputs have the number and lengths of its kind.
pub fn fits(vertices: &[Vertex], bodies: &[Body], vertex: &Vertex) -> bool
    ensures { result ≡ fits bodies.now vertex.now.kind (lens_of vertices.now vertex.now.ins) vertex.now.outs }
{
    let ins = vertex.ins.as_slice();
    let outs = vertex.outs.as_slice();
    match &vertex.kind {
        Kind::Sensor(_) => ins.is_empty() && outs.len() == 1,
        Kind::Actuator(_) => ins.len() == 1 && outs.is_empty(),
        Kind::Function(body) => is_function(bodies, *body, ins.len(), outs.len()),
        Kind::Constant(values) => ins.is_empty() && is_only(values.as_slice().len(), outs),
        Kind::Get(values) => ins.is_empty() && is_only(values.as_slice().len(), outs),
        Kind::Set => ins.len() == 1 && outs.is_empty(),
        Kind::Explode => is_explode(vertices, ins, outs),
        Kind::Implode => is_implode(vertices, ins, outs),
        Kind::Merge(values) => is_merge(vertices, values.as_slice().len(), ins, outs),
    }
}

/// Whether the body of this number is there, and is one of this many inputs and outputs.
fn is_function(bodies: &[Body], body: u32, ins: usize, outs: usize) -> bool
    ensures { result ≡ is_body ins outs (slice_get bodies.now body) }
{
    match bodies.get(body as usize) {
        Some(body) => is_body(body.outputs(), ins, outs),
        None => false,
    }
}

/// Whether a body has an expression for each output, of which there is one at least, over inputs that are
/// there.
fn is_body(body: &[Expr], ins: usize, outs: usize) -> bool
    ensures { result ≡ is_body ins outs (Some (map view body.now)) }
{
    outs > 0 && (body.len() == outs && are_expressions(body, ins))
}

/// Whether each expression names ports below `ins` alone.
fn are_expressions(body: &[Expr], ins: usize) -> bool
    ensures { result ≡ list_all (λ e. ports_below ins (view e)) body.now }
{
    body.iter().all(|e| is_expression(e, ins))
}

/// Whether an expression names ports below `ins` alone.
fn is_expression(e: &Expr, ins: usize) -> bool
    ensures { result ≡ ports_below ins (view e.now) }
{
    has_ports_below(e, ins)
}

/// Whether there is one input, which is as long as the outputs together, and these are equally long.
fn is_explode(vertices: &[Vertex], ins: &[Source], outs: &[u32]) -> bool
    ensures { result ≡ is_in_equal_parts (lens_of vertices.now ins.now) outs.now }
{
    match ins {
        [only] => adds_up(len_of(vertices, *only), outs) && are_equal(outs),
        _ => false,
    }
}

/// Whether there is one output, which is as long as the inputs together, and these are equally long.
#[tactic(auto, using(crate::proofs::Bodies::sum_map))]
fn is_implode(vertices: &[Vertex], ins: &[Source], outs: &[u32]) -> bool
    ensures { result ≡ is_in_equal_parts outs.now (lens_of vertices.now ins.now) }
{
    match outs {
        [only] => sources_add_up(vertices, *only, ins) && are_equally_long(vertices, ins),
        _ => false,
    }
}

/// Whether there is a conditioning input of one element, and after it an input as long as the one output for
/// each case, of which there is one more than values.
fn is_merge(vertices: &[Vertex], values: usize, ins: &[Source], outs: &[u32]) -> bool
    ensures { result ≡ is_merge values (lens_of vertices.now ins.now) outs.now }
{
    match ins {
        [] => false,
        [condition, cases @ ..] => {
            len_of(vertices, *condition) == 1
                && !cases.is_empty()
                && cases.len() - 1 == values
                && have_length_of(vertices, cases, outs)
        }
    }
}

/// Whether each source is as long as the one output.
fn have_length_of(vertices: &[Vertex], sources: &[Source], outs: &[u32]) -> bool
    ensures { result ≡ list_all (λ n. is_only n outs.now) (lens_of vertices.now sources.now) }
{
    for source in sources {
        if !is_only(len_of(vertices, *source) as usize, outs) {
            return false;
        }
    }
    true
}
