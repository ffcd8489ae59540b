//! The code of one operation, and how it is made.
ghost use Rattle.std.specs.Prelude.{◌≡◌, ◌≤◌, ◌<◌, All, IfOk, length, map};
ghost use Rattle.flat_graph.specs.Expr.{view, PortsBelow};
ghost use Rattle.expression_code.specs.Compiled.{AreBelow};
ghost use Rattle.graph_code.specs.Places.{span_of, starts_from, width_of};
ghost use Rattle.graph_code.specs.Compiled.{AreInputs, AreOutputs, HasCodeAt, IsOperationAt, IsOutput};

use crate::places::{output_span, span_of, sum_of};
use body_lang::Expr;
use expression_code::{Code, Span, compile};
use flat_graph::{Flat, Guard, Kind, Source, Vertex};
use std::alloc::Global;
use syn_base::OutOfMemory;

/// The code of one output of a function.
#[derive(Drop)]
pub struct Output {
    pub code: Code,
    /// Where its values stand after a run of the code.
    pub at: usize,
    /// Where they go.
    pub to: Span,
}

/// The code of an operation. Its outputs stand one after another in the store.
#[derive(Drop)]
pub struct Operation {
    /// Where its outputs stand, all together.
    pub to: Span,
    /// Where its inputs stand, in port order.
    pub inputs: Vec<Span>,
    /// Where the sources of its guards stand, in order.
    pub conditions: Vec<Span>,
    /// The outputs of a function, in port order, and none for any other kind.
    pub outputs: Vec<Output>,
}

/// How many words a store has: for the values of the graph, and with those that codes need beside them.
#[derive(Clone, Copy, Debug, PartialEq, Eq)]
pub struct Sizes {
    pub values: usize,
    pub all: usize,
}

/// Where some sources stand.
fn spans_of(
    alloc: Global,
    vertices: &[Vertex],
    starts: &[usize],
    sources: &[Source],
) -> Result<Vec<Span>, OutOfMemory>
    requires { starts.now ≡ starts_from 0 vertices.now }
    ensures { IfOk result (λ spans. spans.items ≡ map (span_of vertices.now) sources.now) }
{
    let mut spans = Vec::with_capacity(alloc, sources.len())?;
    for source in sources {
        spans.push(span_of(vertices, starts, *source)?)?;
    }
    Ok(spans)
}

/// Where the sources of some guards stand.
fn condition_spans(
    alloc: Global,
    vertices: &[Vertex],
    starts: &[usize],
    guards: &[Guard],
) -> Result<Vec<Span>, OutOfMemory>
    requires { starts.now ≡ starts_from 0 vertices.now }
    ensures { IfOk result (λ spans.
        spans.items ≡ map (λ g. span_of vertices.now g.source) guards.now) }
{
    let mut spans = Vec::with_capacity(alloc, guards.len())?;
    for guard in guards {
        spans.push(span_of(vertices, starts, guard.source)?)?;
    }
    Ok(spans)
}

/// The code of one output, over inputs that stand in these spans, with room for it in the store.
fn compile_output(
    alloc: Global,
    e: &Expr,
    inputs: &[Span],
    to: Span,
    sizes: &mut Sizes,
) -> Result<Output, OutOfMemory>
    requires ports { PortsBelow (length inputs.now) (view e.now) }
    requires below { AreBelow sizes.old.values inputs.now }
    ensures output { IfOk result
        (IsOutput inputs.now sizes.new.values sizes.new.all to (view e.now)) }
    ensures values { sizes.new.values ≡ sizes.old.values }
    ensures room { sizes.old.all ≤ sizes.new.all }
{
    let mut code = Code::new(alloc, sizes.values);
    let at = compile(e, inputs, to.len, &mut code)?;
    sizes.all = sizes.all.max(code.end());
    Ok(Output { code, at, to })
}

/// The codes of the outputs of a function, of these lengths, the first of which begins at a place.
fn compile_body(
    alloc: Global,
    body: &[Expr],
    inputs: &[Span],
    outs: &[u32],
    start: usize,
    sizes: &mut Sizes,
) -> Result<Vec<Output>, OutOfMemory>
    requires body { length body.now ≡ length outs.now }
    requires ports { All (λ e. PortsBelow (length inputs.now) (view e)) body.now }
    requires below { AreBelow sizes.old.values inputs.now }
    ensures outputs { IfOk result (λ os.
        AreOutputs inputs.now sizes.new.values sizes.new.all start outs.now (map view body.now)
        os.items) }
    ensures values { sizes.new.values ≡ sizes.old.values }
    ensures room { sizes.old.all ≤ sizes.new.all }
{
    let mut outputs = Vec::with_capacity(alloc, body.len())?;
    for (port, e) in body.iter().enumerate() {
        let to = output_span(start, outs, port)?;
        outputs.push(compile_output(alloc, e, inputs, to, sizes)?)?;
    }
    Ok(outputs)
}

/// The codes of the outputs of operation v, the first of which begins at a place; none if it is no
/// function.
fn compile_outputs(
    alloc: Global,
    flat: &Flat,
    v: usize,
    inputs: &[Span],
    start: usize,
    sizes: &mut Sizes,
) -> Result<Vec<Output>, OutOfMemory>
    requires there { v < length flat.now.vertices }
    requires inputs { AreInputs flat.now v inputs.now }
    requires values { sizes.old.values ≡ width_of flat.now.vertices }
    ensures outputs { IfOk result (λ os.
        HasCodeAt flat.now sizes.new.all v inputs.now start os.items) }
    ensures values { sizes.new.values ≡ sizes.old.values }
    ensures room { sizes.old.all ≤ sizes.new.all }
{
    let vertex = &flat.vertices()[v];
    match &vertex.kind {
        Kind::Function(body) => {
            let body = flat.bodies()[*body as usize].outputs();
            compile_body(alloc, body, inputs, vertex.outs.as_slice(), start, sizes)
        }
        _ => Ok(Vec::new(alloc)),
    }
}

/// The code of operation v.
pub fn compile_operation(
    alloc: Global,
    flat: &Flat,
    v: usize,
    starts: &[usize],
    sizes: &mut Sizes,
) -> Result<Operation, OutOfMemory>
    requires there { v < length flat.now.vertices }
    requires starts { starts.now ≡ starts_from 0 flat.now.vertices }
    requires values { sizes.old.values ≡ width_of flat.now.vertices }
    ensures operation { IfOk result (IsOperationAt flat.now sizes.new.all v) }
    ensures values { sizes.new.values ≡ sizes.old.values }
    ensures room { sizes.old.all ≤ sizes.new.all }
{
    let vertices = flat.vertices();
    let vertex = &vertices[v];
    let start = starts[v];
    let len = sum_of(vertex.outs.as_slice())?;
    let inputs = spans_of(alloc, vertices, starts, vertex.ins.as_slice())?;
    let conditions = condition_spans(alloc, vertices, starts, vertex.guards.as_slice())?;
    let outputs = compile_outputs(alloc, flat, v, &inputs, start, sizes)?;
    let to = Span { start, len };
    Ok(Operation {
        to,
        inputs,
        conditions,
        outputs,
    })
}
