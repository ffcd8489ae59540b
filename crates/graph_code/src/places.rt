//! Where the values of a flat graph stand in the store.
ghost use Rattle.std.specs.Prelude.{◌≡◌, ◌+◌, IfOk, sum};
ghost use Rattle.graph_code.specs.Places.{output_span, span_of, starts_from, width_of, ArePlaces};

use expression_code::Span;
use flat_graph::{Source, Vertex};
use std::alloc::Global;
use syn_base::{OutOfMemory, len_at};

/// Where the outputs of each operation begin, and how many words all of them have.
#[derive(Drop)]
pub struct Places {
    pub starts: Vec<usize>,
    pub width: usize,
}

/// Where vectors of these lengths end, if the first begins at a place.
fn end_after(start: usize, lens: &[u32]) -> Result<usize, OutOfMemory>
    ensures { IfOk result (λ end. end ≡ start + sum lens.now) }
{
    let mut end = start;
    for len in lens {
        // More words than that are in no memory.
        end = end.checked_add(*len as usize).ok_or(OutOfMemory)?;
    }
    Ok(end)
}

/// How many words vectors of these lengths have.
pub fn sum_of(lens: &[u32]) -> Result<usize, OutOfMemory>
    ensures { IfOk result (λ width. width ≡ sum lens.now) }
{
    end_after(0, lens)
}

/// Where the outputs of the operations stand.
pub fn find_places(alloc: Global, vertices: &[Vertex]) -> Result<Places, OutOfMemory>
    ensures { IfOk result (ArePlaces vertices.now) }
{
    let mut starts = Vec::with_capacity(alloc, vertices.len())?;
    let mut width = 0;
    for vertex in vertices {
        starts.push(width)?;
        width = end_after(width, vertex.outs.as_slice())?;
    }
    Ok(Places { starts, width })
}

/// Where output `port` of an operation stands whose outputs begin at a place.
pub fn output_span(start: usize, outs: &[u32], port: usize) -> Result<Span, OutOfMemory>
    ensures { IfOk result (λ span. span ≡ output_span start outs.now port) }
{
    let before = &outs[..port.min(outs.len())];
    Ok(Span {
        start: end_after(start, before)?,
        len: len_at(outs, port) as usize,
    })
}

/// Where a source stands; an empty span if there is none.
pub fn span_of(vertices: &[Vertex], starts: &[usize], source: Source) -> Result<Span, OutOfMemory>
    requires { starts.now ≡ starts_from 0 vertices.now }
    ensures { IfOk result (λ span. span ≡ span_of vertices.now source) }
{
    let v = source.vertex as usize;
    if v < vertices.len() {
        let vertex = &vertices[v];
        output_span(starts[v], vertex.outs.as_slice(), source.port as usize)
    } else {
        Ok(Span { start: 0, len: 0 })
    }
}
