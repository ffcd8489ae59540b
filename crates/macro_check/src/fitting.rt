//! The check that the buffers of each call carry what its operation takes and gives.
ghost use Rattle.std.specs.Prelude.{◌≡◌, ◌+◌, ◌<◌, ◌≤◌, ◌&&◌, Some, drop, length, nat_eq, slice_get};
ghost use Rattle.sequence_build_laws.specs.Instructions.{turn};
ghost use Rattle.sequence_build_laws.specs.Places.{carried};
ghost use Rattle.sequence_build_laws.specs.Graph.{same_source};
ghost use Rattle.program_walks.specs.Walks.{all_at};
ghost use Rattle.order_check.specs.Calls.{carries, carry_guards, carry_inputs, gives, gives_at, has_len, takes};
ghost use Rattle.check_laws.specs.Tests.{fits, fits_at};
ghost use Rattle.macro_check.specs.Carrying.{follow_all, met_in};
ghost use Rattle.macro_check.specs.Tabled.{AreTables};

use crate::carrying::origin_in;
use crate::tables::Tables;
use order_check::{Origin, has_len, has_output, ins_of, outs_of};
use program_tables::call_of;
use program_walks::{Stand, len_of, turn_of};
use sequence_build_laws::{Guard, Program, Source, Vertex};

/// Whether a buffer carries this output of an operation, by the table of what is met from each buffer.
fn is_source(sources: &[Origin], buffer: usize, vertex: usize, port: usize) -> bool
    ensures { result ≡ same_source (met_in sources.now buffer) (record { vertex = vertex; port = port }) }
{
    match origin_in(sources, buffer) {
        Origin::Made {
            vertex: found,
            port: output,
        } => found as usize == vertex && output == port,
        _ => vertex == 0 && port == 0,
    }
}

/// Whether a buffer carries a source.
fn carries_source(program: &Program, sources: &[Origin], buffer: u32, source: Source) -> bool
    requires table { sources.now ≡ follow_all program.now (length program.now.buffers) }
    requires within { buffer < length program.now.buffers }
    ensures { result ≡ same_source (carried program.now buffer) source }
{
    is_source(
        sources,
        buffer as usize,
        source.vertex as usize,
        source.port as usize,
    )
}

/// Whether a buffer is there and carries a source, in its length.
fn is_carried(
    program: &Program,
    sources: &[Origin],
    vertices: &[Vertex],
    source: Source,
    buffer: u32,
) -> bool
    requires { sources.now ≡ follow_all program.now (length program.now.buffers) }
    ensures { result ≡ carries program.now vertices.now source (Some buffer) }
{
    (buffer as usize) < program.buffers.as_slice().len()
        && carries_source(program, sources, buffer, source)
        && has_output(vertices, source, len_of(program, buffer as usize))
}

/// Whether the buffer at a place of a list carries a source; false where the list ends before.
pub fn carries(
    program: &Program,
    sources: &[Origin],
    vertices: &[Vertex],
    source: &Source,
    list: &[u32],
    at: usize,
) -> bool
    requires { sources.now ≡ follow_all program.now (length program.now.buffers) }
    ensures { result ≡ carries program.now vertices.now source.now (slice_get list.now at) }
{
    match list.get(at) {
        Some(buffer) => is_carried(program, sources, vertices, *source, *buffer),
        None => false,
    }
}

/// Whether the first of these buffers carry the sources of the guards, in order.
fn carry_guards(
    program: &Program,
    sources: &[Origin],
    vertices: &[Vertex],
    ins: &[u32],
    guards: &[Guard],
) -> bool
    requires { sources.now ≡ follow_all program.now (length program.now.buffers) }
    ensures { result ≡ carry_guards program.now vertices.now ins.now guards.now }
{
    for (place, guard) in guards.iter().enumerate() {
        if !carries(program, sources, vertices, &guard.source, ins, place) {
            return false;
        }
    }
    true
}

/// Whether the first of these buffers carry these inputs, in order.
fn carry_inputs(
    program: &Program,
    sources: &[Origin],
    vertices: &[Vertex],
    ins: &[u32],
    inputs: &[Source],
) -> bool
    requires { sources.now ≡ follow_all program.now (length program.now.buffers) }
    ensures { result ≡ carry_inputs program.now vertices.now ins.now inputs.now }
{
    for (place, source) in inputs.iter().enumerate() {
        if !carries(program, sources, vertices, source, ins, place) {
            return false;
        }
    }
    true
}

/// Whether there are as many buffers as guards and inputs together.
fn has_as_many(ins: &[u32], guards: &[Guard], inputs: &[Source]) -> bool
    ensures { result ≡ nat_eq (length ins.now) (length guards.now + length inputs.now) }
{
    ins.len() as u128 == guards.len() as u128 + inputs.len() as u128
}

/// Whether the buffers after those of the guards carry the inputs of an operation.
fn carry_after(
    program: &Program,
    sources: &[Origin],
    vertices: &[Vertex],
    ins: &[u32],
    x: &Vertex,
) -> bool
    requires table { sources.now ≡ follow_all program.now (length program.now.buffers) }
    requires within { length x.now.guards ≤ length ins.now }
    ensures { result ≡ carry_inputs program.now vertices.now (drop (length x.now.guards) ins.now) x.now.ins }
{
    let first = x.guards.as_slice().len();
    carry_inputs(program, sources, vertices, &ins[first..], x.ins.as_slice())
}

/// Whether these buffers carry what an operation takes: the sources of its guards, then its inputs, and no more.
fn takes(
    program: &Program,
    sources: &[Origin],
    vertices: &[Vertex],
    ins: &[u32],
    x: &Vertex,
) -> bool
    requires { sources.now ≡ follow_all program.now (length program.now.buffers) }
    ensures { result ≡ takes program.now vertices.now ins.now x.now.guards x.now.ins }
{
    has_as_many(ins, x.guards.as_slice(), x.ins.as_slice())
        && carry_guards(program, sources, vertices, ins, x.guards.as_slice())
        && carry_after(program, sources, vertices, ins, x)
}

/// Whether a buffer has a length, and what is met from it is an output of an operation.
fn is_given_as(
    program: &Program,
    sources: &[Origin],
    operation: usize,
    port: usize,
    len: u32,
    buffer: u32,
) -> bool
    ensures { result ≡ (has_len (slice_get program.now.buffers buffer) len &&
        same_source (met_in sources.now buffer) (record { vertex = operation; port = port })) }
{
    has_len(program, buffer, len) && is_source(sources, buffer as usize, operation, port)
}

/// Whether a buffer has a length, and carries an output of an operation.
fn is_given(
    program: &Program,
    sources: &[Origin],
    operation: usize,
    port: usize,
    len: u32,
    buffer: u32,
) -> bool
    requires { sources.now ≡ follow_all program.now (length program.now.buffers) }
    ensures { result ≡ gives_at program.now operation port len (Some buffer) }
{
    is_given_as(program, sources, operation, port, len, buffer)
}

/// Whether the buffer of an output carries it and has its length; false where there is none.
pub fn gives_at(
    program: &Program,
    sources: &[Origin],
    operation: usize,
    port: usize,
    len: u32,
    outs: &[u32],
) -> bool
    requires { sources.now ≡ follow_all program.now (length program.now.buffers) }
    ensures { result ≡ gives_at program.now operation port len (slice_get outs.now port) }
{
    match outs.get(port) {
        Some(buffer) => is_given(program, sources, operation, port, len, *buffer),
        None => false,
    }
}

/// Whether the first of these buffers carry the outputs of an operation, whose lengths are given.
fn give_all(
    program: &Program,
    sources: &[Origin],
    operation: usize,
    outs: &[u32],
    lens: &[u32],
) -> bool
    requires { sources.now ≡ follow_all program.now (length program.now.buffers) }
    ensures { result ≡ all_at (λ k n. gives_at program.now operation k n (slice_get outs.now k)) 0 lens.now }
{
    for (port, len) in lens.iter().enumerate() {
        if !gives_at(program, sources, operation, port, *len, outs) {
            return false;
        }
    }
    true
}

/// Whether these buffers carry the outputs of an operation, and no more.
fn gives(
    program: &Program,
    sources: &[Origin],
    operation: usize,
    outs: &[u32],
    lens: &[u32],
) -> bool
    requires { sources.now ≡ follow_all program.now (length program.now.buffers) }
    ensures { result ≡ gives program.now operation outs.now lens.now }
{
    outs.len() == lens.len() && give_all(program, sources, operation, outs, lens)
}

/// Whether the call at a place takes and gives what the operation asks for.
fn fits_at(
    program: &Program,
    sources: &[Origin],
    vertices: &[Vertex],
    operation: usize,
    x: &Vertex,
    call: Stand,
) -> bool
    requires { sources.now ≡ follow_all program.now (length program.now.buffers) }
    ensures { result ≡ fits_at program.now vertices.now operation x.now call.sequence call.at }
{
    let turn = turn_of(program, call.sequence);
    takes(program, sources, vertices, ins_of(turn, call.at), x)
        && gives(
            program,
            sources,
            operation,
            outs_of(turn, call.at),
            x.outs.as_slice(),
        )
}

/// Whether the call of an operation takes and gives what the operation asks for.
fn fits(
    program: &Program,
    tables: &Tables,
    sources: &[Origin],
    vertices: &[Vertex],
    operation: usize,
    x: &Vertex,
) -> bool
    requires tables { AreTables program.now tables.now }
    requires sources { sources.now ≡ follow_all program.now (length program.now.buffers) }
    requires within { operation < tables.now.operations }
    ensures { result ≡ fits program.now vertices.now operation x.now }
{
    let call = call_of(program, operation, tables.calls.of(operation));
    fits_at(program, sources, vertices, operation, x, call)
}

/// Whether the buffers of each call carry what the operation takes and gives.
pub fn are_fitting(
    program: &Program,
    tables: &Tables,
    sources: &[Origin],
    vertices: &[Vertex],
) -> bool
    requires tables { AreTables program.now tables.now }
    requires sources { sources.now ≡ follow_all program.now (length program.now.buffers) }
    requires all { length vertices.now ≤ tables.now.operations }
    ensures { result ≡ all_at (λ v x. fits program.now vertices.now v x) 0 vertices.now }
{
    for (operation, x) in vertices.iter().enumerate() {
        if !fits(program, tables, sources, vertices, operation, x) {
            return false;
        }
    }
    true
}
