//! The check of calls: each operation is called once, on what carries its inputs, into what carries its outputs.
ghost use Rattle.std.specs.Prelude.{◌≡◌, ◌+◌, ◌≤◌, ◌&&◌, Some, drop, length, nat_eq, nat_lt, slice_get};
ghost use Rattle.executive_program.specs.Graph.{same_source};
ghost use Rattle.executive_program.specs.Instructions.{turn};
ghost use Rattle.executive_program.specs.Places.{caller_of, carried, ins_in, outs_in};
ghost use Rattle.program_walks.specs.Walks.{all_at};
ghost use Rattle.order_check.specs.Calls.{are_called, called_at, carries, carry_guards, carry_inputs, gives, gives_at, has_len, has_output, is_before_twin, is_called, is_called_at, takes};

use crate::carrying::carried_by;
use executive_program::{Guard, Instr, Kind, Program, Source, Vertex};
use program_walks::{
    Act, Stand, caller_of, first_call, is_entry, is_only, len_of, medium_of, turn_of,
};

/// Whether an operation has this output, of this length.
pub fn has_output(vertices: &[Vertex], source: Source, len: u32) -> bool
    ensures { result ≡ has_output (slice_get vertices.now source.vertex) source.port len }
{
    match vertices.get(source.vertex as usize) {
        Some(vertex) => is_entry(vertex.outs.as_slice(), source.port as usize, len as usize),
        None => false,
    }
}

/// Whether the source that a buffer carries is this one.
fn is_source(program: &Program, buffer: u32, source: Source) -> bool
    ensures { result ≡ same_source (carried program.now buffer) source }
{
    let carried = carried_by(program, buffer as usize);
    carried.vertex == source.vertex && carried.port == source.port as usize
}

/// Whether a buffer is there and carries a source, in its length.
fn is_carried(program: &Program, vertices: &[Vertex], source: Source, buffer: u32) -> bool
    ensures { result ≡ carries program.now vertices.now source (Some buffer) }
{
    (buffer as usize) < program.buffers.as_slice().len()
        && is_source(program, buffer, source)
        && has_output(vertices, source, len_of(program, buffer as usize))
}

/// Whether the buffer at a place of a list carries a source; false where the list ends before.
fn carries(program: &Program, vertices: &[Vertex], source: &Source, list: &[u32], at: usize) -> bool
    ensures { result ≡ carries program.now vertices.now source.now (slice_get list.now at) }
{
    match list.get(at) {
        Some(buffer) => is_carried(program, vertices, *source, *buffer),
        None => false,
    }
}

/// Whether the first of these buffers carry the sources of the guards, in order.
fn carry_guards(program: &Program, vertices: &[Vertex], ins: &[u32], guards: &[Guard]) -> bool
    ensures { result ≡ carry_guards program.now vertices.now ins.now guards.now }
{
    for (place, guard) in guards.iter().enumerate() {
        if !carries(program, vertices, &guard.source, ins, place) {
            return false;
        }
    }
    true
}

/// Whether the first of these buffers carry these sources, in order.
fn carry_inputs(program: &Program, vertices: &[Vertex], ins: &[u32], sources: &[Source]) -> bool
    ensures { result ≡ carry_inputs program.now vertices.now ins.now sources.now }
{
    for (place, source) in sources.iter().enumerate() {
        if !carries(program, vertices, source, ins, place) {
            return false;
        }
    }
    true
}

/// Whether there are as many buffers as guards and sources together.
fn has_as_many(ins: &[u32], guards: &[Guard], sources: &[Source]) -> bool
    ensures { result ≡ nat_eq (length ins.now) (length guards.now + length sources.now) }
{
    ins.len() as u128 == guards.len() as u128 + sources.len() as u128
}

/// Whether the buffers after those of the guards carry the inputs of an operation.
fn carry_after(program: &Program, vertices: &[Vertex], ins: &[u32], x: &Vertex) -> bool
    requires { length x.now.guards ≤ length ins.now }
    ensures { result ≡ carry_inputs program.now vertices.now (drop (length x.now.guards) ins.now) x.now.ins }
{
    let first = x.guards.as_slice().len();
    carry_inputs(program, vertices, &ins[first..], x.ins.as_slice())
}

/// Whether these buffers carry what an operation takes: the sources of its guards, then its inputs, and no more.
fn takes(program: &Program, vertices: &[Vertex], ins: &[u32], x: &Vertex) -> bool
    ensures { result ≡ takes program.now vertices.now ins.now x.now.guards x.now.ins }
{
    has_as_many(ins, x.guards.as_slice(), x.ins.as_slice())
        && carry_guards(program, vertices, ins, x.guards.as_slice())
        && carry_after(program, vertices, ins, x)
}

/// Whether a buffer is there and has this length.
pub fn has_len(program: &Program, buffer: u32, len: u32) -> bool
    ensures { result ≡ has_len (slice_get program.now.buffers buffer) len }
{
    match program.buffers.as_slice().get(buffer as usize) {
        Some(found) => found.len == len,
        None => false,
    }
}

/// Whether a buffer carries this output of an operation.
fn is_output(program: &Program, operation: usize, port: usize, buffer: u32) -> bool
    ensures { result ≡ same_source (carried program.now buffer) (record { vertex = operation; port = port }) }
{
    let carried = carried_by(program, buffer as usize);
    carried.vertex as usize == operation && carried.port == port
}

/// Whether the buffer of an output carries it and has its length; false where there is none.
fn gives_at(program: &Program, operation: usize, port: usize, len: u32, outs: &[u32]) -> bool
    ensures { result ≡ gives_at program.now operation port len (slice_get outs.now port) }
{
    match outs.get(port) {
        Some(buffer) => {
            is_output(program, operation, port, *buffer) && has_len(program, *buffer, len)
        }
        None => false,
    }
}

/// Whether the first of these buffers carry the outputs of an operation, whose lengths are given.
fn give_all(program: &Program, operation: usize, outs: &[u32], lens: &[u32]) -> bool
    ensures { result ≡ all_at (λ k n. gives_at program.now operation k n (slice_get outs.now k)) 0 lens.now }
{
    for (port, len) in lens.iter().enumerate() {
        if !gives_at(program, operation, port, *len, outs) {
            return false;
        }
    }
    true
}

/// Whether these buffers carry the outputs of an operation, and no more.
fn gives(program: &Program, operation: usize, outs: &[u32], lens: &[u32]) -> bool
    ensures { result ≡ gives program.now operation outs.now lens.now }
{
    outs.len() == lens.len() && give_all(program, operation, outs, lens)
}

/// The place of the call of an operation in its caller's loop.
fn called_at(program: &Program, operation: usize) -> usize
    ensures { result ≡ called_at program.now operation }
{
    first_call(turn_of(program, caller_of(program, operation)), operation)
}

/// Whether a place stands before the call of the other half of a delay, in the same sequence.
fn is_before(program: &Program, stand: Stand, twin: usize) -> bool
    ensures { result ≡ (nat_eq stand.sequence (caller_of program.now twin) &&
        nat_lt stand.at (called_at program.now twin)) }
{
    stand.sequence == caller_of(program, twin) && stand.at < called_at(program, twin)
}

/// Whether a call, if it is that of the get half of a delay, stands before that of its set half in the same sequence.
fn is_before_twin(program: &Program, stand: Stand, kind: &Kind, twin: Option<u32>) -> bool
    ensures { result ≡ is_before_twin program.now stand.sequence stand.at kind.now twin }
{
    match kind {
        Kind::Get(_) => match twin {
            Some(twin) => is_before(program, stand, twin as usize),
            None => true,
        },
        _ => true,
    }
}

/// The buffers that the call at a place takes; none where there is no call.
pub fn ins_of(list: &[Instr], at: usize) -> &[u32]
    ensures { result.now ≡ ins_in (slice_get list.now at) }
{
    match list.get(at) {
        Some(Instr::Call { ins, .. }) => ins.as_slice(),
        _ => &[],
    }
}

/// The buffers into which the call at a place gives; none where there is no call.
pub fn outs_of(list: &[Instr], at: usize) -> &[u32]
    ensures { result.now ≡ outs_in (slice_get list.now at) }
{
    match list.get(at) {
        Some(Instr::Call { outs, .. }) => outs.as_slice(),
        _ => &[],
    }
}

/// Whether the call at a place takes what an operation asks for.
fn takes_at(program: &Program, vertices: &[Vertex], stand: Stand, x: &Vertex) -> bool
    ensures { result ≡ takes program.now vertices.now
        (ins_in (slice_get (turn program.now stand.sequence) stand.at)) x.now.guards x.now.ins }
{
    takes(
        program,
        vertices,
        ins_of(turn_of(program, stand.sequence), stand.at),
        x,
    )
}

/// Whether the call at a place gives the outputs of an operation.
fn gives_from(program: &Program, operation: usize, stand: Stand, x: &Vertex) -> bool
    ensures { result ≡ gives program.now operation
        (outs_in (slice_get (turn program.now stand.sequence) stand.at)) x.now.outs }
{
    gives(
        program,
        operation,
        outs_of(turn_of(program, stand.sequence), stand.at),
        x.outs.as_slice(),
    )
}

/// Whether an operation is called there and nowhere else, in a computation sequence, and takes and gives what it is
/// to, a get half before its set half.
fn is_called_at(
    program: &Program,
    vertices: &[Vertex],
    operation: usize,
    x: &Vertex,
    stand: Stand,
) -> bool
    ensures { result ≡ is_called_at program.now vertices.now operation x.now stand.sequence stand.at }
{
    is_only(program, Act::Call, operation, stand)
        && medium_of(program, stand.sequence).is_none()
        && takes_at(program, vertices, stand, x)
        && gives_from(program, operation, stand, x)
        && is_before_twin(program, stand, &x.kind, x.twin)
}

/// Whether an operation is called once and in the right way.
fn is_called(program: &Program, vertices: &[Vertex], operation: usize, x: &Vertex) -> bool
    ensures { result ≡ is_called program.now vertices.now operation x.now }
{
    let sequence = caller_of(program, operation);
    let at = called_at(program, operation);
    is_called_at(program, vertices, operation, x, Stand { sequence, at })
}

/// Whether each operation is called once, in a computation sequence, on buffers that carry its guards'
/// sources and its inputs, into buffers that carry its outputs; and the get half of a delay before its
/// set half in one sequence.
pub fn are_called(program: &Program, vertices: &[Vertex]) -> bool
    ensures { result ≡ are_called program.now vertices.now }
{
    for (operation, x) in vertices.iter().enumerate() {
        if !is_called(program, vertices, operation, x) {
            return false;
        }
    }
    true
}
