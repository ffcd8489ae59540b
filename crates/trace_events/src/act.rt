//! The events of an act. `chart` calls it for each.
ghost use Rattle.std.specs.Prelude.{◌≡◌, ◌++◌, [], OnOk, slice_get};
ghost use Rattle.self_timed.specs.Acts.{carry, run, sources_of};
ghost use Rattle.self_timed.specs.Graph.{operation_name};
ghost use Rattle.self_timed.specs.Archi.{operator_name};
ghost use Rattle.trace_events.specs.Events.{slice_text, text_of};
ghost use Rattle.trace_events.specs.Printed.{arrived};
ghost use Rattle.trace_events.specs.Trace.{act_events, act_name, medium_lane, operator_lane, reader_in, slice_of};

use crate::event::{Moment, Reader, append_slice_rest};
use crate::flow::{append_arrival, append_arrivals, append_departure, append_guard_arrivals};
use crate::word::{Word, append_word, bytes_of};
use self_timed::{Decision, Transfer, Vertex};
use syn_base::{Name, OutOfMemory, append, append_count};

/// The operations, the operators and the decisions of which a trace tells.
#[derive(Clone, Copy)]
pub struct Traced<'a> {
    pub vertices: &'a [Vertex],
    pub operators: &'a [Name],
    pub decisions: &'a [Decision],
}

/// The lane of an operator.
pub fn operator_lane(operator: u32) -> usize
    ensures { result ≡ operator_lane operator }
{
    operator as usize + 1
}

/// The lane of a medium.
pub fn medium_lane(medium: u32) -> usize
    ensures { result ≡ medium_lane medium }
{
    medium as usize + 17
}

/// Appends the events of an operation that lasts at this moment.
pub fn append_operation(
    out: &mut Vec<u8>,
    traced: &Traced,
    moment: Moment,
    decision: &Decision,
) -> Result<(), OutOfMemory>
    ensures { OnOk result (out.new.items ≡ out.old.items ++
        text_of (act_events traced.now.vertices.now
        traced.now.operators.now traced.now.decisions.now moment (run decision.now))) }
{
    let reader = operation_reader(moment, decision);
    append_operation_slice(out, traced, moment, decision)?;
    append_reads(out, traced, reader, decision.op)
}

/// Where an operation that lasts at this moment reads.
fn operation_reader(moment: Moment, decision: &Decision) -> Reader
    ensures { result ≡ reader_in moment (run decision.now) }
{
    Reader {
        reaction: moment.reaction,
        date: moment.start,
        lane: operator_lane(decision.operator),
        operator: decision.operator,
    }
}

/// Appends the events of a transfer that lasts at this moment.
#[tactic(auto, using(crate::proofs::Texts::transfer_text))]
pub fn append_transfer(
    out: &mut Vec<u8>,
    traced: &Traced,
    moment: Moment,
    transfer: Transfer,
) -> Result<(), OutOfMemory>
    ensures { OnOk result (out.new.items ≡ out.old.items ++
        text_of (act_events traced.now.vertices.now
        traced.now.operators.now traced.now.decisions.now moment (carry transfer))) }
{
    let reader = Reader {
        reaction: moment.reaction,
        date: moment.start,
        lane: medium_lane(transfer.medium),
        operator: transfer.from,
    };
    let bringer = Reader {
        reaction: moment.reaction,
        date: moment.start,
        lane: medium_lane(transfer.medium),
        operator: transfer.to,
    };
    append_transfer_slice(out, traced, moment, transfer)?;
    append_departure(out, transfer.source, bringer)?;
    append_arrival(out, traced.decisions, reader, transfer.source)
}

/// Appends for each value that an operation reads that it arrives, where a transfer has brought it.
fn append_reads(
    out: &mut Vec<u8>,
    traced: &Traced,
    reader: Reader,
    op: u32,
) -> Result<(), OutOfMemory>
    ensures { OnOk result (out.new.items ≡ out.old.items ++
        arrived traced.now.decisions.now reader (sources_of (slice_get traced.now.vertices.now
        op))) }
{
    match traced.vertices.get(op as usize) {
        None => Ok(()),
        Some(vertex) => append_vertex_reads(out, traced, reader, vertex),
    }
}

/// Appends the same of an operation that is there.
#[tactic(auto, using(crate::proofs::Texts::arrived_append))]
fn append_vertex_reads(
    out: &mut Vec<u8>,
    traced: &Traced,
    reader: Reader,
    vertex: &Vertex,
) -> Result<(), OutOfMemory>
    ensures { OnOk result (out.new.items ≡ out.old.items ++
        arrived traced.now.decisions.now reader (sources_of (Some vertex.now))) }
{
    append_guard_arrivals(out, traced.decisions, reader, vertex.guards.as_slice())?;
    append_arrivals(out, traced.decisions, reader, vertex.ins.as_slice())
}

/// Appends that an operation lasts.
fn append_operation_slice(
    out: &mut Vec<u8>,
    traced: &Traced,
    moment: Moment,
    decision: &Decision,
) -> Result<(), OutOfMemory>
    ensures { OnOk result (out.new.items ≡ out.old.items ++ slice_text
        (slice_of traced.now.vertices.now traced.now.operators.now moment (run decision.now))) }
{
    append_word(out, Word::Slice)?;
    append(out, operation_name(traced.vertices, decision.op))?;
    append_slice_rest(
        out,
        bytes_of(Word::Operation),
        operator_lane(decision.operator),
        moment,
    )
}

/// Appends that a transfer lasts.
fn append_transfer_slice(
    out: &mut Vec<u8>,
    traced: &Traced,
    moment: Moment,
    transfer: Transfer,
) -> Result<(), OutOfMemory>
    ensures { OnOk result (out.new.items ≡ out.old.items ++ slice_text
        (slice_of traced.now.vertices.now traced.now.operators.now moment (carry transfer))) }
{
    append_word(out, Word::Slice)?;
    append_transfer_name(out, traced, transfer)?;
    append_slice_rest(
        out,
        bytes_of(Word::Transfer),
        medium_lane(transfer.medium),
        moment,
    )
}

/// Appends the name of a transfer: the operation that makes the value, the number of the output,
/// and the operators from which and to which the value is carried.
fn append_transfer_name(
    out: &mut Vec<u8>,
    traced: &Traced,
    transfer: Transfer,
) -> Result<(), OutOfMemory>
    ensures { OnOk result (out.new.items ≡ out.old.items ++
        act_name traced.now.vertices.now traced.now.operators.now (carry transfer)) }
{
    append(out, operation_name(traced.vertices, transfer.source.vertex))?;
    append_word(out, Word::Dot)?;
    append_count(out, transfer.source.port as usize)?;
    append_word(out, Word::Blank)?;
    append(out, operator_name(traced.operators, transfer.from))?;
    append_word(out, Word::To)?;
    append(out, operator_name(traced.operators, transfer.to))
}

/// The name of an operation, empty where there is none of this number.
fn operation_name(vertices: &[Vertex], op: u32) -> &[u8]
    ensures { result.now ≡ operation_name vertices.now op }
{
    match vertices.get(op as usize) {
        Some(vertex) => vertex.name.as_slice(),
        None => b"",
    }
}

/// The name of an operator, empty where there is none of this number.
fn operator_name(operators: &[Name], operator: u32) -> &[u8]
    ensures { result.now ≡ operator_name operators.now operator }
{
    let operator = operator as usize;
    if operator < operators.len() {
        operators[operator].as_bytes()
    } else {
        b""
    }
}
