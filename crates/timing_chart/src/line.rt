//! The lines of a chart, which `chart` puts one after the other.
ghost use Rattle.std.specs.Prelude.{◌≡◌, ◌++◌, ◌∷◌, [], OnOk, codes};
ghost use Rattle.std.specs.Fmt.{decimal};
ghost use Rattle.schedule.specs.Graph.{operation_name};
ghost use Rattle.schedule.specs.Archi.{operator_name};
ghost use Rattle.schedule.specs.Acts.{carry, run};
ghost use Rattle.timing_chart.specs.Chart.{act_line, line_text, rest_of_line};

use schedule::{Decision, Transfer, Vertex};
use syn_base::{Name, OutOfMemory, append, append_count};

/// The operations and the operators of which a chart tells.
#[derive(Clone, Copy)]
pub struct Named<'a> {
    pub vertices: &'a [Vertex],
    pub operators: &'a [Name],
}

/// Appends the line of an operation: its start, its end and its name.
pub fn append_operation(
    out: &mut Vec<u8>,
    named: &Named,
    decision: &Decision,
) -> Result<(), OutOfMemory>
    ensures { OnOk result (out.new.items ≡ out.old.items ++
        line_text (act_line named.now.vertices.now named.now.operators.now (run decision.now))) }
{
    append_dates(out, decision.start, decision.end)?;
    append(out, operation_name(named.vertices, decision.op))?;
    append(out, b"\n")
}

/// Appends the line of a transfer: its start and its end, the operation that makes the value and the
/// number of the output, and the operators from which and to which the value is carried.
pub fn append_transfer(
    out: &mut Vec<u8>,
    named: &Named,
    transfer: Transfer,
) -> Result<(), OutOfMemory>
    ensures { OnOk result (out.new.items ≡ out.old.items ++
        line_text (act_line named.now.vertices.now named.now.operators.now (carry transfer))) }
{
    append_dates(out, transfer.start, transfer.end)?;
    append_value(out, named.vertices, transfer)?;
    append_ends(out, named.operators, transfer)
}

/// Appends both dates, each before a blank.
fn append_dates(out: &mut Vec<u8>, start: u64, end: u64) -> Result<(), OutOfMemory>
    ensures { OnOk result (out.new.items ≡ out.old.items ++
        (decimal start ++ (codes " " ++ (decimal end ++ codes " ")))) }
{
    append_count(out, start as usize)?;
    append(out, b" ")?;
    append_count(out, end as usize)?;
    append(out, b" ")
}

/// Appends the operation and the number of its output.
fn append_value(
    out: &mut Vec<u8>,
    vertices: &[Vertex],
    transfer: Transfer,
) -> Result<(), OutOfMemory>
    ensures { OnOk result (out.new.items ≡ out.old.items ++
        (operation_name vertices.now transfer.source.vertex ++
        (codes " " ++ decimal transfer.source.port))) }
{
    append(out, operation_name(vertices, transfer.source.vertex))?;
    append(out, b" ")?;
    append_count(out, transfer.source.port as usize)
}

/// Appends both operators, and the end of the line.
fn append_ends(out: &mut Vec<u8>, operators: &[Name], transfer: Transfer) -> Result<(), OutOfMemory>
    ensures { OnOk result (out.new.items ≡ out.old.items ++
        rest_of_line (operator_name operators.now transfer.from ∷
        operator_name operators.now transfer.to ∷ [])) }
{
    append(out, b" ")?;
    append(out, operator_name(operators, transfer.from))?;
    append(out, b" ")?;
    append(out, operator_name(operators, transfer.to))?;
    append(out, b"\n")
}

/// Appends a line of two words.
pub fn append_head(out: &mut Vec<u8>, word: &[u8], name: &[u8]) -> Result<(), OutOfMemory>
    ensures { OnOk result (out.new.items ≡ out.old.items ++ line_text (word.now ∷ name.now ∷ [])) }
{
    append(out, word)?;
    append(out, b" ")?;
    append(out, name)?;
    append(out, b"\n")
}

/// The name of an operation, empty where there is none of this number.
fn operation_name(vertices: &[Vertex], op: u32) -> &[u8]
    ensures { result.now ≡ operation_name vertices.now op }
{
    match vertices.get(op as usize) {
        Some(vertex) => vertex.name.as_slice(),
        None => b"",
    }
}

/// The name of an operator, empty where there is none of this number.
fn operator_name(operators: &[Name], operator: u32) -> &[u8]
    ensures { result.now ≡ operator_name operators.now operator }
{
    let operator = operator as usize;
    if operator < operators.len() {
        operators[operator].as_bytes()
    } else {
        b""
    }
}
