//! The lines of dates, which `reaction` puts one after the other.
ghost use Rattle.std.specs.Prelude.{◌≡◌, ◌++◌, ◌∷◌, [], OnOk, codes};
ghost use Rattle.std.specs.Fmt.{decimal};
ghost use Rattle.timing_chart.specs.Chart.{line_text, rest_of_line};
ghost use Rattle.self_timed.specs.Acts.{carry, run};
ghost use Rattle.self_timed.specs.Graph.{operation_name};
ghost use Rattle.self_timed.specs.Archi.{operator_name, medium_name};
ghost use Rattle.dates_text.specs.Listing.{act_line};

use self_timed::{Archi, Dates, Decision, Flat, Span, Transfer};
use syn_base::{OutOfMemory, append, append_count};

/// A reaction whose dates are told, by its number, of a flat graph on an architecture.
#[derive(Clone, Copy)]
pub struct Reaction<'a> {
    pub flat: &'a Flat,
    pub archi: &'a Archi,
    pub dates: &'a Dates,
    pub number: usize,
}

/// Appends the line of an operation: the reaction, `op`, its start, its end and its name.
pub fn append_operation(
    out: &mut Vec<u8>,
    reaction: &Reaction,
    span: Span,
    decision: &Decision,
) -> Result<(), OutOfMemory>
    ensures { OnOk result (out.new.items ≡ out.old.items ++ line_text
        (act_line reaction.now.flat.now reaction.now.archi.now reaction.now.number span (run decision.now))) }
{
    append_head(out, reaction.number, b"op")?;
    append_span(out, span)?;
    append(out, operation_name(reaction.flat, decision.op))?;
    append(out, b"\n")
}

/// Appends the line of a transfer: the reaction, `on`, the medium, its start and its end, the operation that
/// makes the value and the number of the output, and the operators from which and to which the value is carried.
pub fn append_transfer(
    out: &mut Vec<u8>,
    reaction: &Reaction,
    span: Span,
    transfer: Transfer,
) -> Result<(), OutOfMemory>
    ensures { OnOk result (out.new.items ≡ out.old.items ++ line_text
        (act_line reaction.now.flat.now reaction.now.archi.now reaction.now.number span (carry transfer))) }
{
    append_head(out, reaction.number, b"on")?;
    append(out, medium_name(reaction.archi, transfer.medium))?;
    append(out, b" ")?;
    append_span(out, span)?;
    append_value(out, reaction.flat, transfer)?;
    append_ends(out, reaction.archi, transfer)
}

/// Appends the reaction and a word, each before a blank.
fn append_head(out: &mut Vec<u8>, number: usize, word: &[u8]) -> Result<(), OutOfMemory>
    ensures { OnOk result (out.new.items ≡
        out.old.items ++ (decimal number ++ (codes " " ++ (word.now ++ codes " ")))) }
{
    append_count(out, number)?;
    append(out, b" ")?;
    append(out, word)?;
    append(out, b" ")
}

/// Appends both dates, each before a blank.
fn append_span(out: &mut Vec<u8>, span: Span) -> Result<(), OutOfMemory>
    ensures { OnOk result (out.new.items ≡
        out.old.items ++ (decimal span.start ++ (codes " " ++ (decimal span.end ++ codes " ")))) }
{
    append_count(out, span.start as usize)?;
    append(out, b" ")?;
    append_count(out, span.end as usize)?;
    append(out, b" ")
}

/// Appends the operation and the number of its output.
fn append_value(out: &mut Vec<u8>, flat: &Flat, transfer: Transfer) -> Result<(), OutOfMemory>
    ensures { OnOk result (out.new.items ≡ out.old.items ++
        (operation_name flat.now.vertices transfer.source.vertex ++ (codes " " ++ decimal transfer.source.port))) }
{
    append(out, operation_name(flat, transfer.source.vertex))?;
    append(out, b" ")?;
    append_count(out, transfer.source.port as usize)
}

/// Appends both operators, and the end of the line.
fn append_ends(out: &mut Vec<u8>, archi: &Archi, transfer: Transfer) -> Result<(), OutOfMemory>
    ensures { OnOk result (out.new.items ≡ out.old.items ++ rest_of_line
        (operator_name archi.now.operators transfer.from ∷ operator_name archi.now.operators transfer.to ∷ [])) }
{
    append(out, b" ")?;
    append(out, operator_name(archi, transfer.from))?;
    append(out, b" ")?;
    append(out, operator_name(archi, transfer.to))?;
    append(out, b"\n")
}

/// The name of an operation, empty where there is none of this number.
fn operation_name(flat: &Flat, op: u32) -> &[u8]
    ensures { result.now ≡ operation_name flat.now.vertices op }
{
    match flat.vertices().get(op as usize) {
        Some(vertex) => vertex.name.as_slice(),
        None => b"",
    }
}

/// The name of an operator, empty where there is none of this number.
fn operator_name(archi: &Archi, operator: u32) -> &[u8]
    ensures { result.now ≡ operator_name archi.now.operators operator }
{
    let operators = archi.operators();
    let operator = operator as usize;
    if operator < operators.len() {
        operators[operator].as_bytes()
    } else {
        b""
    }
}

/// The name of a medium, empty where there is none of this number.
fn medium_name(archi: &Archi, medium: u32) -> &[u8]
    ensures { result.now ≡ medium_name archi.now.media medium }
{
    match archi.media().get(medium as usize) {
        Some(medium) => medium.name.as_bytes(),
        None => b"",
    }
}
