//! The statements of a drawing. `flat_drawing` calls it for each operation.
ghost use Rattle.std.specs.Prelude.{◌≡◌, ◌++◌, [], OnOk};
ghost use Rattle.graph_drawing.specs.FlatDrawing.{coloured, condition_text, edge_text, ends_text, filled, input_text, label_text, look_text, operation_text, shape_of, statements_text};
ghost use Rattle.graph_drawing.specs.Statements.{conditions_from, inputs_from, keeping, kept, statements_of};

use crate::colour::{fill_of, stroke_of};
use crate::placing::{medium_for, operator_of};
use crate::word::{Word, append_word};
use schedule::{Decision, Guard, Kind, Source, Vertex};
use syn_base::{OutOfMemory, append, append_count};

/// Appends operation `number` and its edges.
pub fn append_statements(
    out: &mut Vec<u8>,
    decisions: &[Decision],
    number: usize,
    vertex: &Vertex,
) -> Result<(), OutOfMemory>
    ensures { OnOk result (out.new.items ≡ out.old.items ++
        statements_text decisions.now (statements_of number vertex.now)) }
{
    append_operation(out, decisions, number, vertex)?;
    append_inputs(out, decisions, number, vertex.ins.as_slice())?;
    append_conditions(out, decisions, number, vertex.guards.as_slice())?;
    append_keeping(out, number, vertex)
}

/// Appends an operation: its name over its definition, in the shape of its kind and the colour of
/// its operator.
fn append_operation(
    out: &mut Vec<u8>,
    decisions: &[Decision],
    number: usize,
    vertex: &Vertex,
) -> Result<(), OutOfMemory>
    ensures { OnOk result (out.new.items ≡ out.old.items ++
        operation_text decisions.now number vertex.now) }
{
    append_label(out, number, vertex)?;
    append_look(out, decisions, number, vertex)
}

/// Appends the node of an operation up to the end of its label.
fn append_label(out: &mut Vec<u8>, number: usize, vertex: &Vertex) -> Result<(), OutOfMemory>
    ensures { OnOk result (out.new.items ≡ out.old.items ++ label_text number vertex.now) }
{
    append_word(out, Word::Operation)?;
    append_count(out, number)?;
    append_word(out, Word::Label)?;
    append(out, vertex.name.as_slice())?;
    append_word(out, Word::Line)?;
    append(out, vertex.def.as_bytes())
}

/// Appends the shape and the colour of an operation.
fn append_look(
    out: &mut Vec<u8>,
    decisions: &[Decision],
    number: usize,
    vertex: &Vertex,
) -> Result<(), OutOfMemory>
    ensures { OnOk result (out.new.items ≡ out.old.items ++
        look_text decisions.now number vertex.now) }
{
    append_word(out, Word::Shape)?;
    append(out, shape_of(&vertex.kind))?;
    append_filled(out, operator_of(decisions, number))?;
    append_word(out, Word::Finish)
}

/// Appends the edges to the inputs of operation `number`.
fn append_inputs(
    out: &mut Vec<u8>,
    decisions: &[Decision],
    number: usize,
    sources: &[Source],
) -> Result<(), OutOfMemory>
    ensures { OnOk result (out.new.items ≡ out.old.items ++
        statements_text decisions.now (inputs_from number 0 sources.now)) }
{
    for (place, source) in sources.iter().enumerate() {
        append_input(out, decisions, number, place, *source)?;
    }
    Ok(())
}

/// Appends the edge to an input, with the numbers of the output and of the input at its ends.
fn append_input(
    out: &mut Vec<u8>,
    decisions: &[Decision],
    number: usize,
    place: usize,
    source: Source,
) -> Result<(), OutOfMemory>
    ensures { OnOk result (out.new.items ≡ out.old.items ++
        input_text decisions.now number place source) }
{
    append_edge(out, source.vertex as usize, number)?;
    append_ends(out, source.port as usize, place)?;
    append_coloured(out, medium_for(decisions, number, source))?;
    append_word(out, Word::Finish)
}

/// Appends the numbers of the output and of the input at the ends of an edge.
fn append_ends(out: &mut Vec<u8>, port: usize, place: usize) -> Result<(), OutOfMemory>
    ensures { OnOk result (out.new.items ≡ out.old.items ++ ends_text port place) }
{
    append_word(out, Word::Tail)?;
    append_count(out, port)?;
    append_word(out, Word::Head)?;
    append_count(out, place)?;
    append_word(out, Word::Quote)
}

/// Appends the edges from the sources of the guards of operation `number`.
fn append_conditions(
    out: &mut Vec<u8>,
    decisions: &[Decision],
    number: usize,
    guards: &[Guard],
) -> Result<(), OutOfMemory>
    ensures { OnOk result (out.new.items ≡ out.old.items ++
        statements_text decisions.now (conditions_from number 0 guards.now)) }
{
    for guard in guards {
        append_condition(out, decisions, number, guard)?;
    }
    Ok(())
}

/// Appends the edge from the source of a guard, with the case that has to be selected.
fn append_condition(
    out: &mut Vec<u8>,
    decisions: &[Decision],
    number: usize,
    guard: &Guard,
) -> Result<(), OutOfMemory>
    ensures { OnOk result (out.new.items ≡ out.old.items ++
        condition_text decisions.now number guard.now) }
{
    append_edge(out, guard.source.vertex as usize, number)?;
    append_word(out, Word::Condition)?;
    append_count(out, guard.case as usize)?;
    append_word(out, Word::Quote)?;
    append_coloured(out, medium_for(decisions, number, guard.source))?;
    append_word(out, Word::Finish)
}

/// Appends the edge from the set half of a delay to its get half, where the operation is one.
#[tactic(auto, unfolding(crate::specs::Statements::keeping))]
fn append_keeping(out: &mut Vec<u8>, number: usize, vertex: &Vertex) -> Result<(), OutOfMemory>
    ensures { OnOk result (out.new.items ≡ out.old.items ++
        statements_text [] (keeping number vertex.now.kind vertex.now.twin)) }
{
    match &vertex.kind {
        Kind::Set => append_kept(out, number, vertex.twin),
        _ => Ok(()),
    }
}

/// Appends the edge from a set half to its get half, where it has one.
fn append_kept(out: &mut Vec<u8>, number: usize, twin: Option<u32>) -> Result<(), OutOfMemory>
    ensures { OnOk result (out.new.items ≡ out.old.items ++ statements_text [] (kept number twin)) }
{
    match twin {
        Some(get) => {
            append_edge(out, number, get as usize)?;
            append_word(out, Word::Delay)
        }
        None => Ok(()),
    }
}

/// Appends both ends of an edge.
fn append_edge(out: &mut Vec<u8>, from: usize, to: usize) -> Result<(), OutOfMemory>
    ensures { OnOk result (out.new.items ≡ out.old.items ++ edge_text from to) }
{
    append_word(out, Word::Operation)?;
    append_count(out, from)?;
    append_word(out, Word::Arrow)?;
    append_count(out, to)
}

/// Appends the colour of an operator, where there is one.
fn append_filled(out: &mut Vec<u8>, operator: Option<u32>) -> Result<(), OutOfMemory>
    ensures { OnOk result (out.new.items ≡ out.old.items ++ filled operator) }
{
    match operator {
        None => Ok(()),
        Some(operator) => {
            append_word(out, Word::Fill)?;
            append(out, fill_of(operator as usize))?;
            append_word(out, Word::Quote)
        }
    }
}

/// Appends the colour of a medium, where there is one.
fn append_coloured(out: &mut Vec<u8>, medium: Option<u32>) -> Result<(), OutOfMemory>
    ensures { OnOk result (out.new.items ≡ out.old.items ++ coloured medium) }
{
    match medium {
        None => Ok(()),
        Some(medium) => {
            append_word(out, Word::Stroke)?;
            append(out, stroke_of(medium as usize))?;
            append_word(out, Word::Quote)
        }
    }
}

/// The shape of a kind.
fn shape_of(kind: &Kind) -> &'static [u8]
    ensures { result.now ≡ shape_of kind.now }
{
    match kind {
        Kind::Sensor(_) => b"ellipse",
        Kind::Actuator(_) => b"ellipse",
        Kind::Function(_) => b"box",
        Kind::Constant(_) => b"note",
        Kind::Get(_) => b"cylinder",
        Kind::Set => b"cylinder",
        Kind::Explode => b"trapezium",
        Kind::Implode => b"invtrapezium",
        Kind::Merge(_) => b"diamond",
    }
}
