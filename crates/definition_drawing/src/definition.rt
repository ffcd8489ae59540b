//! The drawing of all definitions.
ghost use Rattle.definition_drawing.specs.Words.{word_text};
ghost use Rattle.std.specs.Prelude.{◌≡◌, ◌++◌, OnErr, OnOk};
ghost use Rattle.std.specs.Fmt.{decimal};
ghost use Rattle.definition_drawing.specs.Drawing.{body_text, definitions_text, drawing, frame_head, framed_text, graph_inside, input_lines, opening, output_lines, repeat_inside, single_head, single_text, switch_inside};

use crate::block::{
    append_cases, append_frontiers, append_ins, append_links, append_otherwise, append_outs,
    append_references,
};
use crate::frontier::append_copies;
use crate::line::{append_on, append_port};
use crate::piece::{begin, begin_label, finish};
use crate::word::{Word, append_word, bytes_of};
use algo_text::{Body, Case, Def, Defs, Edge, FrontierLine, Output, Port, Reference};
use std::alloc::Global;
use syn_base::{OutOfMemory, append, append_count};

/// Appends the drawing of the definitions of an algorithm, in their order: a sensor, an actuator, a
/// constant, a delay and a function as a node that tells its ports, delays dashed; a graph as a
/// frame with its ports, its references, of which those of delays are dashed, and its edges; a
/// switch with its cases, to which dotted edges lead from the conditioning input; a repetition with
/// its copies, and its frontier lines as edges to them and from them. After want of memory `out` is
/// as before.
pub fn print_definitions(alloc: Global, defs: &Defs, out: &mut Vec<u8>) -> Result<(), OutOfMemory>
    ensures text { OnOk result (out.new.items ≡ out.old.items ++ drawing defs.now) }
    ensures err { OnErr result (out.new.items ≡ out.old.items) }
{
    let mut text = Vec::new(alloc);
    append_opening(&mut text)?;
    append_definitions(&mut text, defs.defs.as_slice(), defs.defs.as_slice())?;
    append_word(&mut text, Word::Closing)?;
    out.extend_from_slice(&text)?;
    Ok(())
}

/// Appends the head of a drawing.
fn append_opening(out: &mut Vec<u8>) -> Result<(), OutOfMemory>
    ensures { OnOk result (out.new.items ≡ out.old.items ++ opening) }
{
    append_word(out, Word::Opening)
}

/// Appends these definitions, where all of them are known.
fn append_definitions(out: &mut Vec<u8>, all: &[Def], defs: &[Def]) -> Result<(), OutOfMemory>
    ensures { OnOk result (out.new.items ≡ out.old.items ++ definitions_text all.now defs.now) }
{
    for def in defs {
        append_body(out, all, def.name.as_bytes(), &def.body)?;
    }
    Ok(())
}

/// Appends a definition of this name.
fn append_body(out: &mut Vec<u8>, all: &[Def], name: &[u8], body: &Body) -> Result<(), OutOfMemory>
    ensures { OnOk result (out.new.items ≡ out.old.items ++ body_text all.now name.now body.now) }
{
    match body {
        Body::Sensor(len) => append_sensor(out, name, *len),
        Body::Actuator(len) => append_actuator(out, name, *len),
        Body::Constant(values) => append_constant(out, name, values.as_slice().len()),
        Body::Delay(depth, _) => append_delay(out, name, *depth),
        Body::Function { ins, outs } => append_function(out, name, ins.as_slice(), outs.as_slice()),
        Body::Graph {
            ins,
            outs,
            references,
            edges,
        } => {
            let ports = Ports::new(ins.as_slice(), outs.as_slice());
            append_graph(
                out,
                all,
                name,
                ports,
                references.as_slice(),
                edges.as_slice(),
            )
        }
        Body::Switch {
            on,
            ins,
            outs,
            cases,
            otherwise,
            otherwise_line: _,
        } => {
            let ports = Ports::new(ins.as_slice(), outs.as_slice());
            let on = on.as_bytes();
            append_switch(out, name, ports, on, cases.as_slice(), otherwise.as_bytes())
        }
        Body::Repeat { copies, def, lines } => {
            append_repeat(out, name, *copies, def.as_bytes(), lines.as_slice())
        }
    }
}

/// The inputs and the outputs of a definition.
#[derive(Clone, Copy)]
struct Ports<'a> {
    ins: &'a [Port],
    outs: &'a [Port],
}

impl<'a> Ports<'a> {
    /// These inputs and outputs.
    fn new(ins: &'a [Port], outs: &'a [Port]) -> Ports<'a>
        ensures ins { result.ins.now ≡ ins.now }
        ensures outs { result.outs.now ≡ outs.now }
    {
        Ports { ins, outs }
    }
}

/// Appends the frame of a graph, with what stands in it.
fn append_graph(
    out: &mut Vec<u8>,
    all: &[Def],
    name: &[u8],
    ports: Ports,
    references: &[Reference],
    edges: &[Edge],
) -> Result<(), OutOfMemory>
    ensures { OnOk result (out.new.items ≡ out.old.items ++
        framed_text (word_text Word.Graph) name.now
        (graph_inside all.now name.now ports.entry.ins.now ports.entry.outs.now references.now
        edges.now)) }
{
    begin_frame(out, bytes_of(Word::Graph), name)?;
    append_ins(out, name, ports.ins)?;
    append_outs(out, name, ports.outs)?;
    append_references(out, all, name, references)?;
    append_links(out, name, edges)?;
    append_word(out, Word::FrameEnd)
}

/// Appends the frame of a switch, with what stands in it.
fn append_switch(
    out: &mut Vec<u8>,
    name: &[u8],
    ports: Ports,
    on: &[u8],
    cases: &[Case],
    otherwise: &[u8],
) -> Result<(), OutOfMemory>
    ensures { OnOk result (out.new.items ≡ out.old.items ++
        framed_text (word_text Word.Switch) name.now
        (switch_inside name.now on.now ports.entry.ins.now ports.entry.outs.now cases.now
        otherwise.now)) }
{
    begin_frame(out, bytes_of(Word::Switch), name)?;
    append_on(out, name, on)?;
    append_ins(out, name, ports.ins)?;
    append_outs(out, name, ports.outs)?;
    append_cases(out, name, on, cases)?;
    append_otherwise(out, name, on, otherwise)?;
    append_word(out, Word::FrameEnd)
}

/// Appends the frame of a repetition, with what stands in it.
fn append_repeat(
    out: &mut Vec<u8>,
    name: &[u8],
    copies: u32,
    of: &[u8],
    lines: &[FrontierLine],
) -> Result<(), OutOfMemory>
    ensures { OnOk result (out.new.items ≡ out.old.items ++
        framed_text (word_text Word.Repeat) name.now (repeat_inside name.now copies of.now
        lines.now)) }
{
    begin_frame(out, bytes_of(Word::Repeat), name)?;
    append_copies(out, name, copies, of)?;
    append_frontiers(out, name, lines)?;
    append_word(out, Word::FrameEnd)
}

/// Appends a sensor with the length of its output.
fn append_sensor(out: &mut Vec<u8>, name: &[u8], len: u32) -> Result<(), OutOfMemory>
    ensures { OnOk result (out.new.items ≡ out.old.items ++
        single_text (word_text Word.Sensor) name.now (word_text Word.Given ++ (decimal len ++
        word_text Word.Round))) }
{
    begin_single(out, bytes_of(Word::Sensor), name)?;
    append_word(out, Word::Given)?;
    append_count(out, len as usize)?;
    append_word(out, Word::Round)?;
    finish(out)
}

/// Appends an actuator with the length of its input.
fn append_actuator(out: &mut Vec<u8>, name: &[u8], len: u32) -> Result<(), OutOfMemory>
    ensures { OnOk result (out.new.items ≡ out.old.items ++
        single_text (word_text Word.Actuator) name.now (word_text Word.Taken ++ (decimal len ++
        word_text Word.Round))) }
{
    begin_single(out, bytes_of(Word::Actuator), name)?;
    append_word(out, Word::Taken)?;
    append_count(out, len as usize)?;
    append_word(out, Word::Round)?;
    finish(out)
}

/// Appends a constant with the number of its values.
fn append_constant(out: &mut Vec<u8>, name: &[u8], len: usize) -> Result<(), OutOfMemory>
    ensures { OnOk result (out.new.items ≡ out.old.items ++
        single_text (word_text Word.Constant) name.now (word_text Word.Given ++ (decimal len ++
        word_text Word.Note))) }
{
    begin_single(out, bytes_of(Word::Constant), name)?;
    append_word(out, Word::Given)?;
    append_count(out, len)?;
    append_word(out, Word::Note)?;
    finish(out)
}

/// Appends a delay with its depth.
fn append_delay(out: &mut Vec<u8>, name: &[u8], depth: u32) -> Result<(), OutOfMemory>
    ensures { OnOk result (out.new.items ≡ out.old.items ++
        single_text (word_text Word.Delay) name.now
        (word_text Word.Depth ++ (decimal depth ++ word_text Word.Cylinder))) }
{
    begin_single(out, bytes_of(Word::Delay), name)?;
    append_word(out, Word::Depth)?;
    append_count(out, depth as usize)?;
    append_word(out, Word::Cylinder)?;
    finish(out)
}

/// Appends the begin of a definition that is one node: its name, and its word and its name as a
/// label.
#[tactic(auto, unfolding(crate::specs::Drawing::single_head))]
fn begin_single(out: &mut Vec<u8>, kind: &[u8], name: &[u8]) -> Result<(), OutOfMemory>
    ensures { OnOk result (out.new.items ≡ out.old.items ++ single_head kind.now name.now) }
{
    begin(out)?;
    append(out, name)?;
    begin_label(out)?;
    append(out, kind)?;
    append_word(out, Word::Blank)?;
    append(out, name)
}

/// Appends a function, with a line for each port.
fn append_function(
    out: &mut Vec<u8>,
    name: &[u8],
    ins: &[Port],
    outs: &[Output],
) -> Result<(), OutOfMemory>
    ensures { OnOk result (out.new.items ≡ out.old.items ++
        single_text (word_text Word.Function) name.now (input_lines ins.now ++
        (output_lines outs.now ++ word_text Word.Quote))) }
{
    begin_single(out, bytes_of(Word::Function), name)?;
    append_input_lines(out, ins)?;
    append_output_lines(out, outs)?;
    append_word(out, Word::Quote)?;
    finish(out)
}

/// Appends a line for each input.
fn append_input_lines(out: &mut Vec<u8>, ports: &[Port]) -> Result<(), OutOfMemory>
    ensures { OnOk result (out.new.items ≡ out.old.items ++ input_lines ports.now) }
{
    for port in ports {
        append_word(out, Word::Input)?;
        append_port(out, port)?;
    }
    Ok(())
}

/// Appends a line for each output.
fn append_output_lines(out: &mut Vec<u8>, outs: &[Output]) -> Result<(), OutOfMemory>
    ensures { OnOk result (out.new.items ≡ out.old.items ++ output_lines outs.now) }
{
    for output in outs {
        append_word(out, Word::Output)?;
        append_port(out, &output.port)?;
    }
    Ok(())
}

/// Appends the begin of a frame, with its title.
#[tactic(auto, unfolding(crate::specs::Drawing::frame_head))]
fn begin_frame(out: &mut Vec<u8>, kind: &[u8], name: &[u8]) -> Result<(), OutOfMemory>
    ensures { OnOk result (out.new.items ≡ out.old.items ++ frame_head kind.now name.now) }
{
    append_word(out, Word::Frame)?;
    append(out, name)?;
    append_word(out, Word::FrameLabel)?;
    append_title(out, kind, name)
}

/// Appends the title of a frame: its word and its name.
fn append_title(out: &mut Vec<u8>, kind: &[u8], name: &[u8]) -> Result<(), OutOfMemory>
    ensures { OnOk result (out.new.items ≡ out.old.items ++
        (kind.now ++ (word_text Word.Blank ++ (name.now ++ word_text Word.TitleEnd)))) }
{
    append(out, kind)?;
    append_word(out, Word::Blank)?;
    append(out, name)?;
    append_word(out, Word::TitleEnd)
}
