//! The drawing of a flat graph as a whole.
ghost use Rattle.std.specs.Prelude.{◌≡◌, ◌++◌, OnErr, OnOk};
ghost use Rattle.graph_drawing.specs.FlatDrawing.{closing, flat_drawing, opening, placed_drawing, statements_text};
ghost use Rattle.graph_drawing.specs.Statements.{statements_from};

use crate::legend::append_legend;
use crate::statement::append_statements;
use schedule::{Archi, Decision, Flat, Schedule, Vertex};
use std::alloc::Global;
use syn_base::{OutOfMemory, append};

/// Appends the drawing of a flat graph: for each operation a node with its name and its definition;
/// for each input an edge from its source, with the numbers of the output and of the input; for
/// each guard a dotted edge from its source, with the case; and from the set half of each delay a
/// dashed edge to its get half. After want of memory `out` is as before.
pub fn print_flat_graph(alloc: Global, flat: &Flat, out: &mut Vec<u8>) -> Result<(), OutOfMemory>
    ensures text { OnOk result (out.new.items ≡ out.old.items ++ flat_drawing flat.now) }
    ensures err { OnErr result (out.new.items ≡ out.old.items) }
{
    let mut text = Vec::new(alloc);
    append_opening(&mut text)?;
    append_vertices(&mut text, &[], flat.vertices())?;
    append_closing(&mut text)?;
    out.extend_from_slice(&text)?;
    Ok(())
}

/// Appends the same drawing in colours: each operation has that of the operator on which the
/// schedule runs it, and each edge whose value is carried to the operator of its reader that of the
/// medium. A legend names the operators and the media. After want of memory `out` is as before.
pub fn print_placed_graph(
    alloc: Global,
    flat: &Flat,
    archi: &Archi,
    schedule: &Schedule,
    out: &mut Vec<u8>,
) -> Result<(), OutOfMemory>
    ensures text { OnOk result (out.new.items ≡ out.old.items ++
        placed_drawing flat.now archi.now schedule.now) }
    ensures err { OnErr result (out.new.items ≡ out.old.items) }
{
    let mut text = Vec::new(alloc);
    append_placed(&mut text, flat, archi, schedule)?;
    out.extend_from_slice(&text)?;
    Ok(())
}

/// Appends the whole drawing in colours. After want of memory part of it may stand there.
fn append_placed(
    out: &mut Vec<u8>,
    flat: &Flat,
    archi: &Archi,
    schedule: &Schedule,
) -> Result<(), OutOfMemory>
    ensures { OnOk result (out.new.items ≡
        out.old.items ++ placed_drawing flat.now archi.now schedule.now) }
{
    append_opening(out)?;
    append_legend(out, archi)?;
    append_vertices(out, schedule.decisions.as_slice(), flat.vertices())?;
    append_closing(out)
}

/// Appends the head of a drawing.
#[tactic(auto, unfolding(crate::specs::FlatDrawing::opening))]
fn append_opening(out: &mut Vec<u8>) -> Result<(), OutOfMemory>
    ensures { OnOk result (out.new.items ≡ out.old.items ++ opening) }
{
    append(
        out,
        b"digraph flat {\n  rankdir=LR;\n  fontname=\"sans-serif\";\n  node [shape=box,style=filled,fillcolor=white,fontname=\"sans-serif\"];\n  edge [fontname=\"sans-serif\",fontsize=9,labeldistance=1.5];\n",
    )
}

/// Appends the end of a drawing.
#[tactic(auto, unfolding(crate::specs::FlatDrawing::closing))]
fn append_closing(out: &mut Vec<u8>) -> Result<(), OutOfMemory>
    ensures { OnOk result (out.new.items ≡ out.old.items ++ closing) }
{
    append(out, b"}\n")
}

/// Appends operations that are numbered from 0 on, with their edges.
fn append_vertices(
    out: &mut Vec<u8>,
    decisions: &[Decision],
    vertices: &[Vertex],
) -> Result<(), OutOfMemory>
    ensures { OnOk result (out.new.items ≡ out.old.items ++
        statements_text decisions.now (statements_from 0 vertices.now)) }
{
    for (number, vertex) in vertices.iter().enumerate() {
        append_statements(out, decisions, number, vertex)?;
    }
    Ok(())
}
