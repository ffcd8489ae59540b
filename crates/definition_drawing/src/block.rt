//! What stands inside graphs, switches and repetitions.
ghost use Rattle.definition_drawing.specs.Words.{word_text};
ghost use Rattle.std.specs.Prelude.{◌≡◌, ◌++◌, OnOk};
ghost use Rattle.definition_drawing.specs.Drawing.{cases_from, edge_text, frontiers_text, in_id, ins_text, links_text, node_text, otherwise_text, outs_text, references_text, rest_id};

use crate::frontier::{append_frontier, append_rest_id};
use crate::line::{append_case, append_in, append_link, append_on, append_out, append_reference};
use crate::piece::{append_in_id, begin, begin_label, begin_target, finish, finish_dotted};
use crate::word::{Word, append_word};
use algo_text::{Case, Def, Edge, FrontierLine, Port, Reference};
use syn_base::{OutOfMemory, append};

/// Appends the inputs of a definition.
pub fn append_ins(out: &mut Vec<u8>, def: &[u8], ports: &[Port]) -> Result<(), OutOfMemory>
    ensures { OnOk result (out.new.items ≡ out.old.items ++ ins_text def.now ports.now) }
{
    for port in ports {
        append_in(out, def, port)?;
    }
    Ok(())
}

/// Appends the outputs of a definition.
pub fn append_outs(out: &mut Vec<u8>, def: &[u8], ports: &[Port]) -> Result<(), OutOfMemory>
    ensures { OnOk result (out.new.items ≡ out.old.items ++ outs_text def.now ports.now) }
{
    for port in ports {
        append_out(out, def, port)?;
    }
    Ok(())
}

/// Appends the references of a graph.
pub fn append_references(
    out: &mut Vec<u8>,
    defs: &[Def],
    def: &[u8],
    references: &[Reference],
) -> Result<(), OutOfMemory>
    ensures { OnOk result (out.new.items ≡ out.old.items ++
        references_text defs.now def.now references.now) }
{
    for reference in references {
        append_reference(out, defs, def, reference)?;
    }
    Ok(())
}

/// Appends the edges of a graph.
pub fn append_links(out: &mut Vec<u8>, def: &[u8], edges: &[Edge]) -> Result<(), OutOfMemory>
    ensures { OnOk result (out.new.items ≡ out.old.items ++ links_text def.now edges.now) }
{
    for edge in edges {
        append_link(out, def, edge)?;
    }
    Ok(())
}

/// Appends the cases of a switch.
pub fn append_cases(
    out: &mut Vec<u8>,
    def: &[u8],
    on: &[u8],
    cases: &[Case],
) -> Result<(), OutOfMemory>
    ensures { OnOk result (out.new.items ≡ out.old.items ++ cases_from def.now on.now 0 cases.now) }
{
    for (number, case) in cases.iter().enumerate() {
        append_case(out, def, on, number, case)?;
    }
    Ok(())
}

/// Appends the case otherwise of a switch.
pub fn append_otherwise(
    out: &mut Vec<u8>,
    def: &[u8],
    on: &[u8],
    otherwise: &[u8],
) -> Result<(), OutOfMemory>
    ensures { OnOk result (out.new.items ≡ out.old.items ++
        otherwise_text def.now on.now otherwise.now) }
{
    append_otherwise_node(out, def, otherwise)?;
    append_otherwise_edge(out, def, on)
}

/// Appends the node of the case otherwise.
fn append_otherwise_node(out: &mut Vec<u8>, def: &[u8], otherwise: &[u8]) -> Result<(), OutOfMemory>
    ensures { OnOk result (out.new.items ≡ out.old.items ++
        node_text (rest_id def.now) (word_text Word.Otherwise ++ (otherwise.now ++
        word_text Word.Quote))) }
{
    begin(out)?;
    append_rest_id(out, def)?;
    begin_label(out)?;
    append_word(out, Word::Otherwise)?;
    append(out, otherwise)?;
    append_word(out, Word::Quote)?;
    finish(out)
}

/// Appends the edge to the case otherwise.
fn append_otherwise_edge(out: &mut Vec<u8>, def: &[u8], on: &[u8]) -> Result<(), OutOfMemory>
    ensures { OnOk result (out.new.items ≡ out.old.items ++
        edge_text (in_id def.now on.now) (rest_id def.now) (word_text Word.Dotted)) }
{
    begin(out)?;
    append_in_id(out, def, on)?;
    begin_target(out)?;
    append_rest_id(out, def)?;
    finish_dotted(out)
}

/// Appends the frontier lines of a repetition.
pub fn append_frontiers(
    out: &mut Vec<u8>,
    def: &[u8],
    lines: &[FrontierLine],
) -> Result<(), OutOfMemory>
    ensures { OnOk result (out.new.items ≡ out.old.items ++ frontiers_text def.now lines.now) }
{
    for line in lines {
        append_frontier(out, def, &line.frontier)?;
    }
    Ok(())
}
