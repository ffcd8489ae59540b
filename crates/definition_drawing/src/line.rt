//! The statements of ports, references, edges and cases.
ghost use Rattle.definition_drawing.specs.Words.{word_text};
ghost use Rattle.std.specs.Prelude.{◌≡◌, ◌++◌, OnOk};
ghost use Rattle.std.specs.Fmt.{signed_decimal};
ghost use Rattle.definition_drawing.specs.Drawing.{case_text, edge_text, from_id, in_id, in_text, is_delay, is_delay_body, link_text, mark_text, node_text, on_text, out_text, port_label, reference_text, style_text, to_id, case_id};

use crate::piece::{
    append_in_id, append_out_id, append_ref_id, begin, begin_label, begin_target, finish,
    finish_dotted,
};
use crate::word::{Word, append_word};
use algo_text::{Body, Case, Def, Edge, End, Port, Reference};
use syn_base::{OutOfMemory, append, append_count, print_int};

/// Appends the name and the length of a port.
#[tactic(auto, unfolding(crate::specs::Drawing::port_label))]
pub fn append_port(out: &mut Vec<u8>, port: &Port) -> Result<(), OutOfMemory>
    ensures { OnOk result (out.new.items ≡ out.old.items ++ port_label port.now) }
{
    append(out, port.name.as_bytes())?;
    append_word(out, Word::Blank)?;
    append_count(out, port.len as usize)
}

/// Appends an input.
pub fn append_in(out: &mut Vec<u8>, def: &[u8], port: &Port) -> Result<(), OutOfMemory>
    ensures { OnOk result (out.new.items ≡ out.old.items ++ in_text def.now port.now) }
{
    begin(out)?;
    append_in_id(out, def, port.name.as_bytes())?;
    begin_label(out)?;
    append_port(out, port)?;
    append_word(out, Word::Arrow)?;
    finish(out)
}

/// Appends an output.
pub fn append_out(out: &mut Vec<u8>, def: &[u8], port: &Port) -> Result<(), OutOfMemory>
    ensures { OnOk result (out.new.items ≡ out.old.items ++ out_text def.now port.now) }
{
    begin(out)?;
    append_out_id(out, def, port.name.as_bytes())?;
    begin_label(out)?;
    append_port(out, port)?;
    append_word(out, Word::Arrow)?;
    finish(out)
}

/// Appends a conditioning input.
pub fn append_on(out: &mut Vec<u8>, def: &[u8], on: &[u8]) -> Result<(), OutOfMemory>
    ensures { OnOk result (out.new.items ≡ out.old.items ++ on_text def.now on.now) }
{
    begin(out)?;
    append_in_id(out, def, on)?;
    begin_label(out)?;
    append_word(out, Word::On)?;
    append(out, on)?;
    append_word(out, Word::Arrow)?;
    finish(out)
}

/// Appends a reference: its name over that of its definition, and its mark, dashed where it is a
/// delay.
pub fn append_reference(
    out: &mut Vec<u8>,
    defs: &[Def],
    def: &[u8],
    reference: &Reference,
) -> Result<(), OutOfMemory>
    ensures { OnOk result (out.new.items ≡ out.old.items ++
        reference_text defs.now def.now reference.now) }
{
    begin(out)?;
    append_ref_id(out, def, reference.name.as_bytes())?;
    begin_label(out)?;
    append_reference_label(out, defs, reference)?;
    finish(out)
}

/// Appends the label of a reference, and its style.
fn append_reference_label(
    out: &mut Vec<u8>,
    defs: &[Def],
    reference: &Reference,
) -> Result<(), OutOfMemory>
    ensures { OnOk result (out.new.items ≡ out.old.items ++ (reference.now.name ++
        (word_text Word.Line ++
        (reference.now.def ++ (mark_text reference.now.every ++
        style_text (is_delay defs.now reference.now.def)))))) }
{
    append(out, reference.name.as_bytes())?;
    append_word(out, Word::Line)?;
    append(out, reference.def.as_bytes())?;
    append_mark(out, reference.every)?;
    append_style(out, is_delay(defs, reference.def.as_bytes()))
}

/// Appends a mark, where there is one.
fn append_mark(out: &mut Vec<u8>, every: Option<u32>) -> Result<(), OutOfMemory>
    ensures { OnOk result (out.new.items ≡ out.old.items ++ mark_text every) }
{
    match every {
        None => Ok(()),
        Some(number) => {
            append_word(out, Word::Every)?;
            append_count(out, number as usize)
        }
    }
}

/// Appends the end of a label, and that the node is dashed, where it is.
fn append_style(out: &mut Vec<u8>, dashed: bool) -> Result<(), OutOfMemory>
    ensures { OnOk result (out.new.items ≡ out.old.items ++ style_text dashed) }
{
    if dashed {
        append_word(out, Word::Dashed)
    } else {
        append_word(out, Word::Quote)
    }
}

/// Whether the name is that of a delay.
fn is_delay(defs: &[Def], name: &[u8]) -> bool
    ensures { result ≡ is_delay defs.now name.now }
{
    defs.iter().any(|def| def.name.as_bytes() == name && is_delay_body(&def.body))
}

/// Whether a definition is a delay.
fn is_delay_body(body: &Body) -> bool
    ensures { result ≡ is_delay_body body.now }
{
    match body {
        Body::Delay(_, _) => true,
        _ => false,
    }
}

/// Appends an edge, with the names of both ports.
pub fn append_link(out: &mut Vec<u8>, def: &[u8], edge: &Edge) -> Result<(), OutOfMemory>
    ensures { OnOk result (out.new.items ≡ out.old.items ++ link_text def.now edge.now) }
{
    begin(out)?;
    append_from(out, def, &edge.from)?;
    begin_target(out)?;
    append_to(out, def, &edge.to)?;
    append_link_ports(out, edge)?;
    finish(out)
}

/// Appends the names of both ports of an edge.
fn append_link_ports(out: &mut Vec<u8>, edge: &Edge) -> Result<(), OutOfMemory>
    ensures { OnOk result (out.new.items ≡ out.old.items ++ (word_text Word.Attributes ++
        (word_text Word.EdgeTail ++
        (edge.now.from.port ++ (word_text Word.Head ++ (edge.now.to.port ++
        word_text Word.Quote)))))) }
{
    append_word(out, Word::Attributes)?;
    append_word(out, Word::EdgeTail)?;
    append(out, edge.from.port.as_bytes())?;
    append_word(out, Word::Head)?;
    append(out, edge.to.port.as_bytes())?;
    append_word(out, Word::Quote)
}

/// Appends where an edge begins.
fn append_from(out: &mut Vec<u8>, def: &[u8], end: &End) -> Result<(), OutOfMemory>
    ensures { OnOk result (out.new.items ≡ out.old.items ++ from_id def.now end.now) }
{
    match &end.owner {
        None => append_in_id(out, def, end.port.as_bytes()),
        Some(owner) => append_ref_id(out, def, owner.as_bytes()),
    }
}

/// Appends where an edge ends.
fn append_to(out: &mut Vec<u8>, def: &[u8], end: &End) -> Result<(), OutOfMemory>
    ensures { OnOk result (out.new.items ≡ out.old.items ++ to_id def.now end.now) }
{
    match &end.owner {
        None => append_out_id(out, def, end.port.as_bytes()),
        Some(owner) => append_ref_id(out, def, owner.as_bytes()),
    }
}

/// Appends a case of a switch, with the dotted edge from the conditioning input.
pub fn append_case(
    out: &mut Vec<u8>,
    def: &[u8],
    on: &[u8],
    number: usize,
    case: &Case,
) -> Result<(), OutOfMemory>
    ensures { OnOk result (out.new.items ≡ out.old.items ++
        case_text def.now on.now number case.now) }
{
    append_case_node(out, def, number, case)?;
    append_case_edge(out, def, on, number)
}

/// Appends the node of a case.
fn append_case_node(
    out: &mut Vec<u8>,
    def: &[u8],
    number: usize,
    case: &Case,
) -> Result<(), OutOfMemory>
    ensures { OnOk result (out.new.items ≡ out.old.items ++ node_text (case_id def.now number)
        (word_text Word.Selected ++ (signed_decimal case.now.value ++ (word_text Word.Line ++
        (case.now.def ++ word_text Word.Quote))))) }
{
    begin(out)?;
    append_case_id(out, def, number)?;
    begin_label(out)?;
    append_case_label(out, case)?;
    finish(out)
}

/// Appends the label of a case.
fn append_case_label(out: &mut Vec<u8>, case: &Case) -> Result<(), OutOfMemory>
    ensures { OnOk result (out.new.items ≡ out.old.items ++
        (word_text Word.Selected ++ (signed_decimal case.now.value ++ (word_text Word.Line ++
        (case.now.def ++ word_text Word.Quote))))) }
{
    append_word(out, Word::Selected)?;
    print_int(case.value, out)?;
    append_word(out, Word::Line)?;
    append(out, case.def.as_bytes())?;
    append_word(out, Word::Quote)
}

/// Appends the edge to a case.
fn append_case_edge(
    out: &mut Vec<u8>,
    def: &[u8],
    on: &[u8],
    number: usize,
) -> Result<(), OutOfMemory>
    ensures { OnOk result (out.new.items ≡ out.old.items ++
        edge_text (in_id def.now on.now) (case_id def.now number) (word_text Word.Dotted)) }
{
    begin(out)?;
    append_in_id(out, def, on)?;
    begin_target(out)?;
    append_case_id(out, def, number)?;
    finish_dotted(out)
}

/// Appends the identifier of a case.
#[tactic(auto, unfolding(crate::specs::Drawing::case_id))]
fn append_case_id(out: &mut Vec<u8>, def: &[u8], number: usize) -> Result<(), OutOfMemory>
    ensures { OnOk result (out.new.items ≡ out.old.items ++ case_id def.now number) }
{
    append(out, def)?;
    append_word(out, Word::Case)?;
    append_count(out, number)
}
