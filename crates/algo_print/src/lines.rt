//! The printer of a line of a block, each kind by itself.
ghost use Rattle.std.specs.Prelude.{◌≡◌, ◌++◌, ◌∷◌, OnOk, map};
ghost use Rattle.body_text.specs.Canonical.{IsRead};
ghost use Rattle.algo_print.specs.Canonical.{line_of, spaced, mark_words, output_words, reference_words, edge_words, case_words, words_of_frontier};
ghost use Rattle.algo_text.specs.Words.{end_word};

use crate::words::{print_pair, put, put_count, put_number, put_word};
use algo_text::{Case, Edge, End, Frontier, Output, Port, Reference};
use body_text::print_body;
use syn_base::OutOfMemory;

/// Appends the line of an output of a function with these inputs.
pub(crate) fn print_output(
    ins: &[Port],
    output: &Output,
    text: &mut Vec<u8>,
) -> Result<(), OutOfMemory>
    requires { IsRead (map (λ p. p.name) ins.now) output.now.formula }
    ensures { OnOk result (text.new.items ≡ text.old.items ++ line_of (output_words ins.now output.now)) }
{
    put(b"out", text)?;
    put_word(output.port.name.as_bytes(), text)?;
    put_count(output.port.len, text)?;
    put(b" = ", text)?;
    print_body(output.formula.expr(), ins, text)?;
    put(b"\n", text)
}

/// Appends a mark where there is one, each of its words after a space.
fn put_mark(every: Option<u32>, text: &mut Vec<u8>) -> Result<(), OutOfMemory>
    ensures { OnOk result (text.new.items ≡ text.old.items ++ spaced (mark_words every)) }
{
    match every {
        None => Ok(()),
        Some(number) => {
            put(b" every", text)?;
            put_count(number, text)
        }
    }
}

/// Appends the line of a reference.
pub(crate) fn print_reference(reference: &Reference, text: &mut Vec<u8>) -> Result<(), OutOfMemory>
    ensures { OnOk result (text.new.items ≡ text.old.items ++ line_of (reference_words reference.now)) }
{
    put(b"ref", text)?;
    put_word(reference.name.as_bytes(), text)?;
    put_word(reference.def.as_bytes(), text)?;
    put_mark(reference.every, text)?;
    put(b"\n", text)
}

/// Appends a space and an end of an edge.
fn put_end(end: &End, text: &mut Vec<u8>) -> Result<(), OutOfMemory>
    ensures { OnOk result (text.new.items ≡ text.old.items ++ 32 ∷ end_word end.now) }
{
    match &end.owner {
        None => put_word(end.port.as_bytes(), text),
        Some(owner) => {
            put_word(owner.as_bytes(), text)?;
            put(b".", text)?;
            put(end.port.as_bytes(), text)
        }
    }
}

/// Appends the line of an edge.
pub(crate) fn print_edge(edge: &Edge, text: &mut Vec<u8>) -> Result<(), OutOfMemory>
    ensures { OnOk result (text.new.items ≡ text.old.items ++ line_of (edge_words edge.now)) }
{
    put(b"edge", text)?;
    put_end(&edge.from, text)?;
    put_end(&edge.to, text)?;
    put(b"\n", text)
}

/// Appends the line of a case.
pub(crate) fn print_case(case: &Case, text: &mut Vec<u8>) -> Result<(), OutOfMemory>
    ensures { OnOk result (text.new.items ≡ text.old.items ++ line_of (case_words case.now)) }
{
    put(b"case", text)?;
    put_number(case.value, text)?;
    put_word(case.def.as_bytes(), text)?;
    put(b"\n", text)
}

/// Appends the frontier line of a repetition.
pub(crate) fn print_frontier(frontier: &Frontier, text: &mut Vec<u8>) -> Result<(), OutOfMemory>
    ensures { OnOk result (text.new.items ≡ text.old.items ++ line_of (words_of_frontier frontier.now)) }
{
    match frontier {
        Frontier::Fork { outer, inner } => {
            print_pair(b"fork", outer.as_bytes(), inner.as_bytes(), text)
        }
        Frontier::Diffuse { outer, inner } => {
            print_pair(b"diffuse", outer.as_bytes(), inner.as_bytes(), text)
        }
        Frontier::Iterate {
            outer,
            inner,
            given,
            last,
        } => {
            put(b"iterate", text)?;
            put_word(outer.as_bytes(), text)?;
            put_word(inner.as_bytes(), text)?;
            put_word(given.as_bytes(), text)?;
            put_word(last.as_bytes(), text)?;
            put(b"\n", text)
        }
        Frontier::Join { given, outer } => {
            print_pair(b"join", given.as_bytes(), outer.as_bytes(), text)
        }
    }
}
