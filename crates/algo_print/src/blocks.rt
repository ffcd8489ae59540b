//! The printer of a block, and of the lists of lines that it is made of.
ghost use Rattle.std.specs.Prelude.{◌≡◌, ◌++◌, ◌∷◌, [], All, OnOk, codes, map};
ghost use Rattle.std.specs.Fmt.{signed_decimal};
ghost use Rattle.body_text.specs.Canonical.{IsRead};
ghost use Rattle.algo_print.specs.Canonical.{text_of, line_of, spaced, port_words, output_words, reference_words, edge_words, case_words, frontier_words, value_words, delay_words, switch_lines, whole_function, whole_graph, whole_switch, whole_repeat};
ghost use Rattle.text_lines.specs.Text.{count_text};

use crate::lines::{print_case, print_edge, print_frontier, print_output, print_reference};
use crate::words::{print_named, print_sized, put, put_count, put_number, put_word};
use algo_text::{Case, Edge, FrontierLine, Output, Port, Reference};
use syn_base::OutOfMemory;

/// Appends the line of a constant, or of a delay in version 1.
pub(crate) fn print_values(
    key: &[u8],
    name: &[u8],
    values: &[i64],
    text: &mut Vec<u8>,
) -> Result<(), OutOfMemory>
    ensures { OnOk result (text.new.items ≡ text.old.items ++ line_of (value_words key.now name.now values.now)) }
{
    put(key, text)?;
    put_word(name, text)?;
    put(b" =", text)?;
    put_numbers(values, text)?;
    put(b"\n", text)
}

/// Appends the line of a delay, in which its depth stands from version 2 on.
pub(crate) fn print_delay(
    version: u32,
    name: &[u8],
    depth: u32,
    values: &[i64],
    text: &mut Vec<u8>,
) -> Result<(), OutOfMemory>
    ensures { OnOk result (text.new.items ≡ text.old.items ++ line_of (delay_words version name.now depth values.now)) }
{
    if version == 1 {
        return print_values(b"delay", name, values, text);
    }
    put(b"delay", text)?;
    put_word(name, text)?;
    put_count(depth, text)?;
    put(b" =", text)?;
    put_numbers(values, text)?;
    put(b"\n", text)
}

/// Appends numbers, each after a space.
fn put_numbers(values: &[i64], text: &mut Vec<u8>) -> Result<(), OutOfMemory>
    ensures { OnOk result (text.new.items ≡ text.old.items ++ spaced (map signed_decimal values.now)) }
{
    for value in values {
        put_number(*value, text)?;
    }
    Ok(())
}

/// Appends the lines of ports, of which each begins with this word.
fn print_ports(key: &[u8], ports: &[Port], text: &mut Vec<u8>) -> Result<(), OutOfMemory>
    ensures { OnOk result (text.new.items ≡ text.old.items ++ text_of (map (port_words key.now) ports.now)) }
{
    for port in ports {
        print_sized(key, port.name.as_bytes(), port.len, text)?;
    }
    Ok(())
}

/// Appends the lines of outputs of a function with these inputs.
fn print_outputs(ins: &[Port], outputs: &[Output], text: &mut Vec<u8>) -> Result<(), OutOfMemory>
    requires { All (λ o. IsRead (map (λ p. p.name) ins.now) o.formula) outputs.now }
    ensures { OnOk result (text.new.items ≡ text.old.items ++ text_of (map (output_words ins.now) outputs.now)) }
{
    for output in outputs {
        print_output(ins, output, text)?;
    }
    Ok(())
}

/// Appends the lines of references.
fn print_references(references: &[Reference], text: &mut Vec<u8>) -> Result<(), OutOfMemory>
    ensures { OnOk result (text.new.items ≡ text.old.items ++ text_of (map reference_words references.now)) }
{
    for reference in references {
        print_reference(reference, text)?;
    }
    Ok(())
}

/// Appends the lines of edges.
fn print_edges(edges: &[Edge], text: &mut Vec<u8>) -> Result<(), OutOfMemory>
    ensures { OnOk result (text.new.items ≡ text.old.items ++ text_of (map edge_words edges.now)) }
{
    for edge in edges {
        print_edge(edge, text)?;
    }
    Ok(())
}

/// Appends the lines of cases.
fn print_cases(cases: &[Case], text: &mut Vec<u8>) -> Result<(), OutOfMemory>
    ensures { OnOk result (text.new.items ≡ text.old.items ++ text_of (map case_words cases.now)) }
{
    for case in cases {
        print_case(case, text)?;
    }
    Ok(())
}

/// Appends the frontier lines of a repetition.
fn print_frontiers(lines: &[FrontierLine], text: &mut Vec<u8>) -> Result<(), OutOfMemory>
    ensures { OnOk result (text.new.items ≡ text.old.items ++ text_of (map frontier_words lines.now)) }
{
    for line in lines {
        print_frontier(&line.frontier, text)?;
    }
    Ok(())
}

/// Appends the lines of a function.
pub(crate) fn print_function(
    name: &[u8],
    ins: &[Port],
    outs: &[Output],
    text: &mut Vec<u8>,
) -> Result<(), OutOfMemory>
    requires { All (λ o. IsRead (map (λ p. p.name) ins.now) o.formula) outs.now }
    ensures { OnOk result (text.new.items ≡ text.old.items ++ text_of (whole_function name.now ins.now outs.now)) }
{
    print_named(b"function", name, text)?;
    print_ports(b"in", ins, text)?;
    print_outputs(ins, outs, text)?;
    put(b"end\n", text)
}

/// Appends the lines of a graph.
pub(crate) fn print_graph(
    name: &[u8],
    ins: &[Port],
    outs: &[Port],
    references: &[Reference],
    edges: &[Edge],
    text: &mut Vec<u8>,
) -> Result<(), OutOfMemory>
    ensures { OnOk result (text.new.items ≡ text.old.items ++
        text_of (whole_graph name.now ins.now outs.now references.now edges.now)) }
{
    print_named(b"graph", name, text)?;
    print_ports(b"in", ins, text)?;
    print_ports(b"out", outs, text)?;
    print_references(references, text)?;
    print_edges(edges, text)?;
    put(b"end\n", text)
}

/// What the lines of a switch are printed from.
#[derive(Clone, Copy)]
pub(crate) struct SwitchParts<'a> {
    pub name: &'a [u8],
    /// The conditioning input.
    pub on: &'a [u8],
    pub ins: &'a [Port],
    pub outs: &'a [Port],
    pub cases: &'a [Case],
    pub otherwise: &'a [u8],
}

/// Appends the lines of a switch.
pub(crate) fn print_switch(switch: &SwitchParts, text: &mut Vec<u8>) -> Result<(), OutOfMemory>
    ensures { OnOk result (text.new.items ≡ text.old.items ++ text_of (whole_switch
        switch.now.name.now switch.now.on.now switch.now.ins.now switch.now.outs.now
        switch.now.cases.now switch.now.otherwise.now)) }
{
    print_named(b"switch", switch.name, text)?;
    print_inputs_and_cases(switch, text)?;
    print_named(b"otherwise", switch.otherwise, text)?;
    put(b"end\n", text)
}

/// Appends the lines of a switch between its first and the one with `otherwise`.
fn print_inputs_and_cases(switch: &SwitchParts, text: &mut Vec<u8>) -> Result<(), OutOfMemory>
    ensures { OnOk result (text.new.items ≡ text.old.items ++ text_of (switch_lines
        switch.now.on.now switch.now.ins.now switch.now.outs.now switch.now.cases.now)) }
{
    print_named(b"on", switch.on, text)?;
    print_ports(b"in", switch.ins, text)?;
    print_ports(b"out", switch.outs, text)?;
    print_cases(switch.cases, text)
}

/// Appends the lines of a repetition.
pub(crate) fn print_repeat(
    name: &[u8],
    copies: u32,
    def: &[u8],
    lines: &[FrontierLine],
    text: &mut Vec<u8>,
) -> Result<(), OutOfMemory>
    ensures { OnOk result (text.new.items ≡ text.old.items ++
        text_of (whole_repeat name.now copies def.now lines.now)) }
{
    print_repeated(name, copies, def, text)?;
    print_frontiers(lines, text)?;
    put(b"end\n", text)
}

/// Appends the first line of a repetition.
fn print_repeated(
    name: &[u8],
    copies: u32,
    def: &[u8],
    text: &mut Vec<u8>,
) -> Result<(), OutOfMemory>
    ensures { OnOk result (text.new.items ≡ text.old.items ++
        line_of (codes "repeat" ∷ name.now ∷ count_text copies ∷ def.now ∷ [])) }
{
    put(b"repeat", text)?;
    put_word(name, text)?;
    put_count(copies, text)?;
    put_word(def, text)?;
    put(b"\n", text)
}
