//! The printer of a whole text: `print_algo`, which the command `check` calls.
ghost use Rattle.std.specs.Prelude.{◌≡◌, ◌++◌, OnOk, OnErr};
ghost use Rattle.algo_print.specs.Canonical.{canonical_text, line_of, text_of, version_words, body_lines, definition_lines, ArePrintable, IsPrintable};

use crate::blocks::{
    SwitchParts, print_delay, print_function, print_graph, print_repeat, print_switch, print_values,
};
use crate::words::{print_sized, put, put_count};
use algo_text::{Body, Def, Defs};
use std::alloc::Global;
use syn_base::OutOfMemory;

/// Appends the canonical text of definitions in their version, whose expressions were read over the inputs of their
/// functions: each line's words separated by one space, no empty lines or comments, numbers and
/// expressions in their canonical form. After want of memory `out` is as before.
pub fn print_algo(alloc: Global, defs: &Defs, out: &mut Vec<u8>) -> Result<(), OutOfMemory>
    requires { ArePrintable defs.now.defs }
    ensures text { OnOk result (out.new.items ≡ out.old.items ++ canonical_text defs.now) }
    ensures err { OnErr result (out.new.items ≡ out.old.items) }
{
    let mut text = Vec::new(alloc);
    print_version(defs.version, &mut text)?;
    print_definitions(defs.version, defs.defs.as_slice(), &mut text)?;
    out.extend_from_slice(text.as_slice())?;
    Ok(())
}

/// Appends the line of the version.
fn print_version(version: u32, text: &mut Vec<u8>) -> Result<(), OutOfMemory>
    ensures { OnOk result (text.new.items ≡ text.old.items ++ line_of (version_words version)) }
{
    put(b"algorithm", text)?;
    put_count(version, text)?;
    put(b"\n", text)
}

/// Appends the lines of definitions.
fn print_definitions(version: u32, defs: &[Def], text: &mut Vec<u8>) -> Result<(), OutOfMemory>
    requires { ArePrintable defs.now }
    ensures { OnOk result (text.new.items ≡ text.old.items ++ text_of (definition_lines version defs.now)) }
{
    for def in defs {
        print_definition(version, def.name.as_bytes(), &def.body, text)?;
    }
    Ok(())
}

/// Appends the lines of a definition of this name.
fn print_definition(
    version: u32,
    name: &[u8],
    body: &Body,
    text: &mut Vec<u8>,
) -> Result<(), OutOfMemory>
    requires { IsPrintable body.now }
    ensures { OnOk result (text.new.items ≡ text.old.items ++ text_of (body_lines version name.now body.now)) }
{
    match body {
        Body::Sensor(len) => print_sized(b"sensor", name, *len, text),
        Body::Actuator(len) => print_sized(b"actuator", name, *len, text),
        Body::Constant(values) => print_values(b"constant", name, values.as_slice(), text),
        Body::Delay(depth, values) => {
            print_delay(version, name, *depth, values.as_slice(), text)
        }
        Body::Function { ins, outs } => {
            print_function(name, ins.as_slice(), outs.as_slice(), text)
        }
        Body::Graph {
            ins,
            outs,
            references,
            edges,
        } => print_graph(
            name,
            ins.as_slice(),
            outs.as_slice(),
            references.as_slice(),
            edges.as_slice(),
            text,
        ),
        Body::Switch {
            on,
            ins,
            outs,
            cases,
            otherwise,
            ..
        } => print_switch(
            &SwitchParts {
                name,
                on: on.as_bytes(),
                ins: ins.as_slice(),
                outs: outs.as_slice(),
                cases: cases.as_slice(),
                otherwise: otherwise.as_bytes(),
            },
            text,
        ),
        Body::Repeat { copies, def, lines } => {
            print_repeat(name, *copies, def.as_bytes(), lines.as_slice(), text)
        }
    }
}
