//! Elements that expressions take by numbers which their ports have not.
ghost use Rattle.std.specs.Prelude.{◌≡◌, ◌++◌, OnOk, Some, slice_get};
ghost use Rattle.body_lang.specs.Expr.{view};
ghost use Rattle.text_lint.specs.Algorithm.{is_outside, outside, outside_at, outside_by, outside_in, outside_outputs, outside_port};

use crate::finding::Finding;
use algo_rules::{Body, Def, Output};
use body_lang::{Expr, Port};
use std::alloc::Global;
use syn_base::OutOfMemory;

/// Appends the elements outside their ports of the functions among these definitions.
pub fn append_elements(
    alloc: Global,
    defs: &[Def],
    found: &mut Vec<Finding>,
) -> Result<(), OutOfMemory>
    ensures { OnOk result (found.new.items ≡ found.old.items ++ outside defs.now) }
{
    for def in defs {
        append_of_def(alloc, def, found)?;
    }
    Ok(())
}

/// Appends those of a definition, where it is a function.
fn append_of_def(alloc: Global, def: &Def, found: &mut Vec<Finding>) -> Result<(), OutOfMemory>
    ensures { OnOk result (found.new.items ≡ found.old.items ++ outside_by def.now) }
{
    match &def.body {
        Body::Function { ins, outs } => {
            append_of_outputs(alloc, def, ins.as_slice(), outs.as_slice(), found)
        }
        _ => Ok(()),
    }
}

/// Appends those of the outputs of a function with these inputs.
fn append_of_outputs(
    alloc: Global,
    def: &Def,
    ins: &[Port],
    outs: &[Output],
    found: &mut Vec<Finding>,
) -> Result<(), OutOfMemory>
    ensures { OnOk result (found.new.items ≡
        found.old.items ++ outside_outputs def.now ins.now outs.now) }
{
    for output in outs {
        append_of_expression(alloc, def, ins, output.formula.expr(), found)?;
    }
    Ok(())
}

/// Appends those of an expression. It goes as deep as the expression, which has at most 512 tokens.
fn append_of_expression(
    alloc: Global,
    def: &Def,
    ins: &[Port],
    e: &Expr,
    found: &mut Vec<Finding>,
) -> Result<(), OutOfMemory>
    ensures { OnOk result (found.new.items ≡
        found.old.items ++ outside_in def.now ins.now (view e.now)) }
{
    match e {
        Expr::Lit(_) | Expr::Index | Expr::SumOf(_) => Ok(()),
        Expr::Elem(port, at) => {
            append_at(alloc, def, ins, *port as usize, at, found)?;
            append_of_expression(alloc, def, ins, at, found)
        }
        Expr::Neg(a) => append_of_expression(alloc, def, ins, a, found),
        Expr::Apply(_, a, b) => {
            append_of_expression(alloc, def, ins, a, found)?;
            append_of_expression(alloc, def, ins, b, found)
        }
        Expr::Select(condition, a, b) => {
            append_of_expression(alloc, def, ins, condition, found)?;
            append_of_expression(alloc, def, ins, a, found)?;
            append_of_expression(alloc, def, ins, b, found)
        }
    }
}

/// Appends the element of an input at an expression, where that is a number outside its port.
fn append_at(
    alloc: Global,
    def: &Def,
    ins: &[Port],
    input: usize,
    at: &Expr,
    found: &mut Vec<Finding>,
) -> Result<(), OutOfMemory>
    ensures { OnOk result (found.new.items ≡
        found.old.items ++ outside_at def.now ins.now input (view at.now)) }
{
    match at {
        Expr::Lit(element) => append_element(alloc, def, ins, input, *element, found),
        _ => Ok(()),
    }
}

/// Appends an element of an input, where it is outside its port.
fn append_element(
    alloc: Global,
    def: &Def,
    ins: &[Port],
    input: usize,
    element: i64,
    found: &mut Vec<Finding>,
) -> Result<(), OutOfMemory>
    ensures { OnOk result (found.new.items ≡
        found.old.items ++ outside_port def.now element (slice_get ins.now input)) }
{
    if input < ins.len() {
        append_if_outside(alloc, def, &ins[input], element, found)
    } else {
        Ok(())
    }
}

/// Appends an element of a port, where it is outside.
fn append_if_outside(
    alloc: Global,
    def: &Def,
    port: &Port,
    element: i64,
    found: &mut Vec<Finding>,
) -> Result<(), OutOfMemory>
    ensures { OnOk result (found.new.items ≡
        found.old.items ++ outside_port def.now element (Some port.now)) }
{
    if is_outside(port.len, element) {
        found.push(Finding::OutsideElement {
            line: def.line as usize,
            def: def.name.copy(alloc)?,
            port: port.name.copy(alloc)?,
            element,
            len: port.len,
        })?;
    }
    Ok(())
}

/// Whether a port of this length has no element of this number.
fn is_outside(len: u32, element: i64) -> bool
    ensures { result ≡ is_outside len element }
{
    match usize::try_from(element) {
        Ok(element) => len as usize <= element,
        Err(_) => true,
    }
}
