//! From expressions to straight code.
ghost use Rattle.std.specs.Prelude.{◌≡◌, length, IfOk, IfSome};
ghost use Rattle.syn_base.specs.declared.arithmetic.Op.TheVariants.{Add, Sub};
ghost use Rattle.body_lang.specs.Expr.{view, apply, literal, PortsBelow};
ghost use Rattle.expression_code.specs.Compiled.{AreBelow, Compiled, IsShift, Numbers, NumbersBack};

use crate::step::{Action, Span};
use crate::straight::Code;
use body_lang::Expr;
use syn_base::{Op, OutOfMemory};

/// Below this many elements no number of an element wraps around.
const MOST: usize = 4_294_967_296;

/// Appends the steps of an expression to the code, over ports whose vectors stand in these spans of
/// the store. It returns the place at which the values for the elements below `len` stand after a run.
/// No port that is read element by element, forwards or backwards within its length, is copied.
pub fn compile(e: &Expr, ports: &[Span], len: usize, code: &mut Code) -> Result<usize, OutOfMemory>
    requires ports { PortsBelow (length ports.now) (view e.now) }
    requires below { AreBelow code.old.from ports.now }
    ensures { IfOk result (λ at. Compiled ports.now len code.old code.new (view e.now) at) }
{
    match e {
        Expr::Lit(value) => code.push(len, Action::Fill(*value)),
        Expr::Index => code.push(len, Action::Count),
        Expr::Elem(port, at) => {
            // Reading where the code ends tells that the places of the ports fit in 64 bits.
            let _end = code.end();
            let port = ports[*port as usize];
            if let Some(offset) = offset_in(port.len, at, len) {
                return Ok(port.start + offset);
            }
            if let Some(offset) = back_in(port.len, at, len) {
                return code.push(len, Action::Back(port.start + offset));
            }
            let numbers = compile(at, ports, len, code)?;
            code.push(len, Action::Gather(port.start, port.len, numbers))
        }
        Expr::SumOf(port) => {
            let port = ports[*port as usize];
            code.push(len, Action::Total(port.start, port.len))
        }
        Expr::Neg(a) => {
            let inner = compile(a, ports, len, code)?;
            code.push(len, Action::Right(Op::Neg, inner, 0))
        }
        Expr::Apply(op, a, b) => {
            if let Some(number) = number_of(b) {
                let left = compile(a, ports, len, code)?;
                return code.push(len, Action::Right(*op, left, number));
            }
            if let Some(number) = number_of(a) {
                let right = compile(b, ports, len, code)?;
                return code.push(len, Action::Left(*op, number, right));
            }
            let left = compile(a, ports, len, code)?;
            let right = compile(b, ports, len, code)?;
            code.push(len, Action::Both(*op, left, right))
        }
        Expr::Select(condition, a, b) => {
            let chosen = compile(condition, ports, len, code)?;
            let first = compile(a, ports, len, code)?;
            let second = compile(b, ports, len, code)?;
            code.push(len, Action::Choose(chosen, first, second))
        }
    }
}

/// The number, if that is what an expression is.
fn number_of(e: &Expr) -> Option<i64>
    ensures { IfSome result (λ v. view e.now ≡ literal v) }
{
    match e {
        Expr::Lit(value) => Some(*value),
        _ => None,
    }
}

/// The offset from which on an expression numbers the elements of a vector, if it does.
fn offset_in(count: usize, at: &Expr, len: usize) -> Option<usize>
    ensures { IfSome result (λ offset. Numbers count len (view at.now) offset) }
{
    match at {
        Expr::Index if len <= count => Some(0),
        Expr::Lit(value) if len == 1 => match usize::try_from(*value) {
            Ok(at) if at < count => Some(at),
            _ => None,
        },
        Expr::Apply(Op::Add, a, b) => shift_in(count, a, b, len),
        _ => None,
    }
}

/// The offset from which on an expression numbers the elements of a vector backwards, if it does.
#[tactic(auto, using(crate::proofs::Shifts::numbers_back))]
fn back_in(count: usize, at: &Expr, len: usize) -> Option<usize>
    ensures { IfSome result (λ offset. NumbersBack count len (view at.now) offset) }
{
    match at {
        Expr::Apply(Op::Sub, a, b) => difference_in(count, a, b, len),
        _ => None,
    }
}

/// The offset from which on the difference of two expressions numbers the elements of a vector
/// backwards, if it does.
#[tactic(auto, using(crate::proofs::Shifts::numbers_back))]
fn difference_in(count: usize, a: &Expr, b: &Expr, len: usize) -> Option<usize>
    ensures { IfSome result (λ offset.
        NumbersBack count len (apply Sub (view a.now) (view b.now)) offset) }
{
    // The number of the element and the number stand the other way round here.
    let from = shift_of(b, a)?;
    if from < count && count < MOST && len <= from + 1 {
        Some(from)
    } else {
        None
    }
}

/// The offset from which on the sum of two expressions numbers the elements of a vector, if it does.
#[tactic(auto, using(crate::proofs::Shifts::numbers_shift))]
fn shift_in(count: usize, a: &Expr, b: &Expr, len: usize) -> Option<usize>
    ensures { IfSome result (λ offset.
        Numbers count len (apply Add (view a.now) (view b.now)) offset) }
{
    let shift = shift_of(a, b)?;
    if shift < count && count < MOST && len <= count - shift {
        Some(shift)
    } else {
        None
    }
}

/// The number that is added to `j`, if that is what two expressions are.
fn shift_of(a: &Expr, b: &Expr) -> Option<usize>
    ensures { IfSome result (λ shift. IsShift shift (view a.now) (view b.now)) }
{
    match (a, b) {
        (Expr::Index, Expr::Lit(value)) => usize::try_from(*value).ok(),
        _ => None,
    }
}
