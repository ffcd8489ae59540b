//! The value of an expression, element by element: for the simulator and the operations of a flat graph.
ghost use Rattle.std.specs.Prelude.{◌≡◌, ◌<◌, ◌↔◌, IsTrue, IfSome, length};
ghost use Rattle.syn_base.specs.Arithmetic.{wrapped};
ghost use Rattle.body_lang.specs.Expr.{view, value_of, element_at, total, PortsBelow};

use crate::expression::Expr;
use crate::inputs::Ins;
use syn_base::{Op, apply};

/// The value of an expression for element number `j` of an output. Its port numbers are below the
/// number of vectors. It takes no memory and always returns.
pub fn value(e: &Expr, ins: &Ins, j: u32) -> i64
    requires { PortsBelow (length ins.now) (view e.now) }
    ensures { result ≡ value_of (view e.now) ins.now j }
{
    match e {
        Expr::Lit(v) => *v,
        Expr::Index => i64::from(j),
        Expr::Elem(port, at) => {
            let at = match plain(at, ins, j) {
                Some(at) => at,
                None => value(at, ins, j),
            };
            element(ins.vector(*port as usize), at)
        }
        Expr::SumOf(port) => sum(ins.vector(*port as usize)),
        Expr::Neg(a) => apply(Op::Neg, value(a, ins, j), 0),
        Expr::Apply(op, a, b) => {
            let left = match simple(a, ins, j) {
                Some(left) => left,
                None => value(a, ins, j),
            };
            let right = match simple(b, ins, j) {
                Some(right) => right,
                None => value(b, ins, j),
            };
            apply(*op, left, right)
        }
        Expr::Select(condition, a, b) => {
            let chosen = if value(condition, ins, j) == 0 { b } else { a };
            value(chosen, ins, j)
        }
    }
}

/// The value of a number and of `j`: half of what stands in most expressions, and no call is made
/// for it. The vectors are there for the clause, which speaks of them.
#[inline(always)]
fn plain(e: &Expr, ins: &Ins, j: u32) -> Option<i64>
    ensures { IfSome result (λ x. x ≡ value_of (view e.now) ins.now j) }
{
    // Only the clause speaks of the vectors.
    let _vectors = ins;
    match e {
        Expr::Lit(v) => Some(*v),
        Expr::Index => Some(i64::from(j)),
        _ => None,
    }
}

/// The value of a number, of `j`, and of an element at such a place.
#[inline(always)]
fn simple(e: &Expr, ins: &Ins, j: u32) -> Option<i64>
    requires { PortsBelow (length ins.now) (view e.now) }
    ensures { IfSome result (λ x. x ≡ value_of (view e.now) ins.now j) }
{
    match e {
        Expr::Elem(port, at) => match plain(at, ins, j) {
            Some(at) => Some(element(ins.vector(*port as usize), at)),
            None => None,
        },
        _ => plain(e, ins, j),
    }
}

/// Whether each port that an expression names has a number below `ports`. It takes no memory.
pub fn has_ports_below(e: &Expr, ports: usize) -> bool
    ensures { IsTrue result ↔ PortsBelow ports (view e.now) }
{
    match e {
        Expr::Lit(_) | Expr::Index => true,
        Expr::Elem(port, at) => (*port as usize) < ports && has_ports_below(at, ports),
        Expr::SumOf(port) => (*port as usize) < ports,
        Expr::Neg(a) => has_ports_below(a, ports),
        Expr::Apply(_, a, b) => has_ports_below(a, ports) && has_ports_below(b, ports),
        Expr::Select(condition, a, b) => {
            has_ports_below(condition, ports)
                && has_ports_below(a, ports)
                && has_ports_below(b, ports)
        }
    }
}

/// An element by its number, 0 outside the vector.
fn element(vector: &[i64], at: i64) -> i64
    ensures { result ≡ element_at vector.now at }
{
    match usize::try_from(at) {
        Ok(at) if at < vector.len() => vector[at],
        _ => 0,
    }
}

/// The sum of a vector's elements, modulo 2^64 in two's complement.
fn sum(vector: &[i64]) -> i64
    ensures { result ≡ wrapped (total vector.now) }
{
    let mut sum: i64 = 0;
    for element in vector {
        sum = sum.wrapping_add(*element);
    }
    sum
}
