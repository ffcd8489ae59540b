//! Ports and expressions, as `body_text` reads them.
ghost use Rattle.std.specs.Prelude.{◌≡◌, IfOk};
ghost use Rattle.body_lang.specs.Expr.{view};

use std::alloc::Global;
use syn_base::{Name, Op, OutOfMemory};

/// A port: its name, and its length of 1 to 64 elements.
#[derive(Drop)]
pub struct Port {
    pub name: Name,
    pub len: u32,
}

/// An expression, which an output port has for each of its elements. Ports go by their number among
/// the inputs.
#[derive(Drop)]
pub enum Expr {
    /// A number.
    Lit(i64),
    /// The number `j` of the element that is computed.
    Index,
    /// An element of an input port, by its number; 0 outside the port.
    Elem(u32, Box<Expr>),
    /// The sum of an input port's elements.
    SumOf(u32),
    /// The negation of the value inside.
    Neg(Box<Expr>),
    /// The value of an operator on two values.
    Apply(Op, Box<Expr>, Box<Expr>),
    /// The second where the first is not 0, else the third.
    Select(Box<Expr>, Box<Expr>, Box<Expr>),
}

impl Expr {
    /// The same expression once more, in memory of its own. It recurses as deep as the expression.
    pub fn copy(&self, alloc: Global) -> Result<Expr, OutOfMemory>
        ensures { IfOk result (λ e. view e ≡ view self.now) }
    {
        Ok(match self {
            Expr::Lit(value) => Expr::Lit(*value),
            Expr::Index => Expr::Index,
            Expr::Elem(port, at) => Expr::Elem(*port, Box::new(alloc, at.copy(alloc)?)?),
            Expr::SumOf(port) => Expr::SumOf(*port),
            Expr::Neg(inner) => Expr::Neg(Box::new(alloc, inner.copy(alloc)?)?),
            Expr::Apply(op, left, right) => Expr::Apply(
                *op,
                Box::new(alloc, left.copy(alloc)?)?,
                Box::new(alloc, right.copy(alloc)?)?,
            ),
            Expr::Select(condition, first, second) => Expr::Select(
                Box::new(alloc, condition.copy(alloc)?)?,
                Box::new(alloc, first.copy(alloc)?)?,
                Box::new(alloc, second.copy(alloc)?)?,
            ),
        })
    }
}
