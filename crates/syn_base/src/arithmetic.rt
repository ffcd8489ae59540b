//! The arithmetic of 64-bit signed numbers, which always gives a value: expressions are computed with it.
ghost use Rattle.std.specs.Prelude.{◌≡◌};
ghost use Rattle.syn_base.specs.Arithmetic.{applied, quotient_of, remainder_of, truth_value};

/// An operator of expressions.
#[derive(Clone, Copy, Debug, PartialEq, Eq)]
pub enum Op {
    Add,
    Sub,
    Mul,
    /// Cuts towards zero; by 0 it gives 0.
    Div,
    /// Has the dividend's sign; by 0 it gives the dividend.
    Rem,
    Eq,
    Ne,
    Lt,
    Le,
    Gt,
    Ge,
    Min,
    Max,
    /// The negation of the first operand.
    Neg,
}

/// The value of an operator. Sums, differences, products, quotients and negations are taken modulo
/// 2^64 in two's complement, `x / 0` is 0 and `x % 0` is `x`; a comparison gives 1 or 0. It always
/// returns and takes no memory.
pub fn apply(op: Op, a: i64, b: i64) -> i64
    ensures { result ≡ applied op a b }
{
    match op {
        Op::Add => a.wrapping_add(b),
        Op::Sub => a.wrapping_sub(b),
        Op::Mul => a.wrapping_mul(b),
        Op::Div => quotient(a, b),
        Op::Rem => remainder(a, b),
        Op::Eq => truth(a == b),
        Op::Ne => truth(a != b),
        Op::Lt => truth(a < b),
        Op::Le => truth(a <= b),
        Op::Gt => truth(a > b),
        Op::Ge => truth(a >= b),
        Op::Min => a.min(b),
        Op::Max => a.max(b),
        Op::Neg => a.wrapping_neg(),
    }
}

/// The quotient, cut towards zero, and 0 where the divisor is 0.
fn quotient(a: i64, b: i64) -> i64
    ensures { result ≡ quotient_of a b }
{
    if b == 0 { 0 } else { a.wrapping_div(b) }
}

/// The remainder, with the dividend's sign, and the dividend where the divisor is 0.
fn remainder(a: i64, b: i64) -> i64
    ensures { result ≡ remainder_of a b }
{
    if b == 0 { a } else { a.wrapping_rem(b) }
}

/// The number that stands for a comparison: 1 where it holds, else 0.
fn truth(holds: bool) -> i64
    ensures { result ≡ truth_value holds }
{
    if holds { 1 } else { 0 }
}
