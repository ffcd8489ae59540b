//! Expressions compiled and run, with values that were worked by hand.
use crate::{Code, Span, compile};
use body_lang::{Expr, has_ports_below};
use std::alloc::Global;
use std::test::Fail;
use syn_base::{Op, OutOfMemory};

fn boxed(alloc: Global, e: Expr) -> Result<Box<Expr>, OutOfMemory> {
    Ok(Box::new(alloc, e)?)
}

fn apply(alloc: Global, op: Op, a: Expr, b: Expr) -> Result<Expr, OutOfMemory> {
    Ok(Expr::Apply(op, boxed(alloc, a)?, boxed(alloc, b)?))
}

fn element(alloc: Global, port: u32, at: Expr) -> Result<Expr, OutOfMemory> {
    Ok(Expr::Elem(port, boxed(alloc, at)?))
}

/// The first elements of an expression, over a port of 7, -1 and 300, and one of 5 and 2.
fn values(alloc: Global, e: &Expr, len: usize) -> Result<Vec<i64>, OutOfMemory> {
    let ports = [Span { start: 0, len: 3 }, Span { start: 3, len: 2 }];
    let mut code = Code::new(alloc, 5);
    if !has_ports_below(e, 2) {
        return Err(OutOfMemory);
    }
    let at = compile(e, ports.as_slice(), len, &mut code)?;
    let mut store = vec![in alloc; 0i64; code.end()]?;
    store[..5].copy_from_slice(&[7, -1, 300, 5, 2]);
    code.run(&mut store);
    Ok(Vec::from_slice(alloc, &store[at..at + len])?)
}

#[test]
fn elements_are_slices_or_picked(rt: HostRuntime) -> Result<(), Fail> {
    let a = rt.alloc();
    let on = element(a, 0, apply(a, Op::Add, Expr::Index, Expr::Lit(1))?)?;
    assert_eq!(rt; values(a, &on, 2)?.as_slice(), [-1, 300].as_slice());
    assert_eq!(rt; values(a, &on, 3)?.as_slice(), [-1, 300, 0].as_slice());
    let back = element(a, 0, apply(a, Op::Sub, Expr::Lit(2), Expr::Index)?)?;
    assert_eq!(rt; values(a, &back, 3)?.as_slice(), [300, -1, 7].as_slice());
    assert_eq!(rt; values(a, &back, 4)?.as_slice(), [300, -1, 7, 0].as_slice());
    let picked = element(a, 1, element(a, 0, Expr::Index)?)?;
    assert_eq!(rt; values(a, &picked, 4)?.as_slice(), [0, 0, 0, 5].as_slice());
    let one = element(a, 1, Expr::Lit(1))?;
    assert_eq!(rt; values(a, &one, 1)?.as_slice(), [2].as_slice());
    assert_eq!(rt; values(a, &one, 2)?.as_slice(), [2, 2].as_slice());
    Ok(())
}

#[test]
fn operators_take_words_and_numbers(rt: HostRuntime) -> Result<(), Fail> {
    let a = rt.alloc();
    let tripled = apply(a, Op::Mul, element(a, 0, Expr::Index)?, Expr::Lit(3))?;
    let last = element(a, 1, apply(a, Op::Sub, Expr::Lit(1), Expr::Index)?)?;
    let sum = apply(a, Op::Add, tripled, last)?;
    assert_eq!(rt; values(a, &sum, 1)?.as_slice(), [23].as_slice());
    assert_eq!(rt; values(a, &sum, 3)?.as_slice(), [23, 2, 900].as_slice());
    let less = apply(
        a,
        Op::Sub,
        Expr::Lit(4),
        Expr::Neg(boxed(a, Expr::SumOf(1))?),
    )?;
    assert_eq!(rt; values(a, &less, 2)?.as_slice(), [11, 11].as_slice());
    let condition = boxed(a, element(a, 0, Expr::Index)?)?;
    let chosen = Expr::Select(condition, boxed(a, Expr::Index)?, boxed(a, Expr::SumOf(0))?);
    assert_eq!(rt;
        values(a, &chosen, 4)?.as_slice(),
        [0, 1, 2, 306].as_slice()
    );
    Ok(())
}
