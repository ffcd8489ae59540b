//! The words that a store needs, counted by hand.
use crate::GraphCode;
use body_lang::Expr;
use flat_graph::{Body, Flat, Kind, Source, Vertex, is_flat};
use std::alloc::Global;
use std::test::Fail;
use syn_base::{Items, Name, Op, OutOfMemory};

/// An operation without guards.
fn operation(
    alloc: Global,
    name: &[u8],
    kind: Kind,
    ins: &[Source],
    outs: &[u32],
) -> Result<Vertex, Fail> {
    let name = Items::new(Vec::from_slice(alloc, name)?);
    let def = Name::new(alloc, b"D")?;
    let ins = Items::new(Vec::from_slice(alloc, ins)?);
    let outs = Items::new(Vec::from_slice(alloc, outs)?);
    Ok(Vertex {
        name,
        def,
        kind,
        guards: Items::new(Vec::new(alloc)),
        ins,
        outs,
        twin: None,
    })
}

/// Three times element `at` of the one input, and 1.
fn tripled(alloc: Global, at: Expr) -> Result<Expr, OutOfMemory> {
    let element = Box::new(alloc, Expr::Elem(0, Box::new(alloc, at)?))?;
    let product = Expr::Apply(Op::Mul, element, Box::new(alloc, Expr::Lit(3))?);
    let one = Box::new(alloc, Expr::Lit(1))?;
    Ok(Expr::Apply(Op::Add, Box::new(alloc, product)?, one))
}

#[test]
fn a_store_has_room_for_values_and_for_the_largest_code(rt: HostRuntime) -> Result<(), Fail> {
    let alloc = rt.alloc();
    let values = Items::new(Vec::from_slice(alloc, &[7, 8])?);
    let source = Source { vertex: 0, port: 0 };
    let mut vertices = Vec::new(alloc);
    vertices.push(operation(alloc, b"c", Kind::Constant(values), &[], &[2])?)?;
    vertices.push(operation(alloc, b"f", Kind::Function(0), &[source], &[1, 3])?)?;
    let mut body = Vec::new(alloc);
    body.push(tripled(alloc, Expr::Lit(0))?)?;
    body.push(tripled(alloc, Expr::Index)?)?;
    let mut bodies = Vec::new(alloc);
    bodies.push(Body::new(alloc, body)?)?;
    assert!(rt; is_flat(&vertices, &bodies));
    let flat = Flat::new(vertices, bodies);
    let code = GraphCode::new(alloc, &flat)?;
    // Two words and four are values; for three elements of two that are read by number the code has
    // numbers, elements, products and sums.
    assert_eq!(rt; code.room, 18);
    Ok(())
}
