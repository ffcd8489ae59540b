//! Graphs: what is no flat graph and no architecture, each beside what is one (`flat_graph`, `archi_graph`).

use crate::lists::{one, three, two};
use sequence_build_laws::{Kind, Medium, MediumKind, Source, Vertex, is_archi, is_flat};
use std::alloc::Global;
use std::test::Fail;
use syn_base::{Items, Name};

/// An operation without guards that passes on its inputs, until it is made another one.
fn operation(alloc: Global, name: &[u8], ins: &[Source], outs: &[u32]) -> Result<Vertex, Fail> {
    let name = Items::new(Vec::from_slice(alloc, name)?);
    let def = Name::new(alloc, b"D")?;
    let ins = Items::new(Vec::from_slice(alloc, ins)?);
    let outs = Items::new(Vec::from_slice(alloc, outs)?);
    Ok(Vertex {
        name,
        def,
        kind: Kind::Implode,
        guards: Items::new(Vec::new(alloc)),
        ins,
        outs,
        twin: None,
    })
}

/// An operation of another kind, with a twin.
fn made_into(mut operation: Vertex, kind: Kind, twin: Option<u32>) -> Vertex {
    operation.kind = kind;
    operation.twin = twin;
    operation
}

/// A constant 7.
fn constant(alloc: Global) -> Result<Vertex, Fail> {
    let made = operation(alloc, b"c", &[], &[1])?;
    let values = Items::new(Vec::from_slice(alloc, &[7])?);
    Ok(made_into(made, Kind::Constant(values), None))
}

/// The constant alone.
pub fn alone(alloc: Global) -> Result<Vec<Vertex>, Fail> {
    Ok(one(alloc, constant(alloc)?)?)
}

/// The constant, and an operation that passes on what this one of both gives.
pub fn operations(alloc: Global, passed: u32) -> Result<Vec<Vertex>, Fail> {
    let source = Source {
        vertex: passed,
        port: 0,
    };
    let first = constant(alloc)?;
    let second = operation(alloc, b"p", &[source], &[1])?;
    Ok(two(alloc, first, second)?)
}

/// The get half of a delay of 0 whose set half is operation 2.
fn get_half(alloc: Global) -> Result<Vertex, Fail> {
    let made = operation(alloc, b"d:get", &[], &[1])?;
    let initial = Items::new(Vec::from_slice(alloc, &[0])?);
    Ok(made_into(made, Kind::Get(initial), Some(2)))
}

/// The set half of a delay that keeps what operation 0 gives, and whose get half is operation 1.
fn set_half(alloc: Global) -> Result<Vertex, Fail> {
    let source = Source { vertex: 0, port: 0 };
    let made = operation(alloc, b"d:set", &[source], &[])?;
    Ok(made_into(made, Kind::Set, Some(1)))
}

/// The constant, and both halves of a delay that keeps it.
pub fn delayed(alloc: Global) -> Result<Vec<Vertex>, Fail> {
    let first = constant(alloc)?;
    let second = get_half(alloc)?;
    let third = set_half(alloc)?;
    Ok(three(alloc, first, second, third)?)
}

/// Whether these are the operations of a flat graph, where the second one passes on what this one of both gives.
fn may_pass_on(alloc: Global, passed: u32) -> Result<bool, Fail> {
    let operations = operations(alloc, passed)?;
    Ok(is_flat(&operations, &[]))
}

#[test]
fn an_operation_does_not_read_itself(rt: HostRuntime) -> Result<(), Fail> {
    assert_eq!(rt; may_pass_on(rt.alloc(), 0)?, true);
    assert_eq!(rt; may_pass_on(rt.alloc(), 1)?, false);
    Ok(())
}

/// A constant of six elements.
fn six(alloc: Global) -> Result<Vertex, Fail> {
    let made = operation(alloc, b"c", &[], &[6])?;
    let values = Items::new(Vec::from_slice(alloc, &[1, 2, 3, 4, 5, 6])?);
    Ok(made_into(made, Kind::Constant(values), None))
}

/// An explode of what operation 0 gives, into these parts.
fn explode(alloc: Global, parts: &[u32]) -> Result<Vertex, Fail> {
    let source = Source { vertex: 0, port: 0 };
    let made = operation(alloc, b"x", &[source], parts)?;
    Ok(made_into(made, Kind::Explode, None))
}

/// Whether six elements and an explode of them into these parts are the operations of a flat graph.
fn may_explode(alloc: Global, parts: &[u32]) -> Result<bool, Fail> {
    let operations = two(alloc, six(alloc)?, explode(alloc, parts)?)?;
    Ok(is_flat(&operations, &[]))
}

#[test]
fn the_parts_of_an_explode_are_equally_long(rt: HostRuntime) -> Result<(), Fail> {
    let alloc = rt.alloc();
    assert_eq!(rt; may_explode(alloc, &[2, 2, 2])?, true);
    assert_eq!(rt; may_explode(alloc, &[1, 2, 3])?, false);
    assert_eq!(rt; may_explode(alloc, &[2, 2])?, false);
    assert_eq!(rt; may_explode(alloc, &[6])?, true);
    assert_eq!(rt; may_explode(alloc, &[])?, false);
    Ok(())
}

/// Whether six elements, an explode of them into three parts, and an implode of the first part and of the
/// output of this operation to this length are the operations of a flat graph.
fn may_implode(alloc: Global, second: u32, len: u32) -> Result<bool, Fail> {
    let part = Source { vertex: 1, port: 0 };
    let other = Source {
        vertex: second,
        port: 0,
    };
    let implode = operation(alloc, b"y", &[part, other], &[len])?;
    let operations = three(alloc, six(alloc)?, explode(alloc, &[2, 2, 2])?, implode)?;
    Ok(is_flat(&operations, &[]))
}

#[test]
fn the_parts_of_an_implode_are_equally_long(rt: HostRuntime) -> Result<(), Fail> {
    let alloc = rt.alloc();
    assert_eq!(rt; may_implode(alloc, 1, 4)?, true);
    assert_eq!(rt; may_implode(alloc, 1, 6)?, false);
    assert_eq!(rt; may_implode(alloc, 0, 8)?, false);
    Ok(())
}

/// Operators of these names.
pub fn operators(alloc: Global, names: &[&[u8]]) -> Result<Vec<Name>, Fail> {
    let mut operators = Vec::new(alloc);
    for name in names {
        operators.push(Name::new(alloc, name)?)?;
    }
    Ok(operators)
}

/// A bus between the first two operators, as the only medium.
pub fn bus(alloc: Global) -> Result<Vec<Medium>, Fail> {
    let name = Name::new(alloc, b"bus")?;
    let stands = Items::new(Vec::from_slice(alloc, &[0, 1])?);
    let medium = Medium {
        name,
        kind: MediumKind::PointToPoint,
        fixed: 1,
        per: 1,
        stands,
    };
    Ok(one(alloc, medium)?)
}

/// Whether operators of these names, of which the first two stand at a bus, are an architecture.
fn may_be_joined(alloc: Global, names: &[&[u8]]) -> Result<bool, Fail> {
    let operators = operators(alloc, names)?;
    let media = bus(alloc)?;
    Ok(is_archi(&operators, &media))
}

#[test]
fn operators_are_joined_and_named_apart(rt: HostRuntime) -> Result<(), Fail> {
    let alloc = rt.alloc();
    assert_eq!(rt; may_be_joined(alloc, &[b"P", b"Q"])?, true);
    assert_eq!(rt; may_be_joined(alloc, &[b"P", b"Q", b"R"])?, false);
    assert_eq!(rt; may_be_joined(alloc, &[b"bus", b"Q"])?, false);
    Ok(())
}
