//! Cases that a reference to their switch never takes, since a constant selects another one.
ghost use Rattle.std.specs.Prelude.{◌≡◌, ◌++◌, OnOk, option_copied, slice_get};
ghost use Rattle.std.specs.List.{flat_map};
ghost use Rattle.algo_rules.specs.Links.{definition};
ghost use Rattle.text_lint.specs.Algorithm.{
  constant_value,
  definition_value,
  is_owned_by,
  is_port_of,
  never_at,
  never_body,
  never_by,
  never_taken,
  other_case,
  other_cases,
  other_value,
  owner_value,
  port_value,
  reference_in,
  reference_value,
};

use crate::finding::Finding;
use crate::known::Known;
use algo_rules::{Body, Case, Def, Edge, End, Reference};
use std::alloc::Global;
use syn_base::{Name, OutOfMemory};

/// The references and the edges of a graph.
#[derive(Clone, Copy)]
struct Graph<'a> {
    references: &'a [Reference],
    edges: &'a [Edge],
}

/// Appends the cases that are never taken in these definitions.
pub fn append_never_taken(
    alloc: Global,
    known: &Known,
    defs: &[Def],
    found: &mut Vec<Finding>,
) -> Result<(), OutOfMemory>
    ensures { OnOk result (found.new.items ≡
        found.old.items ++ never_taken known.now defs.now) }
{
    for def in defs {
        append_of_definition(alloc, known, &def.body, found)?;
    }
    Ok(())
}

/// Appends those of a definition, where it is a graph.
fn append_of_definition(
    alloc: Global,
    known: &Known,
    body: &Body,
    found: &mut Vec<Finding>,
) -> Result<(), OutOfMemory>
    ensures { OnOk result (found.new.items ≡ found.old.items ++ never_by known.now body.now) }
{
    match body {
        Body::Graph {
            references,
            edges,
            ..
        } => append_of_graph(alloc, known, references.as_slice(), edges.as_slice(), found),
        _ => Ok(()),
    }
}

/// Appends those of a graph with these references and edges.
fn append_of_graph(
    alloc: Global,
    known: &Known,
    references: &[Reference],
    edges: &[Edge],
    found: &mut Vec<Finding>,
) -> Result<(), OutOfMemory>
    ensures { OnOk result (found.new.items ≡
        found.old.items ++ flat_map (never_at known.now references.now edges.now) references.now) }
{
    for reference in references {
        append_of_reference(alloc, known, references, edges, reference, found)?;
    }
    Ok(())
}

/// Appends those of a reference of a graph.
fn append_of_reference(
    alloc: Global,
    known: &Known,
    references: &[Reference],
    edges: &[Edge],
    reference: &Reference,
    found: &mut Vec<Finding>,
) -> Result<(), OutOfMemory>
    ensures { OnOk result (found.new.items ≡
        found.old.items ++ never_at known.now references.now edges.now reference.now) }
{
    match known.definition(reference.def.as_bytes()) {
        Some(def) => {
            let graph = Graph { references, edges };
            append_of_switch(alloc, known, &graph, reference, &def.body, found)
        }
        None => Ok(()),
    }
}

/// Appends those of a reference to this definition, where that is a switch.
fn append_of_switch(
    alloc: Global,
    known: &Known,
    graph: &Graph,
    reference: &Reference,
    body: &Body,
    found: &mut Vec<Finding>,
) -> Result<(), OutOfMemory>
    ensures { OnOk result (found.new.items ≡ found.old.items ++
        never_body known.now graph.now.references.now graph.now.edges.now reference.now body.now) }
{
    match body {
        Body::Switch { on, cases, .. } => {
            let value = port_value(known, graph.references, graph.edges, &reference.name, on);
            append_other_cases(alloc, reference, cases.as_slice(), value, found)
        }
        _ => Ok(()),
    }
}

/// Appends the cases that this value does not select, where there is one.
fn append_other_cases(
    alloc: Global,
    reference: &Reference,
    cases: &[Case],
    value: Option<i64>,
    found: &mut Vec<Finding>,
) -> Result<(), OutOfMemory>
    ensures { OnOk result (found.new.items ≡
        found.old.items ++ other_cases reference.now cases.now value) }
{
    match value {
        Some(value) => append_others(alloc, reference, cases, value, found),
        None => Ok(()),
    }
}

/// Appends the cases of other values than this one.
fn append_others(
    alloc: Global,
    reference: &Reference,
    cases: &[Case],
    value: i64,
    found: &mut Vec<Finding>,
) -> Result<(), OutOfMemory>
    ensures { OnOk result (found.new.items ≡
        found.old.items ++ flat_map (other_case reference.now value) cases.now) }
{
    for case in cases {
        append_if_other(alloc, reference, case.value, value, found)?;
    }
    Ok(())
}

/// Appends a case of this value, unless it is the one that is taken.
fn append_if_other(
    alloc: Global,
    reference: &Reference,
    value: i64,
    taken: i64,
    found: &mut Vec<Finding>,
) -> Result<(), OutOfMemory>
    ensures { OnOk result (found.new.items ≡
        found.old.items ++ other_value reference.now taken value) }
{
    if value != taken {
        found.push(Finding::NeverTaken {
            line: reference.line as usize,
            reference: reference.name.copy(alloc)?,
            value,
        })?;
    }
    Ok(())
}

/// The value that comes at a port of a reference, where a constant gives it. It takes no memory.
fn port_value(
    known: &Known,
    references: &[Reference],
    edges: &[Edge],
    reference: &Name,
    port: &Name,
) -> Option<i64>
    ensures { result ≡ port_value known.now references.now edges.now reference.now port.now }
{
    for edge in edges {
        if is_port_of(reference, port, &edge.to) {
            return end_value(known, references, &edge.from);
        }
    }
    None
}

/// The value that an end of an edge gives, where a constant gives it.
fn end_value(known: &Known, references: &[Reference], end: &End) -> Option<i64>
    ensures { result ≡ owner_value known.now references.now end.now.owner }
{
    match &end.owner {
        Some(owner) => reference_value(known, references, owner),
        None => None,
    }
}

/// The value of the reference of this name, where it is to a constant.
fn reference_value(known: &Known, references: &[Reference], name: &Name) -> Option<i64>
    ensures { result ≡ reference_value known.now (reference_in references.now name.now) }
{
    match reference_in(references, name) {
        Some(reference) => definition_value(known, &reference.def),
        None => None,
    }
}

/// The reference of this name.
fn reference_in<'a>(references: &'a [Reference], name: &Name) -> Option<&'a Reference>
    ensures { option_copied result ≡ reference_in references.now name.now }
{
    for reference in references {
        if name.as_bytes() == reference.name.as_bytes() {
            return Some(reference);
        }
    }
    None
}

/// The value of the definition of this name, where it is a constant.
fn definition_value(known: &Known, name: &Name) -> Option<i64>
    ensures { result ≡ definition_value (definition known.now name.now) }
{
    match known.definition(name.as_bytes()) {
        Some(def) => constant_value(&def.body),
        None => None,
    }
}

/// The first value of a constant.
fn constant_value(body: &Body) -> Option<i64>
    ensures { result ≡ constant_value body.now }
{
    match body {
        Body::Constant(values) => first_of(values.as_slice()),
        _ => None,
    }
}

/// The first of some values.
fn first_of(values: &[i64]) -> Option<i64>
    ensures { result ≡ slice_get values.now 0 }
{
    if 0 < values.len() {
        Some(values[0])
    } else {
        None
    }
}

/// Whether an end is this port of this reference.
fn is_port_of(reference: &Name, port: &Name, end: &End) -> bool
    ensures { result ≡ is_port_of reference.now port.now end.now }
{
    is_owned_by(reference, &end.owner) && port.as_bytes() == end.port.as_bytes()
}

/// Whether the owner of an end is this reference.
pub fn is_owned_by(reference: &Name, owner: &Option<Name>) -> bool
    ensures { result ≡ is_owned_by reference.now owner.now }
{
    match owner {
        Some(owner) => reference.as_bytes() == owner.as_bytes(),
        None => false,
    }
}
