//! References to delays from which no edge leads.
ghost use Rattle.std.specs.Prelude.{◌≡◌, ◌++◌, OnOk};
ghost use Rattle.std.specs.List.{flat_map};
ghost use Rattle.algo_rules.specs.Links.{definition};
ghost use Rattle.text_lint.specs.Algorithm.{is_delay_of, is_read, unread, unread_at, unread_by};

use crate::finding::Finding;
use crate::known::Known;
use crate::switches::is_owned_by;
use algo_rules::{Body, Def, Edge, Reference};
use std::alloc::Global;
use syn_base::{Name, OutOfMemory};

/// Appends the delays that nobody reads in these definitions.
pub fn append_unread(
    alloc: Global,
    known: &Known,
    defs: &[Def],
    found: &mut Vec<Finding>,
) -> Result<(), OutOfMemory>
    ensures { OnOk result (found.new.items ≡
        found.old.items ++ unread known.now defs.now) }
{
    for def in defs {
        append_of_definition(alloc, known, &def.body, found)?;
    }
    Ok(())
}

/// Appends those of a definition, where it is a graph.
fn append_of_definition(
    alloc: Global,
    known: &Known,
    body: &Body,
    found: &mut Vec<Finding>,
) -> Result<(), OutOfMemory>
    ensures { OnOk result (found.new.items ≡ found.old.items ++ unread_by known.now body.now) }
{
    match body {
        Body::Graph {
            references,
            edges,
            ..
        } => append_of_graph(alloc, known, references.as_slice(), edges.as_slice(), found),
        _ => Ok(()),
    }
}

/// Appends those of a graph with these references and edges.
fn append_of_graph(
    alloc: Global,
    known: &Known,
    references: &[Reference],
    edges: &[Edge],
    found: &mut Vec<Finding>,
) -> Result<(), OutOfMemory>
    ensures { OnOk result (found.new.items ≡
        found.old.items ++ flat_map (unread_at known.now edges.now) references.now) }
{
    for reference in references {
        append_if_unread(alloc, known, edges, reference, found)?;
    }
    Ok(())
}

/// Appends a reference to a delay from which none of these edges leads.
fn append_if_unread(
    alloc: Global,
    known: &Known,
    edges: &[Edge],
    reference: &Reference,
    found: &mut Vec<Finding>,
) -> Result<(), OutOfMemory>
    ensures { OnOk result (found.new.items ≡
        found.old.items ++ unread_at known.now edges.now reference.now) }
{
    if is_delay(known, &reference.def) && !is_read(&reference.name, edges) {
        found.push(Finding::UnreadDelay {
            line: reference.line as usize,
            reference: reference.name.copy(alloc)?,
        })?;
    }
    Ok(())
}

/// Whether the definition of this name is a delay.
fn is_delay(known: &Known, name: &Name) -> bool
    ensures { result ≡ is_delay_of (definition known.now name.now) }
{
    match known.definition(name.as_bytes()) {
        Some(def) => matches!(&def.body, Body::Delay(_, _)),
        None => false,
    }
}

/// Whether one of these edges leads from the reference.
fn is_read(reference: &Name, edges: &[Edge]) -> bool
    ensures { result ≡ is_read reference.now edges.now }
{
    for edge in edges {
        if is_owned_by(reference, &edge.from.owner) {
            return true;
        }
    }
    false
}
