//! The table of a level: where the outputs of each of its vertices lead. `inlining` makes it, from the inside out.
ghost use Rattle.std.specs.Prelude.{◌≡◌, IfOk, length};
ghost use Rattle.algo_tree.specs.Order.{IsAcyclic};
ghost use Rattle.algo_tree.specs.declared.vertex.Vertex.{out-Vertex};
ghost use Rattle.algo_tree.specs.View.{view, vertices_view};
ghost use Rattle.algo_tree.specs.Well.{AllWell, IsWell};
ghost use Rattle.flat_laws.specs.Inlined.{wire, wirings};
ghost use Rattle.hierarchy.specs.Order.{nodes_of};
ghost use Rattle.hierarchy.specs.Wires.{led, Leads};

use crate::numbers::first_numbers;
use crate::order::find_order;
use crate::wires::{Led, Level, follow_all};
use algo_tree::{Kind, Source, Vertex};
use std::alloc::Global;
use syn_base::{Items, OutOfMemory};

/// A row for each vertex of a level, to be written over.
fn blank(alloc: Global, numbers: &[u32]) -> Result<Vec<Led>, OutOfMemory>
    ensures { IfOk result (λ leds. length leds.items ≡ length numbers.now) }
{
    let mut leds = Vec::with_capacity(alloc, numbers.len())?;
    for number in numbers {
        leds.push(Led::Operation(*number))?;
    }
    Ok(leds)
}

/// Where the outputs of the vertices of a level lead, from where its own inputs lead. The level's first
/// operation has this number.
#[cycle(lead)]
pub fn lead_level(
    alloc: Global,
    first: u32,
    own: &[Source],
    vertices: &Vec<Vertex>,
) -> Result<Vec<Led>, OutOfMemory>
    requires well { AllWell (vertices_view vertices.now.items) }
    requires acyclic { IsAcyclic (nodes_of vertices.now.items) }
    ensures { IfOk result (λ leds. led leds.items own.now ≡
        wire (wirings first (vertices_view vertices.now.items)) own.now) }
{
    let numbers = first_numbers(alloc, first, vertices)?;
    let order = find_order(alloc, vertices)?;
    let mut leds = blank(alloc, &numbers)?;
    for r in &order {
        let at = *r;
        let level = Level { own, leds: &leds };
        let led = lead_vertex(alloc, numbers[at], &level, &vertices[at])?;
        leds[at] = led;
    }
    Ok(leds)
}

/// Where the outputs of a vertex of a level lead, where the level has where all that it asks for leads.
#[cycle(lead)]
fn lead_vertex(
    alloc: Global,
    first: u32,
    level: &Level<'_>,
    vertex: &Vertex,
) -> Result<Led, OutOfMemory>
    requires well { IsWell (view vertex.now) }
    ensures { IfOk result (Leads first (led level.now.leds.now level.now.own.now) (view vertex.now)) }
{
    match &vertex.kind {
        Kind::Graph(outputs) => lead_graph(alloc, first, level, vertex, outputs.as_slice()),
        _ => Ok(Led::Operation(first)),
    }
}

/// Where the outputs of a graph with these sources lead.
#[cycle(lead)]
fn lead_graph(
    alloc: Global,
    first: u32,
    level: &Level<'_>,
    vertex: &Vertex,
    outputs: &[Source],
) -> Result<Led, OutOfMemory>
    requires kind { (out-Vertex vertex.now).kind ≡ Kind.Graph outputs.now }
    requires well { IsWell (view vertex.now) }
    ensures { IfOk result (Leads first (led level.now.leds.now level.now.own.now) (view vertex.now)) }
{
    let own = follow_all(alloc, level, vertex.ins.as_slice())?;
    let leds = lead_level(alloc, first, &own, &vertex.inner)?;
    let inside = Level {
        own: &own,
        leds: &leds,
    };
    let sources = follow_all(alloc, &inside, outputs)?;
    Ok(Led::Graph(Items::new(sources)))
}
