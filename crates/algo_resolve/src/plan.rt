//! The plan of a definition: what all its vertices have in common, made once.
ghost use Rattle.std.specs.Prelude.{◌≡◌, ◌<◌, ◌∷◌, [], IfOk, Some, map, slice_get};
ghost use Rattle.algo_check.specs.Linked.{named};
ghost use Rattle.algo_laws.specs.Placed.{ArePlaced};
ghost use Rattle.algo_laws.specs.Resolved.{owns, sources_to};
ghost use Rattle.algo_laws.specs.View.{kind_view};
ghost use Rattle.algo_resolve.specs.Parts.{AreReady, IsPlacedGraph, of};
ghost use Rattle.algo_resolve.specs.Plans.{plan_of, plan_view, planned, wires_by};

use crate::checked::Checked;
use crate::kind::{port_lens, port_names};
use crate::sources::{Graph, own_inputs};
use algo_laws::{Body, Def, Guard, Kind, Ports, Reference, Source};
use std::alloc::Global;
use syn_base::{Items, Name, OutOfMemory, Shared};

/// What a vertex of a definition is made from, wherever it stands: all its vertices share these lists.
#[derive(Drop)]
pub struct Plan {
    /// The name of the definition.
    pub definition: Shared<u8>,
    /// The lengths of its outputs.
    pub outs: Shared<u32>,
    /// The names of its outputs.
    pub names: Shared<Items<u8>>,
    /// No guards.
    pub guards: Shared<Guard>,
    /// Its kind, in which the number of a sensor or an actuator is 0.
    pub kind: Kind,
    /// The sources of the inputs of what is inside: for each reference of a graph its own, and one list for
    /// all cases of a switch, or for the body of a repetition.
    pub wires: Items<Shared<Source>>,
}

/// A plan for each definition.
pub fn plans(alloc: Global, checked: &Checked) -> Result<Vec<Plan>, OutOfMemory>
    requires { AreReady checked.now }
    ensures { IfOk result (λ ps. map plan_view ps.items ≡ map (plan_of checked.now.defs.now) checked.now.defs.now) }
{
    let mut plans = Vec::new(alloc);
    for (place, def) in checked.defs.iter().enumerate() {
        plans.push(plan_at(alloc, checked, place, def)?)?;
    }
    Ok(plans)
}

/// The plan of the definition at a place.
fn plan_at(alloc: Global, checked: &Checked, place: usize, def: &Def) -> Result<Plan, OutOfMemory>
    requires ready { AreReady checked.now }
    requires there { slice_get checked.now.defs.now place ≡ Some def.now }
    ensures { IfOk result (λ p. plan_view p ≡ plan_of checked.now.defs.now def.now) }
{
    let places = checked.links[place].as_slice();
    let wires = wires(alloc, checked, places, &def.body)?;
    let own = &checked.table[place];
    let kind = checked.kind(alloc, own, places, &def.body)?;
    make_plan(alloc, &def.name, own, kind, wires)
}

/// The plan of a definition of this name, which has these ports.
fn make_plan(
    alloc: Global,
    name: &Name,
    own: &Ports,
    kind: Kind,
    wires: Items<Shared<Source>>,
) -> Result<Plan, OutOfMemory>
    ensures { IfOk result (λ p. plan_view p ≡ planned name.now own.now (kind_view kind) wires) }
{
    let definition = Shared::new(alloc, Vec::from_slice(alloc, name.as_bytes())?)?;
    let outs = port_lens(alloc, own.outs.as_slice())?;
    let names = port_names(alloc, own.outs.as_slice())?;
    let guards = Shared::empty(alloc)?;
    Ok(Plan {
        definition,
        outs,
        names,
        guards,
        kind,
        wires,
    })
}

/// The sources of the inputs of what is inside: of the references of a graph, whose definitions stand at
/// `places`, of the cases of a switch, or of the body of a repetition.
fn wires(
    alloc: Global,
    checked: &Checked,
    places: &[u32],
    body: &Body,
) -> Result<Items<Shared<Source>>, OutOfMemory>
    requires { ArePlaced checked.now.defs.now checked.now.table.now (named body.now) places.now }
    ensures { IfOk result (λ ws. ws ≡ wires_by checked.now.defs.now body.now) }
{
    match body {
        Body::Graph {
            ins,
            references,
            edges,
            ..
        } => {
            let graph = Graph {
                checked: *checked,
                places,
                ins: ins.as_slice(),
                references: references.as_slice(),
                edges: edges.as_slice(),
            };
            all_inputs(alloc, &graph)
        }
        Body::Switch { ins, .. } => one_list(alloc, 1, ins.as_slice().len()),
        Body::Repeat { def, .. } => {
            one_list(alloc, 0, checked.only(places, def).ins.as_slice().len())
        }
        _ => Ok(Items::new(Vec::new(alloc))),
    }
}

/// The list of this many own inputs, from a first one on, alone.
fn one_list(alloc: Global, first: u32, count: usize) -> Result<Items<Shared<Source>>, OutOfMemory>
    ensures { IfOk result (λ ws. ws ≡ owns first count ∷ []) }
{
    let mut all = Vec::new(alloc);
    all.push(own_inputs(alloc, first, count)?)?;
    Ok(Items::new(all))
}

/// The sources of the inputs of each reference of a graph.
fn all_inputs(alloc: Global, graph: &Graph) -> Result<Items<Shared<Source>>, OutOfMemory>
    requires { IsPlacedGraph graph.now }
    ensures { IfOk result (λ ws. ws ≡ map (λ r. sources_to (of graph.now) graph.now.ins.now
        graph.now.references.now graph.now.edges.now (Some r.name) (of graph.now r.def).ins)
        graph.now.references.now) }
{
    let mut all = Vec::new(alloc);
    for (at, reference) in graph.references.iter().enumerate() {
        all.push(inputs(alloc, graph, at, reference)?)?;
    }
    Ok(Items::new(all))
}

/// The sources of the inputs of the reference of this number.
fn inputs(
    alloc: Global,
    graph: &Graph,
    at: usize,
    reference: &Reference,
) -> Result<Shared<Source>, OutOfMemory>
    requires placed { IsPlacedGraph graph.now }
    requires there { slice_get graph.now.references.now at ≡ Some reference.now }
    ensures { IfOk result (λ ss. ss ≡ sources_to (of graph.now) graph.now.ins.now
        graph.now.references.now graph.now.edges.now (Some reference.now.name)
        (of graph.now reference.now.def).ins) }
{
    let owner = Some(reference.name.copy(alloc)?);
    let place = graph.places[at] as usize;
    graph.sources_to(alloc, &owner, graph.checked.table[place].ins.as_slice())
}
