//! The vertices that definitions become in the pruned tree, each with what is inside it, built from their plans.
ghost use Rattle.std.specs.Prelude.{◌≡◌, ◌+◌, ◌<◌, ◌≤◌, ◌∷◌, ◌++◌, [], IfOk, Some, length, map, slice_get, suc, List};
ghost use Rattle.algo_check.specs.Linked.{named};
ghost use Rattle.body_lang.specs.declared.expression.Port.{Port};
ghost use Rattle.algo_laws.specs.Placed.{ArePlaced, IsPlaced};
ghost use Rattle.algo_laws.specs.Ports.{lens_of, ports_of};
ghost use Rattle.algo_laws.specs.Resolved.{Making, cases_from, inner_by, kind_by, owns, references_from, vertex, vertex_within, sensor_count, actuator_count};
ghost use Rattle.algo_laws.specs.WellRead.{IsWellRead};
ghost use Rattle.algo_laws.specs.Tree.{graph as plain_graph};
ghost use Rattle.algo_laws.specs.View.{kind_view, view};
ghost use Rattle.algo_laws.specs.declared.Ports.{Ports as PortLists};
ghost use Rattle.algo_laws.specs.declared.Def.{Def as Definition};
ghost use Rattle.algo_laws.specs.declared.Part.TheVariants.{Named, Numbered};
ghost use Rattle.algo_resolve.specs.Parts.{ArePlanned, IsWired};
ghost use Rattle.algo_resolve.specs.Rounds.{pruned_within};
ghost use Rattle.algo_resolve.specs.Plans.{wires_by};
ghost use Rattle.wiring_laws.specs.Pruned.{pruned};

use crate::builder::{Builder, WiredGraph};
use crate::lookup::copy_name;
use crate::passing::Passing;
use crate::plan::Plan;
use algo_laws::{Body, Case, Def, Guard, Kind, Part, Reference, Source, Vertex, share_kind};
use std::alloc::Global;
use syn_base::{Items, Name, OutOfMemory, Shared, to_u32};

/// Where a vertex stands.
#[derive(Drop)]
pub struct Seat {
    pub part: Part,
    /// The sources of its inputs.
    pub ins: Shared<Source>,
    /// Its number if it is a sensor.
    pub sensor: u32,
    /// Its number if it is an actuator.
    pub actuator: u32,
}

/// The vertex of the definition of a name, which stands at this place, with all that is inside it, to a
/// depth of `fuel`: a vertex of no fuel is an empty graph, so that the recursion ends. If it stands for no
/// operation, it passes on what it takes, and nothing is built inside it.
#[cycle(build)]
fn build_vertex(
    alloc: Global,
    builder: &Builder,
    fuel: u32,
    name: &Name,
    place: usize,
    seat: Seat,
) -> Result<Vertex, OutOfMemory>
    requires planned { ArePlanned builder.now }
    requires placed { IsPlaced builder.now.defs.now builder.now.table.now name.now place }
    requires shallow { fuel ≤ 8 }
    ensures { IfOk result (λ v. view v ≡ pruned_within builder.now.defs.now fuel seat.part name.now
        seat.ins seat.sensor seat.actuator) }
{
    if fuel == 0 {
        return empty_vertex(alloc, name, seat);
    }
    let passing = &builder.rounds[fuel as usize].as_slice()[place];
    if passing.idle {
        passing_vertex(alloc, &builder.plans[place], passing, seat)
    } else {
        build_live(alloc, builder, fuel - 1, name, place, seat)
    }
}

/// The same vertex with all that is inside it, to a depth of `fuel`, whether it stands for an operation or not.
#[cycle(build)]
pub fn build_live(
    alloc: Global,
    builder: &Builder,
    fuel: u32,
    name: &Name,
    place: usize,
    seat: Seat,
) -> Result<Vertex, OutOfMemory>
    requires planned { ArePlanned builder.now }
    requires placed { IsPlaced builder.now.defs.now builder.now.table.now name.now place }
    requires shallow { fuel ≤ 8 }
    ensures { IfOk result (λ v. view v ≡ pruned (vertex_within builder.now.defs.now (suc fuel)
        seat.part name.now seat.ins seat.sensor seat.actuator)) }
{
    let body = &builder.defs[place].body;
    let plan = &builder.plans[place];
    let places = places_of(builder, place);
    let wires = plan.wires.as_slice();
    let inner = build_inner(alloc, builder, fuel, places, wires, body)?;
    let kind = numbered(body, &plan.kind, seat.sensor, seat.actuator)?;
    let label = label_of(plan, kind)?;
    Ok(label.vertex(seat, inner))
}

/// The places of the definitions that the definition at a place names.
fn places_of<'a>(builder: &Builder<'a>, place: usize) -> &'a [u32]
    requires planned { ArePlanned builder.now }
    requires below { place < length builder.now.defs.now }
    ensures { (d : Definition) → slice_get builder.now.defs.now place ≡ Some d →
        ArePlaced builder.now.defs.now builder.now.table.now (named d.body) result.now }
{
    builder.links[place].as_slice()
}

/// The kind of a vertex of this definition: that of the plan, but for the number of a sensor or an
/// actuator.
fn numbered(body: &Body, plan: &Kind, sensor: u32, actuator: u32) -> Result<Kind, OutOfMemory>
    ensures { IfOk result (λ k. (ds : List Definition) (make : Making) (own : PortLists) →
        kind_view plan.now ≡ kind_by ds make own 0 0 body.now →
        kind_view k ≡ kind_by ds make own sensor actuator body.now) }
{
    match body {
        Body::Sensor(_) => Ok(Kind::Sensor(sensor)),
        Body::Actuator(_) => Ok(Kind::Actuator(actuator)),
        _ => share_kind(plan),
    }
}

/// What is inside a vertex: the references of a graph, the cases of a switch, or the body of a
/// repetition. The definitions that it names stand at `places`, and `wires` has the sources of their
/// inputs.
#[cycle(build)]
fn build_inner(
    alloc: Global,
    builder: &Builder,
    fuel: u32,
    places: &[u32],
    wires: &[Shared<Source>],
    body: &Body,
) -> Result<Vec<Vertex>, OutOfMemory>
    requires planned { ArePlanned builder.now }
    requires shallow { fuel ≤ 8 }
    requires read { IsWellRead body.now }
    requires placed { ArePlaced builder.now.defs.now builder.now.table.now (named body.now) places.now }
    requires wires { wires.now ≡ wires_by builder.now.defs.now body.now }
    ensures { IfOk result (λ us. map view us.items ≡
        inner_by builder.now.defs.now (pruned_within builder.now.defs.now fuel) body.now) }
{
    match body {
        Body::Graph {
            ins,
            references,
            edges,
            ..
        } => {
            let graph = WiredGraph {
                ins: ins.as_slice(),
                references: references.as_slice(),
                edges: edges.as_slice(),
                places,
                wires,
            };
            build_references(alloc, builder, fuel, &graph)
        }
        Body::Switch {
            cases,
            otherwise,
            ..
        } => {
            let names = Cases {
                ins: &wires[0],
                cases: cases.as_slice(),
                otherwise,
            };
            build_cases(alloc, builder, fuel, places, &names)
        }
        Body::Repeat { def, .. } => build_copy(alloc, builder, fuel, places, wires, def),
        _ => Ok(Vec::new(alloc)),
    }
}

/// The body of a repetition, which is there once. Its inputs are the only ones that are wired.
#[cycle(build)]
fn build_copy(
    alloc: Global,
    builder: &Builder,
    fuel: u32,
    places: &[u32],
    wires: &[Shared<Source>],
    name: &Name,
) -> Result<Vec<Vertex>, OutOfMemory>
    requires planned { ArePlanned builder.now }
    requires shallow { fuel ≤ 8 }
    requires placed { ArePlaced builder.now.defs.now builder.now.table.now (name.now ∷ []) places.now }
    requires wires { wires.now ≡ owns 0 (length (ports_of builder.now.defs.now name.now).ins) ∷ [] }
    ensures { IfOk result (λ us. map view us.items ≡
        pruned_within builder.now.defs.now fuel (Numbered 0) name.now
        (owns 0 (length (ports_of builder.now.defs.now name.now).ins)) 0 0 ∷ []) }
{
    let place = places[0] as usize;
    let ins = wires[0].share()?;
    let seat = inner_seat(0, ins);
    let mut inner = Vec::new(alloc);
    inner.push(build_vertex(alloc, builder, fuel, name, place, seat)?)?;
    Ok(inner)
}

/// The definitions that a switch names, and its inputs after the conditioning one, which each case takes.
#[derive(Clone, Copy)]
struct Cases<'a> {
    ins: &'a Shared<Source>,
    cases: &'a [Case],
    otherwise: &'a Name,
}

impl<'a> Cases<'a> {
    /// The definition of the case of a number, where `otherwise` is the last case.
    fn name(&self, number: usize) -> &'a Name
        requires { number ≤ length self.now.cases.now }
        ensures { slice_get (map (λ c. c.def) self.now.cases.now ++ self.now.otherwise.now ∷ []) number ≡
            Some result.now }
    {
        if number < self.cases.len() {
            &self.cases[number].def
        } else {
            self.otherwise
        }
    }
}

/// The cases of a switch, with `otherwise` last.
#[cycle(build)]
fn build_cases(
    alloc: Global,
    builder: &Builder,
    fuel: u32,
    places: &[u32],
    names: &Cases,
) -> Result<Vec<Vertex>, OutOfMemory>
    requires planned { ArePlanned builder.now }
    requires shallow { fuel ≤ 8 }
    requires placed { ArePlaced builder.now.defs.now builder.now.table.now
        (map (λ c. c.def) names.now.cases.now ++ names.now.otherwise.now ∷ []) places.now }
    requires ins { names.now.ins.now ≡ owns 1 (length names.now.ins.now) }
    ensures { IfOk result (λ us. map view us.items ≡
        cases_from builder.now.defs.now (pruned_within builder.now.defs.now fuel)
        (length names.now.ins.now) 0
        (map (λ c. c.def) names.now.cases.now ++ names.now.otherwise.now ∷ [])) }
{
    let mut inner = Vec::new(alloc);
    for (number, place) in places.iter().enumerate() {
        let seat = case_seat(number, names.ins)?;
        let name = names.name(number);
        inner.push(build_vertex(alloc, builder, fuel, name, *place as usize, seat)?)?;
    }
    Ok(inner)
}

/// Where the body of a repetition or a case stands.
fn inner_seat(number: u32, ins: Shared<Source>) -> Seat
    ensures { result ≡ record { part = Numbered number; ins = ins; sensor = 0; actuator = 0 } }
{
    Seat {
        part: Part::Numbered(number),
        ins,
        sensor: 0,
        actuator: 0,
    }
}

/// Where the case of this number stands: it takes the inputs after the conditioning one.
fn case_seat(number: usize, ins: &Shared<Source>) -> Result<Seat, OutOfMemory>
    ensures { IfOk result (λ s. s ≡ record {
      part = Numbered number;
      ins = ins.now;
      sensor = 0;
      actuator = 0;
    }) }
{
    Ok(inner_seat(to_u32(number)?, ins.share()?))
}

/// The references of a graph, in order.
#[cycle(build)]
fn build_references(
    alloc: Global,
    builder: &Builder,
    fuel: u32,
    graph: &WiredGraph,
) -> Result<Vec<Vertex>, OutOfMemory>
    requires planned { ArePlanned builder.now }
    requires shallow { fuel ≤ 8 }
    requires wired { IsWired builder.now graph.now }
    requires few { length graph.now.references.now ≤ 64 }
    ensures { IfOk result (λ us. map view us.items ≡
        references_from builder.now.defs.now (pruned_within builder.now.defs.now fuel)
        graph.now.ins.now graph.now.references.now graph.now.edges.now 0 0
        graph.now.references.now) }
{
    let mut inner = Vec::new(alloc);
    let mut sensors: u32 = 0;
    let mut actuators: u32 = 0;
    for (at, reference) in graph.references.iter().enumerate() {
        let place = graph.places[at] as usize;
        let seat = reference_seat(alloc, reference, &graph.wires[at], sensors, actuators)?;
        inner.push(build_vertex(alloc, builder, fuel, &reference.def, place, seat)?)?;
        let def = &builder.defs[place];
        sensors += sensors_of(def);
        actuators += actuators_of(def);
    }
    Ok(inner)
}

/// Where a reference stands, after this many sensors and actuators.
fn reference_seat(
    alloc: Global,
    reference: &Reference,
    wires: &Shared<Source>,
    sensors: u32,
    actuators: u32,
) -> Result<Seat, OutOfMemory>
    ensures { IfOk result (λ s. s ≡ record {
      part = Named reference.now.name;
      ins = wires.now;
      sensor = sensors;
      actuator = actuators;
    }) }
{
    Ok(Seat {
        part: Part::Named(copy_name(alloc, &reference.name)?),
        ins: wires.share()?,
        sensor: sensors,
        actuator: actuators,
    })
}

/// How many sensors a definition is: 1 or 0.
fn sensors_of(def: &Def) -> u32
    ensures is { result ≡ sensor_count (Some def.now) }
    ensures one { result ≤ 1 }
{
    match &def.body {
        Body::Sensor(_) => 1,
        _ => 0,
    }
}

/// How many actuators a definition is: 1 or 0.
fn actuators_of(def: &Def) -> u32
    ensures is { result ≡ actuator_count (Some def.now) }
    ensures one { result ≤ 1 }
{
    match &def.body {
        Body::Actuator(_) => 1,
        _ => 0,
    }
}

/// A vertex of a definition of this plan that passes on what it takes. It takes no memory but its own.
fn passing_vertex(
    alloc: Global,
    plan: &Plan,
    passing: &Passing,
    seat: Seat,
) -> Result<Vertex, OutOfMemory>
    ensures { IfOk result (λ v. (outs : List Port) → plan.now.outs ≡ lens_of outs →
        plan.now.names ≡ map (λ p. p.name) outs → plan.now.guards ≡ [] →
        view v ≡ vertex seat.part plan.now.definition seat.ins outs (plain_graph passing.now.outs) []) }
{
    let kind = Kind::Graph(passing.outs.share()?);
    let label = label_of(plan, kind)?;
    Ok(label.vertex(seat, Vec::new(alloc)))
}

/// A vertex that nothing is known of.
fn empty_vertex(alloc: Global, name: &Name, seat: Seat) -> Result<Vertex, OutOfMemory>
    ensures { IfOk result (λ v. view v ≡ vertex seat.part name.now seat.ins [] (plain_graph []) []) }
{
    let label = Label {
        definition: Shared::new(alloc, Vec::from_slice(alloc, name.as_bytes())?)?,
        outs: Shared::empty(alloc)?,
        names: Shared::empty(alloc)?,
        guards: Shared::empty(alloc)?,
        kind: Kind::Graph(Shared::empty(alloc)?),
    };
    Ok(label.vertex(seat, Vec::new(alloc)))
}

/// What a vertex is by its definition, apart from where it stands and what is inside it.
#[derive(Drop)]
struct Label {
    definition: Shared<u8>,
    outs: Shared<u32>,
    names: Shared<Items<u8>>,
    guards: Shared<Guard>,
    kind: Kind,
}

/// What a vertex of a definition of this plan is, as one of this kind. It takes no memory.
fn label_of(plan: &Plan, kind: Kind) -> Result<Label, OutOfMemory>
    ensures { IfOk result (λ l. l ≡ record {
      definition = plan.now.definition;
      outs = plan.now.outs;
      names = plan.now.names;
      guards = plan.now.guards;
      kind = kind;
    }) }
{
    let definition = plan.definition.share()?;
    let outs = plan.outs.share()?;
    let names = plan.names.share()?;
    let guards = plan.guards.share()?;
    Ok(Label {
        definition,
        outs,
        names,
        guards,
        kind,
    })
}

impl Label {
    /// The vertex that stands there, with this inside it.
    fn vertex(self, seat: Seat, inner: Vec<Vertex>) -> Vertex
        ensures { (outs : List Port) → self.outs ≡ lens_of outs →
            self.names ≡ map (λ p. p.name) outs → self.guards ≡ [] →
            view result ≡ vertex seat.part self.definition seat.ins outs (kind_view self.kind)
            (map view inner.items) }
    {
        Vertex {
            definition: self.definition,
            outs: self.outs,
            names: self.names,
            part: seat.part,
            ins: seat.ins,
            guards: self.guards,
            kind: self.kind,
            inner,
        }
    }
}
