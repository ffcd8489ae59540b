//! What the vertices of a definition pass on: a vertex that stands for no operation gives at each output one
//! of its inputs. It is found once for each definition, round by round.
ghost use Rattle.std.specs.Prelude.{◌≡◌, ◌&&◌, [], IfOk, map, replicate, suc, true, ℕ};
ghost use Rattle.std.specs.List.{list_all, range_with_len};
ghost use Rattle.algo_laws.specs.View.{kind_view};
ghost use Rattle.algo_laws.specs.WellRead.{IsWellRead};
ghost use Rattle.wiring_laws.specs.Pruned.{own_of};
ghost use Rattle.wiring_laws.specs.Wiring.{leads_by};
ghost use Rattle.algo_resolve.specs.Parts.{AreReady};
ghost use Rattle.algo_resolve.specs.Rounds.{adds_none, idle_at, leads_at, level_of, passed, passing_view, round, unit_view};
ghost use Rattle.algo_resolve.specs.Plans.{plan_of, plan_view};

use crate::checked::Checked;
use crate::leads::{Unit, body_leads, graph_leads, repeat_leads};
use crate::plan::Plan;
use algo_check::count_forks;
use algo_laws::{Body, Kind, Source};
use std::alloc::Global;
use syn_base::{Items, OutOfMemory, Shared};

/// What the vertices of a definition pass on.
#[derive(Drop)]
pub struct Passing {
    /// Whether they stand for no operation.
    pub idle: bool,
    /// For each output the input to which it leads, if it leads to one.
    pub leads: Items<Option<u32>>,
    /// The outputs of a graph that passes on the same.
    pub outs: Shared<Source>,
}

/// What all definitions pass on, for each depth to which they are followed, from 0 to 8: no definition is
/// deeper.
pub fn rounds(
    alloc: Global,
    checked: &Checked,
    plans: &[Plan],
) -> Result<Vec<Items<Passing>>, OutOfMemory>
    requires ready { AreReady checked.now }
    requires plans { map plan_view plans.now ≡ map (plan_of checked.now.defs.now) checked.now.defs.now }
    ensures { IfOk result (λ rounds. map (map passing_view) rounds.items ≡
        map (round checked.now.defs.now) (range_with_len 0 9)) }
{
    let mut rounds = Vec::new(alloc);
    let mut last = first_round(alloc, checked.defs.len())?;
    for _ in 0..8u32 {
        let next = next_round(alloc, checked, plans, last.as_slice())?;
        rounds.push(last)?;
        last = next;
    }
    rounds.push(last)?;
    Ok(rounds)
}

/// What this many definitions pass on that are not followed: nothing.
fn first_round(alloc: Global, count: usize) -> Result<Items<Passing>, OutOfMemory>
    ensures { IfOk result (λ first. map passing_view first ≡ replicate count (passed true [])) }
{
    let mut first = Vec::new(alloc);
    for _ in 0..count {
        first.push(passing_to(alloc, true, Items::new(Vec::new(alloc)))?)?;
    }
    Ok(Items::new(first))
}

/// What definitions pass on that are followed one definition further than in this round.
fn next_round(
    alloc: Global,
    checked: &Checked,
    plans: &[Plan],
    last: &[Passing],
) -> Result<Items<Passing>, OutOfMemory>
    requires ready { AreReady checked.now }
    requires plans { map plan_view plans.now ≡ map (plan_of checked.now.defs.now) checked.now.defs.now }
    ensures { IfOk result (λ next. (n : ℕ) → map passing_view last.now ≡ round checked.now.defs.now n →
        map passing_view next ≡ round checked.now.defs.now (suc n)) }
{
    let mut next = Vec::new(alloc);
    for (place, def) in checked.defs.iter().enumerate() {
        let places = checked.links[place].as_slice();
        next.push(passing_at(alloc, &plans[place], places, &def.body, last)?)?;
    }
    Ok(Items::new(next))
}

/// What the vertices of a definition of this plan pass on, from what those pass on that it names, which stand
/// at these places.
fn passing_at(
    alloc: Global,
    plan: &Plan,
    places: &[u32],
    body: &Body,
    last: &[Passing],
) -> Result<Passing, OutOfMemory>
    requires { IsWellRead body.now }
    ensures { IfOk result (λ p. passing_view p ≡ passed
        (adds_none body.now && list_all (idle_at (map passing_view last.now)) places.now)
        (leads_by (kind_view plan.now.kind)
        (level_of plan.now.wires (map (leads_at (map passing_view last.now)) places.now)))) }
{
    let idle = adds_none(body) && are_idle(last, places);
    let units = units(alloc, plan.wires.as_slice(), places, last)?;
    let leads = leads_of(alloc, &plan.kind, &units)?;
    passing_to(alloc, idle, leads)
}

/// What vertices pass on whose outputs lead so.
fn passing_to(alloc: Global, idle: bool, leads: Items<Option<u32>>) -> Result<Passing, OutOfMemory>
    ensures { IfOk result (λ p. passing_view p ≡ passed idle leads) }
{
    let outs = own_inputs_of(alloc, leads.as_slice())?;
    Ok(Passing { idle, leads, outs })
}

/// These inputs as sources inside a graph.
fn own_inputs_of(alloc: Global, leads: &[Option<u32>]) -> Result<Shared<Source>, OutOfMemory>
    ensures { IfOk result (λ outs. outs ≡ map own_of leads.now) }
{
    let mut outs = Vec::new(alloc);
    for lead in leads {
        outs.push(own_of(*lead))?;
    }
    Shared::new(alloc, outs)
}

/// An input as a source inside a graph.
fn own_of(lead: Option<u32>) -> Source
    ensures { result ≡ own_of lead }
{
    match lead {
        None => Source::Own(0),
        Some(own) => Source::Own(own),
    }
}

/// Whether a body stands for no operation besides those of what it names.
fn adds_none(body: &Body) -> bool
    requires { IsWellRead body.now }
    ensures { result ≡ adds_none body.now }
{
    match body {
        Body::Graph { .. } => true,
        Body::Switch { outs, .. } => outs.as_slice().is_empty(),
        Body::Repeat { lines, .. } => count_forks(lines.as_slice()) == 0,
        _ => false,
    }
}

/// Whether the definitions at these places all stand for no operation.
fn are_idle(last: &[Passing], places: &[u32]) -> bool
    ensures { result ≡ list_all (idle_at (map passing_view last.now)) places.now }
{
    for place in places {
        if !is_idle(last, *place as usize) {
            return false;
        }
    }
    true
}

/// Whether the definition at this place stands for no operation.
fn is_idle(last: &[Passing], place: usize) -> bool
    ensures { result ≡ idle_at (map passing_view last.now) place }
{
    if place < last.len() {
        last[place].idle
    } else {
        false
    }
}

/// The vertices of a level: the sources of the inputs of each, and what the definition at its place passes on.
fn units<'a>(
    alloc: Global,
    wires: &'a [Shared<Source>],
    places: &[u32],
    last: &'a [Passing],
) -> Result<Vec<Unit<'a>>, OutOfMemory>
    ensures { IfOk result (λ us. map unit_view us.items ≡
        level_of wires.now (map (leads_at (map passing_view last.now)) places.now)) }
{
    let mut units = Vec::new(alloc);
    for (ins, place) in wires.iter().zip(places) {
        units.push(Unit {
            ins: ins.as_slice(),
            leads: leads_at(last, *place as usize),
        })?;
    }
    Ok(units)
}

/// Where the outputs of the definition at this place lead.
fn leads_at(last: &[Passing], place: usize) -> &[Option<u32>]
    ensures { result.now ≡ leads_at (map passing_view last.now) place }
{
    if place < last.len() {
        last[place].leads.as_slice()
    } else {
        &[]
    }
}

/// Where the outputs of a vertex of this kind lead, with these inside it. What is neither a graph nor a
/// repetition leads nowhere: it is an operation, or it has no output.
fn leads_of(alloc: Global, kind: &Kind, units: &[Unit]) -> Result<Items<Option<u32>>, OutOfMemory>
    ensures { IfOk result (λ leads. leads ≡ leads_by (kind_view kind.now) (map unit_view units.now)) }
{
    match kind {
        Kind::Graph(outs) => graph_leads(alloc, units, outs.as_slice()),
        Kind::Repeat(copies, feeds, gives) => {
            let leads = body_leads(units);
            repeat_leads(alloc, *copies, feeds.as_slice(), leads, gives.as_slice())
        }
        _ => Ok(Items::new(Vec::new(alloc))),
    }
}
