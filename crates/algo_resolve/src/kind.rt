//! The kind of the vertices of a definition, which its plan keeps.
ghost use Rattle.std.specs.Prelude.{◌≡◌, ◌≤◌, ◌/◌, ◌∷◌, [], IfOk, List, drop, length, map, take};
ghost use Rattle.std.specs.List.{flat_map};
ghost use Rattle.algo_check.specs.Linked.{named};
ghost use Rattle.body_lang.specs.Expr.{view};
ghost use Rattle.algo_laws.specs.Placed.{ArePlaced};
ghost use Rattle.algo_laws.specs.Ports.{lens_of, ports_of};
ghost use Rattle.algo_laws.specs.Resolved.{Making, feed_of, give_by, groups, kind_by};
ghost use Rattle.algo_laws.specs.WellRead.{IsWellRead};
ghost use Rattle.algo_laws.specs.Tree.{switch as plain_switch, repeat as plain_repeat};
ghost use Rattle.algo_laws.specs.View.{kind_view};

use crate::checked::Checked;
use crate::frontier::{feeds, gives};
use crate::lookup::copy_name;
use crate::sources::Graph;
use algo_laws::{Body, Case, FrontierLine, Kind, Output, Ports, copy_numbers};
use body_lang::{Body as Function, Expr, Port};
use std::alloc::Global;
use syn_base::{Items, Name, OutOfMemory, Shared};

impl<'a> Checked<'a> {
    /// The kind of the vertices of this definition, which has the ports `own`. The definitions that it
    /// names stand at `places`. The number of a sensor or an actuator is 0. The expressions of a
    /// function are copied here, once.
    pub fn kind(
        &self,
        alloc: Global,
        own: &Ports,
        places: &[u32],
        body: &Body,
    ) -> Result<Kind, OutOfMemory>
        requires placed { ArePlaced self.now.defs.now self.now.table.now (named body.now) places.now }
        requires read { IsWellRead body.now }
        ensures { IfOk result (λ k. (make : Making) →
            kind_view k ≡ kind_by self.now.defs.now make own.now 0 0 body.now) }
    {
        match body {
            Body::Sensor(_) => Ok(Kind::Sensor(0)),
            Body::Actuator(_) => Ok(Kind::Actuator(0)),
            Body::Constant(values) => Ok(Kind::Constant(numbers(alloc, values.as_slice())?)),
            Body::Delay(depth, values) => {
                Ok(Kind::Delay(groups(alloc, *depth, values.as_slice())?))
            }
            Body::Function { outs, .. } => Ok(Kind::Function(formulas(alloc, outs.as_slice())?)),
            Body::Graph {
                ins,
                outs,
                references,
                edges,
            } => {
                let graph = Graph {
                    checked: *self,
                    places,
                    ins: ins.as_slice(),
                    references: references.as_slice(),
                    edges: edges.as_slice(),
                };
                Ok(Kind::Graph(graph.sources_to(alloc, &None, outs.as_slice())?))
            }
            Body::Switch { outs, cases, .. } => switch_kind(alloc, cases, outs),
            Body::Repeat { copies, def, lines } => {
                repeat_kind(alloc, *copies, self.only(places, def), own, lines)
            }
        }
    }

    /// The ports of the only definition that a repetition names.
    pub fn only(&self, places: &[u32], name: &Name) -> &'a Ports
        requires { ArePlaced self.now.defs.now self.now.table.now (name.now ∷ []) places.now }
        ensures { result.now ≡ ports_of self.now.defs.now name.now }
    {
        &self.table[places[0] as usize]
    }
}

/// The values of a constant.
fn numbers(alloc: Global, values: &[i64]) -> Result<Shared<i64>, OutOfMemory>
    ensures { IfOk result (λ vs. vs ≡ values.now) }
{
    Shared::new(alloc, Vec::from_slice(alloc, values)?)
}

/// The kind of a switch with these cases and outputs.
fn switch_kind(alloc: Global, cases: &Items<Case>, outs: &Items<Port>) -> Result<Kind, OutOfMemory>
    ensures { IfOk result (λ k. kind_view k ≡
        plain_switch (map (λ c. c.value) cases.now) (map (λ p. p.name) outs.now)) }
{
    let values = case_values(alloc, cases.as_slice())?;
    let names = port_names(alloc, outs.as_slice())?;
    Ok(Kind::Switch(values, names))
}

/// The kind of a repetition of these lines, whose body has the ports `inner`.
fn repeat_kind(
    alloc: Global,
    copies: u32,
    inner: &Ports,
    own: &Ports,
    lines: &Items<FrontierLine>,
) -> Result<Kind, OutOfMemory>
    ensures { IfOk result (λ k. kind_view k ≡
        plain_repeat copies (map (λ p. feed_of inner.now own.now lines.now p.name) inner.now.ins)
        (flat_map (λ l. give_by inner.now own.now l.frontier) lines.now)) }
{
    let feeds = feeds(alloc, inner, own, lines.as_slice())?;
    let gives = gives(alloc, inner, lines.as_slice())?;
    Ok(Kind::Repeat(copies, feeds, gives))
}

/// The first values, as many as are asked for, or all.
#[tactic(auto, using(std::proofs::lemmas::List::take_min))]
fn front(values: &[i64], len: usize) -> &[i64]
    ensures { result.now ≡ take len values.now }
{
    &values[..len.min(values.len())]
}

/// The values after this many, or none.
#[tactic(auto, using(std::proofs::lemmas::List::drop_min))]
fn behind(values: &[i64], len: usize) -> &[i64]
    ensures { result.now ≡ drop len values.now }
{
    &values[len.min(values.len())..]
}

/// The values of a delay in groups of equal length, one for each reaction that it looks back.
#[tactic(auto, using(crate::proofs::Groups::one_group, crate::proofs::Groups::all_groups))]
fn groups(alloc: Global, depth: u32, values: &[i64]) -> Result<Shared<Items<i64>>, OutOfMemory>
    requires { 1 ≤ depth }
    ensures { IfOk result (λ all. all ≡ groups depth (length values.now / depth) values.now) }
{
    let len = values.len() / depth as usize;
    let mut rest = values;
    let mut all = Vec::new(alloc);
    for _ in 0..depth {
        all.push(copy_numbers(alloc, front(rest, len))?)?;
        rest = behind(rest, len);
    }
    Shared::new(alloc, all)
}

/// The expressions of a function's outputs, as its vertices share them.
fn formulas(alloc: Global, outs: &[Output]) -> Result<Function, OutOfMemory>
    ensures { IfOk result (λ es. es ≡ map (λ o. o.formula) outs.now) }
{
    Ok(Function::new(alloc, copies_of(alloc, outs)?)?)
}

/// A copy of the expression of each output.
fn copies_of(alloc: Global, outs: &[Output]) -> Result<Vec<Expr>, OutOfMemory>
    ensures { IfOk result (λ es. map view es.items ≡ map (λ o. o.formula) outs.now) }
{
    let mut formulas = Vec::new(alloc);
    for out in outs {
        formulas.push(out.formula.expr().copy(alloc)?)?;
    }
    Ok(formulas)
}

/// The values of the cases of a switch.
fn case_values(alloc: Global, cases: &[Case]) -> Result<Shared<i64>, OutOfMemory>
    ensures { IfOk result (λ values. values ≡ map (λ c. c.value) cases.now) }
{
    let mut values = Vec::new(alloc);
    for case in cases {
        values.push(case.value)?;
    }
    Shared::new(alloc, values)
}

/// The names of ports.
pub fn port_names(alloc: Global, ports: &[Port]) -> Result<Shared<Items<u8>>, OutOfMemory>
    ensures { IfOk result (λ names. names ≡ map (λ p. p.name) ports.now) }
{
    let mut names = Vec::new(alloc);
    for port in ports {
        names.push(copy_name(alloc, &port.name)?)?;
    }
    Shared::new(alloc, names)
}

/// The lengths of ports.
pub fn port_lens(alloc: Global, ports: &[Port]) -> Result<Shared<u32>, OutOfMemory>
    ensures { IfOk result (λ lens. lens ≡ lens_of ports.now) }
{
    let mut lens = Vec::new(alloc);
    for port in ports {
        lens.push(port.len)?;
    }
    Shared::new(alloc, lens)
}
