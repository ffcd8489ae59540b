//! The sources of the values in a graph, and of the inputs of cases and bodies, which plans keep.
ghost use Rattle.std.specs.Prelude.{◌≡◌, IfOk, MatchOption, map};
ghost use Rattle.algo_laws.specs.Graphs.{ports_at, same_owner};
ghost use Rattle.algo_laws.specs.Ports.{no_ports, number_of};
ghost use Rattle.algo_laws.specs.Resolved.{owns, source_from, sources_to};
ghost use Rattle.algo_resolve.specs.Parts.{IsPlacedGraph, of};
ghost use Rattle.algo_resolve.specs.Wiring.{into, source_among};

use crate::checked::Checked;
use algo_laws::{Edge, End, Ports, Reference, Source};
use body_check::{find_port, find_reference, is_same_name};
use body_lang::Port;
use std::alloc::Global;
use syn_base::{Name, OutOfMemory, Shared, to_u32};

/// A graph among the definitions of its text.
#[derive(Clone, Copy)]
pub struct Graph<'a> {
    pub checked: Checked<'a>,
    /// The place of the definition of each reference.
    pub places: &'a [u32],
    pub ins: &'a [Port],
    pub references: &'a [Reference],
    pub edges: &'a [Edge],
}

impl<'a> Graph<'a> {
    /// The sources of these ports of a reference, or of the graph itself. It goes once over the edges
    /// of the graph, and for each port over those into its owner alone.
    pub fn sources_to(
        &self,
        alloc: Global,
        owner: &Option<Name>,
        ports: &[Port],
    ) -> Result<Shared<Source>, OutOfMemory>
        requires { IsPlacedGraph self.now }
        ensures { IfOk result (λ sources. sources ≡
            sources_to (of self.now) self.now.ins.now self.now.references.now self.now.edges.now
            owner.now ports.now) }
    {
        let edges = edges_into(alloc, self.edges, owner)?;
        self.sources_among(alloc, &edges, ports)
    }

    /// The sources of these ports. All edges into their owner are among these, and no others.
    fn sources_among(
        &self,
        alloc: Global,
        edges: &[&Edge],
        ports: &[Port],
    ) -> Result<Shared<Source>, OutOfMemory>
        requires { IsPlacedGraph self.now }
        ensures { IfOk result (λ sources. sources ≡
            map (λ p. source_among (of self.now) self.now.ins.now self.now.references.now
            (map (λ e. e.now) edges.now) p.name) ports.now) }
    {
        let mut sources = Vec::new(alloc);
        for port in ports {
            sources.push(self.source_among(edges, &port.name)?)?;
        }
        Shared::new(alloc, sources)
    }

    /// Where the first of these edges into a port of this name comes from.
    fn source_among(&self, edges: &[&Edge], port: &Name) -> Result<Source, OutOfMemory>
        requires { IsPlacedGraph self.now }
        ensures { IfOk result (λ s. s ≡ source_among (of self.now) self.now.ins.now
            self.now.references.now (map (λ e. e.now) edges.now) port.now) }
    {
        for edge in edges {
            if edge.to.port.as_bytes() == port.as_bytes() {
                return self.source_from(&edge.from);
            }
        }
        Ok(Source::Own(0))
    }

    /// The source that an edge comes from.
    fn source_from(&self, end: &End) -> Result<Source, OutOfMemory>
        requires { IsPlacedGraph self.now }
        ensures { IfOk result (λ s. s ≡ source_from (of self.now) self.now.ins.now
            self.now.references.now end.now.owner end.now.port) }
    {
        let Some(owner) = &end.owner else {
            return Ok(Source::Own(to_u32(find_port(self.ins, end.port.as_bytes()))?));
        };
        let vertex = to_u32(find_reference(self.references, owner.as_bytes()))?;
        let port = to_u32(self.output_number(owner, &end.port))?;
        Ok(Source::Of(vertex, port))
    }

    /// The number of an output of the reference of a name.
    fn output_number(&self, owner: &Name, port: &Name) -> usize
        requires { IsPlacedGraph self.now }
        ensures { result ≡ number_of (ports_at (of self.now) self.now.references.now owner.now).outs port.now }
    {
        match self.named(owner) {
            Some(ports) => find_port(ports.outs.as_slice(), port.as_bytes()),
            None => 0,
        }
    }

    /// The ports of the reference of a name, if there is one.
    fn named(&self, name: &Name) -> Option<&'a Ports>
        requires { IsPlacedGraph self.now }
        ensures { MatchOption result (ports_at (of self.now) self.now.references.now name.now ≡
            no_ports) (λ p. p.now ≡ ports_at (of self.now) self.now.references.now name.now) }
    {
        let at = find_reference(self.references, name.as_bytes());
        if at < self.places.len() {
            Some(&self.checked.table[self.places[at] as usize])
        } else {
            None
        }
    }
}

/// The edges into the ports of a reference, or of the graph itself, in order.
fn edges_into<'a>(
    alloc: Global,
    edges: &'a [Edge],
    owner: &Option<Name>,
) -> Result<Vec<&'a Edge>, OutOfMemory>
    ensures { IfOk result (λ es. map (λ e. e.now) es.items ≡ into owner.now edges.now) }
{
    let mut all = Vec::new(alloc);
    for edge in edges {
        if is_same_owner(&edge.to.owner, owner) {
            all.push(edge)?;
        }
    }
    Ok(all)
}

/// Whether two ends of edges have the same owner.
fn is_same_owner(first: &Option<Name>, second: &Option<Name>) -> bool
    ensures { result ≡ same_owner first.now second.now }
{
    match (first, second) {
        (None, None) => true,
        (Some(first), Some(second)) => is_same_name(first.as_bytes(), second.as_bytes()),
        _ => false,
    }
}

/// This many own inputs, from a first one on, as sources.
pub fn own_inputs(alloc: Global, first: u32, count: usize) -> Result<Shared<Source>, OutOfMemory>
    ensures { IfOk result (λ sources. sources ≡ owns first count) }
{
    let end = to_u32(count)?.checked_add(first).ok_or(OutOfMemory)?;
    let mut sources = Vec::new(alloc);
    for number in first..end {
        sources.push(Source::Own(number))?;
    }
    Shared::new(alloc, sources)
}
