//! A graph with the definitions that its references name, and what its ends are.
ghost use Rattle.std.specs.Prelude.{◌≡◌, ◌≤◌, MatchOption, bytes_eq, length};
ghost use Rattle.algo_rules.specs.Graphs.{place, port_len};
ghost use Rattle.algo_rules.specs.Ports.{number_of, no_ports};
ghost use Rattle.body_check.specs.Parts.{named, givers, takers, IsPlacedGraph};

use algo_rules::{Def, Edge, End, Port, Ports, Reference};

/// A graph, with the definitions of its text.
#[derive(Clone, Copy)]
pub struct GraphParts<'a> {
    pub line: u32,
    pub ins: &'a [Port],
    pub outs: &'a [Port],
    pub references: &'a [Reference],
    pub edges: &'a [Edge],
    pub defs: &'a [Def],
    /// The ports of each definition, by its place.
    pub table: &'a [Ports],
    /// The place of the definition of each reference.
    pub places: &'a [u32],
}

/// Whether two names are one. Names of one graph that differ mostly do so in their last byte, which is looked at first.
pub fn is_same_name(first: &[u8], second: &[u8]) -> bool
    ensures { result ≡ bytes_eq first.now second.now }
{
    first.last() == second.last() && first == second
}

/// The place of the reference of a name, or how many there are.
pub fn find_reference(references: &[Reference], name: &[u8]) -> usize
    ensures first { result ≡ place references.now name.now }
    ensures within { result ≤ length references.now }
{
    for (at, reference) in references.iter().enumerate() {
        if is_same_name(name, reference.name.as_bytes()) {
            return at;
        }
    }
    references.len()
}

/// The number of the port of a name, or how many there are.
pub fn find_port(ports: &[Port], name: &[u8]) -> usize
    ensures { result ≡ number_of ports.now name.now }
{
    for (at, port) in ports.iter().enumerate() {
        if name == port.name.as_bytes() {
            return at;
        }
    }
    ports.len()
}

/// The length of the port of a name, if there is one.
pub fn port_len(ports: &[Port], name: &[u8]) -> Option<u32>
    ensures { result ≡ port_len ports.now name.now }
{
    for port in ports {
        if name == port.name.as_bytes() {
            return Some(port.len);
        }
    }
    None
}

impl<'a> GraphParts<'a> {
    /// The ports of the reference of a name, if there is one.
    pub fn named(&self, name: &[u8]) -> Option<&'a Ports>
        requires { IsPlacedGraph self.now }
        ensures { MatchOption result (named self.now name.now ≡ no_ports) (λ p. p.now ≡ named self.now name.now) }
    {
        let at = find_reference(self.references, name);
        if at < self.places.len() {
            Some(&self.table[self.places[at] as usize])
        } else {
            None
        }
    }

    /// The length of the port that an edge may come from.
    pub fn giver_len(&self, end: &End) -> Option<u32>
        requires { IsPlacedGraph self.now }
        ensures { result ≡ port_len (givers self.now end.now.owner) end.now.port }
    {
        let Some(owner) = &end.owner else {
            return port_len(self.ins, end.port.as_bytes());
        };
        match self.named(owner.as_bytes()) {
            Some(ports) => port_len(ports.outs.as_slice(), end.port.as_bytes()),
            None => None,
        }
    }

    /// The length of the port that an edge may lead into.
    pub fn taker_len(&self, end: &End) -> Option<u32>
        requires { IsPlacedGraph self.now }
        ensures { result ≡ port_len (takers self.now end.now.owner) end.now.port }
    {
        let Some(owner) = &end.owner else {
            return port_len(self.outs, end.port.as_bytes());
        };
        match self.named(owner.as_bytes()) {
            Some(ports) => port_len(ports.ins.as_slice(), end.port.as_bytes()),
            None => None,
        }
    }
}
