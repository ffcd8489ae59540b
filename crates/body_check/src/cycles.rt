//! The check that no reference depends on itself, the last of a graph's.
ghost use Rattle.std.specs.Prelude.{◌≡◌, ◌≤◌, ◌<◌, ◌++◌, ◌&&◌, IfOk, Some, None, length, map};
ghost use Rattle.std.specs.List.{list_any};
ghost use Rattle.std.specs.Str.{bytes_eq};
ghost use Rattle.algo_rules.specs.Answer.{AreInside};
ghost use Rattle.algo_rules.specs.ReferenceLinks.{numbers, reaches_itself};
ghost use Rattle.algo_rules.specs.Graphs.{cycle_fault, dependences, is_delay, names_of, same_owner, source_of, sources};
ghost use Rattle.algo_rules.specs.Links.{definition};
ghost use Rattle.algo_rules.specs.Placed.{Checks};
ghost use Rattle.body_check.specs.Cycles.{flagged};
ghost use Rattle.body_check.specs.Parts.{IsPlacedGraph};

use crate::graph_fault::cycle;
use crate::parts::{GraphParts, find_reference};
use algo_rules::{AlgoError, Body, Def, Reference, reaching};
use std::alloc::Global;
use syn_base::{Items, Name, OutOfMemory};

/// Whether a definition is a delay.
fn is_delay(def: &Def) -> bool
    ensures { result ≡ is_delay (Some def.now) }
{
    matches!(def.body, Body::Delay(..))
}

/// Whether a reference has this name and stands for a delay.
fn is_delay_named(reference: &Reference, def: &Def, name: &[u8]) -> bool
    ensures { result ≡ (bytes_eq name.now reference.now.name && is_delay (Some def.now)) }
{
    name == reference.name.as_bytes() && is_delay(def)
}

/// Whether this reference owns an end.
fn owns(name: &[u8], owner: &Option<Name>) -> bool
    ensures { result ≡ same_owner (Some name.now) owner.now }
{
    match owner {
        Some(owner) => name == owner.as_bytes(),
        None => false,
    }
}

/// The names of the references that are flagged.
fn flagged(
    alloc: Global,
    flags: &[bool],
    references: &[Reference],
) -> Result<Vec<Name>, OutOfMemory>
    requires { length flags.now ≡ length references.now }
    ensures { IfOk result (λ names. names.items ≡ flagged flags.now references.now) }
{
    let mut names = Vec::new(alloc);
    for (at, reference) in references.iter().enumerate() {
        if flags[at] {
            names.push(reference.name.copy(alloc)?)?;
        }
    }
    Ok(names)
}

impl<'a> GraphParts<'a> {
    /// Whether a reference of this name is a delay.
    fn is_delayed(&self, name: &[u8]) -> bool
        requires { IsPlacedGraph self.now }
        ensures { result ≡ list_any (λ r. bytes_eq name.now r.name &&
            is_delay (definition self.now.defs.now r.def)) self.now.references.now }
    {
        for (at, reference) in self.references.iter().enumerate() {
            let def = &self.defs[self.places[at] as usize];
            if is_delay_named(reference, def, name) {
                return true;
            }
        }
        false
    }

    /// Adds the reference on which the target of an edge depends, but for a delay.
    fn add_source(&self, sources: &mut Vec<u32>, owner: &Option<Name>) -> Result<(), OutOfMemory>
        requires placed { IsPlacedGraph self.now }
        requires few { length self.now.references.now ≤ 64 }
        ensures { IfOk result (λ _. sources.new.items ≡ sources.old.items ++
            source_of self.now.defs.now self.now.references.now owner.now) }
    {
        let Some(owner) = owner else {
            return Ok(());
        };
        if !self.is_delayed(owner.as_bytes()) {
            sources.push(find_reference(self.references, owner.as_bytes()) as u32)?;
        }
        Ok(())
    }

    /// The references on which one depends.
    fn sources(&self, alloc: Global, name: &[u8]) -> Result<Items<u32>, OutOfMemory>
        requires placed { IsPlacedGraph self.now }
        requires few { length self.now.references.now ≤ 64 }
        ensures { IfOk result (λ s. s ≡ sources self.now.defs.now self.now.references.now self.now.edges.now name.now) }
    {
        let mut sources = Vec::new(alloc);
        for edge in self.edges {
            if owns(name, &edge.to.owner) {
                self.add_source(&mut sources, &edge.from.owner)?;
            }
        }
        Ok(Items::new(sources))
    }

    /// The references on which each depends.
    fn dependences(&self, alloc: Global) -> Result<Vec<Items<u32>>, OutOfMemory>
        requires placed { IsPlacedGraph self.now }
        requires few { length self.now.references.now ≤ 64 }
        ensures { IfOk result (λ links. links.items ≡
            dependences self.now.defs.now self.now.references.now self.now.edges.now) }
    {
        let mut links = Vec::new(alloc);
        for reference in self.references {
            links.push(self.sources(alloc, reference.name.as_bytes())?)?;
        }
        Ok(links)
    }

    /// Whether each reference depends on itself.
    fn cycle_flags(&self, alloc: Global) -> Result<Vec<bool>, OutOfMemory>
        requires placed { IsPlacedGraph self.now }
        requires few { length self.now.references.now ≤ 64 }
        requires inside { AreInside (dependences self.now.defs.now self.now.references.now self.now.edges.now) }
        ensures { IfOk result (λ flags. flags.items ≡
            map (reaches_itself (dependences self.now.defs.now self.now.references.now
            self.now.edges.now)) (numbers (dependences self.now.defs.now self.now.references.now
            self.now.edges.now))) }
    {
        let links = self.dependences(alloc)?;
        reaching(alloc, links.as_slice())
    }

    /// The names of the references that depend on themselves.
    fn cycle_names(&self, alloc: Global) -> Result<Vec<Name>, OutOfMemory>
        requires placed { IsPlacedGraph self.now }
        requires few { length self.now.references.now ≤ 64 }
        requires inside { AreInside (dependences self.now.defs.now self.now.references.now self.now.edges.now) }
        ensures { IfOk result (λ names. names.items ≡
            names_of self.now.defs.now self.now.references.now
            (dependences self.now.defs.now self.now.references.now self.now.edges.now) 0
            self.now.references.now) }
    {
        let flags = self.cycle_flags(alloc)?;
        flagged(alloc, flags.as_slice(), self.references)
    }

    /// Checks that no reference depends on itself.
    pub fn check_cycles(&self, alloc: Global) -> Result<(), AlgoError>
        requires placed { IsPlacedGraph self.now }
        requires few { length self.now.references.now ≤ 64 }
        requires inside { AreInside (dependences self.now.defs.now self.now.references.now self.now.edges.now) }
        ensures { Checks result
            (cycle_fault self.now.defs.now self.now.references.now self.now.line self.now.edges.now) }
    {
        let names = self.cycle_names(alloc)?;
        if names.is_empty() {
            return Ok(());
        }
        Err(cycle(self.line, names))
    }
}
