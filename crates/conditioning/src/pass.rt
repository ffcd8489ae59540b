//! The pass over a tree, which replaces each switch by a graph of its cases and merges. `hierarchy` calls it.
ghost use Rattle.std.specs.Prelude.{◌≡◌, [], IfOk, map};
ghost use Rattle.algo_tree.specs.declared.vertex.Vertex.{out-Vertex};
ghost use Rattle.algo_tree.specs.Counted.{operations};
ghost use Rattle.algo_tree.specs.View.{view};
ghost use Rattle.algo_tree.specs.SameMeaning.{KeepsMeaning};
ghost use Rattle.algo_tree.specs.NoRepeat.{HasNoRepeat};
ghost use Rattle.flat_laws.specs.Guarded.{guard as guarded_tree, guarded};
ghost use Rattle.flat_laws.specs.NoCase.{HasNoCase};
ghost use Rattle.conditioning.specs.Listed.{cases_listed};

use crate::conditions::{guards_of_case, own_guards, shift_sources};
use crate::merges::{Switched, add_merges, merge_outputs};
use crate::vertices::{as_graph, as_operation};
use algo_tree::{Guard, Kind, Source, Tree, Vertex};
use std::alloc::Global;
use syn_base::{Items, OutOfMemory, Shared, to_u32};

/// The tree without cases, of the same meaning: each switch is replaced by a graph of its cases and a
/// merge for each output after them. Every operation and merge carries the guards of the cases
/// around it, outer first. The tree has no repetitions.
pub fn guard(alloc: Global, tree: &Tree) -> Result<Tree, OutOfMemory>
    requires { HasNoRepeat tree.now }
    ensures same { IfOk result (λ t. t ≡ guarded_tree tree.now) }
    ensures kept { IfOk result (λ t. KeepsMeaning tree.now t) }
    ensures cases { IfOk result (λ t. HasNoCase t) }
    ensures repeats { IfOk result (λ t. HasNoRepeat t) }
    ensures count { IfOk result (λ t. operations t ≡ operations tree.now) }
{
    let main = tree.main();
    Ok(Tree::new(guard_main(alloc, main)?))
}

/// The main graph without cases.
fn guard_main(alloc: Global, main: &Vertex) -> Result<Vertex, OutOfMemory>
    ensures { IfOk result (λ u. view u ≡ guarded_tree (view main.now)) }
{
    let none = Shared::empty(alloc)?;
    let made = guard_vertex(alloc, &none, 0, main)?;
    Ok(made)
}

/// The vertex under these guards, without cases, in a level that has `before` further inputs.
#[cycle(guard)]
fn guard_vertex(
    alloc: Global,
    guards: &Shared<Guard>,
    before: u32,
    vertex: &Vertex,
) -> Result<Vertex, OutOfMemory>
    ensures { IfOk result (λ u. view u ≡ guarded guards.now before (view vertex.now)) }
{
    match &vertex.kind {
        Kind::Graph(outputs) => guard_graph(alloc, guards, before, vertex, outputs),
        Kind::Switch(values, names) => {
            guard_switch(alloc, guards, before, vertex, values, names.as_slice())
        }
        _ => as_operation(alloc, guards, before, vertex),
    }
}

/// The vertices under these guards.
#[cycle(guard)]
fn guard_each(
    alloc: Global,
    guards: &Shared<Guard>,
    before: u32,
    vertices: &Vec<Vertex>,
) -> Result<Vec<Vertex>, OutOfMemory>
    ensures { IfOk result (λ us. map view us.items ≡ map (λ v. guarded guards.now before (view v)) vertices.now.items) }
{
    let mut all = Vec::new(alloc);
    for vertex in vertices {
        all.push(guard_vertex(alloc, guards, before, vertex)?)?;
    }
    Ok(all)
}

/// The graph with these outputs under these guards.
#[cycle(guard)]
fn guard_graph(
    alloc: Global,
    guards: &Shared<Guard>,
    before: u32,
    vertex: &Vertex,
    outputs: &Shared<Source>,
) -> Result<Vertex, OutOfMemory>
    requires { (out-Vertex vertex.now).kind ≡ Kind.Graph outputs.now }
    ensures { IfOk result (λ u. view u ≡ guarded guards.now before (view vertex.now)) }
{
    let own = own_guards(alloc, guards)?;
    let handed = to_u32(guards.as_slice().len())?;
    let outputs = shift_sources(alloc, handed, outputs)?;
    let inner = guard_each(alloc, &own, handed, &vertex.inner)?;
    as_graph(alloc, guards, before, vertex, outputs, inner)
}

/// The graph that a switch with these values and outputs becomes under these guards.
#[cycle(guard)]
fn guard_switch(
    alloc: Global,
    guards: &Shared<Guard>,
    before: u32,
    vertex: &Vertex,
    values: &Shared<i64>,
    names: &[Items<u8>],
) -> Result<Vertex, OutOfMemory>
    requires { (out-Vertex vertex.now).kind ≡ Kind.Switch values.now names.now }
    ensures { IfOk result (λ u. view u ≡ guarded guards.now before (view vertex.now)) }
{
    let own = own_guards(alloc, guards)?;
    let handed = to_u32(guards.as_slice().len())?;
    let cases = to_u32(vertex.inner.len())?;
    let outputs = Shared::new(alloc, merge_outputs(alloc, cases, names.len())?)?;
    let mut inner = guard_cases(alloc, &own, handed, values, &vertex.inner)?;
    let switch = Switched {
        definition: &vertex.definition,
        guards: &own,
        condition: handed,
        values,
        cases,
    };
    add_merges(alloc, &switch, vertex.outs.as_slice(), names, &mut inner)?;
    as_graph(alloc, guards, before, vertex, outputs, inner)
}

/// The cases of a switch, each under one guard more. Its conditioning input stands after `handed` others.
#[cycle(guard)]
fn guard_cases(
    alloc: Global,
    guards: &Shared<Guard>,
    handed: u32,
    values: &Shared<i64>,
    vertices: &Vec<Vertex>,
) -> Result<Vec<Vertex>, OutOfMemory>
    ensures { IfOk result (λ us. map view us.items ≡
        cases_listed guards.now handed values.now 0 (map view vertices.now.items)) }
{
    let mut all = Vec::new(alloc);
    for vertex in vertices {
        let case = to_u32(all.len())?;
        let inside = guards_of_case(alloc, guards, handed, values, case)?;
        all.push(guard_vertex(alloc, &inside, handed, vertex)?)?;
    }
    Ok(all)
}
