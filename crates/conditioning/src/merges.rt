//! The merges of a switch, and the outputs of the graph that it becomes. `pass` calls it.
ghost use Rattle.std.specs.Prelude.{◌≡◌, ◌++◌, ◌∷◌, ◌+◌, IfOk, OnOk, map, slice_index_or};
ghost use Rattle.algo_tree.specs.View.{view};
ghost use Rattle.flat_laws.specs.Guarded.{merge_of, merge_sources};
ghost use Rattle.conditioning.specs.Listed.{merges_listed};
ghost use Rattle.syn_base.specs.Numbers.{numbers_below};

use algo_tree::{Guard, Kind, Part, Source, Vertex, copy_bytes};
use std::alloc::Global;
use syn_base::{Items, OutOfMemory, Shared, len_at, to_u32};

/// What the merges of a switch have in common: its definition, the guards around it as its inside sees
/// them, the number of its conditioning input, the values of its cases, and the number of these.
#[derive(Clone, Copy)]
pub struct Switched<'a> {
    pub definition: &'a Shared<u8>,
    pub guards: &'a Shared<Guard>,
    pub condition: u32,
    pub values: &'a Shared<i64>,
    pub cases: u32,
}

/// This output of each case, in order.
fn case_outputs(alloc: Global, cases: u32, output: u32) -> Result<Vec<Source>, OutOfMemory>
    ensures { IfOk result (λ ss. ss.items ≡ map (λ i. Source.Of i output) (numbers_below cases)) }
{
    let mut all = Vec::new(alloc);
    for case in 0..cases {
        all.push(Source::Of(case, output))?;
    }
    Ok(all)
}

/// The conditioning source, and after it this output of each case in order.
fn merge_ins(
    alloc: Global,
    condition: u32,
    cases: u32,
    output: u32,
) -> Result<Vec<Source>, OutOfMemory>
    ensures { IfOk result (λ ss. ss.items ≡ Source.Own condition ∷
        map (λ i. Source.Of i output) (numbers_below cases)) }
{
    let outputs = case_outputs(alloc, cases, output)?;
    let mut all = vec![in alloc; Source::Own(condition)]?;
    all.extend_from_slice(outputs.as_slice())?;
    Ok(all)
}

/// The merge of an output of this name and length.
fn merge(
    alloc: Global,
    switch: &Switched<'_>,
    output: u32,
    name: &[u8],
    len: u32,
) -> Result<Vertex, OutOfMemory>
    ensures { IfOk result (λ u. view u ≡ merge_of switch.now.definition.now switch.now.guards.now
        switch.now.condition switch.now.values.now switch.now.cases output name.now len) }
{
    let ins = merge_ins(alloc, switch.condition, switch.cases, output)?;
    let ins = Shared::new(alloc, ins)?;
    let outs = Shared::new(alloc, vec![in alloc; len]?)?;
    let names = Shared::empty(alloc)?;
    let name = copy_bytes(alloc, name)?;
    let definition = switch.definition.share()?;
    let values = switch.values.share()?;
    let guards = switch.guards.share()?;
    Ok(Vertex {
        part: Part::Port(name),
        definition,
        ins,
        guards,
        outs,
        names,
        kind: Kind::Merge(values),
        inner: Vec::new(alloc),
    })
}

/// Adds a merge for each output, in order, of the length of the switch's output.
pub fn add_merges(
    alloc: Global,
    switch: &Switched<'_>,
    outs: &[u32],
    names: &[Items<u8>],
    all: &mut Vec<Vertex>,
) -> Result<(), OutOfMemory>
    ensures { OnOk result (map view all.new.items ≡ map view all.old.items ++
        merges_listed switch.now.definition.now switch.now.guards.now switch.now.condition
        switch.now.values.now switch.now.cases outs.now 0 names.now) }
{
    let mut place = 0;
    for name in names {
        let output = to_u32(place)?;
        let len = len_at(outs, place);
        all.push(merge(alloc, switch, output, name.as_slice(), len)?)?;
        place += 1;
    }
    Ok(())
}

/// The sources of the graph's outputs: each merge, which stand after the cases.
pub fn merge_outputs(alloc: Global, cases: u32, outputs: usize) -> Result<Vec<Source>, OutOfMemory>
    ensures { IfOk result (λ ss. ss.items ≡ merge_sources cases outputs) }
{
    let mut all = Vec::new(alloc);
    for output in 0..to_u32(outputs)? {
        let Some(vertex) = cases.checked_add(output) else {
            return Err(OutOfMemory);
        };
        all.push(Source::Of(vertex, 0))?;
    }
    Ok(all)
}
