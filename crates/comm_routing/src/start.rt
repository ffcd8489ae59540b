//! The tables before the first decision, which `Board::new` begins with.
ghost use Rattle.std.specs.Prelude.{◌≡◌, ℕ, ◌≤◌, None, All, IfOk, length, slice_index_or};
ghost use Rattle.syn_base.specs.Limits.{most_operations};
ghost use Rattle.comm_routing.specs.Start.{all_lens, firsts_from};
ghost use Rattle.schedule.specs.FlatValid.{HasFewOutputs};

use schedule::Vertex;
use std::alloc::Global;
use syn_base::OutOfMemory;

/// The number of each operation's first output.
pub(crate) fn firsts(alloc: Global, vertices: &[Vertex]) -> Result<Vec<u32>, OutOfMemory>
    requires few { length vertices.now ≤ most_operations }
    requires outputs { All HasFewOutputs vertices.now }
    ensures { IfOk result (λ first. first.items ≡ firsts_from 0 vertices.now) }
{
    let mut firsts = Vec::with_capacity(alloc, vertices.len())?;
    let mut first = 0;
    for vertex in vertices {
        firsts.push(first)?;
        first += outputs(vertex);
    }
    Ok(firsts)
}

/// How many outputs the operation has.
fn outputs(vertex: &Vertex) -> u32
    requires { HasFewOutputs vertex.now }
    ensures count { result ≡ length vertex.now.outs }
    ensures few { result ≤ 64 }
{
    vertex.outs.as_slice().len() as u32
}

/// The lengths of all outputs, operation by operation.
pub(crate) fn lens(alloc: Global, vertices: &[Vertex]) -> Result<Vec<u32>, OutOfMemory>
    ensures { IfOk result (λ lens. lens.items ≡ all_lens vertices.now) }
{
    let mut lens = Vec::new(alloc);
    for vertex in vertices {
        lens.extend_from_slice(vertex.outs.as_slice())?;
    }
    Ok(lens)
}

/// A table of this many dates, none of which is there.
pub(crate) fn no_dates(alloc: Global, len: usize) -> Result<Vec<Option<u64>>, OutOfMemory>
    ensures size { IfOk result (λ dates. length dates.items ≡ len) }
    ensures none { IfOk result (λ dates. (i : ℕ) → slice_index_or dates.items i None ≡ None) }
{
    Ok(vec![in alloc; None; len]?)
}

/// A table of this many operations, none of which is placed.
pub(crate) fn no_places(alloc: Global, len: usize) -> Result<Vec<Option<u32>>, OutOfMemory>
    ensures size { IfOk result (λ places. length places.items ≡ len) }
    ensures none { IfOk result (λ places. (v : ℕ) → slice_index_or places.items v None ≡ None) }
{
    Ok(vec![in alloc; None; len]?)
}

/// This many dates, all of them 0.
pub(crate) fn zeros(alloc: Global, len: usize) -> Result<Vec<u64>, OutOfMemory>
    ensures size { IfOk result (λ dates. length dates.items ≡ len) }
    ensures zero { IfOk result (λ dates. (i : ℕ) → slice_index_or dates.items i 0 ≡ 0) }
{
    Ok(vec![in alloc; 0; len]?)
}

/// The last ends of operators or media before anything has ended.
pub(crate) fn no_ends() -> [u64; 16]
    ensures size { length result ≡ 16 }
    ensures zero { (i : ℕ) → slice_index_or result i 0 ≡ 0 }
{
    [0; 16]
}
