//! The distinct sources of each operation, found once when a draft begins.
ghost use Rattle.std.specs.Prelude.{◌≡◌, ℕ, ◌<◌, ◌≤◌, ◌*◌, ◌++◌, List, All, IfOk, OnOk, length, map, slice_index_or};
ghost use Rattle.syn_base.specs.Limits.{most_operations};
ghost use Rattle.comm_routing.specs.Start.{AreThere, IsMarked, IsThere, reads_of, with_source};
ghost use Rattle.comm_routing.specs.Walk.{distinct_after};
ghost use Rattle.schedule.specs.declared.Source.{Source};

use schedule::{Guard, Source, Vertex};
use std::alloc::Global;
use syn_base::{Items, OutOfMemory};

/// The distinct sources of each operation, those of its guards first.
pub(crate) fn all_reads(
    alloc: Global,
    vertices: &[Vertex],
) -> Result<Vec<Items<Source>>, OutOfMemory>
    requires few { length vertices.now ≤ most_operations }
    requires there { All (AreThere (length vertices.now)) vertices.now }
    ensures reads { IfOk result (λ reads. reads.items ≡ map reads_of vertices.now) }
    ensures short { IfOk result (λ reads. All (λ r. length r ≤ 131072) reads.items) }
{
    let operations = vertices.len();
    let mut marks = no_marks(alloc, operations * 64)?;
    let mut reads = Vec::with_capacity(alloc, operations)?;
    for (op, vertex) in vertices.iter().enumerate() {
        reads.push(reads_of(
            alloc,
            operations,
            vertex,
            op as u32 + 1,
            marks.as_mut_slice(),
        )?)?;
    }
    Ok(reads)
}

/// This many places without a mark.
fn no_marks(alloc: Global, len: usize) -> Result<Vec<u32>, OutOfMemory>
    ensures size { IfOk result (λ marks. length marks.items ≡ len) }
    ensures zero { IfOk result (λ marks. (i : ℕ) → slice_index_or marks.items i 0 ≡ 0) }
{
    Ok(vec![in alloc; 0; len]?)
}

/// The distinct sources of an operation, found by a mark that none has so far.
fn reads_of(
    alloc: Global,
    operations: usize,
    vertex: &Vertex,
    mark: u32,
    marks: &mut [u32],
) -> Result<Items<Source>, OutOfMemory>
    requires few { operations ≤ most_operations }
    requires size { length marks.old ≡ operations * 64 }
    requires unmarked { (i : ℕ) → slice_index_or marks.old i 0 < mark }
    requires there { AreThere operations vertex.now }
    ensures reads { IfOk result (λ reads. reads ≡ reads_of vertex.now) }
    ensures short { IfOk result (λ reads. length reads ≤ 131072) }
    ensures size { OnOk result (length marks.new ≡ operations * 64) }
    ensures low { OnOk result ((i : ℕ) → slice_index_or marks.new i 0 ≤ mark) }
{
    let mut reads = Vec::new(alloc);
    note_guards(
        operations,
        vertex.guards.as_slice(),
        mark,
        marks,
        &mut reads,
    )?;
    note_all(operations, vertex.ins.as_slice(), mark, marks, &mut reads)?;
    Ok(Items::new(reads))
}

/// Puts the sources of these guards after those that are there, each once, and marks them.
fn note_guards(
    operations: usize,
    guards: &[Guard],
    mark: u32,
    marks: &mut [u32],
    reads: &mut Vec<Source>,
) -> Result<(), OutOfMemory>
    requires few { operations ≤ most_operations }
    requires marked { IsMarked operations mark marks.old reads.old.items }
    requires there { All (λ g. IsThere operations g.source) guards.now }
    ensures marked { OnOk result (IsMarked operations mark marks.new reads.new.items) }
    ensures noted { OnOk result ((rest : List Source) →
        reads.new.items ++ distinct_after reads.new.items rest ≡ reads.old.items ++
        distinct_after reads.old.items (map (λ g. g.source) guards.now ++ rest)) }
{
    for guard in guards {
        note(operations, guard.source, mark, marks, reads)?;
    }
    Ok(())
}

/// Puts these sources after those that are there, each once, and marks them.
fn note_all(
    operations: usize,
    sources: &[Source],
    mark: u32,
    marks: &mut [u32],
    reads: &mut Vec<Source>,
) -> Result<(), OutOfMemory>
    requires few { operations ≤ most_operations }
    requires marked { IsMarked operations mark marks.old reads.old.items }
    requires there { All (IsThere operations) sources.now }
    ensures marked { OnOk result (IsMarked operations mark marks.new reads.new.items) }
    ensures noted { OnOk result (reads.new.items ≡ reads.old.items ++ distinct_after reads.old.items sources.now) }
{
    for source in sources {
        note(operations, *source, mark, marks, reads)?;
    }
    Ok(())
}

/// Puts a source last and marks it, unless it is marked.
fn note(
    operations: usize,
    source: Source,
    mark: u32,
    marks: &mut [u32],
    reads: &mut Vec<Source>,
) -> Result<(), OutOfMemory>
    requires few { operations ≤ most_operations }
    requires marked { IsMarked operations mark marks.old reads.old.items }
    requires there { IsThere operations source }
    ensures marked { OnOk result (IsMarked operations mark marks.new reads.new.items) }
    ensures noted { OnOk result (reads.new.items ≡ with_source reads.old.items source) }
{
    let place = source.vertex as usize * 64 + source.port as usize;
    if marks[place] != mark {
        reads.push(source)?;
        marks[place] = mark;
    }
    Ok(())
}
