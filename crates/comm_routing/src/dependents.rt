//! The dependents of each operation, by which `candidates` finds the few that a placement may have
//! changed.
ghost use Rattle.std.specs.Prelude.{◌≡◌, ℕ, ◌<◌, ◌≤◌, ◌++◌, ◌∷◌, [], IfOk, OnOk, length, map, vec_len};
ghost use Rattle.syn_base.specs.Limits.{most_operations};
ghost use Rattle.schedule.specs.FlatOrder.{depends_on, get_half};
ghost use Rattle.comm_routing.specs.Dependents.{AreDependents, list_at, repeated};

use schedule::{Guard, Kind, Source, Vertex};
use std::alloc::Global;
use syn_base::OutOfMemory;

/// By operation those that depend on it, ascending; one stands several times where it depends on it by
/// several sources.
pub(crate) fn all_dependents(
    alloc: Global,
    vertices: &[Vertex],
) -> Result<Vec<Vec<u32>>, OutOfMemory>
    requires few { length vertices.now ≤ most_operations }
    ensures size { IfOk result (λ lists. vec_len lists ≡ length vertices.now) }
    ensures dependents { IfOk result (λ lists. AreDependents vertices.now lists.items) }
{
    let mut lists = no_lists(alloc, vertices.len())?;
    for (op, vertex) in vertices.iter().enumerate() {
        note(&mut lists, vertex, op as u32)?;
    }
    Ok(lists)
}

/// As many empty lists.
fn no_lists(alloc: Global, count: usize) -> Result<Vec<Vec<u32>>, OutOfMemory>
    ensures size { IfOk result (λ lists. vec_len lists ≡ count) }
    ensures none { IfOk result (λ lists. (u : ℕ) → list_at lists.items u ≡ []) }
{
    let mut lists = Vec::new(alloc);
    for _ in 0..count {
        lists.push(Vec::new(alloc))?;
    }
    Ok(lists)
}

/// Puts an operation last into the list of each one on which it depends.
fn note(lists: &mut Vec<Vec<u32>>, vertex: &Vertex, op: u32) -> Result<(), OutOfMemory>
    ensures size { vec_len lists.new ≡ vec_len lists.old }
    ensures noted { OnOk result ((u : ℕ) → u < vec_len lists.old →
        list_at lists.new.items u ≡ list_at lists.old.items u ++
        repeated op u (depends_on vertex.now)) }
{
    note_guards(lists, vertex.guards.as_slice(), op)?;
    note_sources(lists, vertex.ins.as_slice(), op)?;
    note_half(lists, &vertex.kind, vertex.twin, op)?;
    Ok(())
}

/// Puts an operation last into the list of each one that its guards read.
fn note_guards(lists: &mut Vec<Vec<u32>>, guards: &[Guard], op: u32) -> Result<(), OutOfMemory>
    ensures size { vec_len lists.new ≡ vec_len lists.old }
    ensures noted { OnOk result ((u : ℕ) → u < vec_len lists.old →
        list_at lists.new.items u ≡ list_at lists.old.items u ++
        repeated op u (map (λ g. g.source.vertex) guards.now)) }
{
    for guard in guards {
        note_one(lists, guard.source.vertex, op)?;
    }
    Ok(())
}

/// Puts an operation last into the list of each one whose output it reads.
fn note_sources(lists: &mut Vec<Vec<u32>>, sources: &[Source], op: u32) -> Result<(), OutOfMemory>
    ensures size { vec_len lists.new ≡ vec_len lists.old }
    ensures noted { OnOk result ((u : ℕ) → u < vec_len lists.old →
        list_at lists.new.items u ≡ list_at lists.old.items u ++
        repeated op u (map (λ s. s.vertex) sources.now)) }
{
    for source in sources {
        note_one(lists, source.vertex, op)?;
    }
    Ok(())
}

/// Puts a set half last into the list of its get half.
fn note_half(
    lists: &mut Vec<Vec<u32>>,
    kind: &Kind,
    twin: Option<u32>,
    op: u32,
) -> Result<(), OutOfMemory>
    ensures size { vec_len lists.new ≡ vec_len lists.old }
    ensures noted { OnOk result ((u : ℕ) → u < vec_len lists.old →
        list_at lists.new.items u ≡ list_at lists.old.items u ++
        repeated op u (get_half kind.now twin)) }
{
    if let Kind::Set = kind {
        if let Some(twin) = twin {
            note_one(lists, twin, op)?;
        }
    }
    Ok(())
}

/// Puts an operation last into the list of this one, if there is such a list.
fn note_one(lists: &mut Vec<Vec<u32>>, on: u32, op: u32) -> Result<(), OutOfMemory>
    ensures size { vec_len lists.new ≡ vec_len lists.old }
    ensures noted { OnOk result ((u : ℕ) → u < vec_len lists.old →
        list_at lists.new.items u ≡ list_at lists.old.items u ++ repeated op u (on ∷ [])) }
{
    let on = on as usize;
    if on < lists.len() {
        push_number(&mut lists[on], op)?;
    }
    Ok(())
}

/// Adds a number at the end of a list. It is a function over one list, so that no proof writes into
/// a list of lists.
fn push_number(list: &mut Vec<u32>, number: u32) -> Result<(), OutOfMemory>
    ensures { OnOk result (list.new.items ≡ list.old.items ++ number ∷ []) }
{
    list.push(number)?;
    Ok(())
}
