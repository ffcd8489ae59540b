//! The rows of the table. The commands call `durations_of`.
ghost use Rattle.std.specs.Prelude.{◌≡◌, ℕ, ◌<◌, ◌≤◌, IfOk, List, None, length, map, true};
ghost use Rattle.archi_defs.specs.Text.{described_by};
ghost use Rattle.archi_defs.specs.declared.text.DurationLine.{DurationLine};
ghost use Rattle.durations.specs.Lines.{AreDurations};
ghost use Rattle.durations.specs.Table.{durations_of, entry, missing, row, table};
ghost use Rattle.durations.specs.Given.{IsRefused};
ghost use Rattle.text_lines.specs.Refusals.{Gives};
ghost use Rattle.durations.specs.Fitting.{IsOf};

use crate::given::Given;
use crate::halves::halves;
use crate::missing::{is_timed, missing};
use crate::table::Durations;
use archi_defs::{ArchiCause, ArchiError, ArchiText};
use flat_graph::{Flat, Vertex};
use std::alloc::Global;
use syn_base::{Items, Name, OutOfMemory};
use text_lines::refused_at;

/// How long each operation lasts on each operator. A sensor, an actuator or a function lasts as long as the
/// text says for its definition, and may not stand on an operator for which the text says nothing. A constant,
/// and whatever else flattening makes, lasts 0 ticks on every operator. Durations of other definitions are
/// passed over. NoDuration, at line 0, comes exactly where some sensor, actuator or function has a definition
/// without any duration, and has that of the least such operation.
pub fn durations_of(alloc: Global, flat: &Flat, text: &ArchiText) -> Result<Durations, ArchiError>
    requires { AreDurations (length text.now.archi.operators) text.now.lines }
    ensures gives { Gives result (durations_of flat.now (described_by text.now)) }
    ensures fits { IfOk result (IsOf flat.now text.now.archi) }
{
    let operators = text.archi.operators().len() as u32;
    let given = Given::new(alloc, operators, text.lines.as_slice())?;
    if let Some(def) = missing(&given, flat.vertices()) {
        return Err(no_duration(alloc, def));
    }
    Ok(table(alloc, &given, flat.vertices())?)
}

/// The refusal of a definition that has no duration, at line 0, which stands for the whole text.
fn no_duration(alloc: Global, def: &Name) -> ArchiError
    ensures { IsRefused result def.now }
{
    match def.copy(alloc) {
        Ok(def) => refused_at(0, ArchiCause::NoDuration(def)),
        Err(_) => ArchiError::OutOfMemory,
    }
}

/// The table for these operations, of which none lacks a duration.
fn table(alloc: Global, given: &Given, vertices: &[Vertex]) -> Result<Durations, OutOfMemory>
    requires operators { 1 ≤ given.now.operators }
    requires none_missing { missing given.now.lines vertices.now ≡ None }
    ensures { IfOk result (λ t. t ≡ table vertices.now given.now.operators given.now.lines) }
{
    let rows = rows(alloc, given, vertices)?;
    let halves = halves(alloc, vertices)?;
    Ok(Durations::new(given.operators(), rows, halves))
}

/// The row of each of these operations.
fn rows(
    alloc: Global,
    given: &Given,
    vertices: &[Vertex],
) -> Result<Vec<Items<Option<u64>>>, OutOfMemory>
    ensures { IfOk result (λ rows. rows.items ≡ map (row given.now.operators given.now.lines) vertices.now) }
{
    let mut rows: Vec<Items<Option<u64>>> = Vec::with_capacity(alloc, vertices.len())?;
    for (op, vertex) in vertices.iter().enumerate() {
        let next = row_after(alloc, given, &vertices[..op], rows.as_slice(), vertex)?;
        rows.push(next)?;
    }
    Ok(rows)
}

/// The row of an operation after others, whose rows are known. It is a copy of the last of them where
/// both operations last as long, so that their definition is not looked up again.
fn row_after(
    alloc: Global,
    given: &Given,
    before: &[Vertex],
    rows: &[Items<Option<u64>>],
    vertex: &Vertex,
) -> Result<Items<Option<u64>>, OutOfMemory>
    requires { rows.now ≡ map (row given.now.operators given.now.lines) before.now }
    ensures { IfOk result (λ entries. entries ≡ row given.now.operators given.now.lines vertex.now) }
{
    let count = before.len();
    if count > 0 && lasts_as(&before[count - 1], vertex) {
        return copy_row(alloc, rows[count - 1].as_slice());
    }
    row(alloc, given, vertex)
}

/// Whether both operations last as long as each other on every operator, whatever a text says.
fn lasts_as(one: &Vertex, other: &Vertex) -> bool
    ensures { result ≡ true → (lines : List DurationLine) (o : ℕ) → entry lines one.now o ≡ entry lines other.now o }
{
    is_timed(&one.kind) && is_timed(&other.kind) && one.def.as_bytes() == other.def.as_bytes()
}

/// A copy of a row.
fn copy_row(alloc: Global, entries: &[Option<u64>]) -> Result<Items<Option<u64>>, OutOfMemory>
    ensures { IfOk result (λ copy. copy ≡ entries.now) }
{
    Ok(Items::new(Vec::from_slice(alloc, entries)?))
}

/// The row of an operation, entry by entry.
fn row(alloc: Global, given: &Given, vertex: &Vertex) -> Result<Items<Option<u64>>, OutOfMemory>
    ensures { IfOk result (λ entries. entries ≡ row given.now.operators given.now.lines vertex.now) }
{
    let mut entries = Vec::with_capacity(alloc, given.operators() as usize)?;
    for operator in 0..given.operators() {
        entries.push(entry(given, vertex, operator))?;
    }
    Ok(Items::new(entries))
}

/// The ticks that an operation lasts on an operator by these durations, where it may stand there. It takes no memory.
pub fn entry(given: &Given, vertex: &Vertex, operator: u32) -> Option<u64>
    requires { operator < given.now.operators }
    ensures { result ≡ entry given.now.lines vertex.now operator }
{
    if is_timed(&vertex.kind) {
        given.ticks(vertex.def.as_bytes(), operator)
    } else {
        Some(0)
    }
}
