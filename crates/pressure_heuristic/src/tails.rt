//! The tails: the longest times from the ends of operations on, by which the run chooses.
ghost use Rattle.std.specs.Prelude.{◌≡◌, ℕ, ◌+◌, ◌*◌, ◌<◌, ◌≤◌, IfOk, length, map, slice_index_or, ◌∷◌, [], IsTrue};
ghost use Rattle.syn_base.specs.Limits.{most_operations};
ghost use Rattle.schedule.specs.FlatOrder.{depends_on, get_half, is_acyclic};
ghost use Rattle.pressure_heuristic.specs.Tails.{raised, so_far, tails_in};

use schedule::{Durations, Guard, Kind, Source, Vertex};
use std::alloc::Global;
use syn_base::OutOfMemory;

/// No tail is greater: at most 2047 operations follow one, each at most 1,000,000,000 ticks.
const GREATEST: u64 = 2_047_000_000_000;

/// By operation the longest time from its end on, by least durations, along operations of which each
/// depends on the one before. Dates are raised in place until one exact round leaves them as they
/// are: then they are the tails, since no operation depends on itself. Few turns do where the
/// operations stand in an order.
pub(crate) fn all_tails(
    alloc: Global,
    vertices: &[Vertex],
    durations: &Durations,
) -> Result<Vec<u64>, OutOfMemory>
    requires few { length vertices.now ≤ most_operations }
    requires rows { length durations.now.rows ≡ length vertices.now }
    requires acyclic { IsTrue (is_acyclic vertices.now) }
    ensures size { IfOk result (λ tails. length tails.items ≡ length vertices.now) }
    ensures low { IfOk result (λ tails. (v : ℕ) → slice_index_or tails.items v 0 ≤ 2048000000000) }
    ensures tails { IfOk result (λ tails. (v : ℕ) → v < length vertices.now →
        slice_index_or tails.items v 0 ≡ tails_in vertices.now durations.now (length vertices.now)
        v) }
{
    let operations = vertices.len();
    let mut dates = zeros(alloc, operations)?;
    for _turn in 0..operations {
        raise_downwards(dates.as_mut_slice(), vertices, durations);
        raise_upwards(dates.as_mut_slice(), vertices, durations);
        let next = one_round(alloc, vertices, durations, &dates, 2047)?;
        if are_same(&dates, &next) {
            return Ok(dates);
        }
    }
    all_rounds(alloc, vertices, durations)
}

/// Raises dates in place, from the last operation to the first.
fn raise_downwards(dates: &mut [u64], vertices: &[Vertex], durations: &Durations)
    requires few { length vertices.now ≤ most_operations }
    requires rows { length durations.now.rows ≡ length vertices.now }
    requires size { length dates.old ≡ length vertices.now }
    requires low { (v : ℕ) → slice_index_or dates.old v 0 ≤ GREATEST }
    ensures size { length dates.new ≡ length vertices.now }
    ensures low { (v : ℕ) → slice_index_or dates.new v 0 ≤ GREATEST }
{
    for op in (0..vertices.len()).rev() {
        raise_from(dates, vertices, durations, op);
    }
}

/// Raises dates in place, from the first operation to the last.
fn raise_upwards(dates: &mut [u64], vertices: &[Vertex], durations: &Durations)
    requires few { length vertices.now ≤ most_operations }
    requires rows { length durations.now.rows ≡ length vertices.now }
    requires size { length dates.old ≡ length vertices.now }
    requires low { (v : ℕ) → slice_index_or dates.old v 0 ≤ GREATEST }
    ensures size { length dates.new ≡ length vertices.now }
    ensures low { (v : ℕ) → slice_index_or dates.new v 0 ≤ GREATEST }
{
    for op in 0..vertices.len() {
        raise_from(dates, vertices, durations, op);
    }
}

/// Raises the dates of the operations on which this one depends to its least duration with its date.
fn raise_from(dates: &mut [u64], vertices: &[Vertex], durations: &Durations, op: usize)
    requires few { (length vertices.now ≤ most_operations) × (op < length vertices.now) }
    requires rows { length durations.now.rows ≡ length vertices.now }
    requires size { length dates.old ≡ length vertices.now }
    requires low { (v : ℕ) → slice_index_or dates.old v 0 ≤ GREATEST }
    ensures size { length dates.new ≡ length vertices.now }
    ensures low { (v : ℕ) → slice_index_or dates.new v 0 ≤ GREATEST }
{
    let date = durations.least(op as u32) + dates[op];
    raise(dates, &vertices[op], date.min(GREATEST));
}

/// The tails by rounds over all operations, each from the dates before, until nothing changes.
fn all_rounds(
    alloc: Global,
    vertices: &[Vertex],
    durations: &Durations,
) -> Result<Vec<u64>, OutOfMemory>
    requires few { length vertices.now ≤ most_operations }
    requires rows { length durations.now.rows ≡ length vertices.now }
    ensures size { IfOk result (λ tails. length tails.items ≡ length vertices.now) }
    ensures low { IfOk result (λ tails. (v : ℕ) → slice_index_or tails.items v 0 ≤ 2048000000000) }
    ensures tails { IfOk result (λ tails. (v : ℕ) → v < length vertices.now →
        slice_index_or tails.items v 0 ≡ tails_in vertices.now durations.now (length vertices.now)
        v) }
{
    let operations = vertices.len();
    let mut tails = zeros(alloc, operations)?;
    for round in 0..operations {
        let next = one_round(alloc, vertices, durations, &tails, round)?;
        if are_same(&tails, &next) {
            return Ok(tails);
        }
        tails = next;
    }
    Ok(tails)
}

/// This many dates, all of them 0.
fn zeros(alloc: Global, len: usize) -> Result<Vec<u64>, OutOfMemory>
    ensures size { IfOk result (λ v. length v.items ≡ len) }
    ensures zero { IfOk result (λ v. (i : ℕ) → slice_index_or v.items i 0 ≡ 0) }
{
    Ok(vec![in alloc; 0; len]?)
}

/// Whether both lists of dates are equal.
fn are_same(one: &[u64], other: &[u64]) -> bool
    requires { length one.now ≡ length other.now }
    ensures { IsTrue result → one.now ≡ other.now }
{
    one == other
}

/// The tails after one round more.
fn one_round(
    alloc: Global,
    vertices: &[Vertex],
    durations: &Durations,
    before: &[u64],
    round: usize,
) -> Result<Vec<u64>, OutOfMemory>
    requires few { (length vertices.now ≤ most_operations) × (round < most_operations) }
    requires rows { length durations.now.rows ≡ length vertices.now }
    requires size { length before.now ≡ length vertices.now }
    requires low { (v : ℕ) → slice_index_or before.now v 0 ≤ 1000000000 * round }
    ensures size { IfOk result (λ next. length next.items ≡ length vertices.now) }
    ensures low { IfOk result (λ next. (v : ℕ) → slice_index_or next.items v 0 ≤ 1000000000 * (round + 1)) }
    ensures next { IfOk result (λ next. (v : ℕ) → v < length vertices.now →
        slice_index_or next.items v 0 ≡ so_far vertices.now durations.now
        (λ s. slice_index_or before.now s 0) (length vertices.now) v) }
{
    let mut next = zeros(alloc, vertices.len())?;
    raise_all(next.as_mut_slice(), vertices, durations, before, round);
    Ok(next)
}

/// Raises each date to the least durations, with the dates before, of the operations that depend on it.
fn raise_all(
    dates: &mut [u64],
    vertices: &[Vertex],
    durations: &Durations,
    before: &[u64],
    round: usize,
)
    requires few { (length vertices.now ≤ most_operations) × (round < most_operations) }
    requires rows { length durations.now.rows ≡ length vertices.now }
    requires sizes { (length before.now ≡ length vertices.now) × (length dates.old ≡ length vertices.now) }
    requires low { (v : ℕ) → slice_index_or before.now v 0 ≤ 1000000000 * round }
    requires zero { (v : ℕ) → slice_index_or dates.old v 0 ≡ 0 }
    ensures size { length dates.new ≡ length vertices.now }
    ensures low { (v : ℕ) → slice_index_or dates.new v 0 ≤ 1000000000 * (round + 1) }
    ensures next { (v : ℕ) → v < length vertices.now →
        slice_index_or dates.new v 0 ≡ so_far vertices.now durations.now
        (λ s. slice_index_or before.now s 0) (length vertices.now) v }
{
    for op in 0..vertices.len() {
        let date = durations.least(op as u32) + before[op];
        raise(dates, &vertices[op], date);
    }
}

/// Raises the dates of the operations on which this one depends.
fn raise(dates: &mut [u64], vertex: &Vertex, date: u64)
    ensures size { length dates.new ≡ length dates.old }
    ensures raised { (v : ℕ) → v < length dates.old →
        slice_index_or dates.new v 0 ≡ raised (depends_on vertex.now) v date
        (slice_index_or dates.old v 0) }
{
    raise_guards(dates, vertex.guards.as_slice(), date);
    raise_sources(dates, vertex.ins.as_slice(), date);
    raise_half(dates, &vertex.kind, vertex.twin, date);
}

/// Raises the dates of the operations that these guards read.
fn raise_guards(dates: &mut [u64], guards: &[Guard], date: u64)
    ensures size { length dates.new ≡ length dates.old }
    ensures raised { (v : ℕ) → v < length dates.old →
        slice_index_or dates.new v 0 ≡ raised (map (λ g. g.source.vertex) guards.now) v date
        (slice_index_or dates.old v 0) }
{
    for guard in guards {
        raise_one(dates, guard.source.vertex, date);
    }
}

/// Raises the dates of the operations of these sources.
fn raise_sources(dates: &mut [u64], sources: &[Source], date: u64)
    ensures size { length dates.new ≡ length dates.old }
    ensures raised { (v : ℕ) → v < length dates.old →
        slice_index_or dates.new v 0 ≡ raised (map (λ s. s.vertex) sources.now) v date
        (slice_index_or dates.old v 0) }
{
    for source in sources {
        raise_one(dates, source.vertex, date);
    }
}

/// Raises the date of the get half, where the operation is a set half.
fn raise_half(dates: &mut [u64], kind: &Kind, twin: Option<u32>, date: u64)
    ensures size { length dates.new ≡ length dates.old }
    ensures raised { (v : ℕ) → v < length dates.old →
        slice_index_or dates.new v 0 ≡ raised (get_half kind.now twin) v date
        (slice_index_or dates.old v 0) }
{
    if let Kind::Set = kind {
        if let Some(twin) = twin {
            raise_one(dates, twin, date);
        }
    }
}

/// Raises the date of one operation, if there is one of this number.
fn raise_one(dates: &mut [u64], op: u32, date: u64)
    ensures size { length dates.new ≡ length dates.old }
    ensures raised { (v : ℕ) → v < length dates.old →
        slice_index_or dates.new v 0 ≡ raised (op ∷ []) v date (slice_index_or dates.old v 0) }
{
    let op = op as usize;
    if op < dates.len() {
        dates[op] = dates[op].max(date);
    }
}
