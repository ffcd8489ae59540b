//! The longest chain to each operation, with the transfers that it cannot do without.
ghost use Rattle.std.specs.Prelude.{◌≡◌, ℕ, ◌<◌, ◌≤◌, false, suc, IfOk, IsTrue, length, slice_set};
ghost use Rattle.syn_base.specs.Limits.{most_operations};
ghost use Rattle.self_timed.specs.FlatOrder.{is_acyclic};
ghost use Rattle.self_timed.specs.Table.{entry_in};
ghost use Rattle.lower_bound.specs.Bound.{carried_to};
ghost use Rattle.lower_bound.specs.Turns.{at, most_date, renewed, AreChains, AreSettled, AreShort};

use crate::arrivals::first_end;
use self_timed::{Durations, Medium, Vertex};
use std::alloc::Global;
use syn_base::OutOfMemory;

/// No chain is longer: 2048 operations, each at most 1,000,000,000 ticks after a transfer of at most
/// 65,000,000.
const MOST_DATE: u64 = 2_181_120_000_000;

/// By operation the longest chain up to its end.
pub(crate) fn chain_ends(
    alloc: Global,
    vertices: &[Vertex],
    media: &[Medium],
    durations: &Durations,
) -> Result<Vec<u64>, OutOfMemory>
    requires few { length vertices.now ≤ most_operations }
    requires rows { length durations.now.rows ≡ length vertices.now }
    requires acyclic { IsTrue (is_acyclic vertices.now) }
    requires short { AreShort media.now vertices.now }
    ensures size { IfOk result (λ ends. length ends.items ≡ length vertices.now) }
    ensures low { IfOk result (λ ends. (v : ℕ) → at ends.items v ≤ most_date) }
    ensures chains { IfOk result (λ ends. (v : ℕ) → v < length vertices.now →
        at ends.items v ≡ carried_to durations.now.operators (entry_in durations.now) vertices.now
        media.now v) }
{
    let mut ends = zeros(alloc, vertices.len())?;
    settle(ends.as_mut_slice(), vertices, media, durations);
    Ok(ends)
}

/// Renews dates in place, in turns over all operations, until a turn leaves them as they are. Two
/// turns do where each operation stands after those that it depends on.
fn settle(ends: &mut [u64], vertices: &[Vertex], media: &[Medium], durations: &Durations)
    requires few { length vertices.now ≤ most_operations }
    requires acyclic { IsTrue (is_acyclic vertices.now) }
    requires short { AreShort media.now vertices.now }
    requires size { length ends.old ≡ length vertices.now }
    requires zero { (v : ℕ) → at ends.old v ≡ 0 }
    ensures size { length ends.new ≡ length vertices.now }
    ensures low { (v : ℕ) → at ends.new v ≤ most_date }
    ensures chains { (v : ℕ) → v < length vertices.now →
        at ends.new v ≡ carried_to durations.now.operators (entry_in durations.now) vertices.now
        media.now v }
{
    // The proof takes from this call that durations are bounded.
    let _operations = durations.operations();
    for _turn in 0..vertices.len() {
        if !has_changed(ends, vertices, media, durations) {
            return;
        }
    }
}

/// This many dates, all of them 0.
fn zeros(alloc: Global, len: usize) -> Result<Vec<u64>, OutOfMemory>
    ensures size { IfOk result (λ v. length v.items ≡ len) }
    ensures zero { IfOk result (λ v. (i : ℕ) → at v.items i ≡ 0) }
{
    Ok(vec![in alloc; 0; len]?)
}

/// Renews the dates of all operations in their order, and tells whether one has changed.
fn has_changed(
    ends: &mut [u64],
    vertices: &[Vertex],
    media: &[Medium],
    durations: &Durations,
) -> bool
    requires few { length vertices.now ≤ most_operations }
    requires acyclic { IsTrue (is_acyclic vertices.now) }
    requires short { AreShort media.now vertices.now }
    requires size { length ends.old ≡ length vertices.now }
    requires low { (v : ℕ) → at ends.old v ≤ most_date }
    ensures size { length ends.new ≡ length vertices.now }
    ensures low { (v : ℕ) → at ends.new v ≤ most_date }
    ensures chains { (rounds : ℕ) → AreChains durations.now.operators (entry_in durations.now)
        vertices.now media.now rounds ends.old → AreChains durations.now.operators
        (entry_in durations.now) vertices.now media.now (suc rounds) ends.new }
    ensures settled { result ≡ false → AreSettled durations.now.operators (entry_in durations.now)
        vertices.now media.now ends.new }
{
    // The proof takes from this call that durations are bounded.
    let _operations = durations.operations();
    let mut changed = false;
    for op in 0..vertices.len() {
        let renewed = renew(ends, vertices, media, durations, op);
        changed = changed || renewed;
    }
    changed
}

/// Renews the date of an operation, and tells whether it has changed.
fn renew(
    ends: &mut [u64],
    vertices: &[Vertex],
    media: &[Medium],
    durations: &Durations,
    op: usize,
) -> bool
    requires few { (length vertices.now ≤ most_operations) × (op < length vertices.now) }
    requires short { AreShort media.now vertices.now }
    requires size { length ends.old ≡ length vertices.now }
    requires low { (v : ℕ) → at ends.old v ≤ most_date }
    ensures renewed { ends.new ≡ slice_set ends.old op (renewed durations.now.operators
        (entry_in durations.now) vertices.now media.now ends.old op) }
    ensures same { result ≡ false → at ends.new op ≡ at ends.old op }
{
    let end = first_end(ends, vertices, media, durations, op as u32).min(MOST_DATE);
    let has_changed = ends[op] != end;
    ends[op] = end;
    has_changed
}
