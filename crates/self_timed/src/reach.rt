//! Which operations depend on one of them within a reaction.
ghost use Rattle.std.specs.Prelude.{◌≡◌, ℕ, ◌<◌, ◌≤◌, ◌||◌, false, nat_eq, suc, IfOk, IsTrue, length, map, slice_set};
ghost use Rattle.std.specs.List.{list_any};
ghost use Rattle.sequence_build_laws.specs.FlatOrder.{is_acyclic};
ghost use Rattle.self_timed.specs.Latency.{reads_of};
ghost use Rattle.self_timed.specs.Turns.{at, renewed, AreRight, AreSettled, IsTable};

use sequence_build_laws::{Guard, Source, Vertex};
use std::alloc::Global;
use syn_base::OutOfMemory;

/// By operation whether it depends on this one.
pub(crate) fn dependents(
    alloc: Global,
    vertices: &[Vertex],
    on: u32,
) -> Result<Vec<bool>, OutOfMemory>
    requires { IsTrue (is_acyclic vertices.now) }
    ensures { IfOk result (λ table. IsTable vertices.now on table.items) }
{
    let mut table = none(alloc, vertices.len())?;
    settle(table.as_mut_slice(), vertices, on);
    Ok(table)
}

/// This many times that nothing depends.
fn none(alloc: Global, len: usize) -> Result<Vec<bool>, OutOfMemory>
    ensures { IfOk result (λ table. length table.items ≡ len) }
{
    Ok(vec![in alloc; false; len]?)
}

/// Renews the table in place, in turns over all operations, until a turn leaves it as it is. Two
/// turns do where each operation stands after those that it reads.
fn settle(table: &mut [bool], vertices: &[Vertex], on: u32)
    requires acyclic { IsTrue (is_acyclic vertices.now) }
    requires size { length table.old ≡ length vertices.now }
    ensures { IsTable vertices.now on table.new }
{
    for _turn in 0..vertices.len() {
        if !has_changed(table, vertices, on) {
            return;
        }
    }
}

/// Renews the entries of all operations in their order, and tells whether one has changed.
fn has_changed(table: &mut [bool], vertices: &[Vertex], on: u32) -> bool
    requires acyclic { IsTrue (is_acyclic vertices.now) }
    requires size { length table.old ≡ length vertices.now }
    ensures size { length table.new ≡ length vertices.now }
    ensures right { (rounds : ℕ) → AreRight vertices.now on rounds table.old →
        AreRight vertices.now on (suc rounds) table.new }
    ensures settled { result ≡ false → AreSettled vertices.now on table.new }
{
    let mut changed = false;
    for op in 0..vertices.len() {
        let renewed = renew(table, vertices, on, op);
        changed = changed || renewed;
    }
    changed
}

/// Renews the entry of an operation, and tells whether it has changed.
fn renew(table: &mut [bool], vertices: &[Vertex], on: u32, op: usize) -> bool
    requires here { op < length vertices.now }
    requires size { length table.old ≡ length vertices.now }
    ensures renewed { table.new ≡ slice_set table.old op (renewed vertices.now on table.old op) }
    ensures same { result ≡ false → at table.new op ≡ at table.old op }
{
    let depends = reads_any(table, &vertices[op], on);
    let has_changed = table[op] != depends;
    table[op] = depends;
    has_changed
}

/// Whether the operation reads what this one gives, or what one gives that depends on it.
fn reads_any(table: &[bool], vertex: &Vertex, on: u32) -> bool
    ensures { result ≡ list_any (λ u. nat_eq u on || at table.now u) (reads_of vertex.now) }
{
    guards_read(table, vertex.guards.as_slice(), on)
        || inputs_read(table, vertex.ins.as_slice(), on)
}

/// The same of these guards.
fn guards_read(table: &[bool], guards: &[Guard], on: u32) -> bool
    ensures { result ≡ list_any (λ u. nat_eq u on || at table.now u)
        (map (λ g. g.source.vertex) guards.now) }
{
    for guard in guards {
        if is_after(table, guard.source, on) {
            return true;
        }
    }
    false
}

/// The same of these inputs.
fn inputs_read(table: &[bool], inputs: &[Source], on: u32) -> bool
    ensures { result ≡ list_any (λ u. nat_eq u on || at table.now u) (map (λ s. s.vertex) inputs.now) }
{
    for input in inputs {
        if is_after(table, *input, on) {
            return true;
        }
    }
    false
}

/// Whether the source is of this operation, or of one that depends on it.
fn is_after(table: &[bool], source: Source, on: u32) -> bool
    ensures { result ≡ (nat_eq source.vertex on || at table.now source.vertex) }
{
    source.vertex == on || entry(table, source.vertex as usize)
}

/// The entry of an operation, false where there is none of this number.
fn entry(table: &[bool], op: usize) -> bool
    ensures { result ≡ at table.now op }
{
    if op < table.len() { table[op] } else { false }
}
