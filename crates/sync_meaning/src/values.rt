//! The values of sources, from the table of what the operations give, and the guards that they decide.
ghost use Rattle.std.specs.Prelude.{◌≡◌, ◌<◌, ◌==◌, length, map, slice_set};
ghost use Rattle.algo_tree.specs.Level.{element_at, selected};
ghost use Rattle.flat_graph.specs.Fire.{guards_hold};
ghost use Rattle.sync_meaning.specs.Store.{value_at};
ghost use Rattle.syn_base.specs.Vectors.{vector_at};

use flat_graph::{Guard, Ins, Source};

/// The output of this number, empty where there is none.
fn output(outs: &Ins, port: usize) -> &[i64]
    ensures { result.now ≡ vector_at outs.now port }
{
    if port < outs.count() {
        outs.vector(port)
    } else {
        &[]
    }
}

/// The value of a source, empty where there is none.
pub fn value_of(table: &[Ins], source: Source) -> &[i64]
    ensures { result.now ≡ value_at table.now source }
{
    let v = source.vertex as usize;
    if v < table.len() {
        output(&table[v], source.port as usize)
    } else {
        &[]
    }
}

/// Puts a vector in the place of one of the same length. Most vectors have one element, which is written
/// without a call that copies.
#[inline(always)]
pub fn put(into: &mut Ins, port: usize, vector: &[i64])
    requires port { port < length into.old }
    requires len { length vector.now ≡ length (vector_at into.old port) }
    ensures { into.new ≡ slice_set into.old port vector.now }
{
    match vector {
        [x] => into.set(port, 0, *x),
        _ => into.set_vector(port, vector),
    }
}

/// The first element, or 0 where there is none.
fn first_element(vector: &[i64]) -> i64
    ensures { result ≡ element_at vector.now 0 }
{
    vector.first().copied().unwrap_or(0)
}

/// The first case with the value of the vector's first element, or the number of cases.
fn selected(values: &[i64], vector: &[i64]) -> usize
    ensures { result ≡ selected values.now vector.now }
{
    let element = first_element(vector);
    for (case, value) in values.iter().enumerate() {
        if *value == element {
            return case;
        }
    }
    values.len()
}

/// Whether a guard holds.
fn is_holding(guard: &Guard, table: &[Ins]) -> bool
    ensures { result ≡ (selected guard.now.values (value_at table.now guard.now.source) == guard.now.case) }
{
    selected(guard.values.as_slice(), value_of(table, guard.source)) == guard.case as usize
}

/// Whether all guards hold.
pub fn are_holding(guards: &[Guard], table: &[Ins]) -> bool
    ensures { result ≡ guards_hold guards.now (map (λ g. value_at table.now g.source) guards.now) }
{
    for guard in guards {
        if !is_holding(guard, table) {
            return false;
        }
    }
    true
}
