//! The step of one operation in one reaction. `semaphore_core` calls it by `fire`.
ghost use Rattle.std.specs.Prelude.{◌≡◌, ◌+◌, ◌<◌, ◌≤◌, ◌==◌, All, IsTrue, true, length, map, take, drop};
ghost use Rattle.level_meaning.specs.Level.{element_at, selected};
ghost use Rattle.flat_graph.specs.Valid.{fits};
ghost use Rattle.flat_graph.specs.Fire.{cell_len, fired, fired_at, guards_hold, kept, kept_at, kind_cell_len, kind_outputs, kind_seen_len, out_lens, read_lens, seen_len, stored};
ghost use Rattle.syn_base.specs.Vectors.{vector_at};

use crate::flat::Flat;
use crate::put::{put_joined, put_only, put_parts, put_values, put_zeros};
use crate::vertex::{Guard, Kind, Vertex};
use body_lang::{Body, Ins};

/// One operation in one reaction: its outputs, which are zeros where a guard does not hold, and the
/// new cell of a set half that is active. `ins` has the inputs' vectors in port order and then one
/// vector of length 1 for each guard, in order. `cell` has the delay's length for a get or set half
/// and is empty else; `row` is the sensor's vector of this reaction for a sensor and is empty else;
/// `outs` has the lengths of the outputs. It takes no memory.
pub fn fire(flat: &Flat, v: u32, ins: &Ins, cell: &mut [i64], row: &[i64], outs: &mut Ins)
    requires vertex { v < length flat.now.vertices }
    requires ins { map length ins.now ≡ read_lens flat.now v }
    requires cell { length cell.old ≡ cell_len flat.now v }
    requires row { length row.now ≡ seen_len flat.now v }
    requires outs { map length outs.old ≡ out_lens flat.now v }
    ensures outs { outs.new ≡ fired_at flat.now v cell.old row.now ins.now }
    ensures cell { cell.new ≡ kept_at flat.now v cell.old ins.now }
{
    let vertex = &flat.vertices()[v as usize];
    fire_vertex(vertex, flat.bodies(), ins, cell, row, outs);
}

/// Fires this operation: an active one by its kind, and any other with zeros as its outputs.
fn fire_vertex(
    vertex: &Vertex,
    bodies: &[Body],
    ins: &Ins,
    cell: &mut [i64],
    row: &[i64],
    outs: &mut Ins,
)
    requires fits { IsTrue (fits bodies.now vertex.now.kind
        (take (length vertex.now.ins) (map length ins.now)) vertex.now.outs) }
    requires short { All (λ n. n ≤ 64) vertex.now.outs }
    requires ins { length vertex.now.ins + length vertex.now.guards ≡ length ins.now }
    requires cell { length cell.old ≡ kind_cell_len vertex.now.kind
        (take (length vertex.now.ins) (map length ins.now)) }
    requires row { length row.now ≡ kind_seen_len vertex.now.kind vertex.now.outs }
    requires outs { map length outs.old ≡ vertex.now.outs }
    ensures outs { outs.new ≡ fired bodies.now vertex.now cell.old row.now
        (drop (length vertex.now.ins) ins.now) (take (length vertex.now.ins) ins.now) }
    ensures cell { cell.new ≡ kept vertex.now cell.old (drop (length vertex.now.ins) ins.now)
        (take (length vertex.now.ins) ins.now) }
{
    let count = vertex.ins.as_slice().len();
    if are_holding(vertex.guards.as_slice(), count, ins) {
        fire_active(vertex, bodies, ins, cell, row, outs);
    } else {
        put_zeros(vertex.outs.as_slice(), outs);
    }
}

/// Fires this operation as an active one.
fn fire_active(
    vertex: &Vertex,
    bodies: &[Body],
    ins: &Ins,
    cell: &mut [i64],
    row: &[i64],
    outs: &mut Ins,
)
    requires fits { IsTrue (fits bodies.now vertex.now.kind
        (take (length vertex.now.ins) (map length ins.now)) vertex.now.outs) }
    requires short { All (λ n. n ≤ 64) vertex.now.outs }
    requires count { length vertex.now.ins ≤ length ins.now }
    requires cell { length cell.old ≡ kind_cell_len vertex.now.kind
        (take (length vertex.now.ins) (map length ins.now)) }
    requires row { length row.now ≡ kind_seen_len vertex.now.kind vertex.now.outs }
    requires outs { map length outs.old ≡ vertex.now.outs }
    ensures outs { outs.new ≡ kind_outputs bodies.now vertex.now.kind vertex.now.outs cell.old row.now
        (take (length vertex.now.ins) ins.now) }
    ensures cell { cell.new ≡ stored vertex.now.kind true cell.old
        (vector_at (take (length vertex.now.ins) ins.now) 0) }
{
    let count = input_count(vertex);
    let lens = vertex.outs.as_slice();
    match &vertex.kind {
        Kind::Sensor(_) => put_only(row, outs),
        Kind::Actuator(_) => {}
        Kind::Function(body) => put_values(lens, bodies[*body as usize].outputs(), ins, outs),
        Kind::Constant(values) => put_only(values.as_slice(), outs),
        Kind::Get(_) => put_only(cell, outs),
        Kind::Set => cell.copy_from_slice(ins.vector(0)),
        Kind::Explode => put_parts(lens, ins.vector(0), outs),
        Kind::Implode => put_joined(count, ins, outs),
        Kind::Merge(values) => {
            let case = selected(values.as_slice(), ins.vector(0));
            put_only(ins.vector(1 + case), outs);
        }
    }
}

/// How many inputs an operation has, without those of its guards.
fn input_count(vertex: &Vertex) -> usize
    ensures { result ≡ length vertex.now.ins }
{
    vertex.ins.as_slice().len()
}

/// Whether all guards hold, the values of whose sources are the vectors from a place on.
fn are_holding(guards: &[Guard], first: usize, ins: &Ins) -> bool
    requires { first + length guards.now ≡ length ins.now }
    ensures { result ≡ guards_hold guards.now (drop first ins.now) }
{
    for port in first..ins.count() {
        if !is_holding(&guards[port - first], ins.vector(port)) {
            return false;
        }
    }
    true
}

/// Whether a guard holds, where its source has this value.
fn is_holding(guard: &Guard, condition: &[i64]) -> bool
    ensures { result ≡ (selected guard.now.values condition.now == guard.now.case) }
{
    selected(guard.values.as_slice(), condition) == guard.case as usize
}

/// The first case with the value of the vector's first element, or the number of cases.
fn selected(values: &[i64], vector: &[i64]) -> usize
    ensures { result ≡ selected values.now vector.now }
{
    let element = first_element(vector);
    for (case, value) in values.iter().enumerate() {
        if *value == element {
            return case;
        }
    }
    values.len()
}

/// The first element, or 0 where there is none.
fn first_element(vector: &[i64]) -> i64
    ensures { result ≡ element_at vector.now 0 }
{
    match vector {
        [] => 0,
        [first, ..] => *first,
    }
}
