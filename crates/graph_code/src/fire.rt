//! One operation in one reaction, over the store.
ghost use Rattle.std.specs.Prelude.{◌≡◌, ◌+◌, ◌<◌, ◌≤◌, ◌==◌, All, length};
ghost use Rattle.flat_graph.specs.Level.{element_at, selected, merged};
ghost use Rattle.flat_graph.specs.Fire.{guards_hold, seen_len};
ghost use Rattle.expression_code.specs.Code.{words};
ghost use Rattle.expression_code.specs.Compiled.{AreBelow};
ghost use Rattle.graph_code.specs.Places.{width_of};
ghost use Rattle.graph_code.specs.Compiled.{IsCodeOf};
ghost use Rattle.graph_code.specs.Fired.{CanRun, CellFits, HasFired, HasPut, HavePut, IsPut, IsReady, input_at, input_count, is_active, joined_outputs, rows_of};

use crate::graph::GraphCode;
use crate::operation::{Operation, Output};
use crate::puts::{put_joined, put_row, put_words, put_zeros};
use expression_code::Span;
use flat_graph::{Flat, Guard, Kind, Vertex};

impl GraphCode {
    /// Fires one operation in one reaction: its outputs stand in the store then, zeros if a guard does
    /// not hold. `cell` has the delay's vector for a get half, and anything else for any other
    /// operation; `seen` has the sensor's vector of this reaction for a sensor, and is empty else. It
    /// takes no memory.
    pub fn fire(&self, flat: &Flat, v: u32, cell: &[i64], seen: &[i64], store: &mut [i64])
        requires code { IsCodeOf flat.now self.now }
        requires there { v < length flat.now.vertices }
        requires cell { CellFits flat.now v cell.now }
        requires seen { length seen.now ≡ seen_len flat.now v }
        requires store { length store.old ≡ self.now.room }
        ensures { HasFired flat.now v cell.now seen.now store.old store.new }
    {
        let at = v as usize;
        let vertex = &flat.vertices()[at];
        let operation = &self.operations[at];
        if are_holding(vertex.guards.as_slice(), &operation.conditions, store) {
            fire_active(flat, vertex, operation, cell, seen, store);
        } else {
            put_zeros(operation.to, store);
        }
    }

    /// The value at input `k` of an operation. It takes no memory.
    pub fn input<'a>(&self, flat: &Flat, v: u32, k: usize, store: &'a [i64]) -> &'a [i64]
        requires code { IsCodeOf flat.now self.now }
        requires there { v < length flat.now.vertices }
        requires input { k < input_count flat.now v }
        requires store { length store.now ≡ self.now.room }
        ensures { result.now ≡ input_at flat.now v k store.now }
    {
        let _graph = flat;
        row_at(self.operations[v as usize].inputs[k], store)
    }

    /// Whether the guards of an operation hold. It takes no memory.
    pub fn is_active(&self, flat: &Flat, v: u32, store: &[i64]) -> bool
        requires code { IsCodeOf flat.now self.now }
        requires there { v < length flat.now.vertices }
        requires store { length store.now ≡ self.now.room }
        ensures { result ≡ is_active flat.now v store.now }
    {
        let at = v as usize;
        let vertex = &flat.vertices()[at];
        let operation = &self.operations[at];
        are_holding(vertex.guards.as_slice(), &operation.conditions, store)
    }
}

/// Fires an operation as an active one. Only the clauses speak of the graph.
fn fire_active(
    flat: &Flat,
    vertex: &Vertex,
    operation: &Operation,
    cell: &[i64],
    seen: &[i64],
    store: &mut [i64],
)
    requires { IsReady flat.now vertex.now operation.now cell.now seen.now store.old }
    ensures { IsPut (width_of flat.now.vertices) operation.now.to.start
        (joined_outputs flat.now vertex.now operation.now cell.now seen.now store.old)
        store.old store.new }
{
    let _graph = flat;
    let start = operation.to.start;
    match &vertex.kind {
        Kind::Sensor(_) => put_row(start, seen, store),
        Kind::Actuator(_) => {}
        Kind::Function(_) => run_outputs(&operation.outputs, store),
        Kind::Constant(values) => put_row(start, values.as_slice(), store),
        Kind::Get(_) => put_row(start, cell, store),
        Kind::Set => {}
        Kind::Explode => put_joined(start, &operation.inputs, store),
        Kind::Implode => put_joined(start, &operation.inputs, store),
        Kind::Merge(values) => put_selected(start, values.as_slice(), &operation.inputs, store),
    }
}

/// Writes the input of the case that the first input selects.
fn put_selected(start: usize, values: &[i64], inputs: &[Span], store: &mut [i64])
    requires first { 0 < length inputs.now }
    requires cases { length inputs.now ≡ length values.now + 2 }
    requires below { AreBelow (length store.old) inputs.now }
    requires room { start + length (merged values.now (rows_of store.old inputs.now))
        ≤ length store.old }
    ensures { IsPut (length store.old) start (merged values.now (rows_of store.old inputs.now))
        store.old store.new }
{
    let case = selected(values, row_at(inputs[0], store));
    let from = inputs[1 + case];
    let to = Span {
        start,
        len: from.len,
    };
    put_words(from.start, to, store);
}

/// Puts the values of each of these outputs in their places.
fn run_outputs(outputs: &[Output], store: &mut [i64])
    requires { All (CanRun (length store.old)) outputs.now }
    ensures { HavePut outputs.now store.old store.new }
{
    for output in outputs {
        run_output(output, store);
    }
}

/// Puts the values of one output in their place.
fn run_output(output: &Output, store: &mut [i64])
    requires { CanRun (length store.old) output.now }
    ensures { HasPut output.now store.old store.new }
{
    output.code.run(&mut store[..output.code.end()]);
    put_words(output.at, output.to, store);
}

/// The words of a span.
fn row_at(span: Span, store: &[i64]) -> &[i64]
    requires { span.start + span.len ≤ length store.now }
    ensures { result.now ≡ words store.now span.start span.len }
{
    &store[span.start..span.start + span.len]
}

/// Whether all guards hold, of whose sources the values stand in these spans.
fn are_holding(guards: &[Guard], conditions: &[Span], store: &[i64]) -> bool
    requires count { length conditions.now ≡ length guards.now }
    requires within { AreBelow (length store.now) conditions.now }
    ensures { result ≡ guards_hold guards.now (rows_of store.now conditions.now) }
{
    for (place, guard) in guards.iter().enumerate() {
        if !is_holding(guard, row_at(conditions[place], store)) {
            return false;
        }
    }
    true
}

/// Whether a guard holds, if its source has this value.
fn is_holding(guard: &Guard, condition: &[i64]) -> bool
    ensures { result ≡ (selected guard.now.values condition.now == guard.now.case) }
{
    selected(guard.values.as_slice(), condition) == guard.case as usize
}

/// The first case with the value of the vector's first element, or the number of cases.
fn selected(values: &[i64], vector: &[i64]) -> usize
    ensures { result ≡ selected values.now vector.now }
{
    let element = first_element(vector);
    for (case, value) in values.iter().enumerate() {
        if *value == element {
            return case;
        }
    }
    values.len()
}

/// The first element, or 0 if there is none.
fn first_element(vector: &[i64]) -> i64
    ensures { result ≡ element_at vector.now 0 }
{
    match vector {
        [] => 0,
        [first, ..] => *first,
    }
}
