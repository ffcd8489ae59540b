//! One reaction of a flat graph: all operations are fired in order, and then the delays keep.
ghost use Rattle.std.specs.Prelude.{◌≡◌, ℕ, ◌+◌, ◌<◌, ◌++◌, ◌∷◌, [], IsTrue, length, map, take, drop};
ghost use Rattle.syn_base.specs.Rows.{AreCut};
ghost use Rattle.flat_graph.specs.Fire.{kept, read_lens, cell_len, seen_len};
ghost use Rattle.flat_graph.specs.Laws.{sensor_lens};
ghost use Rattle.flat_graph.specs.Valid.{is_flat};
ghost use Rattle.flat_graph.specs.Meaning.{sensed, conditions, inputs, next_cell};
ghost use Rattle.sync_meaning.specs.Order.{IsOrder};
ghost use Rattle.sync_meaning.specs.Store.{lengths, value_at, HasRead, CellsFit, HasSetHalf};
ghost use Rattle.sync_meaning.specs.Reaction.{row_of, FitsStore, Gives, KeepsCell, HasRun, HasFired, HasKept, KeepsAt};
ghost use Rattle.syn_base.specs.Vectors.{vector_at};

use crate::layout::Store;
use crate::values::{are_holding, put, value_of};
use flat_graph::{Flat, Guard, Ins, Kind, Source, Vertex, fire};
use syn_base::SensorRows;

/// Reads the values of an operation's inputs.
fn read_inputs(sources: &[Source], table: &[Ins], read: &mut Ins)
    requires { lengths (map (value_at table.now) sources.now) ≡ take (length sources.now) (lengths read.old) }
    ensures { read.new ≡ map (value_at table.now) sources.now ++ drop (length sources.now) read.old }
{
    for (port, source) in sources.iter().enumerate() {
        put(read, port, value_of(table, *source));
    }
}

/// Reads the values of the sources of an operation's guards, which stand after those of its inputs.
fn read_conditions(guards: &[Guard], first: usize, table: &[Ins], read: &mut Ins)
    requires count { first + length guards.now ≡ length read.old }
    requires lens { lengths (map (λ g. value_at table.now g.source) guards.now) ≡ drop first (lengths read.old) }
    ensures { read.new ≡ take first read.old ++ map (λ g. value_at table.now g.source) guards.now }
{
    for port in first..read.count() {
        put(read, port, value_of(table, guards[port - first].source));
    }
}

/// Reads what an operation reads: where a guard does not hold, the values that decide the guards alone.
fn read_values(vertex: &Vertex, table: &[Ins], read: &mut Ins)
    requires { lengths read.old ≡
        lengths (inputs (value_at table.now) vertex.now) ++ lengths (conditions (value_at table.now) vertex.now) }
    ensures values { HasRead (value_at table.now) vertex.now read.new }
    ensures lens { lengths read.new ≡ lengths read.old }
{
    let sources = vertex.ins.as_slice();
    let guards = vertex.guards.as_slice();
    read_conditions(guards, sources.len(), table, read);
    if are_holding(guards, table) {
        read_inputs(sources, table, read);
    }
}

/// What an operation senses in reaction k.
fn seen_by<'a>(rows: &'a SensorRows, k: usize, kind: &Kind) -> &'a [i64]
    requires cut { AreCut rows.now }
    requires reaction { k < length rows.now.reactions }
    ensures { result.now ≡ sensed kind.now (row_of rows.now k) }
{
    match kind {
        Kind::Sensor(number) => sensor_vector(rows, k, *number as usize),
        _ => &[],
    }
}

/// The vector of a sensor in reaction k, empty where there is none.
fn sensor_vector(rows: &SensorRows, k: usize, number: usize) -> &[i64]
    requires cut { AreCut rows.now }
    requires reaction { k < length rows.now.reactions }
    ensures { result.now ≡ vector_at (row_of rows.now k) number }
{
    if number < rows.lens().len() {
        rows.vector(k, number)
    } else {
        &[]
    }
}

/// Reads what operation v reads, and computes what it gives. It takes no memory.
fn compute(
    flat: &Flat,
    v: u32,
    seen: &[i64],
    read: &mut Ins,
    cell: &mut [i64],
    table: &mut Vec<Ins>,
)
    requires there { v < length flat.now.vertices }
    requires outs { map lengths table.old.items ≡ map (λ x. x.outs) flat.now.vertices }
    requires read { lengths read.old ≡ read_lens flat.now v }
    requires cell { length cell.old ≡ cell_len flat.now v }
    requires seen { length seen.now ≡ seen_len flat.now v }
    ensures gives { Gives flat.now v cell.old seen.now table.old.items table.new.items }
    ensures read { lengths read.new ≡ lengths read.old }
    ensures cell { KeepsCell flat.now v cell.old cell.new }
{
    let at = v as usize;
    read_values(&flat.vertices()[at], table, read);
    fire(flat, v, read, cell, seen, &mut table[at]);
}

/// Operation v gives what it makes of what its sources give. A set half gives nothing, and keeps later.
fn run_operation(flat: &Flat, rows: &SensorRows, k: usize, v: u32, store: &mut Store)
    requires fits { FitsStore flat.now store.old }
    requires there { v < length flat.now.vertices }
    requires cut { AreCut rows.now }
    requires lens { rows.now.lens ≡ sensor_lens flat.now.vertices }
    requires reaction { k < length rows.now.reactions }
    ensures { HasRun flat.now (row_of rows.now k) v store.old store.new }
{
    let at = v as usize;
    let kind = &flat.vertices()[at].kind;
    if let Kind::Set = kind {
        return;
    }
    let seen = seen_by(rows, k, kind);
    let Store {
        reads,
        table,
        cells,
    } = store;
    compute(flat, v, seen, &mut reads[at], &mut cells[at], table);
}

/// Each operation gives what it gives in reaction k. It takes no memory.
pub fn fire_all(flat: &Flat, order: &[u32], rows: &SensorRows, k: usize, store: &mut Store)
    requires valid { IsTrue (is_flat flat.now) }
    requires fits { FitsStore flat.now store.old }
    requires order { IsOrder flat.now.vertices order.now }
    requires cut { AreCut rows.now }
    requires lens { rows.now.lens ≡ sensor_lens flat.now.vertices }
    requires reaction { k < length rows.now.reactions }
    ensures { HasFired flat.now (row_of rows.now k) store.old store.new }
{
    for v in order {
        run_operation(flat, rows, k, *v, store);
    }
}

/// A delay keeps what its set half reads, where the set half is active.
fn keep(set_half: &Vertex, table: &[Ins], cell: &mut [i64])
    requires kind { set_half.now.kind ≡ Kind.Set }
    requires ins { lengths (inputs (value_at table.now) set_half.now) ≡ length cell.old ∷ [] }
    ensures { cell.new ≡ kept set_half.now cell.old
        (conditions (value_at table.now) set_half.now) (inputs (value_at table.now) set_half.now) }
{
    if are_holding(set_half.guards.as_slice(), table) {
        cell.copy_from_slice(value_of(table, set_half.ins.as_slice()[0]));
    }
}

/// The cell of a delay after a reaction, by the set half that is its get half's twin.
fn keep_by(vertices: &[Vertex], twin: Option<u32>, table: &[Ins], cell: &mut [i64])
    requires { (t : ℕ) → twin ≡ Some t → HasSetHalf vertices.now table.now (length cell.old) t }
    ensures { cell.new ≡ next_cell vertices.now (value_at table.now) twin cell.old }
{
    if let Some(twin) = twin {
        keep(&vertices[twin as usize], table, cell);
    }
}

/// What operation v keeps after a reaction: the cell of a delay, where it is the get half.
fn keep_at(flat: &Flat, v: usize, table: &[Ins], cells: &mut Vec<Vec<i64>>)
    requires there { v < length flat.now.vertices }
    requires outs { map lengths table.now ≡ map (λ x. x.outs) flat.now.vertices }
    requires cells { CellsFit flat.now (map (λ c. c.items) cells.old.items) }
    ensures kept { KeepsAt flat.now.vertices (value_at table.now) v
        (map (λ c. c.items) cells.old.items) (map (λ c. c.items) cells.new.items) }
    ensures fits { CellsFit flat.now (map (λ c. c.items) cells.new.items) }
{
    let vertices = flat.vertices();
    let vertex = &vertices[v];
    if let Kind::Get(_) = &vertex.kind {
        keep_by(vertices, vertex.twin, table, &mut cells[v]);
    }
}

/// Each delay keeps what its set half reads in this reaction. It takes no memory.
pub fn keep_all(flat: &Flat, store: &mut Store)
    requires { FitsStore flat.now store.old }
    ensures { HasKept flat.now store.old store.new }
{
    for v in 0..flat.vertices().len() {
        keep_at(flat, v, &store.table, &mut store.cells);
    }
}
