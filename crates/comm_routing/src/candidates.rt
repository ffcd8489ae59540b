//! The candidates, and their arrivals as far as they are known. `progress` keeps them up to date.
ghost use Rattle.std.specs.Prelude.{◌≡◌, ℕ, ◌+◌, ◌<◌, ◌≤◌, [], All, Some, true, false, ◌&&◌, IfOk, if◌then◌else◌, length, nat_eq, slice_index_or, slice_set, take, replicate};
ghost use Rattle.std.specs.List.{list_all, list_any};
ghost use Rattle.syn_base.specs.Limits.{most_operations};
ghost use Rattle.schedule.specs.FlatOrder.{get_half};
ghost use Rattle.comm_routing.specs.Dependents.{AreDependents};
ghost use Rattle.comm_routing.specs.Candidates.{AreUnknown, HasOneMore, HasSize, IsBehind, IsListed, IsUpdated, flag_in, is_candidate_in, is_free_in, is_placed_in, kept_at, kept_in, places_from, row_at, sought_in};

use crate::ascending::{put_in, take_out};
use crate::board::Board;
use crate::dependents::all_dependents;
use schedule::{Guard, Kind, Source, Vertex};
use std::alloc::Global;
use syn_base::OutOfMemory;

/// Which operations are candidates: by operation a flag, and in the first `count` places of `list`
/// their numbers, ascending.
#[derive(Drop)]
pub(crate) struct Ready {
    pub flags: Vec<bool>,
    pub list: Vec<u32>,
    pub count: usize,
}

impl Ready {
    /// The candidates, ascending.
    pub fn as_slice(&self) -> &[u32]
        requires { self.now.count ≤ length self.now.list.items }
        ensures { result.now ≡ take self.now.count self.now.list.items }
    {
        &self.list.as_slice()[..self.count]
    }

    /// Marks each operation.
    fn mark_all(&mut self, vertices: &[Vertex], board: &Board)
        requires few { length vertices.now ≤ most_operations }
        requires flags { length self.old.flags.items ≡ length vertices.now }
        requires list { length self.old.list.items ≡ length vertices.now }
        ensures listed { IsListed (length vertices.now) self.new }
        ensures marked { (v : ℕ) → v < length vertices.now →
            flag_in self.new v ≡ is_candidate_in vertices.now board.now v }
    {
        mark(vertices, board, self.flags.as_mut_slice());
        self.count = collect(self.flags.as_slice(), self.list.as_mut_slice());
    }

    /// Marks one operation anew.
    fn mark_one(&mut self, vertices: &[Vertex], board: &Board, op: u32)
        requires operation { op < length vertices.now }
        requires listed { IsListed (length vertices.now) self.old }
        ensures listed { IsListed (length vertices.now) self.new }
        ensures marked { self.new.flags.items ≡ slice_set self.old.flags.items op
            (is_candidate_in vertices.now board.now op) }
    {
        let place = op as usize;
        let is_ready = is_candidate(vertices, board, place);
        if is_ready == self.flags[place] {
            return;
        }
        self.flags[place] = is_ready;
        self.count = if is_ready {
            put_in(self.list.as_mut_slice(), self.count, op)
        } else {
            take_out(self.list.as_mut_slice(), self.count, op)
        };
    }

    /// Marks these operations anew.
    fn mark_each(&mut self, vertices: &[Vertex], board: &Board, ops: &[u32])
        requires operations { All (λ v. v < length vertices.now) ops.now }
        requires listed { IsListed (length vertices.now) self.old }
        ensures listed { IsListed (length vertices.now) self.new }
        ensures marked { (v : ℕ) → list_any (nat_eq v) ops.now ≡ true →
            flag_in self.new v ≡ is_candidate_in vertices.now board.now v }
        ensures others { (v : ℕ) → list_any (nat_eq v) ops.now ≡ false → flag_in self.new v ≡ flag_in self.old v }
    {
        for op in ops {
            self.mark_one(vertices, board, *op);
        }
    }
}

/// By operator an arrival, where it is known.
type Arrivals = [Option<u64>; 16];

/// The candidates, by operation the arrivals that are known where it is a candidate, and by
/// operation those that depend on it.
#[derive(Drop)]
pub(crate) struct Candidates {
    pub ready: Ready,
    pub arrivals: Vec<Arrivals>,
    pub dependents: Vec<Vec<u32>>,
}

impl Candidates {
    /// No operation is a candidate so far.
    pub fn new(alloc: Global, vertices: &[Vertex]) -> Result<Candidates, OutOfMemory>
        requires { length vertices.now ≤ most_operations }
        ensures size { IfOk result (HasSize (length vertices.now)) }
        ensures dependents { IfOk result (λ c. AreDependents vertices.now c.dependents.items) }
    {
        let operations = vertices.len();
        let ready = Ready {
            flags: no_flags(alloc, operations)?,
            list: vec![in alloc; 0; operations]?,
            count: 0,
        };
        Ok(Candidates {
            ready,
            arrivals: vec![in alloc; unknown(); operations]?,
            dependents: all_dependents(alloc, vertices)?,
        })
    }

    /// Finds the candidates among all operations. It takes no memory.
    pub fn fill(&mut self, vertices: &[Vertex], board: &Board)
        requires few { length vertices.now ≤ most_operations }
        requires size { HasSize (length vertices.now) self.old }
        ensures { IsUpdated vertices.now board.now false self.old self.new }
    {
        self.ready.mark_all(vertices, board);
        forget(&self.ready, &[], false, self.arrivals.as_mut_slice());
    }

    /// Brings the candidates up to date after this operation was placed: only those that depend on it
    /// can be new. Forgets the arrivals of the new ones, or of all where they are not kept. It takes
    /// no memory.
    pub fn update(&mut self, vertices: &[Vertex], board: &Board, placed: u32, keeps: bool)
        requires size { HasSize (length vertices.now) self.old }
        requires behind { IsBehind vertices.now board.now placed self.old }
        ensures { IsUpdated vertices.now board.now keeps self.old self.new }
    {
        let dependents = self.dependents[placed as usize].as_slice();
        self.ready.mark_one(vertices, board, placed);
        self.ready.mark_each(vertices, board, dependents);
        forget(&self.ready, dependents, keeps, self.arrivals.as_mut_slice());
    }

    /// The arrival of an operation on an operator, where it is known.
    pub fn arrival(&self, op: u32, operator: u32) -> Option<u64>
        requires operation { op < length self.now.arrivals.items }
        requires operator { operator < 16 }
        ensures { result ≡ kept_at self.now op operator }
    {
        kept(self.arrivals.as_slice(), op as usize, operator as usize)
    }

    /// Keeps the arrival of an operation on an operator. It takes no memory.
    pub fn keep(&mut self, op: u32, operator: u32, date: u64)
        requires operation { op < length self.old.arrivals.items }
        requires operator { operator < 16 }
        ensures ready { self.new.ready ≡ self.old.ready }
        ensures dependents { self.new.dependents ≡ self.old.dependents }
        ensures size { length self.new.arrivals.items ≡ length self.old.arrivals.items }
        ensures kept { HasOneMore self.old.arrivals.items self.new.arrivals.items op operator date }
    {
        put(
            self.arrivals.as_mut_slice(),
            op as usize,
            operator as usize,
            date,
        );
    }
}

/// No arrival is known.
fn unknown() -> Arrivals
    ensures { AreUnknown result }
{
    [None; 16]
}

/// The arrival that is kept at this place.
fn kept(rows: &[Arrivals], op: usize, operator: usize) -> Option<u64>
    requires operation { op < length rows.now }
    requires operator { operator < 16 }
    ensures { result ≡ kept_in rows.now op operator }
{
    let row = &rows[op];
    row[operator]
}

/// Keeps an arrival at this place.
fn put(rows: &mut [Arrivals], op: usize, operator: usize, date: u64)
    requires operation { op < length rows.old }
    requires operator { operator < 16 }
    ensures size { length rows.new ≡ length rows.old }
    ensures kept { HasOneMore rows.old rows.new op operator date }
{
    let row = with_arrival(rows[op], operator, date);
    rows[op] = row;
}

/// The row with an arrival at this place.
fn with_arrival(row: Arrivals, operator: usize, date: u64) -> Arrivals
    requires { operator < 16 }
    ensures { result ≡ slice_set row operator (Some date) }
{
    let mut row = row;
    row[operator] = Some(date);
    row
}

/// This many flags, none of which is set.
fn no_flags(alloc: Global, len: usize) -> Result<Vec<bool>, OutOfMemory>
    ensures { IfOk result (λ flags. flags.items ≡ replicate len false) }
{
    Ok(vec![in alloc; false; len]?)
}

/// Marks the candidates.
fn mark(vertices: &[Vertex], board: &Board, flags: &mut [bool])
    requires { length flags.old ≡ length vertices.now }
    ensures size { length flags.new ≡ length vertices.now }
    ensures marked { (v : ℕ) → v < length vertices.now →
        slice_index_or flags.new v false ≡ is_candidate_in vertices.now board.now v }
{
    for op in 0..vertices.len() {
        flags[op] = is_candidate(vertices, board, op);
    }
}

/// Whether the operation is a candidate: it is not placed, and all that it depends on is.
fn is_candidate(vertices: &[Vertex], board: &Board, op: usize) -> bool
    requires { op < length vertices.now }
    ensures { result ≡ is_candidate_in vertices.now board.now op }
{
    let vertex = &vertices[op];
    is_free(board, op, vertex)
}

/// The same of an operation that is at hand, so that its parts are looked up once.
#[tactic(auto, using(crate::proofs::Readiness::ready_by_parts))]
fn is_free(board: &Board, op: usize, vertex: &Vertex) -> bool
    ensures { result ≡ is_free_in board.now op vertex.now }
{
    !board.is_placed(op)
        && are_guards_placed(board, vertex.guards.as_slice())
        && are_sources_placed(board, vertex.ins.as_slice())
        && is_get_half_placed(board, &vertex.kind, vertex.twin)
}

/// Whether the operations that these guards read are placed.
fn are_guards_placed(board: &Board, guards: &[Guard]) -> bool
    ensures { result ≡ list_all (λ g. is_placed_in board.now g.source.vertex) guards.now }
{
    guards
        .iter()
        .all(|guard| board.is_placed(guard.source.vertex as usize))
}

/// Whether the operations of these sources are placed.
fn are_sources_placed(board: &Board, sources: &[Source]) -> bool
    ensures { result ≡ list_all (λ s. is_placed_in board.now s.vertex) sources.now }
{
    sources
        .iter()
        .all(|source| board.is_placed(source.vertex as usize))
}

/// Whether the get half is placed, where the operation is a set half.
fn is_get_half_placed(board: &Board, kind: &Kind, twin: Option<u32>) -> bool
    ensures { result ≡ list_all (is_placed_in board.now) (get_half kind.now twin) }
{
    match kind {
        Kind::Set => match twin {
            Some(twin) => board.is_placed(twin as usize),
            None => true,
        },
        _ => true,
    }
}

/// Forgets the arrivals of all candidates, or where they are kept of these dependents alone.
fn forget(ready: &Ready, dependents: &[u32], keeps: bool, rows: &mut [Arrivals])
    requires listed { IsListed (length rows.old) ready.now }
    requires operations { All (λ v. v < length rows.old) dependents.now }
    ensures size { length rows.new ≡ length rows.old }
    ensures forgotten { (v : ℕ) → list_any (nat_eq v) (sought_in keeps dependents.now ready.now) ≡ true →
        AreUnknown (row_at rows.new v) }
    ensures kept { (v : ℕ) → list_any (nat_eq v) (sought_in keeps dependents.now ready.now) ≡
        false → row_at rows.new v ≡ row_at rows.old v }
{
    let sought = sought(keeps, dependents, ready.as_slice());
    forget_each(sought, rows);
}

/// Those whose arrivals are forgotten: where arrivals are kept, no other than these dependents.
fn sought<'a>(keeps: bool, dependents: &'a [u32], ready: &'a [u32]) -> &'a [u32]
    ensures { result.now ≡ (if keeps then dependents.now else ready.now) }
{
    if keeps { dependents } else { ready }
}

/// Forgets the arrivals of these operations.
fn forget_each(ops: &[u32], rows: &mut [Arrivals])
    requires operations { All (λ v. v < length rows.old) ops.now }
    ensures size { length rows.new ≡ length rows.old }
    ensures forgotten { (v : ℕ) → list_any (nat_eq v) ops.now ≡ true → AreUnknown (row_at rows.new v) }
    ensures kept { (v : ℕ) → list_any (nat_eq v) ops.now ≡ false → row_at rows.new v ≡ row_at rows.old v }
{
    for op in ops {
        rows[*op as usize] = unknown();
    }
}

/// Puts the numbers of those that are set into the first places, and returns how many they are.
fn collect(flags: &[bool], ready: &mut [u32]) -> usize
    requires few { length flags.now ≤ most_operations }
    requires size { length ready.old ≡ length flags.now }
    ensures size { length ready.new ≡ length flags.now }
    ensures count { result ≤ length flags.now }
    ensures ready { take result ready.new ≡ places_from 0 flags.now }
{
    let mut count = 0;
    for (op, flag) in flags.iter().enumerate() {
        if *flag {
            ready[count] = op as u32;
            count += 1;
        }
    }
    count
}
