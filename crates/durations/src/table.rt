//! The table of durations, which whoever places operations reads.
ghost use Rattle.std.specs.Prelude.{◌≡◌, ◌<◌, ◌≤◌, Some, All, IfSome, length};
ghost use Rattle.durations.specs.Lines.{most_ticks};
ghost use Rattle.durations.specs.Table.{entry_in, half_in, least_of, of_columns, row_in, IsLeast, IsRow, IsTable, StandBeside};
ghost use Rattle.syn_base.specs.Numbers.{lesser};

use std::marker::Model;
use syn_base::Items;

/// For each operation of a flat graph the ticks that it lasts on each operator, where it may stand there.
/// Operations and operators are numbered from 0, as in the flat graph and the architecture. Every operation
/// has an entry on some operator, and no entry is above 1,000,000,000. The set half of a delay has one on each
/// operator on which its get half has one. Contracts see the rows of the operations, the get halves of those
/// that are set halves, and how many operators there are.
pub struct Durations {
    operators: u32,
    rows: Vec<Items<Option<u64>>>,
    halves: Vec<Option<u32>>,
}

/// By hand, so that a proof walks through what it drops here alone, and not on each way out of each
/// function that owns one.
impl Drop for Durations {
    fn drop(self) {
        let Durations {
            operators: _,
            rows: _,
            halves: _,
        } = self;
    }
}

impl Model for Durations {
    ghost use Rattle.durations.specs.Table.{Table, IsTable, of_columns};

    ghost Value = { Table };

    ghost view = { λ s. of_columns s.operators s.rows.items s.halves.items };

    ghost invariant = { λ s. IsTable (of_columns s.operators s.rows.items s.halves.items) };
}

impl Durations {
    /// The table of these rows and get halves. It takes no memory.
    pub(crate) fn new(
        operators: u32,
        rows: Vec<Items<Option<u64>>>,
        halves: Vec<Option<u32>>,
    ) -> Durations
        requires { IsTable (of_columns operators rows.items halves.items) }
        ensures { result ≡ of_columns operators rows.items halves.items }
    {
        Durations {
            operators,
            rows,
            halves,
        }
    }

    /// How many operations there are.
    pub fn operations(&self) -> usize
        ensures count { result ≡ length self.now.rows }
        ensures valid { All (IsRow self.now.operators) self.now.rows }
        ensures beside { StandBeside self.now }
    {
        self.rows.len()
    }

    /// How many operators there are.
    pub fn operators(&self) -> u32
        ensures count { result ≡ self.now.operators }
        ensures valid { All (IsRow self.now.operators) self.now.rows }
        ensures beside { StandBeside self.now }
    {
        self.operators
    }

    /// The get half of an operation that is a set half. It takes no memory.
    pub fn get_half(&self, op: u32) -> Option<u32>
        ensures { result ≡ half_in self.now op }
    {
        match self.halves.get(op as usize) {
            Some(half) => *half,
            None => None,
        }
    }

    /// The ticks that the operation lasts on the operator, at most 1,000,000,000. None exactly where the
    /// table has no entry: where the operation may not stand there, and where there is no such operation or
    /// operator. It takes no memory.
    pub fn ticks(&self, op: u32, operator: u32) -> Option<u64>
        ensures entry { result ≡ entry_in self.now op operator }
        ensures bounded { IfSome result (λ t. t ≤ most_ticks) }
    {
        match self.row(op).get(operator as usize) {
            Some(entry) => *entry,
            None => None,
        }
    }

    /// The least ticks that the operation lasts on some operator, at most 1,000,000,000. It takes no memory.
    pub fn least(&self, op: u32) -> u64
        requires { op < length self.now.rows }
        ensures entry { least_of (row_in self.now op) ≡ Some result }
        ensures least { IsLeast (row_in self.now op) result }
        ensures bounded { result ≤ most_ticks }
    {
        match least_of(self.row(op)) {
            Some(ticks) => ticks,
            None => 0,
        }
    }

    /// The entries of an operation, none where there is no such operation.
    fn row(&self, op: u32) -> &[Option<u64>]
        ensures same { result.now ≡ row_in self.now op }
        ensures valid { op < length self.now.rows → IsRow self.now.operators (row_in self.now op) }
        ensures bounded { All (λ e. IfSome e (λ t. t ≤ most_ticks)) (row_in self.now op) }
    {
        match self.rows.get(op as usize) {
            Some(row) => row.as_slice(),
            None => &[],
        }
    }
}

/// The least of these entries that is there.
fn least_of(entries: &[Option<u64>]) -> Option<u64>
    ensures { result ≡ least_of entries.now }
{
    let mut least = None;
    for entry in entries {
        least = lesser(least, *entry);
    }
    least
}

/// The lesser of two entries, where they are there.
fn lesser(one: Option<u64>, other: Option<u64>) -> Option<u64>
    ensures { result ≡ lesser one other }
{
    match (one, other) {
        (None, entry) => entry,
        (Some(ticks), None) => Some(ticks),
        (Some(ticks), Some(others)) => Some(ticks.min(others)),
    }
}
