//! The table of places, by the number that they name.
ghost use Rattle.std.specs.Prelude.{◌≡◌, ℕ, ◌<◌, map, nat_eq, replicate, IfOk, OnOk, []};
ghost use Rattle.std.specs.List.{filter};
ghost use Rattle.program_tables.specs.MarkRows.{added, row};

use std::alloc::Global;
use std::marker::Model;
use syn_base::OutOfMemory;

/// A place that names a number: the sequence, the place in its loop, and which of the numbers named there
/// it is, from 0.
#[derive(Clone, Copy, Drop)]
pub struct Mark {
    pub number: usize,
    pub sequence: usize,
    pub at: usize,
    pub port: usize,
}

/// For each number below a count the places that name it. In contracts the list of these lists.
#[derive(Drop)]
pub struct MarkTable {
    rows: Vec<Vec<Mark>>,
}

impl Model for MarkTable {
    ghost use Rattle.std.specs.Prelude.{List, map};
    ghost use Rattle.program_tables.specs.declared.mark_table.Mark.{Mark};

    ghost Value = { List (List Mark) };

    ghost view = { λ s. map (λ v. v.items) s.rows.items };
}

impl MarkTable {
    /// These places, grouped by their number, for the numbers below `count`.
    pub fn new(alloc: Global, marks: &[Mark], count: usize) -> Result<MarkTable, OutOfMemory>
        ensures { IfOk result (λ t. (n : ℕ) → n < count → row t n ≡ filter (λ m. nat_eq m.number n) marks.now) }
    {
        let mut rows = empty_rows(alloc, count)?;
        for mark in marks {
            add(&mut rows, *mark)?;
        }
        Ok(MarkTable { rows })
    }

    /// The places that name a number; none for a number from the count on.
    pub fn of(&self, number: usize) -> &[Mark]
        ensures { result.now ≡ row self.now number }
    {
        match self.rows.get(number) {
            Some(found) => found.as_slice(),
            None => &[],
        }
    }
}

/// As many rows, each empty.
fn empty_rows(alloc: Global, count: usize) -> Result<Vec<Vec<Mark>>, OutOfMemory>
    ensures { IfOk result (λ rows. map (λ v. v.items) rows.items ≡ replicate count []) }
{
    let mut rows = Vec::new(alloc);
    for _row in 0..count {
        rows.push(Vec::new(alloc))?;
    }
    Ok(rows)
}

/// Adds a place to the row of its number, if there is one.
fn add(rows: &mut Vec<Vec<Mark>>, mark: Mark) -> Result<(), OutOfMemory>
    ensures { OnOk result (map (λ v. v.items) rows.new.items ≡ added (map (λ v. v.items) rows.old.items) mark) }
{
    if mark.number < rows.len() {
        rows[mark.number].push(mark)?;
    }
    Ok(())
}
