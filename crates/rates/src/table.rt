//! The arcs of a schedule's acts, as a table, and what a rate is.
ghost use Rattle.std.specs.Prelude.{◌≡◌};
ghost use Rattle.std.specs.List.{list_any};
ghost use Rattle.rates.specs.Rates.{same_arc};

use std::marker::Model;
use syn_base::Items;

/// An arc of an act: back to another act or to itself, by its number, this many reactions before.
/// Acts are numbered from 0, in the order of the decisions: of each its transfers, and then its
/// operation.
#[derive(Clone, Copy, Debug, PartialEq, Eq)]
pub struct Arc {
    pub act: u32,
    pub lag: u32,
}

/// So many reactions in so many ticks.
#[derive(Clone, Copy, Debug, PartialEq, Eq)]
pub struct Rate {
    pub ticks: u64,
    pub reactions: u32,
}

/// For each act of a schedule, in their order, its arcs. Contracts see the list of rows.
#[derive(Drop)]
pub struct Arcs {
    rows: Vec<Items<Arc>>,
}

impl Model for Arcs {
    ghost use Rattle.std.specs.Prelude.{List};
    ghost use Rattle.rates.specs.declared.table.Arc.{Arc};

    ghost Value = { List (List Arc) };

    ghost view = { λ s. s.rows.items };
}

impl Arcs {
    ghost use Rattle.std.specs.Prelude.{◌≡◌};
    ghost use Rattle.rates.specs.Tables.{is_in_row};

    /// The table of these rows. It takes no memory.
    pub fn new(rows: Vec<Items<Arc>>) -> Arcs
        ensures { result ≡ rows.items }
    {
        Arcs { rows }
    }

    /// The rows, by act. It takes no memory.
    pub fn rows(&self) -> &[Items<Arc>]
        ensures { result.now ≡ self.now }
    {
        self.rows.as_slice()
    }

    /// Whether the arc is in the row of the act. It takes no memory.
    pub fn has(&self, act: u32, arc: Arc) -> bool
        ensures { result ≡ is_in_row self.now act arc }
    {
        let act = act as usize;
        if act < self.rows.len() {
            is_among(self.rows[act].as_slice(), arc)
        } else {
            false
        }
    }
}

/// Whether one of these arcs is this one.
fn is_among(row: &[Arc], arc: Arc) -> bool
    ensures { result ≡ list_any (same_arc arc) row.now }
{
    for other in row {
        if arc.act == other.act && arc.lag == other.lag {
            return true;
        }
    }
    false
}
