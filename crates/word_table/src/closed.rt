//! What a closed fabric leaves to its caller: rows and cells.
ghost use Rattle.std.specs.Prelude.{◌≡◌};

use std::marker::Model;
use syn_base::{ActRows, Items};

/// The rows of the actuators and the cells of the delays. Only `Fabric::close` makes it.
#[derive(Drop)]
pub struct Closed {
    pub(crate) rows: ActRows,
    pub(crate) cells: Items<Items<i64>>,
}

impl Model for Closed {
    ghost use Rattle.word_table.specs.Closed.{ClosedData};

    ghost Value = { ClosedData };

    ghost view = { λ c. record { rows = c.rows; cells = c.cells } };
}

impl Closed {
    /// What the actuators took, by reaction. It takes no memory.
    pub fn rows(&self) -> &ActRows
        ensures { result.now ≡ self.now.rows }
    {
        &self.rows
    }

    /// The cells of the delays, by delay. It takes no memory.
    pub fn into_cells(self) -> Items<Items<i64>>
        ensures { result ≡ self.cells }
    {
        self.cells
    }
}
