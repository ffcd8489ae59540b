//! The rows of a sensor table.
ghost use Rattle.compiler.specs.Tables.{MakesTable};

use accepted_laws::tables_fit;
use algo_laws::Tree;
use sensor_table::{SensorError, read_sensors};
use std::alloc::Global;
use syn_base::SensorRows;

/// The rows of a table for this algorithm, or its first refusal.
pub fn parse_table(alloc: Global, table: &[u8], tree: &Tree) -> Result<SensorRows, SensorError>
    ensures { MakesTable tree.now table.now result }
{
    tables_fit();
    read_sensors(alloc, table, tree)
}
