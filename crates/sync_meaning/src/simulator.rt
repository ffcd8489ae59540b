//! The simulation of an algorithm over rows of its sensors: `simulate`.
ghost use Rattle.std.specs.Prelude.{◌≡◌, IfOk};
ghost use Rattle.algo_tree.specs.Ends.{sensor_lengths};
ghost use Rattle.sync_meaning.specs.Simulated.{simulated};

use crate::run::run_flat;
use algo_tree::Tree;
use hierarchy::flatten;
use std::alloc::Global;
use syn_base::{ActRows, OutOfMemory, SensorRows};

/// What the actuators take in each reaction, over these rows of the sensors. The rows have the lengths of
/// the tree's sensors. `OutOfMemory` comes only where memory runs out. What it lays out to run, and the time
/// of a reaction, are in proportion to the operations of the flat graph with their inputs and outputs; after
/// the first reaction it takes memory for the rows alone.
pub fn simulate(alloc: Global, tree: &Tree, rows: &SensorRows) -> Result<ActRows, OutOfMemory>
    requires { rows.now.lens ≡ sensor_lengths tree.now }
    ensures taken { IfOk result (λ taken. taken ≡ simulated tree.now rows.now) }
{
    let flat = flatten(alloc, tree)?;
    run_flat(alloc, &flat, rows)
}
