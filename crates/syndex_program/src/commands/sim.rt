//! The command `sim A S`: what the actuators take by the synchronous meaning. `commands` calls `sim_text`.
ghost use Rattle.std.specs.Prelude.{◌≡◌, IfOk};
ghost use Rattle.compiler.specs.Executions.{output_of};
ghost use Rattle.algo_tree.specs.Ends.{sensor_lengths};
ghost use Rattle.top_plans.specs.Reads.{text_in};
ghost use Rattle.top_plans.specs.Run.{Makes};
ghost use Rattle.top_plans.specs.Shelf.{Held, Stays};
ghost use Rattle.top_plans.specs.Plans.{rows_plan, sim_plan};

use algo_tree::Tree;
use compiler::{excess, output_width};
use std::alloc::Global;
use syn_base::{OutOfMemory, SensorRows};
use sync_meaning::simulate;
use top_plans::{Shelf, Status, acts_text, read_algorithm, read_table};

/// The text of what the actuators take, or why there is none.
pub fn sim_text<S: Shelf>(
    alloc: Global,
    shelf: &mut S,
    algorithm: &str,
    sensors: &str,
) -> Result<Vec<u8>, Status>
    ensures stays { Stays (S.held shelf.old) (S.held shelf.new) }
    ensures makes { Makes (S.held shelf.old) (S.held shelf.new) (sim_plan algorithm.now sensors.now) (text_in result) }
{
    let algorithm = read_algorithm(alloc, shelf, algorithm)?;
    let rows = read_table(alloc, shelf, sensors, &algorithm.tree)?;
    text_over(alloc, &algorithm.tree, &rows)
}

/// The text of what the actuators take over these rows, where it is within its bound.
fn text_over(alloc: Global, tree: &Tree, rows: &SensorRows) -> Result<Vec<u8>, Status>
    requires { rows.now.lens ≡ sensor_lengths tree.now }
    ensures { (held : Held) → Makes held held (rows_plan tree.now rows.now) (text_in result) }
{
    let width = output_width(alloc, tree)?;
    match excess(rows.count(), width) {
        Some(limit) => Err(Status::Limit(limit)),
        None => Ok(print_acts(alloc, tree, rows)?),
    }
}

/// The text of what the actuators take over these rows.
pub fn print_acts(alloc: Global, tree: &Tree, rows: &SensorRows) -> Result<Vec<u8>, OutOfMemory>
    requires { rows.now.lens ≡ sensor_lengths tree.now }
    ensures { IfOk result (λ text. text.items ≡ output_of tree.now rows.now.reactions) }
{
    let Ok(acts) = simulate(alloc, tree, rows) else {
        return Err(OutOfMemory);
    };
    acts_text(alloc, tree, &acts)
}
