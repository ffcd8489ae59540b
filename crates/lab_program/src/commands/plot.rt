//! The command `plot A S`: what the actuators take, as a picture. `commands` calls `plot_text`.
ghost use Rattle.std.specs.Prelude.{◌≡◌, IfOk};
ghost use Rattle.algo_laws.specs.Ends.{sensor_lengths};
ghost use Rattle.top_plans.specs.ActNames.{actuator_names};
ghost use Rattle.top_plans.specs.Shelf.{Held, Stays};
ghost use Rattle.lab_plans.specs.Plans.{plot_plan, plotted};
ghost use Rattle.svg_text.specs.Plot.{plot};
ghost use Rattle.sync_meaning.specs.Simulated.{simulated};
ghost use Rattle.lab_program.specs.Texts.{Carries};

use algo_laws::Tree;
use compiler::{excess, output_width};
use std::alloc::Global;
use svg_text::plot_rows;
use syn_base::{OutOfMemory, SensorRows};
use sync_meaning::simulate;
use top_plans::{Shelf, Status, actuators_of, read_algorithm, read_table};

/// What the actuators take over a table, as a picture, or why there is none.
pub fn plot_text<S: Shelf>(
    alloc: Global,
    shelf: &mut S,
    algorithm: &str,
    sensors: &str,
) -> Result<Vec<u8>, Status>
    ensures stays { Stays (S.held shelf.old) (S.held shelf.new) }
    ensures carries { Carries (plot_plan algorithm.now sensors.now) (S.held shelf.old) (S.held shelf.new) result }
{
    let algorithm = read_algorithm(alloc, shelf, algorithm)?;
    let rows = read_table(alloc, shelf, sensors, &algorithm.tree)?;
    plot_over(alloc, &algorithm.tree, &rows)
}

/// The same over these rows, where it is within its bound.
fn plot_over(alloc: Global, tree: &Tree, rows: &SensorRows) -> Result<Vec<u8>, Status>
    requires { rows.now.lens ≡ sensor_lengths tree.now }
    ensures { (held : Held) → Carries (plotted tree.now rows.now) held held result }
{
    let width = output_width(alloc, tree)?;
    match excess(rows.count(), width) {
        Some(limit) => Err(Status::Limit(limit)),
        None => Ok(print_plot(alloc, tree, rows)?),
    }
}

/// The picture of what the actuators take over these rows.
fn print_plot(alloc: Global, tree: &Tree, rows: &SensorRows) -> Result<Vec<u8>, OutOfMemory>
    requires { rows.now.lens ≡ sensor_lengths tree.now }
    ensures { IfOk result (λ text. text.items ≡ plot (actuator_names tree.now) (simulated tree.now rows.now)) }
{
    let Ok(acts) = simulate(alloc, tree, rows) else {
        return Err(OutOfMemory);
    };
    let names = actuators_of(alloc, tree)?;
    plot_rows(alloc, &names, &acts)
}
