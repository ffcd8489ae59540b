//! The command `chart A H`: the timing chart of a schedule. `commands` calls `chart_text`.
ghost use Rattle.std.specs.Prelude.{◌≡◌, IfOk};
ghost use Rattle.compiler.specs.Compiles.{HasDurations};
ghost use Rattle.top_plans.specs.Reads.{text_in};
ghost use Rattle.top_plans.specs.Run.{Makes};
ghost use Rattle.top_plans.specs.Shelf.{Stays};
ghost use Rattle.top_plans.specs.Plans.{chart_of, chart_plan};
ghost use Rattle.self_timed.specs.Text.{described_by};

use compiler::{Problem, find_schedule};
use std::alloc::Global;
use syn_base::OutOfMemory;
use top_plans::{Shelf, Status, print_chart, read_algorithm, read_architecture};

/// The timing chart of an algorithm on an architecture, or why there is none.
pub fn chart_text<S: Shelf>(
    alloc: Global,
    shelf: &mut S,
    algorithm: &str,
    architecture: &str,
) -> Result<Vec<u8>, Status>
    ensures stays { Stays (S.held shelf.old) (S.held shelf.new) }
    ensures makes { Makes (S.held shelf.old) (S.held shelf.new)
        (chart_plan algorithm.now architecture.now) (text_in result) }
{
    let algorithm = read_algorithm(alloc, shelf, algorithm)?;
    let problem = read_architecture(alloc, shelf, architecture, &algorithm.tree)?;
    Ok(print_schedule(alloc, &problem)?)
}

/// The timing chart of the schedule of the pressure run.
fn print_schedule(alloc: Global, problem: &Problem) -> Result<Vec<u8>, OutOfMemory>
    requires { HasDurations problem.now }
    ensures { IfOk result (λ text. text.items ≡
        chart_of problem.now.flat (described_by problem.now.text)
        problem.now.durations) }
{
    let schedule = find_schedule(alloc, problem)?;
    let mut text = Vec::new(alloc);
    print_chart(
        alloc,
        &problem.flat,
        &problem.text.archi,
        &schedule,
        &mut text,
    )?;
    Ok(text)
}
