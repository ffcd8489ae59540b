//! What the commands `run`, `load` and `exec` execute: a program on an architecture over rows, within all limits.
ghost use Rattle.std.specs.Prelude.{◌≡◌, ◌≤◌, IfOk, length};
ghost use Rattle.algo_tree.specs.Ends.{sensor_lengths};
ghost use Rattle.self_timed.specs.Sequences.{sequences};
ghost use Rattle.self_timed.specs.WellFormed.{IsWellFormed};
ghost use Rattle.top_plans.specs.Flat.{HasFlat};
ghost use Rattle.top_plans.specs.Run.{Makes};
ghost use Rattle.top_plans.specs.FlatOf.{flat_of};
ghost use Rattle.top_plans.specs.Shelf.{Held, Stays};
ghost use Rattle.top_plans.specs.Loads.{load_algorithm, load_architecture, load_table};
ghost use Rattle.top_plans.specs.Plans.{execution, execution_plan};
ghost use Rattle.syndex_program.specs.Executes.{
  IsExecuted,
  executed_in,
  files_plan,
  rest_plan,
  texts_plan,
};
ghost use Rattle.compiler.specs.Compiles.{HasDurations};

use algo_tree::Tree;
use compiler::{
    Algorithm, Problem, compile_to_durations, compile_to_program, parse_algorithm, parse_table,
};
use load_texts::load_texts;
use self_timed::{ArchiText, Flat, Program};
use std::alloc::Global;
use syn_base::SensorRows;
use top_plans::{Shelf, Status, accepted_have_flat, read_algorithm, read_architecture, read_table};
use word_rule::run_limit;

/// A program that is well formed for the flat graph of an algorithm and the architecture of a text, and the rows
/// over which it is executed.
pub struct Execution {
    pub tree: Tree,
    pub flat: Flat,
    pub text: ArchiText,
    pub program: Program,
    pub rows: SensorRows,
    /// The micro-steps of its one job over all rows.
    pub steps: u64,
}

/// Written by hand, as that of an algorithm.
impl Drop for Execution {
    fn drop(self) {
        let Execution {
            tree: _,
            flat: _,
            text: _,
            program: _,
            rows: _,
            steps: _,
        } = self;
    }
}

/// What the files of a run say is to be executed, or the first refusal.
pub fn read_execution<S: Shelf>(
    alloc: Global,
    shelf: &mut S,
    algorithm: &str,
    architecture: &str,
    sensors: &str,
) -> Result<Execution, Status>
    ensures stays { Stays (S.held shelf.old) (S.held shelf.new) }
    ensures makes { Makes (S.held shelf.old) (S.held shelf.new)
        (files_plan algorithm.now architecture.now sensors.now) (executed_in result) }
    ensures executed { IfOk result IsExecuted }
{
    accepted_have_flat();
    let algorithm = read_algorithm(alloc, shelf, algorithm)?;
    let problem = read_architecture(alloc, shelf, architecture, &algorithm.tree)?;
    let rows = read_table(alloc, shelf, sensors, &algorithm.tree)?;
    compile_execution(alloc, algorithm, problem, rows)
}

/// What the texts of load `n` say is to be executed, or the first refusal.
pub fn load_execution(alloc: Global, n: u32) -> Result<Execution, Status>
    requires from { 1 ≤ n }
    requires to { n ≤ 1000 }
    ensures makes { (held : Held) →
        Makes held held (texts_plan (load_algorithm n) load_architecture (load_table n))
        (executed_in result) }
    ensures executed { IfOk result IsExecuted }
{
    let (algorithm, architecture, table) = load_texts(alloc, n)?;
    accepted_have_flat();
    let algorithm = parse_algorithm(alloc, &algorithm)?;
    let problem = compile_to_durations(alloc, &architecture, &algorithm.tree)?;
    let rows = parse_table(alloc, &table, &algorithm.tree)?;
    compile_execution(alloc, algorithm, problem, rows)
}

/// The program of the schedule over these rows, or the first limit that refuses it.
fn compile_execution(
    alloc: Global,
    algorithm: Algorithm,
    problem: Problem,
    rows: SensorRows,
) -> Result<Execution, Status>
    requires flat { problem.flat ≡ flat_of algorithm.tree }
    requires lasts { HasDurations problem }
    requires has { HasFlat algorithm.tree }
    requires lens { rows.lens ≡ sensor_lengths algorithm.tree }
    requires few { length rows.reactions ≤ 10000 }
    ensures makes { (held : Held) → Makes held held (rest_plan algorithm.tree problem.text.archi
        problem.durations rows) (executed_in result) }
    ensures executed { IfOk result IsExecuted }
{
    let program = compile_to_program(alloc, &problem)?;
    let (flat, text) = problem.into_parts();
    execution_of(algorithm, flat, text, program, rows)
}

/// The execution of these parts, or the first limit that refuses it.
pub fn execution_of(
    algorithm: Algorithm,
    flat: Flat,
    text: ArchiText,
    program: Program,
    rows: SensorRows,
) -> Result<Execution, Status>
    requires same { flat ≡ flat_of algorithm.tree }
    requires has { HasFlat algorithm.tree }
    requires formed { IsWellFormed program flat (sequences text.archi) (length text.archi.media) }
    requires lens { rows.lens ≡ sensor_lengths algorithm.tree }
    requires few { length rows.reactions ≤ 10000 }
    ensures makes { (held : Held) →
        Makes held held (execution_plan (execution algorithm.tree text.archi program rows) (λ e. e))
        (executed_in result) }
    ensures executed { IfOk result IsExecuted }
{
    match run_limit(&program, &flat, &text.archi, &rows) {
        Ok(steps) => Ok(Execution {
            tree: algorithm.into_tree(),
            flat,
            text,
            program,
            rows,
            steps,
        }),
        Err(limit) => Err(Status::Limit(limit)),
    }
}
