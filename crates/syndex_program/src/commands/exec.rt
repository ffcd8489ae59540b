//! The command `exec A H C S`: macro-code of any hand, checked and executed. `commands` calls `read_foreign`, and then
//! `finish_exec`.
ghost use Rattle.std.specs.Prelude.{◌≤◌, IfOk, Ok, length};
ghost use Rattle.syn_base.specs.Limits.{most_in_text};
ghost use Rattle.text_lines.specs.Text.{lines_of};
ghost use Rattle.top_plans.specs.Run.{Makes};
ghost use Rattle.top_plans.specs.Status.{ending_of};
ghost use Rattle.top_plans.specs.Shelf.{Stays};
ghost use Rattle.top_plans.specs.Given.{executed as alone};
ghost use Rattle.syndex_program.specs.Executes.{
  EndsOrWants,
  IsExecuted,
  executed,
  executed_in,
  foreign_plan,
  made_of,
};
ghost use Rattle.syndex_program.specs.Foreign.{MakesProgram, ReadsProgram};

use crate::execution::{Execution, execution_of};
use crate::lines::{lines_of, status_of, write_lines};
use compiler::{CheckedError, flatten_tree, read_checked};
use job_windows::Drive;
use self_timed::{Archi, Flat, Program};
use std::alloc::Global;
use std::sync::Wait;
use std::thread::Threads;
use top_plans::{
    File, Gate, Shelf, Sink, Status, accepted_have_flat, read_algorithm, read_description,
    read_file, read_table,
};
use word_table::Driven;

/// What the files of an execution say is to be executed, or the first refusal. The durations of the
/// architecture are passed over; the macro-code and its check come before the rows, and these before the limits
/// of the run.
pub fn read_foreign<S: Shelf>(
    alloc: Global,
    shelf: &mut S,
    algorithm: &str,
    architecture: &str,
    code: &str,
    sensors: &str,
) -> Result<Execution, Status>
    ensures stays { Stays (S.held shelf.old) (S.held shelf.new) }
    ensures makes { Makes (S.held shelf.old) (S.held shelf.new)
        (foreign_plan algorithm.now architecture.now code.now sensors.now) (executed_in result) }
    ensures executed { IfOk result IsExecuted }
{
    accepted_have_flat();
    let algorithm = read_algorithm(alloc, shelf, algorithm)?;
    let text = read_description(alloc, shelf, architecture)?;
    let flat = flatten_tree(alloc, &algorithm.tree)?;
    let program = read_program(alloc, shelf, code, &flat, &text.archi)?;
    let rows = read_table(alloc, shelf, sensors, &algorithm.tree)?;
    execution_of(algorithm, flat, text, program, rows)
}

/// The program of a file of macro-code that is well formed, or why there is none.
fn read_program<S: Shelf>(
    alloc: Global,
    shelf: &mut S,
    name: &str,
    flat: &Flat,
    archi: &Archi,
) -> Result<Program, Status>
    ensures stays { Stays (S.held shelf.old) (S.held shelf.new) }
    ensures reads { ReadsProgram flat.now archi.now name.now (S.held shelf.old) (S.held shelf.new) result }
{
    let text = read_file(alloc, shelf, File::Code, name)?;
    program_of(alloc, &text, flat, archi)
}

/// The program of a text of macro-code that is well formed, or the first refusal.
fn program_of(alloc: Global, text: &[u8], flat: &Flat, archi: &Archi) -> Result<Program, Status>
    requires { length (lines_of text.now) ≤ most_in_text }
    ensures { MakesProgram flat.now archi.now text.now result }
{
    // By this call the proof knows that the architecture is valid.
    let _operators = archi.operators();
    match read_checked(alloc, text, flat, archi) {
        Ok(program) => Ok(program),
        Err(CheckedError::Text(error)) => Err(Status::from(error)),
        Err(CheckedError::Lacks(cause)) => Err(Status::CheckRefused(cause)),
    }
}

/// Runs what is to be executed, and writes its lines; or returns why there is nothing.
pub fn finish_exec<R: Threads + Wait + Sync, K: Sink, G: Gate>(
    alloc: Global,
    made: Result<Execution, Status>,
    out: &mut K,
    drive: &Drive<R, G>,
    workers: Option<u32>,
    driven: &mut Driven,
) -> Status
    requires { IfOk made IsExecuted }
    ensures { EndsOrWants (made_of alone made) (K.sunk out.old) (K.sunk out.new) driven.old
        driven.new (ending_of result) }
{
    match made {
        Ok(execution) => write_exec(alloc, &execution, out, drive, workers, driven),
        Err(refused) => refused,
    }
}

/// Runs the windows of an execution, and writes the lines of each.
fn write_exec<R: Threads + Wait + Sync, K: Sink, G: Gate>(
    alloc: Global,
    execution: &Execution,
    out: &mut K,
    drive: &Drive<R, G>,
    workers: Option<u32>,
    driven: &mut Driven,
) -> Status
    requires { IsExecuted execution.now }
    ensures { EndsOrWants (Ok (alone (executed execution.now))) (K.sunk out.old) (K.sunk out.new)
        driven.old driven.new (ending_of result) }
{
    match lines_of(alloc, execution, workers) {
        Ok(mut lines) => status_of(write_lines(alloc, &mut lines, out, drive, driven)),
        Err(_) => Status::OutOfMemory,
    }
}
