//! The command `run A H S`: the macro-code of a program, and what the actuators take. `commands` calls `finish_run`.
ghost use Rattle.std.specs.Prelude.{◌≡◌, IfOk};
ghost use Rattle.syndex_program.specs.Stopped as windows;
ghost use Rattle.word_rule.specs.Driven.{driven_by};
ghost use Rattle.top_plans.specs.Run.{Ends, Performs};
ghost use Rattle.top_plans.specs.Status.{Refusal, ending_of};
ghost use Rattle.top_plans.specs.Given.{printed, stages, performed};
ghost use Rattle.top_plans.specs.Plans.{head};
ghost use Rattle.syndex_program.specs.Executes.{IsExecuted, executed, made_of};

use crate::commands::code::print_program;
use crate::execution::Execution;
use crate::lines::{Stopped, lines_of, status_of, write_lines};
use job_windows::Drive;
use std::alloc::Global;
use std::sync::Wait;
use std::thread::Threads;
use syn_base::OutOfMemory;
use top_plans::{Gate, Sink, Status, write_whole};
use word_table::Driven;

/// Runs what is to be executed, and writes its text; or returns why there is nothing.
pub fn finish_run<R: Threads + Wait + Sync, K: Sink, G: Gate>(
    alloc: Global,
    made: Result<Execution, Status>,
    out: &mut K,
    drive: &Drive<R, G>,
    workers: Option<u32>,
    driven: &mut Driven,
) -> Status
    requires { IfOk made IsExecuted }
    ensures { Ends driven_by performed (made_of (λ e. printed (head e) e) made) (K.sunk out.old)
        (K.sunk out.new) driven.old driven.new (ending_of result) }
{
    match made {
        Ok(execution) => write_run(alloc, &execution, out, drive, workers, driven),
        Err(refused) => refused,
    }
}

/// Writes the macro-code and an empty line, and then runs the windows of an execution and writes the lines
/// of each.
fn write_run<R: Threads + Wait + Sync, K: Sink, G: Gate>(
    alloc: Global,
    execution: &Execution,
    out: &mut K,
    drive: &Drive<R, G>,
    workers: Option<u32>,
    driven: &mut Driven,
) -> Status
    requires { IsExecuted execution.now }
    ensures { let e = executed execution.now in Performs driven_by (stages (printed (head e) e))
        (K.sunk out.old) (K.sunk out.new) driven.old driven.new (ending_of result) }
{
    status_of(write_parts(alloc, execution, out, drive, workers, driven))
}

/// Writes the text before the output, and then window after window.
fn write_parts<R: Threads + Wait + Sync, K: Sink, G: Gate>(
    alloc: Global,
    execution: &Execution,
    out: &mut K,
    drive: &Drive<R, G>,
    workers: Option<u32>,
    driven: &mut Driven,
) -> Result<(), Stopped>
    requires { IsExecuted execution.now }
    ensures { let e = executed execution.now in Performs {R = Refusal} driven_by
        (stages (printed (head e) e)) (K.sunk out.old) (K.sunk out.new) driven.old driven.new
        (windows.ending_of result) }
{
    let Ok(head) = head(alloc, execution) else {
        return Err(Stopped::OutOfMemory);
    };
    let Ok(mut lines) = lines_of(alloc, execution, workers) else {
        return Err(Stopped::OutOfMemory);
    };
    if write_whole(out, &head).is_err() {
        return Err(Stopped::Unwritten);
    }
    write_lines(alloc, &mut lines, out, drive, driven)
}

/// The macro-code and an empty line.
fn head(alloc: Global, execution: &Execution) -> Result<Vec<u8>, OutOfMemory>
    requires { IsExecuted execution.now }
    ensures { IfOk result (λ text. text.items ≡ head (executed execution.now)) }
{
    let mut text = print_program(
        alloc,
        &execution.program,
        &execution.flat,
        &execution.text.archi,
    )?;
    text.push(b'\n')?;
    Ok(text)
}
