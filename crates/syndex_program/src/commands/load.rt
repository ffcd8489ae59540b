//! The command `load N`: the sum of all that the actuators take in a load. `commands` calls `finish_load`.
ghost use Rattle.std.specs.Prelude.{◌≡◌, ◌≤◌, ◌<◌, ◌+ℤ◌, [], length, slice_index_or, IfOk, OnErr};
ghost use Rattle.compiler.specs.Executions.{one_job};
ghost use Rattle.syn_base.specs.Arithmetic.{wrapped};
ghost use Rattle.algo_tree.specs.Level.{all_joined};
ghost use Rattle.algo_text.specs.Expr.{total};
ghost use Rattle.run_laws.specs.Windows.{window_jobs};
ghost use Rattle.word_rule.specs.Ended.{all_acts};
ghost use Rattle.word_rule.specs.Driven.{driven_by};
ghost use Rattle.top_plans.specs.Run.{Ends, Performs};
ghost use Rattle.top_plans.specs.Status.{ending_of};
ghost use Rattle.top_plans.specs.Stage.{after_jobs, RunsSome};
ghost use Rattle.top_plans.specs.Given.{stages, summed, performed};
ghost use Rattle.top_plans.specs.Plans.{summary, summary_with};
ghost use Rattle.syndex_program.specs.Executes.{IsExecuted, executed, made_of};
ghost use Rattle.syndex_program.specs.Left.{jobs_left};
ghost use Rattle.syndex_program.specs.Sums.{AreFew, total_left, total_of};
ghost use Rattle.self_timed.specs.FlatLaws.{actuator_lens};

use crate::execution::Execution;
use crate::windows::windows_of;
use job_windows::{Drive, JobWindows};
use std::alloc::Global;
use std::sync::Wait;
use std::thread::Threads;
use syn_base::{ActRows, OutOfMemory, append, append_count, print_int};
use top_plans::{Gate, Sink, Status, put_text};
use word_table::Driven;

/// Runs what is to be executed, and writes its summary; or returns why there is nothing.
pub fn finish_load<R: Threads + Wait + Sync, K: Sink, G: Gate>(
    alloc: Global,
    made: Result<Execution, Status>,
    out: &mut K,
    drive: &Drive<R, G>,
    driven: &mut Driven,
) -> Status
    requires { IfOk made IsExecuted }
    ensures { Ends driven_by performed (made_of (λ e. summed e (summary e)) made) (K.sunk out.old)
        (K.sunk out.new) driven.old driven.new (ending_of result) }
{
    match made {
        Ok(execution) => write_load(alloc, &execution, out, drive, driven),
        Err(refused) => refused,
    }
}

/// Runs all windows of an execution, and writes its summary.
fn write_load<R: Threads + Wait + Sync, K: Sink, G: Gate>(
    alloc: Global,
    execution: &Execution,
    out: &mut K,
    drive: &Drive<R, G>,
    driven: &mut Driven,
) -> Status
    requires { IsExecuted execution.now }
    ensures { let e = executed execution.now in Performs driven_by (stages (summed e (summary e)))
        (K.sunk out.old) (K.sunk out.new) driven.old driven.new (ending_of result) }
{
    match summary_text(alloc, execution, drive, driven) {
        Ok(text) => put_text(out, &text),
        Err(_) => Status::OutOfMemory,
    }
}

/// Runs all windows of an execution, and gives its summary.
fn summary_text<R: Threads + Wait + Sync, G: Gate>(
    alloc: Global,
    execution: &Execution,
    drive: &Drive<R, G>,
    driven: &mut Driven,
) -> Result<Vec<u8>, OutOfMemory>
    requires { IsExecuted execution.now }
    ensures text { IfOk result (λ text. text.items ≡ summary (executed execution.now)) }
    ensures ran { IfOk result (λ text. driven.new ≡
        after_jobs driven_by (window_jobs (one_job (executed execution.now))) driven.old) }
    ensures some { OnErr result (RunsSome driven_by
        (window_jobs (one_job (executed execution.now))) driven.old driven.new) }
{
    let mut windows = windows_of(alloc, execution, None)?;
    let sum = sum_of(alloc, &mut windows, drive, driven)?;
    summary_with(alloc, execution, sum)
}

/// Runs all windows that are left, and gives the sum of all that is put out, brought back modulo 2^64.
fn sum_of<R: Threads + Wait + Sync, G: Gate>(
    alloc: Global,
    windows: &mut JobWindows,
    drive: &Drive<R, G>,
    driven: &mut Driven,
) -> Result<i64, OutOfMemory>
    requires { AreFew (length (actuator_lens windows.old.job.graph windows.old.job.graph.vertices))
        (all_acts windows.old.job) }
    ensures sum { IfOk result (λ sum. wrapped sum ≡ wrapped (total_left windows.old)) }
    ensures ran { IfOk result (λ sum. driven.new ≡ after_jobs driven_by (jobs_left windows.old) driven.old) }
    ensures some { OnErr result (RunsSome driven_by (jobs_left windows.old) driven.old driven.new) }
{
    let mut sum: i64 = 0;
    'windows: loop {
        match windows.run_next(alloc, drive, driven) {
            Ok(Some(closed)) => {
                sum = with_rows(sum, closed.rows());
                windows.go_on(closed);
            }
            Ok(None) => return Ok(sum),
            Err(want) => return Err(want),
        }
    }
}

/// A sum that goes on with all elements of these rows.
fn with_rows(start: i64, rows: &ActRows) -> i64
    requires { AreFew (length rows.now.lens) rows.now.reactions }
    ensures { wrapped result ≡ wrapped (start +ℤ total_of rows.now.reactions) }
{
    let mut sum = start;
    for k in 0..rows.count() {
        sum = with_row(sum, rows, k);
    }
    sum
}

/// A sum that goes on with all elements of one row.
fn with_row(start: i64, rows: &ActRows, k: usize) -> i64
    requires there { k < length rows.now.reactions }
    requires few { length (slice_index_or rows.now.reactions k []) ≤ length rows.now.lens }
    ensures { wrapped result ≡ wrapped (start +ℤ total (all_joined (slice_index_or rows.now.reactions k []))) }
{
    let mut sum = start;
    for actuator in 0..rows.lens().len() {
        sum = with_vector(sum, rows.vector(k, actuator));
    }
    sum
}

/// A sum that goes on with these elements.
fn with_vector(start: i64, vector: &[i64]) -> i64
    ensures { wrapped result ≡ wrapped (start +ℤ total vector.now) }
{
    let mut sum = start;
    for element in vector {
        sum = sum.wrapping_add(*element);
    }
    sum
}

/// The numbers of operations, sequences and micro-steps, and the sum.
fn summary_with(alloc: Global, execution: &Execution, sum: i64) -> Result<Vec<u8>, OutOfMemory>
    requires { IsExecuted execution.now }
    ensures { IfOk result (λ text. text.items ≡ summary_with (executed execution.now) sum) }
{
    let mut text = Vec::new(alloc);
    append(&mut text, b"operations ")?;
    append_count(&mut text, execution.flat.vertices().len())?;
    append(&mut text, b"\nsequences ")?;
    append_count(&mut text, execution.program.seqs.as_slice().len())?;
    append(&mut text, b"\nsteps ")?;
    append_count(&mut text, execution.steps as usize)?;
    append(&mut text, b"\nsum ")?;
    print_int(sum, &mut text)?;
    append(&mut text, b"\n")?;
    Ok(text)
}
