//! The windows in which an execution is run, for its lines and for the command `load`.
ghost use Rattle.std.specs.Prelude.{◌≡◌, ◌≤◌, IfOk};
ghost use Rattle.compiler.specs.Executions.{one_job};
ghost use Rattle.syndex_program.specs.Executes.{IsExecuted, executed};

use crate::execution::Execution;
use job_windows::JobWindows;
use std::alloc::Global;
use syn_base::OutOfMemory;

/// All windows of an execution, to be run by this many workers, or by one for each sequence.
pub fn windows_of<'a>(
    alloc: Global,
    execution: &'a Execution,
    workers: Option<u32>,
) -> Result<JobWindows<'a>, OutOfMemory>
    requires { IsExecuted execution.now }
    ensures { IfOk result (λ windows. windows ≡ record { job = one_job (executed execution.now); next = 0 }) }
{
    JobWindows::new(
        alloc,
        &execution.program,
        &execution.flat,
        &execution.text.archi,
        &execution.rows,
        workers_for(execution, workers),
    )
}

/// How many workers there are: this many as are asked for, or one for each sequence; 1 to 80.
fn workers_for(execution: &Execution, workers: Option<u32>) -> u32
    ensures from { 1 ≤ result }
    ensures to { result ≤ 80 }
{
    let sequences = execution.program.seqs.as_slice().len();
    let workers = workers.unwrap_or(sequences.min(80) as u32);
    workers.clamp(1, 80)
}
