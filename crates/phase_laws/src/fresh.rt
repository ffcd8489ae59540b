//! A run from the opening state as a call, whose contract carries the laws to every prefix of its list.
ghost use Rattle.std.specs.Prelude.{◌≡◌, ℕ, take, IfOk};
ghost use Rattle.semaphore_core.specs.Core.{run, IsDone};
ghost use Rattle.semaphore_core.specs.Told.{told};
ghost use Rattle.semaphore_core.specs.Laws.{IsFreshState};
ghost use Rattle.semaphore_core.specs.Held.{IsOpened};
ghost use Rattle.phase_laws.specs.Central.{AllTaken};

use crate::{job_has_laws, rows_of_job_are_taken};
use semaphore_core::{Job, State, run_list};
use std::alloc::Global;
use syn_base::OutOfMemory;

/// The state after a list of sequence numbers, each tried in order from the opening state. Whatever the
/// call answers, after every prefix of the list the state is what its counts tell, and fresh: no load has
/// found an element of another round than its own, and none will. What its counts tell has in its rows
/// the flat graph's values wherever an actuator was computed, and where the list ends with all done, each
/// actuator has taken them in each reaction. It takes memory for the state alone.
pub fn run_fresh(alloc: Global, job: &Job, list: &[u32]) -> Result<State, OutOfMemory>
    ensures state { IfOk result (λ s. s.core ≡ run job.now list.now) }
    ensures opened { IfOk result (λ s. IsOpened job.now s) }
    ensures told { (n : ℕ) → run job.now (take n list.now) ≡ told job.now (run job.now (take n list.now)).counts }
    ensures fresh { (n : ℕ) → IsFreshState job.now (run job.now (take n list.now)) }
    ensures taken { IsDone job.now (run job.now list.now) → AllTaken job.now (run job.now list.now).rows }
{
    job_has_laws(job);
    rows_of_job_are_taken(job);
    let mut state = State::new(alloc, job)?;
    run_list(job, &mut state, list);
    Ok(state)
}
