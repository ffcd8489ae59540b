//! Progress of a job in every interleaving: until all is done some sequence is enabled, and there is an
//! exact bound on the number of steps.
#![tactic(auto)]

ghost use Rattle.std.specs.Prelude.{◌≡◌, None, IfSome};
ghost use Rattle.phase_laws.specs.Job.{reactions, total_steps};
ghost use Rattle.phase_laws.specs.Core.{IsDone};
ghost use Rattle.phase_laws.specs.Held.{IsOpened};
ghost use Rattle.progress_laws.specs.First.{IsFirstEnabled};
ghost use Rattle.progress_laws.specs.Bound.{IsBound};

use phase_laws::{Job, State, job_has_laws};

/// The least sequence that is enabled. There is none exactly where every sequence has made all its
/// micro-steps, whatever list of sequence numbers led to the state. It takes no memory.
pub fn first_enabled(job: &Job, state: &State) -> Option<u32>
    requires { IsOpened job.now state.now }
    ensures first { IfSome result (λ s. IsFirstEnabled job.now state.now.core s) }
    ensures none { result ≡ None → IsDone job.now state.now.core }
    ensures done { IsDone job.now state.now.core → result ≡ None }
{
    job_has_laws(job);
    for seq in 0..job.sequences() {
        if state.is_enabled(job, seq) {
            return Some(seq);
        }
    }
    None
}

/// The number of micro-steps of the prologues, and in each reaction of the loops. A list of sequence
/// numbers in which each is enabled when its entry comes has at most this many entries, and one with so
/// many ends where all is done. It takes no memory.
pub fn steps_in_all(job: &Job) -> u64
    ensures total { result ≡ total_steps job.now.program (reactions job.now) }
    ensures bound { IsBound job.now result }
{
    job.total_steps()
}
