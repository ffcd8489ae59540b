//! Laws of every run of a job, from the theory of interleavings: each state is determined by its
//! counts of steps, each load finds the value of its own round, some sequence is enabled until
//! all is done, and then each actuator has its values.
//!
//! A well-formed program is a system of sequences that share semaphores, buffers and media; this crate
//! shows how it is synchronized, and that the core's runs are those of the theory. Its laws are the
//! contracts of functions that do nothing.
#![tactic(auto)]

pub mod agree;
mod fresh;

ghost use Rattle.std.specs.Prelude.{ℕ, List};
ghost use Rattle.semaphore_core.specs.Core.{run, IsDone};
ghost use Rattle.semaphore_core.specs.Laws.{HasLaws};
ghost use Rattle.phase_laws.specs.Central.{AllTaken, JobsAreSupplied, JobsHaveLaws, RowsAreTaken};
ghost use Rattle.phase_laws.specs.Discipline.{ProgramsAreDisciplined};
ghost use Rattle.phase_laws.specs.Ended.{FullIsEnded, RunsEnd, RunsTakeRows};
ghost use Rattle.phase_laws.specs.OneWord.{EnabledByOneWord};
ghost use Rattle.phase_laws.specs.Reached.{OwnPartsAgree, ReachedHaveLaws};
ghost use Rattle.phase_laws.specs.Windows.{WindowsMakeTheRun};
ghost use Rattle.phase_laws.specs.Values.{SequencesComputeTheirValues};

pub use fresh::run_fresh;

// What the clauses here speak of: jobs and their states.
pub use semaphore_core::{
    Job, OwnParts, State, StepAnswer, cells_and_rows, home, opening_of, put_row, run_limit,
    sensor_lens, slot, try_step, turn_reached, words_of, zero_elements,
};

/// Every well-formed program is synchronized, and its serial order puts each need before what waits for it.
pub fn programs_are_disciplined()
    ensures { ProgramsAreDisciplined }
{}

/// If each load finds the value of its own round, each sequence of a job stores the flat values, and
/// has of its own what is told: registers, the delays' cells and the actuators' rows.
pub fn sequences_compute_their_values()
    ensures { SequencesComputeTheirValues }
{}

/// The central theorem: of every job over a well-formed program, a valid flat graph, rows of its sensors and
/// any opening values, in every interleaving of its sequences' micro-steps.
pub fn jobs_have_laws()
    ensures { JobsHaveLaws }
{}

/// When all is done each actuator has taken the flat graph's values, in every interleaving.
pub fn rows_are_taken()
    ensures { RowsAreTaken }
{}

/// In every interleaving, when all is done the cells are those after all reactions, and the rows are what the
/// actuators take.
pub fn runs_end()
    ensures { RunsEnd }
{}

/// In every state that a run reaches, row k of an actuator is what it takes in reaction k where its operation
/// was computed more than k times, and zeros elsewhere.
pub fn runs_take_rows()
    ensures { RunsTakeRows }
{}

/// What full counts tell has the cells after all reactions, and what the actuators take in each.
pub fn full_is_ended()
    ensures { FullIsEnded }
{}

/// In reached counts: as many as the sequences, each at most its full count; no semaphore and no turn above
/// the number of micro-steps made; fresh; a lower finds a signal, a load the value of its own round, and a
/// store is of the next round of its element.
pub fn reached_have_laws()
    ensures { ReachedHaveLaws }
{}

/// The registers of a sequence, and the cells and rows of the operations that it calls, are the same in what
/// any counts tell that agree on it.
pub fn own_parts_agree()
    ensures { OwnPartsAgree }
{}

/// Some reactions in succession, with the cells that the reactions before them leave, are a job of their own:
/// it meets no limit where the whole one meets none, takes the same rows, and leaves the same cells.
pub fn windows_make_the_run()
    ensures { WindowsMakeTheRun }
{}

/// Whether a sequence is enabled depends on at most the one word that its next micro-step touches: the
/// semaphore of a take or a see, or the turn of a wait. Any other micro-step is always enabled.
pub fn enabled_by_one_word()
    ensures { EnabledByOneWord }
{}

/// Every job keeps what the central theorem asks for, where its graph is valid, as every flat graph is.
pub fn jobs_are_supplied()
    ensures { JobsAreSupplied }
{}

/// The central theorem of a job: in every interleaving each state is what its counts tell, no load finds
/// an element of another round than its own, some sequence is enabled until all is done, and a step of an
/// enabled sequence goes on. It does nothing.
pub fn job_has_laws(job: &Job)
    ensures { HasLaws job.now }
{
    // `jobs_have_laws` asks for a program that is well formed and for a valid graph: the clauses of these two calls say
    // that a job keeps both.
    let _ = job.program();
    let _ = job.flat().vertices();
}

/// When all is done each actuator of a job has taken the flat graph's values, in every interleaving. It
/// does nothing.
pub fn rows_of_job_are_taken(job: &Job)
    ensures { (list : List ℕ) → IsDone job.now (run job.now list) → AllTaken job.now (run job.now list).rows }
{
    // `rows_are_taken` asks for a program that is well formed and for a valid graph: the clauses of these two calls say
    // that a job keeps both.
    let _ = job.program();
    let _ = job.flat().vertices();
}
