//! What always holds of the table of shared atomic words on which a job runs (the rule), and the
//! steps that keep it.
//!
//! A table has a word for each semaphore, turn and element of a job. What a seat of it knows is its view: the
//! sequences that it drives with the micro-steps that each has made, and its last look. The rule says that the
//! counts of all views together are reached, and that every word is the one that these counts tell.
//! `WordTable::open` makes a table with a first seat, `split` and `join` share the sequences out among seats,
//! and `take`, `wait`, `look`, `add`, `lower`, `load` and `store` each make one micro-step by one atomic step;
//! `close` leaves the words at the end. `jobs_run_on_words` says that every job keeps what this asks for.
//! `word_table` drives jobs by these steps.
#![tactic(auto)]

mod next;
mod plays;
mod steps;
mod table;
mod view;

ghost use Rattle.word_rule.specs.Given.{JobsRunOnWords, RunsOnWords};

pub use next::Next;
pub use plays::{Joining, Loading, Looking, Named, Parting, Picking, Raising, Rule};
pub use table::{WordSeat, WordTable};
pub use view::{Count, Knowledge, View};

// What the clauses here speak of: jobs, their states and the laws of these.
pub use phase_laws::{
    Job, OwnParts, cells_and_rows, full_is_ended, home, job_has_laws, opening_of, put_row,
    run_limit, runs_end, runs_take_rows, slot, turn_reached, windows_make_the_run, words_of,
    zero_elements,
};

/// Every job on a valid graph runs on words: its laws hold, what its micro-steps name is there, and no
/// counter comes to the end of its word.
pub fn jobs_run_on_words()
    ensures { JobsRunOnWords }
{}

/// A job runs on words. It does nothing.
pub fn job_runs_on_words(job: &Job)
    ensures { RunsOnWords job.now }
{
    // The clause of `program` is that a job keeps what it was made of, that of `vertices` that a flat graph is valid:
    // this is all that the law of all jobs asks for.
    let _ = job.program();
    let _ = job.flat().vertices();
}
