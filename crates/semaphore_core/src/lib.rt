//! The core of the generated executive: jobs, states of a run, and one atomic micro-step of a state. There is
//! no thread here: a state is a plain value.
//!
//! `Job::new` takes a well-formed program with what it runs on, and `run_limit` tells its limits alone;
//! `State::new` opens a state, `try_step` and `run_list` step it. The laws of runs, the steps on shared words
//! and the top call stand on this crate. For steps on other words than a state's own there are the parts of a
//! step: `next_in` and `reaction_at` find the next micro-step of a sequence, and `home` and `slot` where an
//! element lies. `OwnParts` is what the sequences of a state or of a driver have of their own: `absorb` does
//! with an element what a load does, and `emit` returns what a store stores. Its rows and desks can be laid out for
//! some operations alone, `into_parts` hands its cells and rows out, and `put_row` puts rows together. What operations
//! are computed with comes from `operation_desks`.
#![tactic(auto)]

mod answer;
mod job;
mod operations;
mod own_parts;
mod state;
mod totals;
mod words;

pub use answer::StepAnswer;
pub use job::Job;
pub use operation_desks::{opening_of, sensor_lens};
pub use operations::{cells_and_rows, put_row};
pub use own_parts::OwnParts;
pub use state::{State, home, run_list, slot, try_step};
pub use totals::{fewer_reactions_meet_no_limit, run_limit};
pub use words::{next_in, reaction_at, turn_reached, words_of, zero_elements};
