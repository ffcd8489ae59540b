//! The text of the dates of a schedule's reactions: when each operation and each transfer starts
//! and ends in each reaction, where they last as long as they really do.
//!
//! `dates_text` computes the dates and makes their text, which the command `dates` writes.
#![tactic(auto)]

mod dates;
mod laws;
mod line;
mod listing;
mod reaction;

pub use dates::{dates_text, repeated};
pub use laws::actual_are_within;

// What the clauses here speak of: the chart of a schedule.
pub use timing_chart::print_chart;
