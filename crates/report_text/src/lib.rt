//! The text of a report, for whoever compares schedules.
//!
//! `print_report` appends it, of all `Figures` of a schedule: lines of words, of which the first says what
//! the line tells.
#![tactic(auto)]

mod beside;
mod bound;
mod figures;
mod line;
mod period;
mod reaction;
mod report;

pub use figures::{Figures, Pace};
pub use report::print_report;
