//! The timing chart of a schedule: when each operation runs on its operator, and when each value is
//! carried over a medium.
//!
//! `print_chart` appends its text, which the command `chart` writes.
#![tactic(auto)]

mod chart;
mod line;

pub use chart::print_chart;
