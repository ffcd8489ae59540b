//! The causes for which a text of actual durations is refused beside an architecture and its
//! schedule.
//!
//! The rules stand in `actual_durations`, and the lines that `syndex` prints are made in
//! `command_status`.
#![tactic(auto)]

mod fault;

pub use fault::{ActualError, ActualFault};
