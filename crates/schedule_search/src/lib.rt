//! A search for schedules that are shorter than the pressure run, or whose reactions follow each other
//! faster.
//!
//! `search` returns the best of the pressure run, of the schedules on one operator alone and of a plan
//! that `plan_search` proposes, made by a draft: the shortest one, or the one with the shortest period.
//! The law says that a draft in which nothing is left to place is a valid schedule, whoever chose.
#![tactic(auto)]

mod alone;
mod laws;
mod measured;
mod replay;
mod seeking;

pub use laws::drafts_are_valid;
pub use plan_search::{Effort, Goal};
pub use seeking::search;
