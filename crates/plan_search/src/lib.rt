//! An untrusted search for a plan of short length or period: an order of the operations, and an operator
//! for each.
//!
//! `propose` begins with a plan that it is given. It tries list schedules by upward ranks over groups of
//! operators, chains of operations each on one operator, and for a short period pipelines. Then it changes
//! the best one at random: threshold accepting along the chain of operations that fixes the length, or
//! along the line or the cycle that fixes the period, which it takes from some reactions of the plan. No
//! clause speaks of what it computes, beyond that it is safe and ends: `schedule_search` places what is
//! proposed by a draft, and gives up what cannot be placed.
#![tactic(auto)]

mod annealing;
mod clusters;
mod crowds;
mod depth_first;
mod effort;
mod filling;
mod groups;
mod homes;
mod listing;
mod moves;
mod pipelines;
mod proposal;
mod random;
mod ranks;
mod stages;

pub use effort::Effort;
pub use plan_costs::{Goal, Site, Stand};
pub use proposal::propose;
