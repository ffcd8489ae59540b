//! Computes the pressure run: a schedule of a flat graph on an architecture that is made by
//! greedy choices, one operation at a time. It is valid, and tight: nothing waits longer than for
//! what it needs.
//!
//! `adequation` computes it, and the commands that need a schedule call it. The laws say which list
//! of decisions it is.
#![tactic(auto)]

mod choice;
mod laws;
mod proposals;
mod steps;
mod tails;

pub use laws::{
    choices_are_first, runs_are_chosen, runs_are_tight, runs_are_valid, tails_are_greatest,
    tasks_are_given,
};
pub use steps::adequation;

// What the clauses here speak of: routes.
pub use route_table::{Routes, routes_are_least, routes_of};
