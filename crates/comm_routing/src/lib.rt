//! The placement of an operation on an operator: its transfers along the least routes, and its
//! dates.
//!
//! `Draft` keeps the decisions so far with the candidates and their arrivals; `pressure_heuristic`
//! chooses by it. The laws say that a placement keeps the decisions right, and that arrivals are
//! found by tables.
#![tactic(auto)]

mod ascending;
mod board;
mod candidates;
mod dependents;
mod draft;
mod laws;
mod listing;
mod placing;
mod progress;
mod reach;
mod reads;
mod site;
mod start;

pub use draft::Draft;
pub use laws::{
    arrivals_are_in_tables, arrivals_are_kept, arrivals_are_walked, placements_are_in_tables,
    placements_are_right, placements_land,
};
