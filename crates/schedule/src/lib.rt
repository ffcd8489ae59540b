//! Schedules: where and when each operation of a flat graph runs, and which values are carried over
//! which media; with an exact check of whether a schedule is valid.
//!
//! `is_valid` is the check, and `Schedule::length` is a schedule's latest end. Schedules are made
//! by `comm_routing` and `pressure_heuristic`, and read by `timing_chart` and by whoever builds
//! programs.
#![tactic(auto)]

mod check;
mod decision;
mod laws;
mod line;
mod setting;
mod window;

pub use check::is_valid;
pub use decision::{Decision, Schedule, Transfer};
pub use laws::tight_act_by_act;

// What the clauses here speak of: flat graphs, architectures and durations.
pub use durations::{
    Archi, ArchiCause, ArchiError, ArchiText, DurationLine, Durations, Flat, Given, Guard, Hop,
    Kind, Medium, MediumKind, Seq, Source, Vertex, accepted_are_durations, durations_fit,
    durations_of, entry, is_archi, is_flat, len_of,
};
