//! What is to be scheduled, on what, and what is to become short.
use durations::{Archi, Durations, Flat};
use route_table::Routes;
use std::alloc::Global;

/// A flat graph, an architecture with its routes, how long operations last, and where memory is taken.
#[derive(Clone, Copy)]
pub struct Site<'a> {
    pub alloc: Global,
    pub flat: &'a Flat,
    pub archi: &'a Archi,
    pub durations: &'a Durations,
    pub routes: &'a Routes,
}

/// What is to become short.
#[derive(Clone, Copy, Debug, PartialEq, Eq)]
pub enum Goal {
    /// The time from the start of a reaction to its end.
    Length,
    /// The time from one reaction to the next, where each operation and each transfer starts as soon as it may.
    Period,
}

/// An operation on an operator. A plan is a list of these, in the order in which they are placed.
#[derive(Clone, Copy, Debug, PartialEq, Eq)]
pub struct Stand {
    pub op: u32,
    pub operator: u32,
}
