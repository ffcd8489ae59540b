//! The simulator: it computes the synchronous meaning of an algorithm, reaction by reaction.
//!
//! `simulate` makes the flat graph of a tree, of which `hierarchy` says that its meaning is the tree's, and
//! runs it with `run_flat`. This finds an order in which each operation stands after all that it reads, lays
//! out what the operations read, give and keep, and in each reaction fires them in this order. It knows no
//! operator, schedule, buffer or semaphore. `syndex_program` calls `simulate` for `sim`.
#![tactic(auto)]

mod layout;
mod order;
mod proposal;
mod reaction;
mod run;
mod simulator;
mod values;

pub use run::run_flat;
pub use simulator::simulate;
