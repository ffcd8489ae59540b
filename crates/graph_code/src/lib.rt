//! The code of a flat graph: all values of a reaction in one store of words, and for each operation what it
//! does to them, made once.
//!
//! `GraphCode::new` finds where the outputs of each operation stand in the store, and compiles the bodies of
//! functions to straight code. `GraphCode::fire` fires one operation: it looks nothing up but its own code,
//! and copies no input. An operation with a guard that does not hold fills its outputs with zeros before
//! anything is computed. `GraphCode::input` is the value at an input, for the cells of delays and for the
//! actuators.
#![tactic(auto)]

mod fire;
mod graph;
mod operation;
mod places;
mod puts;
#[cfg(test)]
mod tests;

pub use graph::GraphCode;
pub use operation::{Operation, Output};
