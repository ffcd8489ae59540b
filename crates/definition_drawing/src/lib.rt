//! The definitions of an algorithm in the DOT language, from which Graphviz makes a picture: each
//! sensor, actuator, constant, delay and function as a node, and each graph, switch and repetition
//! as a frame with what stands in it.
//!
//! `print_definitions` appends it.
#![tactic(auto)]

mod block;
mod definition;
mod frontier;
mod line;
mod piece;
mod word;

pub use definition::print_definitions;
