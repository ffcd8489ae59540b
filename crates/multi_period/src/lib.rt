//! References of the main graph that run only in each nth reaction, turned into graphs of the plain language.
//!
//! `Mark` says which reference runs when, and `periods` makes the tree in which each of them has become a graph
//! that counts the reactions and keeps the last outputs. The laws say that this tree does what the meaning with
//! marks says.
#![tactic(auto)]

mod copies;
mod count;
mod fault;
mod graph;
mod laws;
mod mark;
mod pass;
mod ports;
mod table;

pub use fault::PeriodError;
pub use laws::{
    nothing_marked, periods_are_trees, periods_keep_the_meaning, periods_keep_values,
    unmarked_trees_stay,
};
pub use mark::Mark;
pub use pass::periods;
