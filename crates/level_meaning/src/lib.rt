//! Defines what one level of an algorithm computes in a reaction, from what its nodes compute.
//! Resolved trees and flat graphs share this definition.
//!
//! `Part`, `Source`, `Guard`, `Feed` and `Give` are the parts of both. The laws say when the values
//! of a level are determined: more fuel changes none (`enough_fuel`), one table has them
//! (`one_table`), and a level has no cycle exactly where no node reaches itself
//! (`no_cycle_by_reaching`).
#![tactic(auto)]

mod frontier;
mod laws;
mod part;
mod source;

pub use frontier::{Feed, Give};
pub use laws::{enough_fuel, no_cycle_by_reaching, no_cycle_in_order, one_table};
pub use part::Part;
pub use source::{Guard, Source};
