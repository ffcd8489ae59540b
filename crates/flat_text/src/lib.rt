//! The listing of a flat graph, a line for each operation: what `syndex flat` writes.
//!
//! `print_flat` appends it to a text; `syndex_program` calls it.
#![tactic(auto)]

mod line;
mod list;
mod listing;

pub use listing::print_flat;
