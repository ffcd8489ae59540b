//! The laws of pruning: each pass of flattening makes of a pruned tree what is pruned of that which it makes of
//! the whole tree, and the flat graphs are the same.
//!
//! So whoever flattens an algorithm needs the pruned tree alone, and what is said of it holds of the whole
//! tree. Marks too may be made of either. Each law is the contract of a function that does nothing;
//! `wiring_laws` has those that need no pass.
#![tactic(auto)]

mod laws;

pub use laws::{pruned_is_flattened, pruned_is_guarded, pruned_is_marked, pruned_is_unrolled};
