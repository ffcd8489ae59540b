//! The laws of wiring: a unit that stands for no operation gives at each output one of its inputs, and which
//! one follows from its definition alone (`Wiring.wiring`).
//!
//! The pruned tree of a main graph has, in the place of each such unit, a graph that passes on the same inputs
//! and has nothing inside (`Pruned.pruned`). It means the same, is valid and keeps its names. Its size follows
//! from the operations and from how deep and wide the tree is. Each law is the contract of a function that
//! does nothing. `pruning_laws` says what the passes of flattening make of the pruned tree.
#![tactic(auto)]

mod laws;

pub use laws::{
    definitions_lead, pruned_is_a_tree, pruned_is_small, pruned_keeps, wiring_fits, wiring_is_meant,
};
