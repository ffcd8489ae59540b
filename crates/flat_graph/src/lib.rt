//! The flat graph of an algorithm: its operations with their sources, guards and kinds, which lists of them are
//! valid, and what each gives in each reaction.
//!
//! Flattening makes a `Flat`, which is valid as `is_flat` decides, and the executive runs its operations by `fire`.
//! The laws are contracts of functions that do nothing.
#![tactic(auto)]

mod flat;
mod forms;
mod laws;
mod lengths;
mod numbering;
mod operation;
mod order;
mod put;
mod twins;
mod valid;
mod vertex;

pub use flat::Flat;
pub use laws::{
    cells_are_kept, lengths_are_kept, outputs_are_fired, rounds_find_cycles, runs_in_windows,
    values_are_a_fixed_point,
};
pub use lengths::len_of;
pub use operation::fire;
pub use valid::is_flat;
pub use vertex::{Guard, Kind, Source, Vertex};

// What the clauses here speak of: the functions of operations, and their levels.
pub use body_lang::{Body, Ins};
