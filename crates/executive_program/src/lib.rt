//! Programs of an executive: the instructions of each sequence, their micro-steps, where things
//! stand in a program, and when it is well formed. States, jobs and runs are defined above it.
//!
//! `micro_steps_of` lays the micro-steps of a program out; `turn_micros` counts those of one reaction without
//! laying them out, and `pair_depths` tells how many places the buffer of each pair has. `plain_prologues`,
//! `plain_turns` and `deep_pairs` count without memory. `wire_len` tells how long the wire of a medium is.
//! Whoever makes, reads, checks or runs programs stands on this crate.
#![tactic(auto)]

mod expand;
mod pairs;
mod program;
mod sizes;
mod steps;
mod wires;

pub use expand::{SeqSteps, buffer_depth, buffer_len, elements_in, micro_steps_of};
pub use pairs::pair_depths;
pub use program::{Buffer, Instr, Program, SeqCode};
pub use sizes::{deep_pairs, plain_prologues, plain_turns, turn_micros, words};
pub use steps::{MicroStep, OnLoad, OnStore, Place};
pub use wires::wire_len;

// What the clauses here speak of: flat graphs, architectures and interleavings.
pub use archi_graph::{Archi, Medium, MediumKind, Seq};
pub use flat_graph::{Flat, Guard, Ins, Kind, Source, Vertex, fire, len_of};
