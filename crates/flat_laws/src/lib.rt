//! The flat graph of a tree as a function of it (`FlatOf.flat_of`), and the laws that it keeps the meaning of
//! the tree (`KeepsGraph`), is valid, and has sensors and actuators of the same lengths.
//!
//! `flattened_is_flat` has all of these. `hierarchy` makes the graph. It is made in steps, each with its laws:
//!
//! - Each repetition is unrolled (`Unrolled.unroll`), which keeps the meaning, validity and names. The explodes
//!   of a repetition stand in the order of its lines (`Lines`). `factorisation` makes this tree.
//! - Cases are put under guards (`Guarded.guard`), which keeps the same. Each operation carries the guards of
//!   the cases around it (`Carries`). `conditioning` makes this tree.
//! - The operations of a tree without repetitions and cases are listed (`Inlined.operations`). The list has a
//!   meaning (`Flat`), which is that of the tree.
//! - The operations of the list are numbered in order (`Stands`).
//!
//! The table of the operations of an algorithm (`Table.table`) goes unit by unit over its tree, and the flat
//! graph has exactly these (`flat_graph_has_the_operations`). A row has the sources of its inputs and of its
//! conditions too, by name: each is followed over the tree to an output of an operation (`Origins.origin_in`).
//! The definitions of the table know no pass of flattening, and each pass keeps what they say. By them
//! `hierarchy` says what `flatten` returns.
#![tactic(auto)]

mod guarding;
mod inlining;
mod laws;
mod operations;
mod unrolling;

pub use guarding::{guard_keeps, guard_keeps_valid, guards_are_carried};
pub use inlining::{cells_by_number, inline_keeps};
pub use laws::{
    flattened_is_flat, no_repeat_no_case_is_plain, stands_has_no_cycle, stands_is_exact,
    stands_is_flat, stands_is_numbered, stands_keeps,
};
pub use operations::flat_graph_has_the_operations;
pub use unrolling::{unroll_keeps, unroll_keeps_valid};
