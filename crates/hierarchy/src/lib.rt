//! Flattening: `flatten` turns the tree of an algorithm into its flat graph, which has the same meaning.
//!
//! What flattening is, and what is proved of it, in the order in which a reader wants it:
//!
//! - The flat graph of a tree is a function of it, `flat_laws` `FlatOf.flat_of`: repetitions are unrolled
//!   (`Unrolled.unroll`), cases are put under guards (`Guarded.guard`), graphs are inlined
//!   (`Inlined.operations`), and the operations are numbered in order.
//! - Which operations these are, without any pass: `flat_laws` `Table.table`, unit by unit over the tree. The
//!   law `flat_laws::flat_graph_has_the_operations` says that the flat graph has exactly these, each with the
//!   sources of its inputs and the guards of the cases around it.
//! - The theorem: `KeepsGraph`, the same values at the actuators and the same cells of the delays in each
//!   reaction; from `KeepsMeaning` for the first two passes (`unroll_keeps`, `guard_keeps`), `KeepsFlat` for
//!   the third (`inline_keeps`) and `stands_keeps` for the numbering; together `flat_laws::flattened_is_flat`.
//! - Validity: each pass makes a valid tree again (`unroll_keeps_valid`, `guard_keeps_valid`), and the flat
//!   graph is valid (`stands_is_flat`); `flattened_is_flat` also has its number of operations and the lengths
//!   of its sensors and actuators.
//! - The code: `factorisation::unroll`, `conditioning::guard` and, here, `inline`; `flatten` calls the three,
//!   and its contract says all of the above of what it returns. A pass that would leave the tree as it is
//!   (`unchanged`) is not made: most algorithms have no repetition or no case.
//!
//! `find_order` finds the order in which the vertices of a level run, each after all whose values its own
//! outputs need, and the edges of a level are followed in it. `syndex_program` calls `flatten` for each command
//! that needs the flat graph.
#![tactic(auto)]

mod inlining;
mod level;
mod names;
mod numbers;
mod operation;
mod order;
mod pass;
mod proposal;
mod unchanged;
mod wires;

pub use inlining::{Inlined, inline};
pub use order::{find_order, is_vertex_ready};
pub use pass::flatten;
