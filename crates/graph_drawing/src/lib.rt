//! Graphs in the DOT language, from which Graphviz makes pictures: the operations of a flat graph
//! with their edges.
//!
//! `print_flat_graph` appends them as they are, and `print_placed_graph` in the colours of the
//! operators and the media that a schedule gives them.
#![tactic(auto)]

mod colour;
mod flat_drawing;
mod laws;
mod legend;
mod placing;
mod statement;
mod word;

pub use flat_drawing::{print_flat_graph, print_placed_graph};
pub use laws::{drawings_show_exactly, drawings_show_once};
