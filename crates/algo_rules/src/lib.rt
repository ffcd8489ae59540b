//! Defines when the definitions of a text make an algorithm, and which one: the checks that link definitions to one
//! another, in their order, and the tree.
//!
//! The definitions stand in `specs/`; the code here has the types alone. The checks and the resolver stand on it.
#![tactic(auto)]

mod ports;

pub use ports::Ports;

// What the clauses here speak of: definitions, trees and references.
pub use algo_text::{
    AlgoCause, AlgoError, AlgoFault, Body, Case, Def, Defs, Edge, End, Expr, Frontier,
    FrontierLine, Output, Part, Port, Reference,
};
pub use algo_tree::{Kind, Tree, Vertex, copy_numbers, share_kind};
pub use reference_graph::{Depths, are_inside, depths_of, reaching};
