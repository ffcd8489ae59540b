//! Laws about the definitions of every accepted text, before any of them is linked to another (their bounds,
//! their number, and that each name is given once), and laws of resolving: definitions that are not refused
//! make a valid tree.
//!
//! Whoever reads a text and resolves its definitions has by them all that `resolve` asks for. `algo_resolve`
//! calls those of resolving where it makes the tree, and the laws of marks and of elaborated trees stand on
//! them. Each law is the contract of a function that does nothing. Worked texts are resolved in `proofs/`.
#![tactic(auto)]

mod reading;
mod resolving;

pub use reading::{accepted_are_few, accepted_are_well_read, accepted_have_periods};
pub use resolving::{
    accepted_make_a_tree, named_are_less_deep, operations_are_counted, ports_follow_from_bodies,
};

// What the clauses here speak of: definitions, trees and the rules between them.
pub use algo_rules::{
    AlgoCause, AlgoError, AlgoFault, Body, Case, Def, Defs, Depths, Edge, End, Frontier,
    FrontierLine, Kind, Output, Port, Ports, Reference, Tree, Vertex, are_inside, copy_numbers,
    depths_of, share_kind,
};
pub use level_meaning::{Feed, Give, Guard, Part, Source};
