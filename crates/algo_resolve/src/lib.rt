//! Resolves the definitions of a text to a tree, the main graph with all that it refers to inside, or returns their
//! first refusal.
//!
//! `resolve` is its one call, which `elaboration` makes of the definitions that were read. The tree is the pruned one
//! (`wiring_laws` `Pruned.pruned`): what stands for no operation passes on its inputs, and has nothing inside. What the
//! vertices of a definition have in common is found once for each definition (`Plan`, `Passing`), so that making a
//! vertex takes time and memory in proportion to the vertex, and the whole tree is never made.
#![tactic(auto)]

mod build;
mod builder;
mod checked;
mod frontier;
mod kind;
mod leads;
mod lookup;
mod passing;
mod plan;
mod resolution;
mod sources;

pub use resolution::resolve;
