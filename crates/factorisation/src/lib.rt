//! The first pass of flattening: `unroll` turns the tree of an algorithm into one without
//! repetitions that has the same meaning.
//!
//! `flat_laws` says which tree that is, and that it has the same meaning. `hierarchy` calls `unroll`.
#![tactic(auto)]

mod frontier;
mod lines;
mod pass;
mod vertices;

pub use pass::unroll;
