//! The second pass of flattening: `guard` turns a tree without repetitions into one without cases
//! that has the same meaning.
//!
//! `flat_laws` says which tree that is, and that it has the same meaning. `hierarchy` calls `guard`.
#![tactic(auto)]

mod conditions;
mod merges;
mod pass;
mod vertices;

pub use pass::guard;
