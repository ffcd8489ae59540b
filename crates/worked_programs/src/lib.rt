//! Tests of worked programs on the core, made from texts: by calls that no command makes, move by move and by one
//! driver alone. What the threads make of programs stands in the script of `worked_rows`.
//!
//! The crate has tests alone, so that the crates below are proved once.
#![tactic(auto)]

#[cfg(test)]
mod alone;
#[cfg(test)]
mod four_operators;
#[cfg(test)]
mod limits;
#[cfg(test)]
mod moves;
#[cfg(test)]
mod states;
#[cfg(test)]
mod texts;
#[cfg(test)]
mod three_operators;
#[cfg(test)]
mod two_operators;
#[cfg(test)]
mod words;
