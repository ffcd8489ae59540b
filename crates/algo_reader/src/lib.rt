//! Reads the text of an algorithm, line by line, in time proportional to its size: `read_algo` returns the
//! definitions of a text or its first refusal, exactly as `algo_text` defines them.
//!
//! The commands of the program begin with it. What a line says word by word stands below, in `algo_lines`.
#![tactic(auto)]

mod function;
mod graph;
mod reader;
mod repetition;
mod switch;

pub use reader::read_algo;
