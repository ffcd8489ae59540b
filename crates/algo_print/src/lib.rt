//! Prints the canonical text of an algorithm's definitions: `print_algo` appends it, and the laws say that it reads
//! back as the same definitions, the numbers of lines aside.
//!
//! The command `check` prints it.
#![tactic(auto)]

mod blocks;
mod laws;
mod lines;
mod print;
mod words;

pub use laws::{canonical_text_reads_back, lines_do_not_matter};
pub use print::print_algo;
