//! Reads macro-code in time proportional to its size: `read_code` returns the program of a text, or its first refusal.
//!
//! The commands that take code from outside use it. What a text says is defined in `macro_code`, whose types can be
//! named from here too; `code_lines` reads one line.
#![tactic(auto)]

mod counts;
mod lines;
mod macros;
mod reader;
mod stage;
mod whole;
mod written;

pub use lines::read_code;
pub use macro_code::{CodeCause, CodeError, CodeFault};
