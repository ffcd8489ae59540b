//! Reads one line of macro-code: its words and its form, its arguments, and the names in it.
//!
//! Each function returns what `macro_code` says that the line gives, or its refusal. `code_reader` reads a whole text
//! with them.
#![tactic(auto)]

mod arguments;
mod declared;
mod fault;
mod form;
mod instruction;
mod known;
mod numbers;
mod word;
mod written;

pub use arguments::{Arguments, Declaration};
pub use declared::{read_buffer_line, read_pairs};
pub use fault::{bad_argument, bad_line, unknown_macro};
pub use form::{Form, op_form, word_form};
pub use instruction::{Ends, Moved, Operation, read_call, read_pair, read_sync, read_transfer};
pub use known::{Joined, Known};
pub use numbers::Numbers;
pub use word::{LineWords, clean_code, words};
pub use written::Written;
