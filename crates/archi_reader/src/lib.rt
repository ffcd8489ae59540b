//! Reads the text of an architecture, line by line, in time proportional to its size, and prints
//! the canonical text of what was read.
//!
//! `read_archi` and `print_archi` are its calls, and the commands that take an architecture's file
//! use them. `one_canonical_text` says that what is printed is read as the same. What a text says
//! is defined in `archi_defs`, whose types can be named from here too.
#![tactic(auto)]

mod durations;
mod fault;
mod joined;
mod laws;
mod names;
mod print;
mod reader;
mod whole;
mod word;

pub use archi_defs::{ArchiCause, ArchiError, ArchiFault, ArchiText, DurationLine};
pub use laws::{described_are_architectures, one_canonical_text};
pub use print::print_archi;
pub use reader::read_archi;
