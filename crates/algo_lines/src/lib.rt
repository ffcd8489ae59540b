//! Reads the words of one line of an algorithm text: names, numbers, ends of edges, ports, values and formulas,
//! or the refusal of the line. `algo_reader` reads whole texts with it.
#![tactic(auto)]

mod fault;
mod formula;
mod names;
mod ports;
mod values;
mod word;

pub use fault::{bad_line, bad_name, bad_number, duplicate, not_text};
pub use formula::read_formula;
pub use names::add_new;
pub use ports::{Ports, read_port};
pub use values::{delay_depth, read_values};
pub use word::{line_name, read_count, read_end, read_number, read_period, read_version};
