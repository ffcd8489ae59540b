//! The compiler, stage by stage: from the texts of an algorithm and an architecture to the program of an
//! executive.
//!
//! `stages` has the stages on one page, each over what the stages before it made. `table` reads sensor tables,
//! and `output` counts what an algorithm puts out. No stage knows of files, or of how a command ends: the
//! programs take as many stages as a command needs, and tell its errors.
//!
//! `read_checked` reads and checks macro-code from any source: it returns the program of a text if it is well
//! formed, and all that is proved of well-formed programs then holds of it. Else it returns the first refusal
//! of the text, or the first that its program lacks.
#![tactic(auto)]

mod checked_code;
mod checked_error;
mod output;
mod stages;
mod table;

pub use checked_code::read_checked;
pub use checked_error::CheckedError;
pub use output::{excess, output_width};
pub use stages::{
    Algorithm, Problem, build_program, compile_to_durations, compile_to_program, find_durations,
    find_schedule, flatten_tree, parse_algorithm, parse_architecture,
};
pub use table::parse_table;
