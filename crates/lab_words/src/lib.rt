//! The commands of `syndex_lab`, and which one the words of a command line are, as `clap` reads them. The
//! program calls `command_of` first; the table of commands stands in `table`, and what their words mean in
//! `specs/Command`. `help_text` lists them for a reader.
#![tactic(auto)]

mod app;
mod commands;
mod given;
mod help;
mod table;

pub use commands::{Command, Effort, Form, Goal, Subject};
pub use given::command_of;
pub use help::help_text;
pub use table::AlgorithmText;
