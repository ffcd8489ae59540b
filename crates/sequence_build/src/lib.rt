//! The program of a schedule: `build` makes, from a valid schedule, the instructions of each sequence of the
//! architecture with the semaphores round its buffers, exactly as `sequence_build_laws` defines them, or says
//! which limit the program is above. The commands that print or run programs call it.
#![tactic(auto)]

mod around;
mod counted;
mod error;
mod limit;
mod made;
mod numbers;
mod pairs;
mod plain;
mod program;
mod site;
mod touched;
mod uses;

pub use error::BuildError;
pub use program::build;
