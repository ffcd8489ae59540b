//! The causes for which `macro_check` refuses a program.
//!
//! They stand apart from the checks, so that the line of a command that names a cause is written without them.
#![tactic(auto)]

mod cause;

pub use cause::{CheckCause, Stop};
