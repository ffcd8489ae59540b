//! Runs the windows of a job, one after another. Each window is a job with a table of its own,
//! which opens with the cells that the window before it left.
//!
//! `JobWindows` knows which window is next; `run_next` runs it to its end by threads, and `go_on` passes on to the one
//! after it. The commands of `syndex_program` that run jobs go through their windows so, and memory is taken for one
//! window alone.
#![tactic(auto)]

mod windows;

pub use windows::{Drive, JobWindows, WINDOW};
