//! Reads a text of actual durations beside an architecture: how long each operation and each
//! transfer of a schedule really lasts, or why the text is refused.
//!
//! `actual_of` reads the text; `self_timed` dates a schedule by what it returns.
#![tactic(auto)]

mod actual;
mod operators;
mod same;
mod ticks;
mod walk;

pub use actual::actual_of;
