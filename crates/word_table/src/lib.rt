//! The core of the executive on atomic words. A fabric is the table of a job; its drivers make
//! the micro-steps, each by one atomic step on one word. A program with threads gives each thread
//! a driver.
//!
//! `weave` makes a fabric with its drivers; `Fabric::try_micro` tries a sequence of a driver, which takes no
//! memory and waits for nobody; `Fabric::close` ends a fabric with all its drivers, and leaves a `Closed` with
//! the rows of the actuators and the cells of the delays. `Driven` keeps how many micro-steps were made on
//! closed tables, and the counts and the words of the last one. `executive_run` drives fabrics by threads.
#![tactic(auto)]

mod answer;
mod closed;
mod closing;
mod driven;
mod driver_parts;
mod fabric;
mod fabric_parts;
mod loop_place;
mod owners;
mod remains;
mod weaving;

pub use answer::MicroAnswer;
pub use closed::Closed;
pub use driven::Driven;
pub use fabric::{Driver, Fabric};
pub use weaving::weave;
