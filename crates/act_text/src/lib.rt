//! The text of what the actuators take: a line for each reaction and actuator.
//!
//! `syndex_program` writes it for `sim` by `acts_text`, and for `run` the lines of one window after another by
//! `acts_text_from`. Whoever shows the same otherwise takes the names from `actuators_of`.
#![tactic(auto)]

mod names;
mod text;

pub use names::actuators_of;
pub use text::{acts_text, acts_text_from};
