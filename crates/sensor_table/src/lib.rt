//! The table of the sensors: `read_sensors` reads its text with `csv` and returns the rows that it gives for
//! the sensors of a tree, or its first refusal. The commands that run an algorithm begin with it.
//!
//! `template_text` writes the table that an algorithm wants, to be filled in: its header and one reaction in
//! which every element is 0. It is written as `csv` writes records, and reads back as that reaction
//! (`templates_read_back`).
#![tactic(auto)]

mod fault;
mod header;
mod line;
mod records;
mod rows;
mod table;
mod template;
mod template_laws;

pub use fault::{SensorCause, SensorError, SensorFault};
pub use header::table_header;
pub use table::read_sensors;
pub use template::template_text;
pub use template_laws::templates_read_back;
