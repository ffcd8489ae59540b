//! Why macro-code from another source is refused, for people: the rule that is broken first, and the lines of the text
//! that show it.
//!
//! `print_answer` appends the text of a reason that `check_places` found, or that there is none. `find_lines` finds in
//! which lines of a text the instructions of its program stand. The law says that the line of an instruction says it.
#![tactic(auto)]

mod answer;
mod laws;
mod lines;
mod text;
mod words;

pub use answer::{Asked, print_answer};
pub use laws::lines_say;
pub use lines::{Head, SequenceLines, find_lines, line_at};
