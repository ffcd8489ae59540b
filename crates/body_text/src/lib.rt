//! Expressions as texts: `read_body` reads one or tells the place of the first fault, and `print_body` prints the
//! canonical text. The reader and the printer of algorithm texts use them.
//!
//! What a text is stands in `specs/` (`Reads`); the laws below say that the grammar settles it.
#![tactic(auto)]

mod body;
mod fault;
mod laws;
mod print;
mod read;
mod token;
mod word;

pub use body::read_body;
pub use fault::BodyFault;
pub use laws::{one_answer_for_text, one_expression_for_tokens, one_place_fails};
pub use print::print_body;
