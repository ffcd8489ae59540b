//! Macro-code, the text of an executive: `print_code` prints a program, processor by processor, as the command
//! `code` writes it, and definitions say what a text of macro-code says: its program, or its first refusal.
//!
//! `Macro` has the names of the macros. `specs/Forms` has the forms of a line and of its arguments,
//! `specs/ReadText` what is read line by line and the program that it gives. In code there are the causes of a
//! refusal and the types that definitions and readers share.
//! `code_lines` and `code_reader` read such texts, and the commands print their refusals.
#![tactic(auto)]

mod arguments;
mod ascending;
mod code;
mod fault;
mod instruction;
mod macros;
mod named;
mod numbered;
mod places;
mod processor;
mod stage;

pub use ascending::{are_followed_by, follows};
pub use code::print_code;
pub use fault::{CodeCause, CodeError, CodeFault};
pub use macros::Macro;
pub use numbered::{Numbered, Size};
pub use places::{Places, places_of};
pub use stage::Stage;
