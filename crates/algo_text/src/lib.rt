//! The definitions of an algorithm as types, with the causes for which a text is refused, and what the bytes of
//! an algorithm text say: its definitions, or its first refusal with its line and cause.
//!
//! The reader of texts makes the types, the printer writes them, and every check and the resolver read them.
//! `specs/Returned` says how the error that a check returned stands to the first fault that is defined, in all
//! crates above.
//!
//! What a text says is `definitions_of` in `specs/`, with a definition for each form of line below it; texts
//! worked by hand are computed in `proofs/`. `formulas_are_grammatical` ties the expressions in such a text to
//! the grammar of expressions.
#![tactic(auto)]

mod definition;
mod fault;
mod formula;
mod laws;
mod part;

pub use definition::{Body, Case, Def, Defs, Edge, End, Frontier, FrontierLine, Output, Reference};
pub use fault::{AlgoCause, AlgoError, AlgoFault};
pub use formula::Formula;
pub use laws::formulas_are_grammatical;
pub use part::Part;

// What the clauses here speak of: expressions and their ports.
pub use body_lang::{Expr, Port};
