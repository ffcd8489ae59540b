//! Expressions compiled to straight code: the simulator may run the operations of a flat graph by it.
//!
//! The code works on one store of words, in which the vectors of the ports stand. Each node of an
//! expression is computed for all elements of an output at once, by one `Step`, and nothing is copied that
//! stands in the store already. `compile` grows a `Code` by an expression and returns the place of its
//! values; `Code::run` puts all values into a store, and its clause says that those are what `value` of
//! `body_lang` computes element by element.
#![tactic(auto)]

mod step;
mod straight;
#[cfg(test)]
mod tests;
mod translate;
mod writes;

pub use step::{Action, Span, Step};
pub use straight::Code;
pub use translate::compile;
