//! The bodies of functions: expressions over the elements of input ports, and their values.
//!
//! `Expr` is one expression, which `body_text` reads; `Body` is those of one function, which a tree and
//! its flat graph share. `value` evaluates an expression over the vectors of `Ins`, for the simulator and
//! for the operations of a flat graph; `has_ports_below` is its check.
#![tactic(auto)]

mod body;
mod evaluate;
mod expression;
mod inputs;
mod layout;

pub use body::Body;
pub use evaluate::{has_ports_below, value};
pub use expression::{Expr, Port};
pub use inputs::Ins;
