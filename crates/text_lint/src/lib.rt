//! What the texts of an algorithm and of an architecture say that is accepted and probably not meant: a finding for
//! each, with its line and its names.
//!
//! `algorithm_findings` and `architecture_findings` tell them in the order of their kinds, and of one kind in the order
//! of the lines; `print_findings` writes a line for each. What is refused is not looked at again: so no operator is told
//! to which no route leads, since no such text is accepted.
//!
//! - `algorithm line L: L1 UnusedDefinition D`: no line names the definition D at line L, which is not `main`.
//! - `algorithm line L: L2 OutsideElement F P[E] N`: an expression of the function F at line L takes the element with
//!   the number E of its input P, which has N elements: it is 0.
//! - `algorithm line L: L3 NeverTaken R V`: a constant gives the value by which the switch of the reference R at line
//!   L selects, and it is not V, the value of a case. An `otherwise` is not told.
//! - `algorithm line L: L4 UnreadDelay R`: no edge leads from the reference R at line L, which is to a delay.
//! - `architecture line L: L5 IdleDuration D O WHY`: the duration of D on the operator O changes nothing: D is
//!   `unknown`; or `timeless`, as a constant, a delay and whatever is taken apart; or `unused`, as no line names it.
//! - `architecture line L: L6 IdleOperator O`: every duration on the operator O changes nothing, so that no operation
//!   that takes time may stand there.
#![tactic(auto)]

mod durations;
mod elements;
mod finding;
mod findings;
mod known;
mod named;
mod numbers;
mod operators;
mod print;
mod switches;
mod unread;
mod unused;

pub use finding::{Finding, Why};
pub use findings::{algorithm_findings, architecture_findings};
pub use print::print_findings;
