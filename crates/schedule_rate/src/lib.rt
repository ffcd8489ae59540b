//! The exact rate of a schedule: in how many ticks it sustains how many reactions for ever, with
//! the certificate for it.
//!
//! `arcs_of` makes the table of what must precede each act, from the same plan as the dates;
//! `rate_of` searches it from cycle to cycle, and returns the rate, offsets that fit it, and a cycle
//! that no executive exceeds. There is no other answer than want of memory, and the laws of `rates`
//! say that there is one such rate.
#![tactic(auto)]

mod arcs;
mod rate;
#[cfg(test)]
mod tests;

pub use arcs::arcs_of;
pub use rate::rate_of;

// What the clauses here speak of: tables of arcs, and rates with their certificates.
pub use rates::{Arc, Arcs, ExactRate, Rate};
