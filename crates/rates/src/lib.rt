//! The rates of self-timed executives: in how many ticks the acts of a schedule sustain how many
//! reactions for ever, and the cycles of acts that no executive exceeds; as definitions with laws,
//! with the checks of both and the search for the exact rate.
//!
//! What must precede an act is an arc to another act, with the number of reactions between them.
//! Offsets that fit each arc bound all dates of all reactions from above; a cycle of arcs bounds
//! them from below. If both have the same rate, it is exact. The laws are contracts of functions
//! that do nothing. `is_sustained` and `is_critical_cycle` check offsets and a cycle over a table
//! of arcs, and `rate_of_table` finds the exact rate with both.
#![tactic(auto)]

mod check;
mod exact_rate;
mod laws;
mod search;
mod table;

pub use check::{is_critical_cycle, is_sustained};
pub use exact_rate::{ExactRate, rate_of_table};
pub use laws::{
    arcs_are_needs, chart_is_sustained, clock_keeps_order, critical_cycles_are_exact,
    cycle_is_tested, cycles_take_reactions, every_rate_is_sustained_or_exceeded,
    exact_rates_are_one, no_executive_is_faster, no_rate_is_below_a_cycle, rates_are_sustained,
    some_rate_is_exact, sustained_is_tested, sustains_is_of_needs, tables_are_tested,
};
pub use table::{Arc, Arcs, Rate};
