//! Self-timed dates: when each act of a schedule starts and ends in each reaction, where it waits only for what
//! has to come before it, and lasts as long as it really does; as equations with laws, and the code that
//! computes them.
//!
//! An act waits for the act before it on its operator or medium, for those that make what it reads, and for
//! those that read in another sequence what it made as many reactions before as the buffer has places. The laws
//! are contracts of functions that do nothing. `dates_of` computes the dates from an `Actual`, and returns
//! `Dates`; the command `dates` prints them. `dates_at_depth` does the same without a program.
//!
//! Where each entry lasts as the schedule states, `stated_dates` computes the dates, and `schedule_period` the
//! period, for reports and for a search that looks for a short one: how long the last half of some reactions
//! takes. `period_of` is the period of given dates.
//!
//! For each sensor, and each actuator that depends on it in the same reaction, `schedule_latencies` computes
//! how long it takes from the start of the one to the end of the other, and `latencies` the same of given
//! dates; what passes through a delay is of an earlier reaction and does not count.
#![tactic(auto)]

mod actual;
mod compute;
mod dates;
mod latency;
mod latency_laws;
mod laws;
mod layout;
mod line;
mod period;
mod period_laws;
mod reach;
mod reaction;
mod stated;
mod stated_latencies;
mod ticks;

pub use actual::Actual;
pub use compute::{dates_at_depth, dates_of};
pub use dates::{Dates, Span};
pub use latency::{Latency, latencies};
pub use latency_laws::leads_along_paths;
pub use laws::{
    buffers_have_depth, dates_are_one, entries_are_acts, entries_end_in_time,
    first_reaction_is_stated, lines_are_in_order, no_later_than_stated,
};
pub use layout::{Plan, Step, plan_of};
pub use line::{Ends, Line};
pub use period::{Period, period_of};
pub use period_laws::one_operator_has_its_length_as_period;
pub use stated::{schedule_period, stated_dates};
pub use stated_latencies::schedule_latencies;

// What the clauses here speak of: schedules and programs, and what both are made for.
pub use sequence_build_laws::{
    Archi, ArchiCause, ArchiText, Decision, DurationLine, Durations, Flat, Guard, Kind, Medium,
    MediumKind, Program, Schedule, SeqCode, Source, Transfer, Vertex, accepted_are_durations,
    durations_fit, len_of,
};
