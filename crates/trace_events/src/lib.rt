//! The trace of a schedule in the Trace Event Format, which Perfetto and chrome://tracing show: a thread for
//! each operator and each medium, a complete event for each operation and each transfer, and a flow from each
//! transfer to those that read what it brings.
//!
//! `print_chart_trace` appends the trace of a chart. `dates_trace` computes the dates of a schedule's
//! reactions, and puts the same parts together for them, in the same lanes.
#![tactic(auto)]

mod act;
mod chart;
mod dates_laws;
mod event;
mod flow;
mod frame;
mod laws;
mod reaction;
mod trace;
mod word;

pub use act::{Traced, append_operation, append_transfer};
pub use chart::print_chart_trace;
pub use dates_laws::{dates_do_not_overlap, each_date_is_shown_once};
pub use event::{Moment, Reader};
pub use frame::{append_closing, append_lanes, append_opening};
pub use laws::{each_act_is_shown_once, lanes_do_not_overlap};
pub use trace::dates_trace;
