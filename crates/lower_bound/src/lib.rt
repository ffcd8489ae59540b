//! The numbers of a schedule: a bound below the length of every schedule of a flat graph on an architecture,
//! which tells how far a schedule is at most from the best one, how busy operators and media are, and how long
//! each operator would take alone.
//!
//! `lower_bound` computes the bound, and the laws say that no valid schedule is shorter, so that no run of
//! `pressure_heuristic` is (`no_run_is_shorter`). Reports write it beside the length of a schedule. `chain_of`
//! tells the operations of a longest chain.
//!
//! `report_of` computes the other numbers, and the law says that no line is busier than the schedule is long.
//! `transfers_of` counts transfers. `busiest_line` finds which operator or medium is busy for longest, and for
//! which share of a period of `self_timed`: where it is busy all the time, it bounds the period.
#![tactic(auto)]

mod alone;
mod arrivals;
mod bound;
mod busiest;
mod chains;
mod laws;
mod links;
mod load_laws;
mod loads;
mod pressure_laws;
mod ratio;
mod report;
mod transfers;
mod work;

pub use alone::Alone;
pub use bound::lower_bound;
pub use busiest::{Busiest, Line, busiest_line};
pub use laws::{chain_lasts_longest, no_valid_schedule_is_shorter, transfers_only_lengthen};
pub use links::{Link, chain_of};
pub use load_laws::no_line_is_overfull;
pub use loads::Load;
pub use pressure_laws::no_run_is_shorter;
pub use ratio::{Ratio, ratio_of};
pub use report::{Report, report_of};
pub use transfers::{Transfers, transfers_of};
