//! What a report tells.

use lower_bound::{Busiest, Link, Report, Transfers};
use self_timed::{Latency, Period};
use syn_base::Items;

/// How long a schedule is, and how fast its reactions follow each other.
#[derive(Clone, Copy, Debug, PartialEq, Eq)]
pub struct Pace {
    pub length: u64,
    pub period: Period,
}

/// All figures of a report on a schedule.
#[derive(Drop)]
pub struct Figures {
    pub numbers: Report,
    pub transfers: Transfers,
    /// That of the pressure run, beside which a schedule stands that was searched.
    pub beside: Option<Pace>,
    pub period: Period,
    pub busiest: Busiest,
    pub latencies: Items<Latency>,
    /// The operations of a longest chain, from the first to the last.
    pub chain: Items<Link>,
}
