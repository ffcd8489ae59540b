//! The decisions of a schedule, as plain data. `comm_routing` makes them, and all crates that
//! follow a schedule read them.
ghost use Rattle.std.specs.Prelude.{◌≡◌, map};
ghost use Rattle.schedule.specs.Acts.{acts_of, carry, latest, length_of};

use durations::Source;
use syn_base::Items;

/// A value that is carried over a medium from one operator to another. Operators and media are
/// numbered from 0, as in the architecture; dates are in ticks.
#[derive(Clone, Copy, Debug, PartialEq, Eq)]
pub struct Transfer {
    pub source: Source,
    pub medium: u32,
    pub from: u32,
    pub to: u32,
    pub start: u64,
    pub end: u64,
}

/// An operation that is placed on an operator, and the transfers that are made for it, in their order.
/// Operations are numbered from 0, as in the flat graph; dates are in ticks.
#[derive(Drop)]
pub struct Decision {
    pub op: u32,
    pub operator: u32,
    pub start: u64,
    pub end: u64,
    pub transfers: Items<Transfer>,
}

/// The decisions, in their order.
#[derive(Drop)]
pub struct Schedule {
    pub decisions: Items<Decision>,
}

impl Schedule {
    /// The latest end of operations and transfers, 0 where there is none. It takes no memory.
    pub fn length(&self) -> u64
        ensures { result ≡ length_of self.now }
    {
        latest_end(self.decisions.as_slice())
    }
}

/// The latest end of these decisions' operations and transfers.
fn latest_end(decisions: &[Decision]) -> u64
    ensures { result ≡ latest (acts_of decisions.now) }
{
    let mut latest = 0;
    for decision in decisions {
        let end = decision.end.max(latest_of(decision.transfers.as_slice()));
        latest = end.max(latest);
    }
    latest
}

/// The latest end of these transfers.
fn latest_of(transfers: &[Transfer]) -> u64
    ensures { result ≡ latest (map carry transfers.now) }
{
    let mut latest = 0;
    for transfer in transfers {
        latest = transfer.end.max(latest);
    }
    latest
}
