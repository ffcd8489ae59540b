//! How busy operators and media are.
ghost use Rattle.std.specs.Prelude.{◌≡◌, ◌≤◌, ◌<◌, ℕ, IfOk, if◌then◌else◌, length, map, nat_eq};
ghost use Rattle.std.specs.List.{range_with_len};
ghost use Rattle.lower_bound.specs.Numbers.{busy, load, loads};
ghost use Rattle.self_timed.specs.Acts.{acts, acts_of, carry, is_on, is_over, length_of, run};
ghost use Rattle.self_timed.specs.Entries.{stated};

use crate::ratio::{Ratio, ratio_of};
use self_timed::{Decision, Schedule, Transfer};
use std::alloc::Global;
use syn_base::{Items, OutOfMemory};

/// How many ticks an operator or a medium is busy, and their share of the length.
#[derive(Clone, Copy, Debug, PartialEq, Eq)]
pub struct Load {
    pub busy: u64,
    pub share: Ratio,
}

/// The loads of this many operators, by number.
#[tactic(auto, using(crate::proofs::Steps::mapped_more))]
pub(crate) fn operator_loads(
    alloc: Global,
    schedule: &Schedule,
    operators: usize,
) -> Result<Items<Load>, OutOfMemory>
    requires { (o : ℕ) → busy (is_on o) (acts schedule.now) ≤ length_of schedule.now }
    ensures { IfOk result (λ list. list ≡ loads is_on operators schedule.now) }
{
    let length = schedule.length();
    let decisions = schedule.decisions.as_slice();
    let mut loads = Vec::with_capacity(alloc, operators)?;
    for operator in 0..operators {
        let busy = busy_on(decisions, operator, length);
        loads.push(load_of(busy, length))?;
    }
    Ok(Items::new(loads))
}

/// The loads of this many media, by number.
#[tactic(auto, using(crate::proofs::Steps::mapped_more))]
pub(crate) fn medium_loads(
    alloc: Global,
    schedule: &Schedule,
    media: usize,
) -> Result<Items<Load>, OutOfMemory>
    requires { (m : ℕ) → busy (is_over m) (acts schedule.now) ≤ length_of schedule.now }
    ensures { IfOk result (λ list. list ≡ loads is_over media schedule.now) }
{
    let length = schedule.length();
    let decisions = schedule.decisions.as_slice();
    let mut loads = Vec::with_capacity(alloc, media)?;
    for medium in 0..media {
        let busy = busy_over(decisions, medium, length);
        loads.push(load_of(busy, length))?;
    }
    Ok(Items::new(loads))
}

/// The load of a line that is busy for this time.
fn load_of(busy: u64, length: u64) -> Load
    ensures { result ≡ load length busy }
{
    Load {
        busy,
        share: ratio_of(busy, length),
    }
}

/// The time of the operations on an operator, of which it is known that it is at most this.
fn busy_on(decisions: &[Decision], operator: usize, most: u64) -> u64
    requires { busy (is_on operator) (acts_of decisions.now) ≤ most }
    ensures { result ≡ busy (is_on operator) (acts_of decisions.now) }
{
    let mut busy = 0;
    for decision in decisions {
        busy += time_on(decision, operator);
    }
    busy
}

/// The time of an operation, where it is on this operator.
fn time_on(decision: &Decision, operator: usize) -> u64
    ensures { result ≡ (if nat_eq decision.now.operator operator then stated (run decision.now) else 0) }
{
    if decision.operator as usize == operator {
        decision.end.saturating_sub(decision.start)
    } else {
        0
    }
}

/// The time of the transfers over a medium, of which it is known that it is at most this.
fn busy_over(decisions: &[Decision], medium: usize, most: u64) -> u64
    requires { busy (is_over medium) (acts_of decisions.now) ≤ most }
    ensures { result ≡ busy (is_over medium) (acts_of decisions.now) }
{
    let mut busy = 0;
    for decision in decisions {
        busy += carried_over(decision.transfers.as_slice(), medium, most);
    }
    busy
}

/// The time of those of these transfers that go over a medium, of which it is known that it is at
/// most this.
#[tactic(auto, using(crate::proofs::Steps::carried_step))]
fn carried_over(transfers: &[Transfer], medium: usize, most: u64) -> u64
    requires { busy (is_over medium) (map carry transfers.now) ≤ most }
    ensures { result ≡ busy (is_over medium) (map carry transfers.now) }
{
    let mut busy = 0;
    for transfer in transfers {
        busy += time_over(*transfer, medium);
    }
    busy
}

/// The time of a transfer, where it is over this medium.
fn time_over(transfer: Transfer, medium: usize) -> u64
    ensures { result ≡ (if nat_eq transfer.medium medium then stated (carry transfer) else 0) }
{
    if transfer.medium as usize == medium {
        transfer.end.saturating_sub(transfer.start)
    } else {
        0
    }
}
