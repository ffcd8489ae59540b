//! How long each operator would take alone.
ghost use Rattle.std.specs.Prelude.{◌≡◌, ◌≤◌, ◌<◌, ◌*◌, ℕ, IfOk, length, map, if◌then◌else◌, Some, None};
ghost use Rattle.std.specs.List.{range_with_len};
ghost use Rattle.syn_base.specs.Limits.{most_operations};
ghost use Rattle.self_timed.specs.Table.{entry_in};
ghost use Rattle.lower_bound.specs.Numbers.{alone, may_all_stand, time_alone};

use crate::ratio::{Ratio, ratio_of};
use self_timed::Durations;
use std::alloc::Global;
use syn_base::{Items, OutOfMemory};

/// How long all operations last on one operator, one after another, and how often the schedule is
/// as fast.
#[derive(Clone, Copy, Debug, PartialEq, Eq)]
pub struct Alone {
    pub time: u64,
    pub speed_up: Ratio,
}

/// By operator its time alone, where all operations may stand there, beside a schedule of this
/// length.
#[tactic(auto, using(crate::proofs::Steps::mapped_more))]
pub(crate) fn all_alone(
    alloc: Global,
    durations: &Durations,
    beside: u64,
) -> Result<Items<Option<Alone>>, OutOfMemory>
    requires { length durations.now.rows ≤ most_operations }
    ensures { IfOk result (λ list. list ≡ map (alone (entry_in durations.now) (length durations.now.rows)
        beside) (range_with_len 0 durations.now.operators)) }
{
    let mut list = Vec::with_capacity(alloc, durations.operators() as usize)?;
    for operator in 0..durations.operators() {
        list.push(alone_on(durations, operator, beside))?;
    }
    Ok(Items::new(list))
}

/// The time of an operator alone, where all operations may stand there.
fn alone_on(durations: &Durations, operator: u32, beside: u64) -> Option<Alone>
    requires { length durations.now.rows ≤ most_operations }
    ensures { result ≡ alone (entry_in durations.now) (length durations.now.rows) beside operator }
{
    let time = time_alone(durations, operator)?;
    Some(Alone {
        time,
        speed_up: ratio_of(time, beside),
    })
}

/// The sum of the durations of all operations on an operator, where all of them may stand there.
#[tactic(auto, using(crate::proofs::Steps::sum_more, crate::proofs::Steps::all_more))]
fn time_alone(durations: &Durations, operator: u32) -> Option<u64>
    requires { length durations.now.rows ≤ most_operations }
    ensures { result ≡ (if may_all_stand (entry_in durations.now) (length durations.now.rows) operator
        then Some (time_alone (entry_in durations.now) (length durations.now.rows) operator) else None) }
{
    let mut time = 0;
    for op in 0..durations.operations() as u32 {
        match durations.ticks(op, operator) {
            Some(ticks) => time += ticks,
            None => return None,
        }
    }
    Some(time)
}
