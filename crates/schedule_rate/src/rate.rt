//! The exact rate of a schedule, by its table of arcs and the durations that it states.
ghost use Rattle.std.specs.Prelude.{◌≡◌, ◌++◌, IfOk, OnOk, map};
ghost use Rattle.self_timed.specs.Acts.{acts, acts_of, carry};
ghost use Rattle.self_timed.specs.Entries.{stated};
ghost use Rattle.self_timed.specs.Told.{IsValidForSome};
ghost use Rattle.rates.specs.ExactRates.{IsExactRateOf};
ghost use Rattle.rates.specs.Rates.{stated_at};

use crate::arcs::arcs_of;
use rates::{ExactRate, rate_of_table};
use self_timed::{Archi, Decision, Flat, Schedule, Transfer};
use std::alloc::Global;
use syn_base::OutOfMemory;

/// The exact rate of a schedule that is valid for some durations, if each act lasts as the schedule
/// states it: in how many ticks how many reactions are sustained for ever, in lowest terms; with
/// offsets that fit it, and a cycle of acts that no executive exceeds.
pub fn rate_of(
    alloc: Global,
    flat: &Flat,
    archi: &Archi,
    schedule: &Schedule,
) -> Result<ExactRate, OutOfMemory>
    requires valid { IsValidForSome flat.now archi.now schedule.now }
    ensures { IfOk result (IsExactRateOf archi.now.depth flat.now.vertices (acts schedule.now)
        (stated_at (acts schedule.now))) }
{
    // The proof takes from these calls what the architecture and the flat graph keep.
    let _operators = archi.operators();
    let _depth = archi.depth();
    let _vertices = flat.vertices();
    let arcs = arcs_of(alloc, flat, archi, schedule)?;
    let long = stated_durations(alloc, schedule.decisions.as_slice())?;
    rate_of_table(alloc, &arcs, long.as_slice())
}

/// How many ticks each act of these decisions lasts, as they state it, in the order of the acts.
fn stated_durations(alloc: Global, decisions: &[Decision]) -> Result<Vec<u64>, OutOfMemory>
    ensures { IfOk result (λ v. v.items ≡ map stated (acts_of decisions.now)) }
{
    let mut long = Vec::new(alloc);
    for decision in decisions {
        add_transfers(&mut long, decision.transfers.as_slice())?;
        long.push(decision.end.saturating_sub(decision.start))?;
    }
    Ok(long)
}

/// Appends how many ticks each of these transfers lasts.
fn add_transfers(long: &mut Vec<u64>, transfers: &[Transfer]) -> Result<(), OutOfMemory>
    ensures { OnOk result (long.new.items
        ≡ long.old.items ++ map stated (map carry transfers.now)) }
{
    for transfer in transfers {
        long.push(transfer.end.saturating_sub(transfer.start))?;
    }
    Ok(())
}
