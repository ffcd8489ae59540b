//! The dates and the period of a schedule whose entries last as it states.
ghost use Rattle.std.specs.Prelude.{◌≡◌, ◌≤◌, IfOk};
ghost use Rattle.self_timed.specs.Told.{IsValidForSome};
ghost use Rattle.self_timed.specs.Period.{AreStatedDates, period_of_schedule};

use crate::compute::dates_at_depth;
use crate::dates::Dates;
use crate::period::{Period, period_of};
use crate::ticks::stated_actual;
use sequence_build_laws::{Archi, Flat, Schedule};
use std::alloc::Global;
use syn_base::OutOfMemory;

/// When each entry of a schedule starts and ends in this many reactions, where each lasts as the
/// schedule states and waits for nothing but what must precede it. The schedule is valid for some
/// durations. The time is in proportion to the reactions and what the operations and transfers read.
pub fn stated_dates(
    alloc: Global,
    flat: &Flat,
    archi: &Archi,
    schedule: &Schedule,
    reactions: usize,
) -> Result<Dates, OutOfMemory>
    requires valid { IsValidForSome flat.now archi.now schedule.now }
    requires few { reactions ≤ 1000 }
    ensures { IfOk result (AreStatedDates flat.now archi.now schedule.now reactions) }
{
    // The proof takes from these calls that the flat graph and the architecture are valid.
    let _operators = archi.operators();
    let _depth = archi.depth();
    let operations = flat.vertices().len();
    let decisions = schedule.decisions.as_slice();
    let actual = stated_actual(alloc, operations, decisions, reactions)?;
    dates_at_depth(alloc, flat, archi, schedule, &actual)
}

/// The period of a schedule over this many reactions: how long their last half takes, where each entry
/// lasts as stated.
pub fn schedule_period(
    alloc: Global,
    flat: &Flat,
    archi: &Archi,
    schedule: &Schedule,
    reactions: usize,
) -> Result<Period, OutOfMemory>
    requires valid { IsValidForSome flat.now archi.now schedule.now }
    requires few { reactions ≤ 1000 }
    ensures { IfOk result (λ p. p ≡ period_of_schedule flat.now archi.now schedule.now reactions) }
{
    let dates = stated_dates(alloc, flat, archi, schedule, reactions)?;
    Ok(period_of(&dates))
}
