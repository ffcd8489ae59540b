//! The latencies of a schedule whose entries last as it states.
ghost use Rattle.std.specs.Prelude.{◌≡◌, ◌≤◌, IfOk};
ghost use Rattle.self_timed.specs.Told.{IsValidForSome};
ghost use Rattle.self_timed.specs.StatedLatencies.{latencies_of_schedule};

use crate::latency::{Latency, latencies};
use crate::stated::stated_dates;
use sequence_build_laws::{Archi, Flat, Schedule};
use std::alloc::Global;
use syn_base::{Items, OutOfMemory};

/// The latencies of a schedule over this many reactions, where each entry lasts as stated. The schedule is valid
/// for some durations. The time is that of `stated_dates` and of `latencies`.
pub fn schedule_latencies(
    alloc: Global,
    flat: &Flat,
    archi: &Archi,
    schedule: &Schedule,
    reactions: usize,
) -> Result<Items<Latency>, OutOfMemory>
    requires valid { IsValidForSome flat.now archi.now schedule.now }
    requires few { reactions ≤ 1000 }
    ensures { IfOk result (λ list. list ≡
        latencies_of_schedule flat.now archi.now schedule.now reactions) }
{
    let dates = stated_dates(alloc, flat, archi, schedule, reactions)?;
    latencies(alloc, flat, &dates)
}
