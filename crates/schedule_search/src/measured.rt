//! Schedules with what is to become small of them, and the better of two.
ghost use Rattle.std.specs.Prelude.{◌≡◌, ◌≤◌, ◌⊎◌, IfOk};
ghost use Rattle.schedule_search.specs.Drafts.{IsMeasured, IsSite, IsValidIn, site_task};
ghost use Rattle.schedule_search.specs.Found.{last_half, measure};

use plan_search::{Goal, Site};
use self_timed::{Schedule, schedule_period};
use syn_base::OutOfMemory;

/// Over how many reactions a period is taken.
const REACTIONS: usize = 50;

/// A schedule with its measure: its length, or how long the last half of its reactions takes.
#[derive(Drop)]
pub(crate) struct Measured {
    pub schedule: Schedule,
    pub measure: u64,
}

/// A schedule with its measure by this goal.
pub(crate) fn with_measure(
    site: &Site,
    goal: Goal,
    schedule: Schedule,
) -> Result<Measured, OutOfMemory>
    requires site { IsSite site.now }
    requires valid { IsValidIn (site_task site.now) schedule }
    ensures measured { IfOk result (IsMeasured site.now goal) }
    ensures same { IfOk result (λ m. m.schedule ≡ schedule) }
{
    let measure = measure_of(site, goal, &schedule)?;
    Ok(Measured { schedule, measure })
}

/// The measure of a schedule by this goal.
fn measure_of(site: &Site, goal: Goal, schedule: &Schedule) -> Result<u64, OutOfMemory>
    requires site { IsSite site.now }
    requires valid { IsValidIn (site_task site.now) schedule.now }
    ensures { IfOk result (λ n. n ≡ measure goal site.now.flat.now site.now.archi.now schedule.now) }
{
    match goal {
        Goal::Length => Ok(schedule.length()),
        Goal::Period => last_half(site, schedule),
    }
}

/// How long the last half of the reactions of a schedule takes.
fn last_half(site: &Site, schedule: &Schedule) -> Result<u64, OutOfMemory>
    requires site { IsSite site.now }
    requires valid { IsValidIn (site_task site.now) schedule.now }
    ensures { IfOk result (λ n. n ≡ last_half site.now.flat.now site.now.archi.now schedule.now) }
{
    // The proof takes from this call that no duration is too long.
    let _operations = site.durations.operations();
    let period = schedule_period(site.alloc, site.flat, site.archi, schedule, REACTIONS)?;
    Ok(period.ticks)
}

/// The better of two schedules, the first where they are as good. It takes no memory.
pub(crate) fn better(one: Measured, other: Measured) -> Measured
    ensures either { (result ≡ one) ⊎ (result ≡ other) }
    ensures first { result.measure ≤ one.measure }
    ensures second { result.measure ≤ other.measure }
{
    if other.measure < one.measure {
        other
    } else {
        one
    }
}
