//! The search: `search`, which looks for a schedule that is better than the pressure run.
ghost use Rattle.std.specs.Prelude.{◌≡◌, ◌≢◌, ◌≤◌, IfOk, IfSome, IsTrue};
ghost use Rattle.pressure_heuristic.specs.Adequation.{IsPressureRun};
ghost use Rattle.plan_costs.specs.declared.site.Goal.TheVariants.{Length, Period};
ghost use Rattle.self_timed.specs.Fitting.{IsOf};
ghost use Rattle.self_timed.specs.Table.{entry_in};
ghost use Rattle.self_timed.specs.ScheduleValid.{is_valid};
ghost use Rattle.schedule_search.specs.Alone.{IsLowAlone};
ghost use Rattle.schedule_search.specs.Drafts.{IsMeasured, IsSite, IsValidIn, site_task};
ghost use Rattle.schedule_search.specs.Found.{IsNoLongerThanAlone, IsNoLongerThanRun, IsNoSlowerThanAlone, IsNoSlowerThanRun, measure};

use crate::alone::best_alone;
use crate::measured::{Measured, better, with_measure};
use crate::replay::replay;
use plan_search::{Effort, Site, Stand, propose};
use pressure_heuristic::{adequation, routes_of};
use self_timed::{Archi, Durations, Flat, Schedule};
use std::alloc::Global;
use syn_base::OutOfMemory;

/// A schedule of a flat graph on an architecture that is likely good by the goal of the effort. The
/// durations are those of the flat graph and the architecture. The schedule is valid. Without a try it
/// is the pressure run. Where the length is the goal, it is no longer than the pressure run, and with a
/// try no longer than all operations together last on an operator on which each may stand. Where the
/// period is the goal, the last 25 of 50 reactions take no longer than those of the pressure run, and
/// with a try no longer than 25 times what all operations together last on such an operator. The same
/// effort gives the same schedule.
pub fn search(
    alloc: Global,
    flat: &Flat,
    archi: &Archi,
    durations: &Durations,
    effort: Effort,
) -> Result<Schedule, OutOfMemory>
    requires { IsOf flat.now archi.now durations.now }
    ensures valid { IfOk result (λ s. IsTrue (is_valid flat.now archi.now (entry_in durations.now) s)) }
    ensures shorter { effort.goal ≡ Length →
        IfOk result (IsNoLongerThanRun flat.now archi.now durations.now) }
    ensures alone { effort.goal ≡ Length → effort.tries ≢ 0 →
        IfOk result (IsNoLongerThanAlone flat.now archi.now (entry_in durations.now)) }
    ensures faster { effort.goal ≡ Period →
        IfOk result (IsNoSlowerThanRun flat.now archi.now durations.now) }
    ensures faster_alone { effort.goal ≡ Period → effort.tries ≢ 0 →
        IfOk result (IsNoSlowerThanAlone flat.now archi.now (entry_in durations.now)) }
    ensures none { effort.tries ≡ 0 → IfOk result (IsPressureRun flat.now archi.now durations.now) }
{
    let run = adequation(alloc, flat, archi, durations)?;
    if effort.tries == 0 {
        return Ok(run);
    }
    let routes = routes_of(alloc, archi)?;
    let site = Site {
        alloc,
        flat,
        archi,
        durations,
        routes: &routes,
    };
    improved(&site, run, effort)
}

/// The best of a schedule, of those on one operator alone and of the one that is proposed.
fn improved(site: &Site, first: Schedule, effort: Effort) -> Result<Schedule, OutOfMemory>
    requires site { IsSite site.now }
    requires valid { IsValidIn (site_task site.now) first }
    ensures valid { IfOk result (IsValidIn (site_task site.now)) }
    ensures first { IfOk result (λ s. measure effort.goal site.now.flat.now site.now.archi.now s
        ≤ measure effort.goal site.now.flat.now site.now.archi.now first) }
    ensures alone { IfOk result (λ s. IsLowAlone (site_task site.now) effort.goal
        (measure effort.goal site.now.flat.now site.now.archi.now s)) }
{
    let first = with_measure(site, effort.goal, first)?;
    let best = best_alone(site, effort.goal, first)?;
    let best = better_proposed(site, best, effort)?;
    Ok(best.schedule)
}

/// The better of a schedule and of the one that is proposed, if there is one.
fn better_proposed(site: &Site, best: Measured, effort: Effort) -> Result<Measured, OutOfMemory>
    requires site { IsSite site.now }
    requires measured { IsMeasured site.now effort.goal best }
    ensures measured { IfOk result (IsMeasured site.now effort.goal) }
    ensures first { IfOk result (λ m. m.measure ≤ best.measure) }
{
    match proposed(site, &best.schedule, effort)? {
        Some(found) => Ok(better(best, with_measure(site, effort.goal, found)?)),
        None => Ok(best),
    }
}

/// The schedule that is proposed after this one, if it can be placed.
fn proposed(site: &Site, start: &Schedule, effort: Effort) -> Result<Option<Schedule>, OutOfMemory>
    requires { IsSite site.now }
    ensures { IfOk result (λ o. IfSome o (IsValidIn (site_task site.now))) }
{
    let start = stands_of(site.alloc, start)?;
    let plan = propose(site, &start, effort)?;
    replay(site, &plan)
}

/// The plan by which a schedule was made.
fn stands_of(alloc: Global, schedule: &Schedule) -> Result<Vec<Stand>, OutOfMemory> {
    let mut stands = Vec::new(alloc);
    for decision in schedule.decisions.as_slice() {
        stands.push(Stand {
            op: decision.op,
            operator: decision.operator,
        })?;
    }
    Ok(stands)
}
