//! Schedules on one operator alone.
ghost use Rattle.std.specs.Prelude.{◌≡◌, ◌≤◌, [], IfOk, IfSome, IsNone, IsTrue, length};
ghost use Rattle.comm_routing.specs.Draft.{task_of};
ghost use Rattle.comm_routing.specs.Placing.{may_place};
ghost use Rattle.self_timed.specs.Acts.{acts_of};
ghost use Rattle.schedule_search.specs.Alone.{IsAlone, IsLowAlone, IsLowOn, MayAllStandOn, SoFar, when};
ghost use Rattle.schedule_search.specs.Drafts.{IsDone, IsMeasured, IsSite, IsUnderWay, IsValidIn, site_task};

use crate::measured::{Measured, better, with_measure};
use crate::replay::{open, whole};
use comm_routing::Draft;
use plan_search::{Goal, Site};
use self_timed::{Schedule, one_operator_has_its_length_as_period};
use syn_base::OutOfMemory;

/// The best of a schedule and of those on one operator alone.
pub(crate) fn best_alone(site: &Site, goal: Goal, first: Measured) -> Result<Measured, OutOfMemory>
    requires site { IsSite site.now }
    requires measured { IsMeasured site.now goal first }
    ensures measured { IfOk result (IsMeasured site.now goal) }
    ensures first { IfOk result (λ m. m.measure ≤ first.measure) }
    ensures alone { IfOk result (λ m. IsLowAlone (site_task site.now) goal m.measure) }
{
    let mut best = first;
    for operator in 0..site.durations.operators() {
        best = better_alone(site, goal, best, operator)?;
    }
    Ok(best)
}

/// The better of a schedule and the one on this operator alone, if there is one.
fn better_alone(
    site: &Site,
    goal: Goal,
    best: Measured,
    operator: u32,
) -> Result<Measured, OutOfMemory>
    requires site { IsSite site.now }
    requires measured { IsMeasured site.now goal best }
    ensures measured { IfOk result (IsMeasured site.now goal) }
    ensures first { IfOk result (λ m. m.measure ≤ best.measure) }
    ensures alone { IfOk result (λ m. IsLowOn (site_task site.now) goal operator m.measure) }
{
    match alone(site, operator)? {
        Some(schedule) => Ok(better(best, lone(site, goal, schedule, operator)?)),
        None => Ok(best),
    }
}

/// The measure of a schedule on this operator alone.
fn lone(site: &Site, goal: Goal, schedule: Schedule, operator: u32) -> Result<Measured, OutOfMemory>
    requires site { IsSite site.now }
    requires valid { IsValidIn (site_task site.now) schedule }
    requires alone { IsAlone (site_task site.now) operator (Some schedule) }
    ensures measured { IfOk result (IsMeasured site.now goal) }
    ensures alone { IfOk result (λ m. IsLowOn (site_task site.now) goal operator m.measure) }
{
    one_operator_has_its_length_as_period();
    // The proof takes from this call that buffers have a place.
    let _depth = site.archi.depth();
    with_measure(site, goal, schedule)
}

/// The schedule on this operator alone, `None` where not all operations may stand there.
fn alone(site: &Site, operator: u32) -> Result<Option<Schedule>, OutOfMemory>
    requires { IsSite site.now }
    ensures valid { IfOk result (λ o. IfSome o (IsValidIn (site_task site.now))) }
    ensures alone { IfOk result (IsAlone (site_task site.now) operator) }
{
    let operations = site.durations.operations();
    let draft = open(site)?;
    place_on(draft, operations, operator)
}

/// Places this many operations on one operator, the least candidate first.
fn place_on(draft: Draft, operations: usize, operator: u32) -> Result<Option<Schedule>, OutOfMemory>
    requires draft { IsUnderWay draft }
    requires first { draft.decisions ≡ [] }
    requires all { operations ≡ length draft.graph.vertices }
    ensures valid { IfOk result (λ o. IfSome o (IsValidIn (task_of draft.entry))) }
    ensures alone { IfOk result (IsAlone (task_of draft.entry) operator) }
{
    let mut draft = draft;
    for _decision in 0..operations {
        match next_on(&draft, operator) {
            Some(op) => draft.place(op, operator)?,
            None => return Ok(whole(draft)),
        }
    }
    Ok(whole(draft))
}

/// The least candidate, where it may stand on this operator.
fn next_on(draft: &Draft, operator: u32) -> Option<u32>
    requires { IsUnderWay draft.now }
    ensures may { IfSome result (λ op. IsTrue (may_place (task_of draft.now)
        (acts_of draft.now.decisions) op operator)) }
    ensures none { IsNone result → SoFar (task_of draft.now) operator draft.now.decisions
        → MayAllStandOn (task_of draft.now) operator
        → IsDone (task_of draft.now) draft.now.decisions }
{
    match draft.ready().first() {
        Some(op) => if_may_place(draft, *op, operator),
        None => None,
    }
}

/// The operation, where it may stand on this operator.
fn if_may_place(draft: &Draft, op: u32, operator: u32) -> Option<u32>
    ensures { result ≡ when (may_place (task_of draft.now) (acts_of draft.now.decisions) op operator) op }
{
    if draft.may_place(op, operator) {
        Some(op)
    } else {
        None
    }
}
