//! The schedule of a plan, made by a draft.
ghost use Rattle.std.specs.Prelude.{◌≡◌, IfOk, IfSome, IsSome, IsTrue};
ghost use Rattle.comm_routing.specs.Draft.{Drafted, task_of};
ghost use Rattle.comm_routing.specs.Task.{Task};
ghost use Rattle.schedule_search.specs.Drafts.{IsDone, IsSite, IsUnderWay, IsValidIn, opened, site_task};

use comm_routing::Draft;
use plan_search::{Site, Stand};
use self_timed::Schedule;
use syn_base::OutOfMemory;

/// The schedule of a plan, or `None` where an operation cannot be placed as it says, or is left out.
pub(crate) fn replay(site: &Site, plan: &[Stand]) -> Result<Option<Schedule>, OutOfMemory>
    requires { IsSite site.now }
    ensures { IfOk result (λ o. IfSome o (IsValidIn (site_task site.now))) }
{
    let draft = open(site)?;
    place_all(draft, plan)
}

/// A draft in which nothing is decided so far.
pub(crate) fn open<'a>(site: &Site<'a>) -> Result<Draft<'a>, OutOfMemory>
    requires { IsSite site.now }
    ensures opened { IfOk result (λ d. d ≡ opened site.now) }
    ensures given { IfOk result (λ d. IsUnderWay d) }
{
    // The proof takes from these calls that the parts are valid.
    let _vertices = site.flat.vertices();
    let _operators = site.archi.operators();
    let _operations = site.durations.operations();
    Draft::new(
        site.alloc,
        site.flat,
        site.archi,
        site.durations,
        site.routes,
    )
}

/// Places the operations of a plan, one after another.
fn place_all(draft: Draft, plan: &[Stand]) -> Result<Option<Schedule>, OutOfMemory>
    requires { IsUnderWay draft }
    ensures { IfOk result (λ o. IfSome o (IsValidIn (task_of draft.entry))) }
{
    let mut draft = draft;
    for stand in plan {
        if !draft.may_place(stand.op, stand.operator) {
            return Ok(None);
        }
        draft.place(stand.op, stand.operator)?;
    }
    Ok(whole(draft))
}

/// The schedule of a draft, where nothing is left to place.
pub(crate) fn whole(draft: Draft) -> Option<Schedule>
    requires { IsUnderWay draft }
    ensures valid { IfSome result (IsValidIn (task_of draft.entry)) }
    ensures same { IfSome result (λ s. s.decisions ≡ draft.entry.decisions) }
    ensures done { IsDone (task_of draft.entry) draft.entry.decisions → IsSome result }
{
    if is_done(&draft) {
        return Some(finished(draft));
    }
    None
}

/// The schedule of a draft in which nothing is left to place.
fn finished(draft: Draft) -> Schedule
    requires under { IsUnderWay draft }
    requires done { IsDone (task_of draft) draft.decisions }
    ensures valid { IsValidIn (task_of draft.entry) result }
    ensures same { result.decisions ≡ draft.entry.decisions }
{
    draft.finish()
}

/// Whether nothing is left to place.
fn is_done(draft: &Draft) -> bool
    ensures done { IsDone (task_of draft.now) draft.now.decisions → IsTrue result }
    ensures only { IsTrue result → IsDone (task_of draft.now) draft.now.decisions }
{
    match draft.ready() {
        [] => true,
        _ => false,
    }
}
