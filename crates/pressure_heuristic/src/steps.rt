//! The run from its first decision to its last: `adequation`, which the commands call.
ghost use Rattle.std.specs.Prelude.{◌≡◌, [], IfOk, IsTrue, length};
ghost use Rattle.schedule.specs.Fitting.{IsOf};
ghost use Rattle.schedule.specs.Table.{entry_in};
ghost use Rattle.schedule.specs.Tight.{is_tight};
ghost use Rattle.schedule.specs.Valid.{is_valid};
ghost use Rattle.schedule.specs.Acts.{acts_of};
ghost use Rattle.comm_routing.specs.Draft.{task_of};
ghost use Rattle.pressure_heuristic.specs.Adequation.{IsPressureRun, IsRunOfAny};
ghost use Rattle.pressure_heuristic.specs.Choosing.{IsGuide, IsNext};
ghost use Rattle.pressure_heuristic.specs.Pressure.{pressure_run};

use crate::choice::{Next, decide};
use crate::proposals::{Proposals, propose_all};
use crate::tails::all_tails;
use comm_routing::Draft;
use route_table::routes_of;
use schedule::{Archi, Durations, Flat, Schedule};
use std::alloc::Global;
use syn_base::OutOfMemory;

/// The schedule of a flat graph on an architecture by greedy choice: in each step the candidate of
/// greatest pressure is placed on its operator of least pressure, ties to the lower number. The
/// durations are those of the flat graph and the architecture. The schedule is valid, so every
/// operation is placed; and it is tight, so none waits longer than for what comes before it on its
/// operator and for what it reads.
pub fn adequation(
    alloc: Global,
    flat: &Flat,
    archi: &Archi,
    durations: &Durations,
) -> Result<Schedule, OutOfMemory>
    requires { IsOf flat.now archi.now durations.now }
    ensures run { IfOk result (λ s. IsPressureRun flat.now archi.now durations.now s) }
    ensures any { IfOk result (λ s. IsRunOfAny flat.now archi.now durations.now s) }
    ensures valid { IfOk result (λ s. IsTrue (is_valid flat.now archi.now (entry_in durations.now) s)) }
    ensures tight { IfOk result (λ s. IsTrue (is_tight flat.now s)) }
{
    // The proof takes from this call that the architecture is valid.
    let _operators = archi.operators();
    let operations = durations.operations();
    let vertices = flat.vertices();
    let tails = all_tails(alloc, vertices, durations)?;
    let routes = routes_of(alloc, archi)?;
    let draft = Draft::new(alloc, flat, archi, durations, &routes)?;
    let proposals = Proposals::new(alloc, operations)?;
    run(draft, durations, &tails, operations, proposals)
}

/// Makes this many decisions, or fewer where none is left.
fn run(
    draft: Draft,
    durations: &Durations,
    tails: &[u64],
    operations: usize,
    proposals: Proposals,
) -> Result<Schedule, OutOfMemory>
    requires guide { IsGuide draft durations.now tails.now }
    requires first { draft.decisions ≡ [] }
    requires all { operations ≡ length draft.graph.vertices }
    ensures { IfOk result (λ s. s ≡ pressure_run (task_of draft.entry)) }
{
    let mut draft = draft;
    let mut proposals = proposals;
    for _decision in 0..operations {
        match next_of_draft(&mut draft, durations, tails, &mut proposals) {
            Some(next) => draft.place(next.op, next.operator)?,
            None => return Ok(draft.finish()),
        }
    }
    Ok(draft.finish())
}

/// The next decision, where there is one, after a proposal for each candidate.
fn next_of_draft(
    draft: &mut Draft,
    durations: &Durations,
    tails: &[u64],
    proposals: &mut Proposals,
) -> Option<Next>
    requires guide { IsGuide draft.old durations.now tails.now }
    ensures same { draft.new ≡ draft.old }
    ensures next { IsNext (task_of draft.old) (acts_of draft.old.decisions) result }
{
    propose_all(draft, durations, proposals);
    decide(draft, durations, tails, proposals)
}
