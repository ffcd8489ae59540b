//! A schedule for a problem, which is searched.
ghost use Rattle.std.specs.Prelude.{◌≡◌, IfOk};
ghost use Rattle.compiler.specs.Compiles.{HasDurations};
ghost use Rattle.lab_plans.specs.Asked.{IsFound};
ghost use Rattle.lab_words.specs.Command.{for_length, for_period};
ghost use Rattle.lab_words.specs.View.{effort_view, goal_view};
ghost use Rattle.plan_costs.specs.declared.site.Goal.TheVariants.{Length, Period};
ghost use Rattle.lab_program.specs.Found.{request_of};

use compiler::Problem;
use lab_words::{Effort, Goal};
use schedule_search::{Goal as Sought, search};
use self_timed::{Schedule, durations_fit};
use std::alloc::Global;
use syn_base::OutOfMemory;

/// A schedule of what was compiled, by a search of this effort.
pub fn find_schedule(
    alloc: Global,
    problem: &Problem,
    effort: Effort,
) -> Result<Schedule, OutOfMemory>
    requires { HasDurations problem.now }
    ensures { IfOk result (IsFound (request_of problem.now (effort_view effort))) }
{
    let flat = &problem.flat;
    let archi = &problem.text.archi;
    // By this call the proof knows that the architecture is valid, which the law of durations asks for.
    let _operators = archi.operators();
    durations_fit();
    let tried = schedule_search::Effort {
        tries: effort.tries,
        seed: u64::from(effort.seed),
        goal: goal_of(effort.goal),
    };
    search(alloc, flat, archi, &problem.durations, tried)
}

/// The same goal, as the search knows it.
fn goal_of(goal: Goal) -> Sought
    ensures length { goal_view goal ≡ for_length → result ≡ Length }
    ensures period { goal_view goal ≡ for_period → result ≡ Period }
{
    match goal {
        Goal::Length => Sought::Length,
        Goal::Period => Sought::Period,
    }
}
