//! What the command `report A H [N]` writes of a schedule. `scheduled` calls `print_numbers`.
ghost use Rattle.std.specs.Prelude.{◌≡◌, ◌≤◌, IfOk, IsTrue};
ghost use Rattle.compiler.specs.Compiles.{HasDurations};
ghost use Rattle.self_timed.specs.Table.{entry_in};
ghost use Rattle.self_timed.specs.ScheduleValid.{is_valid};
ghost use Rattle.lab_plans.specs.Answers.{beside, figures};
ghost use Rattle.lab_words.specs.View.{effort_view};
ghost use Rattle.report_text.specs.Text.{report_text};
ghost use Rattle.lab_program.specs.Found.{request_of};

use compiler::{Problem, find_schedule};
use lab_words::Effort;
use lower_bound::{busiest_line, chain_of, report_of, transfers_of};
use report_text::{Figures, Pace, print_report};
use self_timed::{Schedule, durations_fit, schedule_latencies, schedule_period};
use std::alloc::Global;
use syn_base::{Items, OutOfMemory};

/// The numbers of a schedule that was found by this effort, and those of this many reactions of it.
pub fn print_numbers(
    alloc: Global,
    problem: &Problem,
    schedule: &Schedule,
    reactions: u32,
    effort: Effort,
) -> Result<Vec<u8>, OutOfMemory>
    requires few { reactions ≤ 1000 }
    requires durations { HasDurations problem.now }
    requires valid { IsTrue (is_valid problem.now.flat problem.now.text.archi
        (entry_in problem.now.durations) schedule.now) }
    ensures { IfOk result (λ text. text.items ≡ report_text problem.now.flat.vertices
        problem.now.text.archi
        (figures (request_of problem.now (effort_view effort)) reactions schedule.now)) }
{
    let told = figures_of(alloc, problem, schedule, reactions, effort)?;
    let mut text = Vec::new(alloc);
    print_report(alloc, &problem.flat, &problem.text.archi, &told, &mut text)?;
    Ok(text)
}

/// All that a report tells of a schedule that was found by this effort.
fn figures_of(
    alloc: Global,
    problem: &Problem,
    schedule: &Schedule,
    reactions: u32,
    effort: Effort,
) -> Result<Figures, OutOfMemory>
    requires few { reactions ≤ 1000 }
    requires durations { HasDurations problem.now }
    requires valid { IsTrue (is_valid problem.now.flat problem.now.text.archi
        (entry_in problem.now.durations) schedule.now) }
    ensures { IfOk result (λ told. told ≡
        figures (request_of problem.now (effort_view effort)) reactions schedule.now) }
{
    let flat = &problem.flat;
    let archi = &problem.text.archi;
    let durations = &problem.durations;
    // By these calls the proof knows that the architecture is valid, and what the table of durations keeps.
    let _operators = archi.operators();
    let _columns = durations.operators();
    durations_fit();
    let numbers = report_of(alloc, flat, archi, durations, schedule)?;
    let period = schedule_period(alloc, flat, archi, schedule, reactions as usize)?;
    let latencies = schedule_latencies(alloc, flat, archi, schedule, reactions as usize)?;
    let chain = chain_of(alloc, flat, durations)?;
    let beside = pace_beside(alloc, problem, reactions, effort)?;
    let transfers = transfers_of(flat, archi, durations, schedule);
    let busiest = busiest_line(flat, archi, durations, schedule, &numbers, period);
    Ok(Figures {
        numbers,
        transfers,
        beside,
        period,
        busiest,
        latencies,
        chain: Items::new(chain),
    })
}

/// The length and the period of the pressure run, where this effort has searched another schedule.
fn pace_beside(
    alloc: Global,
    problem: &Problem,
    reactions: u32,
    effort: Effort,
) -> Result<Option<Pace>, OutOfMemory>
    requires few { reactions ≤ 1000 }
    requires durations { HasDurations problem.now }
    ensures { IfOk result (λ pace. pace ≡
        beside (request_of problem.now (effort_view effort)) reactions) }
{
    if effort.tries == 0 {
        return Ok(None);
    }
    let flat = &problem.flat;
    let archi = &problem.text.archi;
    let _columns = problem.durations.operators();
    let run = find_schedule(alloc, problem)?;
    let period = schedule_period(alloc, flat, archi, &run, reactions as usize)?;
    Ok(Some(Pace {
        length: run.length(),
        period,
    }))
}
