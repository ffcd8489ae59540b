//! The command `dates A H G N`: when what begins and ends. `commands` calls `dates_listing`.
ghost use Rattle.std.specs.Prelude.{◌≡◌, ◌≤◌, IfOk, IsTrue, Ok, length, replicate};
ghost use Rattle.compiler.specs.Schedules.{schedule_of};
ghost use Rattle.self_timed.specs.Table.{entry_in};
ghost use Rattle.self_timed.specs.Acts.{acts};
ghost use Rattle.self_timed.specs.ScheduleValid.{is_valid};
ghost use Rattle.self_timed.specs.Built.{program_of};
ghost use Rattle.self_timed.specs.Entries.{AreWithin};
ghost use Rattle.self_timed.specs.Told.{HaveEntries, entries_of};
ghost use Rattle.syndex_program.specs.Dates.{dated_in};
ghost use Rattle.top_plans.specs.Reads.{text_in};
ghost use Rattle.top_plans.specs.Run.{Makes};
ghost use Rattle.top_plans.specs.Shelf.{Held, Stays, file_bound};
ghost use Rattle.top_plans.specs.Listing.{dates_text};
ghost use Rattle.top_plans.specs.Plans.{dates_plan};

use compiler::{Problem, build_program, find_schedule};
use self_timed::{Program, Schedule};
use std::alloc::Global;
use syn_base::OutOfMemory;
use top_plans::{
    File, Shelf, Status, actual_are_within, actual_of, dates_text, read_algorithm,
    read_architecture, read_file, repeated,
};

/// The dates of this many reactions of an algorithm on an architecture, where operations and transfers last as
/// long as a text of durations says, or why there are none.
pub fn dates_listing<S: Shelf>(
    alloc: Global,
    shelf: &mut S,
    algorithm: &str,
    architecture: &str,
    durations: &str,
    reactions: u32,
) -> Result<Vec<u8>, Status>
    requires few { reactions ≤ 1000 }
    ensures stays { Stays (S.held shelf.old) (S.held shelf.new) }
    ensures makes { Makes (S.held shelf.old) (S.held shelf.new)
        (dates_plan algorithm.now architecture.now durations.now reactions) (text_in result) }
{
    let algorithm = read_algorithm(alloc, shelf, algorithm)?;
    let problem = read_architecture(alloc, shelf, architecture, &algorithm.tree)?;
    let schedule = find_schedule(alloc, &problem)?;
    let text = read_file(alloc, shelf, File::Durations, durations)?;
    date_reactions(alloc, &problem, &schedule, &text, reactions)
}

/// The dates of this many reactions of the schedule by the text of the durations, or why there are none.
fn date_reactions(
    alloc: Global,
    problem: &Problem,
    schedule: &Schedule,
    text: &[u8],
    reactions: u32,
) -> Result<Vec<u8>, Status>
    requires few { reactions ≤ 1000 }
    requires short { length text.now ≤ file_bound }
    requires run { schedule.now ≡ schedule_of problem.now.flat problem.now.text.archi
        problem.now.durations }
    requires valid { IsTrue (is_valid problem.now.flat problem.now.text.archi
        (entry_in problem.now.durations) schedule.now) }
    ensures { (held : Held) → Makes held held
        (dated_in text.now problem.now.flat problem.now.text.archi
        problem.now.durations reactions) (text_in result) }
{
    let ticks = actual_of(
        alloc,
        &problem.flat,
        &problem.text.archi,
        &problem.durations,
        schedule,
        text,
    )?;
    actual_are_within();
    let program = build_program(alloc, problem, schedule)?;
    Ok(print_reactions(alloc, problem, schedule, &program, &ticks, reactions)?)
}

/// The text of the dates of this many reactions that last these ticks each.
fn print_reactions(
    alloc: Global,
    problem: &Problem,
    schedule: &Schedule,
    program: &Program,
    ticks: &[u64],
    reactions: u32,
) -> Result<Vec<u8>, OutOfMemory>
    requires few { reactions ≤ 1000 }
    requires valid { IsTrue (is_valid problem.now.flat problem.now.text.archi
        (entry_in problem.now.durations) schedule.now) }
    requires program { program.now ≡ program_of problem.now.flat problem.now.text.archi schedule.now }
    requires entries { HaveEntries (entries_of problem.now.flat schedule.now) (replicate reactions ticks.now) }
    requires within { AreWithin problem.now.flat.vertices (acts schedule.now) (replicate reactions ticks.now) }
    ensures { IfOk result (λ text. text.items ≡
        dates_text problem.now.flat problem.now.text.archi schedule.now ticks.now
        reactions) }
{
    // By this call the proof knows what the table of durations keeps: no duration is above 1,000,000,000.
    let _operators = problem.durations.operators();
    let actual = repeated(alloc, ticks, reactions as usize)?;
    dates_text(
        alloc,
        &problem.flat,
        &problem.text.archi,
        schedule,
        program,
        &actual,
    )
}
