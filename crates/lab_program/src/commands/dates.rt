//! The commands `dates A H G N` and `trace A H G N`: when what begins and ends. `commands` calls `dates_text`.
ghost use Rattle.std.specs.Prelude.{◌≡◌, ◌≤◌, IfOk, IsTrue, length, replicate};
ghost use Rattle.compiler.specs.Compiles.{HasDurations};
ghost use Rattle.lab_plans.specs.Answers.{dates_of, form_text};
ghost use Rattle.lab_plans.specs.Asked.{of_dates};
ghost use Rattle.lab_plans.specs.Plans.{dates_plan};
ghost use Rattle.lab_words.specs.Command.{Effort as Tried};
ghost use Rattle.lab_words.specs.View.{effort_view, form_view};
ghost use Rattle.self_timed.specs.Table.{entry_in};
ghost use Rattle.self_timed.specs.Acts.{acts};
ghost use Rattle.self_timed.specs.ScheduleValid.{is_valid};
ghost use Rattle.self_timed.specs.Built.{program_of};
ghost use Rattle.self_timed.specs.Told.{HaveEntries, IsValidForSome, entries_of};
ghost use Rattle.self_timed.specs.Entries.{AreWithin};
ghost use Rattle.top_plans.specs.Shelf.{Stays, file_bound};
ghost use Rattle.lab_program.specs.Found.{request_of};
ghost use Rattle.lab_program.specs.Texts.{Carries, Gives, GivesOfFound};

use crate::found::find_schedule;
use chart_picture::dates_picture;
use compiler::{Problem, build_program};
use lab_words::{Effort, Form};
use self_timed::{Actual, Program, Schedule};
use std::alloc::Global;
use syn_base::OutOfMemory;
use top_plans::{
    File, Shelf, Status, actual_are_within, actual_of, read_algorithm, read_architecture,
    read_file, repeated,
};
use trace_events::dates_trace;

/// In which form how many reactions are dated, and how their schedule is searched.
#[derive(Clone, Copy, Drop)]
pub struct Extent {
    pub form: Form,
    pub reactions: u32,
    pub effort: Effort,
}

/// The dates of this many reactions of an algorithm on an architecture, where operations and transfers last as
/// long as a text of durations says, or why there are none.
pub fn dates_text<S: Shelf>(
    alloc: Global,
    shelf: &mut S,
    algorithm: &str,
    architecture: &str,
    durations: &str,
    extent: Extent,
) -> Result<Vec<u8>, Status>
    requires few { extent.reactions ≤ 1000 }
    ensures stays { Stays (S.held shelf.old) (S.held shelf.new) }
    ensures carries { Carries (dates_plan (form_view extent.form) algorithm.now architecture.now
        durations.now extent.reactions (effort_view extent.effort)) (S.held shelf.old) (S.held shelf.new) result }
{
    let algorithm = read_algorithm(alloc, shelf, algorithm)?;
    let problem = read_architecture(alloc, shelf, architecture, &algorithm.tree)?;
    let text = read_file(alloc, shelf, File::Durations, durations)?;
    dates_of_found(alloc, &problem, &text, extent)
}

/// The same of what was compiled, by the text of the durations: a schedule is searched.
fn dates_of_found(
    alloc: Global,
    problem: &Problem,
    text: &[u8],
    extent: Extent,
) -> Result<Vec<u8>, Status>
    requires few { extent.reactions ≤ 1000 }
    requires short { length text.now ≤ file_bound }
    requires durations { HasDurations problem.now }
    ensures { GivesOfFound (of_dates (form_view extent.form)
        (request_of problem.now (effort_view extent.effort)) text.now extent.reactions) result }
{
    let schedule = find_schedule(alloc, problem, extent.effort)?;
    date_reactions(alloc, problem, &schedule, text, extent)
}

/// The dates of the reactions of the schedule by the text of the durations, or why there are none.
fn date_reactions(
    alloc: Global,
    problem: &Problem,
    schedule: &Schedule,
    text: &[u8],
    extent: Extent,
) -> Result<Vec<u8>, Status>
    requires few { extent.reactions ≤ 1000 }
    requires short { length text.now ≤ file_bound }
    requires valid { IsTrue (is_valid problem.now.flat problem.now.text.archi
        (entry_in problem.now.durations) schedule.now) }
    ensures { (effort : Tried) → Gives (dates_of (form_view extent.form) (request_of problem.now effort)
        text.now extent.reactions schedule.now) result }
{
    let ticks = actual_of(
        alloc,
        &problem.flat,
        &problem.text.archi,
        &problem.durations,
        schedule,
        text,
    )?;
    actual_are_within();
    let program = build_program(alloc, problem, schedule)?;
    Ok(write_reactions(alloc, problem, schedule, &program, &ticks, extent)?)
}

/// The dates of so many reactions that last these ticks each.
fn write_reactions(
    alloc: Global,
    problem: &Problem,
    schedule: &Schedule,
    program: &Program,
    ticks: &[u64],
    extent: Extent,
) -> Result<Vec<u8>, OutOfMemory>
    requires few { extent.reactions ≤ 1000 }
    requires valid { IsTrue (is_valid problem.now.flat problem.now.text.archi
        (entry_in problem.now.durations) schedule.now) }
    requires program { program.now ≡ program_of problem.now.flat problem.now.text.archi schedule.now }
    requires entries { HaveEntries (entries_of problem.now.flat schedule.now)
        (replicate extent.reactions ticks.now) }
    requires within { AreWithin problem.now.flat.vertices (acts schedule.now)
        (replicate extent.reactions ticks.now) }
    ensures { IfOk result (λ text. text.items ≡ form_text (form_view extent.form) problem.now.flat
        problem.now.text.archi schedule.now (replicate extent.reactions ticks.now)) }
{
    // By this call the proof knows what the table of durations keeps: no duration is above 1,000,000,000.
    let _operators = problem.durations.operators();
    let actual = repeated(alloc, ticks, extent.reactions as usize)?;
    write_dates(alloc, problem, schedule, program, &actual, extent.form)
}

/// The dates of reactions that last these ticks, in this form.
fn write_dates(
    alloc: Global,
    problem: &Problem,
    schedule: &Schedule,
    program: &Program,
    actual: &Actual,
    form: Form,
) -> Result<Vec<u8>, OutOfMemory>
    requires valid { IsValidForSome problem.now.flat problem.now.text.archi schedule.now }
    requires program { program.now ≡ program_of problem.now.flat problem.now.text.archi schedule.now }
    requires few { length actual.now ≤ 1000 }
    requires entries { HaveEntries (entries_of problem.now.flat schedule.now) actual.now }
    requires within { AreWithin problem.now.flat.vertices (acts schedule.now) actual.now }
    ensures { IfOk result (λ text. text.items ≡ form_text (form_view form) problem.now.flat
        problem.now.text.archi schedule.now actual.now) }
{
    let flat = &problem.flat;
    let archi = &problem.text.archi;
    match form {
        Form::Drawn => dates_picture(alloc, flat, archi, schedule, program, actual),
        Form::Traced => dates_trace(alloc, flat, archi, schedule, program, actual),
    }
}
