//! The commands that write something of a schedule: `chart`, `trace`, `flat`, `code` and `report`.
ghost use Rattle.std.specs.Prelude.{◌≡◌, IfOk, IsTrue};
ghost use Rattle.chart_picture.specs.Picture.{picture};
ghost use Rattle.compiler.specs.Compiles.{HasDurations};
ghost use Rattle.self_timed.specs.Table.{entry_in};
ghost use Rattle.self_timed.specs.ScheduleValid.{is_valid};
ghost use Rattle.graph_drawing.specs.FlatDrawing.{placed_drawing};
ghost use Rattle.lab_plans.specs.Answers.{subject_text};
ghost use Rattle.lab_plans.specs.Asked.{of_schedule};
ghost use Rattle.lab_plans.specs.Plans.{schedule_plan};
ghost use Rattle.lab_words.specs.Command.{Effort as Tried, code};
ghost use Rattle.lab_words.specs.View.{effort_view, subject_view};
ghost use Rattle.trace_events.specs.Trace.{chart_trace};
ghost use Rattle.top_plans.specs.Shelf.{Stays};
ghost use Rattle.lab_program.specs.Counts.{IsCountedOf};
ghost use Rattle.lab_program.specs.Found.{request_of};
ghost use Rattle.lab_program.specs.Texts.{Carries, Gives, GivesOfFound};

use crate::commands::report::print_numbers;
use crate::found::find_schedule;
use chart_picture::print_picture;
use compiler::{Problem, build_program};
use graph_drawing::print_placed_graph;
use lab_words::{Effort, Subject};
use self_timed::Schedule;
use std::alloc::Global;
use syn_base::OutOfMemory;
use top_plans::{Shelf, Status, print_code, read_algorithm, read_architecture};
use trace_events::print_chart_trace;

/// What is written of a schedule of an algorithm on an architecture, or why there is none.
pub fn schedule_text<S: Shelf>(
    alloc: Global,
    shelf: &mut S,
    algorithm: &str,
    architecture: &str,
    subject: Subject,
    effort: Effort,
) -> Result<Vec<u8>, Status>
    requires { IsCountedOf (subject_view subject) }
    ensures stays { Stays (S.held shelf.old) (S.held shelf.new) }
    ensures carries { Carries (schedule_plan (subject_view subject) algorithm.now architecture.now
        (effort_view effort)) (S.held shelf.old) (S.held shelf.new) result }
{
    let algorithm = read_algorithm(alloc, shelf, algorithm)?;
    let problem = read_architecture(alloc, shelf, architecture, &algorithm.tree)?;
    text_of_found(alloc, &problem, subject, effort)
}

/// The same of what was compiled: a schedule is searched.
fn text_of_found(
    alloc: Global,
    problem: &Problem,
    subject: Subject,
    effort: Effort,
) -> Result<Vec<u8>, Status>
    requires counted { IsCountedOf (subject_view subject) }
    requires durations { HasDurations problem.now }
    ensures { GivesOfFound (of_schedule (subject_view subject)
        (request_of problem.now (effort_view effort))) result }
{
    let schedule = find_schedule(alloc, problem, effort)?;
    match subject {
        Subject::Chart => Ok(print_chart(alloc, problem, &schedule)?),
        Subject::Trace => Ok(print_trace(alloc, problem, &schedule)?),
        Subject::Flat => Ok(print_flat(alloc, problem, &schedule)?),
        Subject::Code => print_program(alloc, problem, &schedule),
        Subject::Report(reactions) => Ok(print_numbers(
            alloc, problem, &schedule, reactions, effort,
        )?),
    }
}

/// The chart of a schedule as a picture.
fn print_chart(
    alloc: Global,
    problem: &Problem,
    schedule: &Schedule,
) -> Result<Vec<u8>, OutOfMemory>
    ensures { IfOk result (λ text. text.items ≡
        picture problem.now.flat problem.now.text.archi schedule.now) }
{
    let mut text = Vec::new(alloc);
    print_picture(
        alloc,
        &problem.flat,
        &problem.text.archi,
        schedule,
        &mut text,
    )?;
    Ok(text)
}

/// The chart of a schedule as trace events.
fn print_trace(
    alloc: Global,
    problem: &Problem,
    schedule: &Schedule,
) -> Result<Vec<u8>, OutOfMemory>
    ensures { IfOk result (λ text. text.items ≡
        chart_trace problem.now.flat problem.now.text.archi schedule.now) }
{
    let mut text = Vec::new(alloc);
    print_chart_trace(
        alloc,
        &problem.flat,
        &problem.text.archi,
        schedule,
        &mut text,
    )?;
    Ok(text)
}

/// The flat graph in the colours that a schedule gives it.
fn print_flat(alloc: Global, problem: &Problem, schedule: &Schedule) -> Result<Vec<u8>, OutOfMemory>
    ensures { IfOk result (λ text. text.items ≡
        placed_drawing problem.now.flat problem.now.text.archi schedule.now) }
{
    let mut text = Vec::new(alloc);
    print_placed_graph(
        alloc,
        &problem.flat,
        &problem.text.archi,
        schedule,
        &mut text,
    )?;
    Ok(text)
}

/// The macro-code of the program of a schedule, or the limit that it is above.
fn print_program(alloc: Global, problem: &Problem, schedule: &Schedule) -> Result<Vec<u8>, Status>
    requires { IsTrue (is_valid problem.now.flat problem.now.text.archi
        (entry_in problem.now.durations) schedule.now) }
    ensures { (effort : Tried) → Gives (subject_text code (request_of problem.now effort) schedule.now) result }
{
    let program = build_program(alloc, problem, schedule)?;
    let mut text = Vec::new(alloc);
    print_code(
        alloc,
        &program,
        &problem.flat,
        &problem.text.archi,
        &mut text,
    )?;
    Ok(text)
}
