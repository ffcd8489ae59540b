//! The commands, one a module, and which function carries out which, for the two calls of the crate.
ghost use Rattle.std.specs.Prelude.{Some};
ghost use Rattle.command_words.specs.Command.{job, plain};
ghost use Rattle.command_words.specs.View.{job_view, plain_view, view_of};
ghost use Rattle.word_rule.specs.Driven.{Driven as Drives, driven_by};
ghost use Rattle.top_plans.specs.Run.{Makes, Ran};
ghost use Rattle.top_plans.specs.Status.{ending_of};
ghost use Rattle.top_plans.specs.Shelf.{Stays};
ghost use Rattle.top_plans.specs.Given.{performed};
ghost use Rattle.top_plans.specs.Plans.{plan_for, schedule_plan, text_plan};
ghost use Rattle.syndex_program.specs.Counts.{IsCounted};
ghost use Rattle.syndex_program.specs.Plainly.{IsRunOrPlain};
ghost use Rattle.top_plans.specs.Reads.{text_in};
ghost use Rattle.syndex_program.specs.Unread.{LeavesUnread};

pub mod chart;
pub mod check;
pub mod code;
pub mod dates;
pub mod exec;
pub mod flat;
pub mod load;
pub mod run;
pub mod sim;

use crate::commands::chart::chart_text;
use crate::commands::check::check_texts;
use crate::commands::code::code_text;
use crate::commands::dates::dates_listing;
use crate::commands::exec::{finish_exec, read_foreign};
use crate::commands::flat::listing_text;
use crate::commands::load::finish_load;
use crate::commands::run::finish_run;
use crate::commands::sim::sim_text;
use crate::execution::{load_execution, read_execution};
use command_words::{AlgorithmText, Command, JobCommand, PlainCommand, ScheduleText};
use job_windows::Drive;
use std::alloc::Global;
use std::sync::Wait;
use std::thread::Threads;
use top_plans::{Gate, Shelf, Sink, Status, write_text};
use word_table::Driven;

/// Carries out a command, and returns how it ended.
pub fn carry_out<R: Threads + Wait + Sync, S: Shelf, K: Sink, G: Gate>(
    alloc: Global,
    command: &Command,
    shelf: &mut S,
    out: &mut K,
    drive: &Drive<R, G>,
    driven: &mut Driven,
) -> Status
    requires { IsCounted (view_of command.now) }
    ensures ran { Ran driven_by performed (plan_for (view_of command.now)) (S.held shelf.old)
        (S.held shelf.new) (K.sunk out.old) (K.sunk out.new) driven.old driven.new
        (ending_of result) }
    ensures stays { Stays (S.held shelf.old) (S.held shelf.new) }
    ensures unread { LeavesUnread (Some (view_of command.now)) (S.held shelf.old) (S.held shelf.new) }
{
    match command {
        Command::Plain(plain) => plain_status(alloc, plain, shelf, out),
        Command::Job(job) => job_status(alloc, job, shelf, out, drive, driven),
    }
}

/// Carries out a command that runs no job, and returns how it ended; None for one that runs jobs.
pub fn carry_out_plain<S: Shelf, K: Sink>(
    alloc: Global,
    command: &Command,
    shelf: &mut S,
    out: &mut K,
) -> Option<Status>
    requires { IsCounted (view_of command.now) }
    ensures ran { IsRunOrPlain (view_of command.now) (S.held shelf.old) (S.held shelf.new)
        (K.sunk out.old) (K.sunk out.new) result }
    ensures stays { Stays (S.held shelf.old) (S.held shelf.new) }
    ensures unread { LeavesUnread (Some (view_of command.now)) (S.held shelf.old) (S.held shelf.new) }
{
    match command {
        Command::Plain(plain) => Some(plain_status(alloc, plain, shelf, out)),
        Command::Job(_) => None,
    }
}

/// How a command ended that runs no job.
fn plain_status<S: Shelf, K: Sink>(
    alloc: Global,
    command: &PlainCommand,
    shelf: &mut S,
    out: &mut K,
) -> Status
    requires { IsCounted (plain (plain_view command.now)) }
    ensures ran { (driven : Drives) →
        Ran driven_by performed (plan_for (plain (plain_view command.now))) (S.held shelf.old)
        (S.held shelf.new) (K.sunk out.old) (K.sunk out.new) driven driven (ending_of result) }
    ensures stays { Stays (S.held shelf.old) (S.held shelf.new) }
    ensures unread { LeavesUnread (Some (plain (plain_view command.now))) (S.held shelf.old) (S.held shelf.new) }
{
    let made = plain_text(alloc, command, shelf);
    write_text(out, made)
}

/// The text that a command writes which runs no job, or why there is none.
fn plain_text<S: Shelf>(
    alloc: Global,
    command: &PlainCommand,
    shelf: &mut S,
) -> Result<Vec<u8>, Status>
    requires { IsCounted (plain (plain_view command.now)) }
    ensures makes { Makes (S.held shelf.old) (S.held shelf.new)
        (plan_for (plain (plain_view command.now))) (text_in result) }
    ensures stays { Stays (S.held shelf.old) (S.held shelf.new) }
    ensures unread { LeavesUnread (Some (plain (plain_view command.now))) (S.held shelf.old) (S.held shelf.new) }
{
    match command {
        PlainCommand::Check {
            algorithm,
            architecture,
        } => check_texts(alloc, shelf, algorithm, *architecture),
        PlainCommand::Sim { algorithm, sensors } => sim_text(alloc, shelf, algorithm, sensors),
        PlainCommand::Algorithm { text, algorithm } => algorithm_text(
            alloc, shelf, *text, algorithm,
        ),
        PlainCommand::Schedule {
            text,
            algorithm,
            architecture,
        } => schedule_text(alloc, shelf, *text, algorithm, architecture),
        PlainCommand::Dates {
            algorithm,
            architecture,
            durations,
            reactions,
        } => dates_listing(alloc, shelf, algorithm, architecture, durations, *reactions),
    }
}

/// A text of an algorithm, or why there is none.
fn algorithm_text<S: Shelf>(
    alloc: Global,
    shelf: &mut S,
    text: AlgorithmText,
    algorithm: &str,
) -> Result<Vec<u8>, Status>
    ensures makes { Makes (S.held shelf.old) (S.held shelf.new)
        (text_plan text algorithm.now) (text_in result) }
    ensures stays { Stays (S.held shelf.old) (S.held shelf.new) }
{
    match text {
        AlgorithmText::Listing => listing_text(alloc, shelf, algorithm),
    }
}

/// A text of an algorithm on an architecture, or why there is none.
fn schedule_text<S: Shelf>(
    alloc: Global,
    shelf: &mut S,
    text: ScheduleText,
    algorithm: &str,
    architecture: &str,
) -> Result<Vec<u8>, Status>
    ensures makes { Makes (S.held shelf.old) (S.held shelf.new)
        (schedule_plan text algorithm.now architecture.now) (text_in result) }
    ensures stays { Stays (S.held shelf.old) (S.held shelf.new) }
{
    match text {
        ScheduleText::Chart => chart_text(alloc, shelf, algorithm, architecture),
        ScheduleText::Code => code_text(alloc, shelf, algorithm, architecture),
    }
}

/// How a command ended that runs jobs.
fn job_status<R: Threads + Wait + Sync, S: Shelf, K: Sink, G: Gate>(
    alloc: Global,
    command: &JobCommand,
    shelf: &mut S,
    out: &mut K,
    drive: &Drive<R, G>,
    driven: &mut Driven,
) -> Status
    requires { IsCounted (job (job_view command.now)) }
    ensures ran { Ran driven_by performed (plan_for (job (job_view command.now))) (S.held shelf.old)
        (S.held shelf.new) (K.sunk out.old) (K.sunk out.new) driven.old driven.new
        (ending_of result) }
    ensures stays { Stays (S.held shelf.old) (S.held shelf.new) }
    ensures unread { LeavesUnread (Some (job (job_view command.now))) (S.held shelf.old) (S.held shelf.new) }
{
    match command {
        JobCommand::Run {
            algorithm,
            architecture,
            sensors,
            workers,
        } => {
            let made = read_execution(alloc, shelf, algorithm, architecture, sensors);
            finish_run(alloc, made, out, drive, *workers, driven)
        }
        JobCommand::Load(n) => {
            let made = load_execution(alloc, *n);
            finish_load(alloc, made, out, drive, driven)
        }
        JobCommand::Exec {
            algorithm,
            architecture,
            code,
            sensors,
            workers,
        } => {
            let made = read_foreign(alloc, shelf, algorithm, architecture, code, sensors);
            finish_exec(alloc, made, out, drive, *workers, driven)
        }
    }
}
