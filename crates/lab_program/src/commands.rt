//! The commands, one a module, and which function makes the text of which.
ghost use Rattle.std.specs.Prelude.{Some};
ghost use Rattle.top_plans.specs.Status.{ending_of};
ghost use Rattle.top_plans.specs.Shelf.{Stays};
ghost use Rattle.lab_plans.specs.Plans.{plan_for};
ghost use Rattle.lab_plans.specs.Replies.{CarriedOut, LeavesUnread};
ghost use Rattle.lab_words.specs.Command.{of_algorithm};
ghost use Rattle.lab_words.specs.View.{view_of};
ghost use Rattle.lab_program.specs.Counts.{IsCounted};
ghost use Rattle.lab_program.specs.Texts.{Carries};

pub mod dates;
pub mod graph;
pub mod help;
pub mod lint;
pub mod plot;
pub mod report;
pub mod scheduled;
pub mod table;
pub mod why;

use crate::commands::dates::{Extent, dates_text};
use crate::commands::graph::graph_text;
use crate::commands::help::list_text;
use crate::commands::lint::lint_text;
use crate::commands::plot::plot_text;
use crate::commands::scheduled::schedule_text;
use crate::commands::table::table_text;
use crate::commands::why::why_text;
use lab_words::{AlgorithmText, Command};
use std::alloc::Global;
use top_plans::{Shelf, Sink, Status, write_text};

/// Carries out a command, and returns how it ended.
pub fn carry_out<S: Shelf, K: Sink>(
    alloc: Global,
    command: &Command,
    shelf: &mut S,
    out: &mut K,
) -> Status
    requires { IsCounted (view_of command.now) }
    ensures ran { CarriedOut (plan_for (view_of command.now)) (S.held shelf.old) (S.held shelf.new)
        (K.sunk out.old) (K.sunk out.new) (ending_of result) }
    ensures stays { Stays (S.held shelf.old) (S.held shelf.new) }
    ensures unread { LeavesUnread (Some (view_of command.now)) (S.held shelf.old) (S.held shelf.new) }
{
    let made = command_text(alloc, command, shelf);
    write_text(out, made)
}

/// The text that a command writes, or why there is none.
fn command_text<S: Shelf>(
    alloc: Global,
    command: &Command,
    shelf: &mut S,
) -> Result<Vec<u8>, Status>
    requires { IsCounted (view_of command.now) }
    ensures carries { Carries (plan_for (view_of command.now)) (S.held shelf.old) (S.held shelf.new) result }
    ensures stays { Stays (S.held shelf.old) (S.held shelf.new) }
{
    match command {
        Command::Help => list_text(alloc),
        Command::Schedule {
            subject,
            algorithm,
            architecture,
            effort,
        } => schedule_text(alloc, shelf, algorithm, architecture, *subject, *effort),
        Command::Algorithm { text, algorithm } => algorithm_text(alloc, shelf, *text, algorithm),
        Command::Lint {
            algorithm,
            architecture,
        } => lint_text(alloc, shelf, algorithm, *architecture),
        Command::Why {
            algorithm,
            architecture,
            code,
        } => why_text(alloc, shelf, algorithm, architecture, code),
        Command::Plot { algorithm, sensors } => plot_text(alloc, shelf, algorithm, sensors),
        Command::Dates {
            form,
            algorithm,
            architecture,
            durations,
            reactions,
            effort,
        } => {
            let extent = Extent {
                form: *form,
                reactions: *reactions,
                effort: *effort,
            };
            dates_text(alloc, shelf, algorithm, architecture, durations, extent)
        }
    }
}

/// A text of an algorithm, or why there is none.
fn algorithm_text<S: Shelf>(
    alloc: Global,
    shelf: &mut S,
    text: AlgorithmText,
    algorithm: &str,
) -> Result<Vec<u8>, Status>
    ensures carries { Carries (plan_for (of_algorithm text algorithm.now)) (S.held shelf.old) (S.held shelf.new)
        result }
    ensures stays { Stays (S.held shelf.old) (S.held shelf.new) }
{
    match text {
        AlgorithmText::Graph => graph_text(alloc, shelf, algorithm),
        AlgorithmText::Table => table_text(alloc, shelf, algorithm),
    }
}
