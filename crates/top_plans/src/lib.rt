//! The plans of all commands, and the laws of what they make: what each command reads, in which order it is
//! refused, and what it makes, over the definitions of all the parts. `syndex_program` carries the plans out.
//! Each law is the contract of a function that does nothing, or calls other laws alone.
//!
//! `files` reads the files of a command and puts their texts through the stages of `compiler`, for both programs.
#![tactic(auto)]

ghost use Rattle.top_plans.specs.Meaning.{AcceptedRunTrue, WindowsAreRun, WindowsWriteTheOutput};
ghost use Rattle.top_plans.specs.Refusals.{NoOutcomeWantsMemory, NoPlanWantsMemory};
ghost use Rattle.top_plans.specs.Replies.{CommandsReply, DoneRuns, LoadsKeep, PlainCommandsReply, ValuesAreWritten};
ghost use Rattle.top_plans.specs.Values.{ReadingsAgree};

mod files;

pub use files::{read_algorithm, read_architecture, read_description, read_file, read_table};
use word_rule::{runs_end, runs_take_rows, windows_make_the_run};

// What the clauses here speak of: what the commands read, make and refuse.
pub use accepted_laws::{
    accepted_have_flat, acts_text, acts_text_from, actuators_of, elaborate, tables_fit,
};
pub use actual_durations::actual_of;
pub use command_status::{
    ActualError, ActualFault, CheckCause, CodeError, Failed, File, Gate, ReadAnswer, SensorCause,
    SensorError, Shelf, Sink, Status, Stop, print_code, put_text, read_sensors, read_whole, report,
    say, template_text, write_text, write_whole,
};
pub use dates_text::{actual_are_within, dates_text, print_chart, repeated};
pub use pressure_heuristic::{adequation, routes_are_least};
pub use sequence_build::{BuildError, build};

/// The text that is written in windows is the whole output.
pub fn windows_write_the_output()
    ensures { WindowsWriteTheOutput }
{}

/// The jobs that are run are the windows of the one job over all rows.
pub fn windows_are_run()
    ensures { WindowsAreRun }
{}

/// No refusal of a plan is that for want of memory, whatever the files hold: words and texts are refused for what
/// they say alone. So where a refusal is told and no call of the outside world fails, it is that refusal which is
/// answered, unless memory really ran out.
pub fn no_plan_wants_memory()
    ensures plans { NoPlanWantsMemory }
    ensures outcomes { NoOutcomeWantsMemory }
{}

/// Whatever a command makes that is accepted runs true: in every interleaving each state is what its counts
/// tell and is fresh, some sequence is enabled until all is done, and each row that is taken is what the
/// algorithm's actuators take.
pub fn accepted_run_true()
    ensures { AcceptedRunTrue }
{
    runs_end();
    runs_take_rows();
    windows_make_the_run();
}

/// What was carried out of the plan of the words replies.
pub fn commands_reply()
    ensures { CommandsReply }
{
    accepted_run_true();
}

/// What was carried out, without driving anything, of the plan of words that run no job replies plainly:
/// nothing is driven, and with any ending but done and a fault of the output nothing is appended.
pub fn plain_commands_reply()
    ensures { PlainCommandsReply }
{
    accepted_run_true();
}

/// A load appends nothing either with any ending but done and a fault of the output.
pub fn loads_keep()
    ensures { LoadsKeep }
{}

/// Done of any command: what was to be made is made. Of a run the text before it and the whole output were
/// appended, and the windows of the one job over all rows were run.
pub fn done_runs()
    ensures { DoneRuns }
{}

/// Done of `sim`, `run` and `exec`, said of bytes alone: if the texts of the files are told, the last lines that were
/// appended are exactly those of what the actuators of the algorithm take, by its synchronous meaning, over the rows of
/// the table.
pub fn values_are_written()
    ensures { ValuesAreWritten }
{}

/// The text of an algorithm and a table for it have one reading: whatever reads them, the lines are the same.
pub fn readings_agree()
    ensures { ReadingsAgree }
{}
