//! The command of the words, from what `clap` finds in them.
ghost use Rattle.std.specs.Prelude.{◌≡◌, IfOk, map, option_and_then, option_map};
ghost use Rattle.std.specs.String.{string_bytes};
ghost use Rattle.clap.specs.Simple.{subcommand_rows_of};
ghost use Rattle.clap.specs.Values.{kind_of};
ghost use Rattle.command_words.specs.Answer.{wants_memory};
ghost use Rattle.clap.specs.Matches.{found_of};
ghost use Rattle.clap.specs.Walk.{rows_of};
ghost use Rattle.lab_words.specs.Command.{
  command_by,
  command_in,
  command_of,
  command_with,
  dates_given,
  dates_on,
  effort_given,
  goal_given,
  goal_named,
  lint,
  most_reactions,
  most_tries,
  number_given,
  of_algorithm,
  plot,
  schedule_given,
  subject_of,
  values_of,
};
ghost use Rattle.lab_words.specs.View.{
  effort_view,
  form_view,
  goal_view,
  subject_view,
  values_view,
  view_of,
};

use crate::app::command;
use crate::commands::{Command, Effort, Form, Goal, Subject};
use crate::table::{AlgorithmText, COMMANDS, CommandKind, ScheduleText};
use clap::error::ErrorKind;
use clap::{ArgMatches, Error};
use command_words::{kind_named, number_up_to};
use std::alloc::Global;
use syn_base::OutOfMemory;

/// The most schedules that a search tries, and the greatest seed.
const MOST_TRIES: u32 = 1_000_000;

/// The most reactions that are dated or counted.
const MOST_REACTIONS: u32 = 1000;

/// The number of reactions that a report counts where none is given.
const USUAL_REACTIONS: u32 = 50;

/// The values that are given for the arguments and options of a command.
#[derive(Clone, Copy, Drop)]
struct Values<'a> {
    algorithm: Option<&'a str>,
    architecture: Option<&'a str>,
    macros: Option<&'a str>,
    sensors: Option<&'a str>,
    durations: Option<&'a str>,
    reactions: Option<&'a str>,
    tries: Option<&'a str>,
    seed: Option<&'a str>,
    goal: Option<&'a str>,
}

/// The command of these words, if they are one. The first word is the program's name. `OutOfMemory` comes
/// where an allocation fails.
pub fn command_of<'a>(
    alloc: Global,
    words: &'a [String],
) -> Result<Option<Command<'a>>, OutOfMemory>
    ensures { IfOk result (λ c. option_map view_of c ≡ command_of (map string_bytes words.now)) }
{
    let command = command(alloc)?;
    match command.try_get_matches_from(words) {
        Ok(matches) => Ok(found_in(&matches)),
        Err(error) => {
            if is_memory(&error) {
                Err(OutOfMemory)
            } else {
                Ok(None)
            }
        }
    }
}

/// The command that is found in words which were matched.
fn found_in<'a>(matches: &ArgMatches<'a>) -> Option<Command<'a>>
    ensures { option_map view_of result ≡
        option_and_then command_in (subcommand_rows_of matches.now) }
{
    let (name, inner) = matches.subcommand()?;
    let values = values_in(&inner);
    command_by(name, &values)
}

/// Whether an error of `clap` says that an allocation failed.
fn is_memory(error: &Error) -> bool
    ensures { result ≡ wants_memory (kind_of error.now) }
{
    match error.kind() {
        ErrorKind::OutOfMemory => true,
        _ => false,
    }
}

/// The values of the arguments and options of a command.
fn values_in<'a>(matches: &ArgMatches<'a>) -> Values<'a>
    ensures { values_view result ≡ values_of (rows_of (found_of matches.now)) }
{
    let algorithm = matches.get_str("algorithm");
    let architecture = matches.get_str("architecture");
    let macros = matches.get_str("code");
    let sensors = matches.get_str("sensors");
    let durations = matches.get_str("durations");
    let reactions = matches.get_str("reactions");
    let tries = matches.get_str("tries");
    let seed = matches.get_str("seed");
    let goal = matches.get_str("for");
    Values {
        algorithm,
        architecture,
        macros,
        sensors,
        durations,
        reactions,
        tries,
        seed,
        goal,
    }
}

/// The command of this name with these values, if the table has it.
fn command_by<'a>(name: &str, values: &Values<'a>) -> Option<Command<'a>>
    ensures { option_map view_of result ≡ command_by name.now (values_view values.now) }
{
    let kind = kind_named(&COMMANDS, name)?;
    command_with(kind, values)
}

/// The command of this kind with these values, where all is there that it takes.
fn command_with<'a>(kind: CommandKind, values: &Values<'a>) -> Option<Command<'a>>
    ensures { option_map view_of result ≡ command_with kind (values_view values.now) }
{
    match kind {
        CommandKind::Help => Some(Command::Help),
        CommandKind::Algorithm(text) => of_algorithm(text, values.algorithm),
        CommandKind::Lint => lint(values.algorithm, values.architecture),
        CommandKind::Plot => plot(values.algorithm, values.sensors),
        CommandKind::Why => why(values),
        CommandKind::Schedule(text) => schedule(subject_of(text), values),
        CommandKind::Report => report(values),
        CommandKind::Trace => trace(values),
        CommandKind::Dates => dates(Form::Drawn, values),
    }
}

/// A text of the algorithm, where there is one.
fn of_algorithm<'a>(text: AlgorithmText, algorithm: Option<&'a str>) -> Option<Command<'a>>
    ensures { option_map view_of result ≡
        option_map (of_algorithm text) (option_map (λ t. t.now) algorithm.entry) }
{
    let algorithm = algorithm?;
    Some(Command::Algorithm { text, algorithm })
}

/// The command `lint`, where there is an algorithm.
fn lint<'a>(algorithm: Option<&'a str>, architecture: Option<&'a str>) -> Option<Command<'a>>
    ensures { option_map view_of result ≡ option_map (λ a. lint a (option_map (λ t. t.now) architecture.entry))
        (option_map (λ t. t.now) algorithm.entry) }
{
    let algorithm = algorithm?;
    Some(Command::Lint {
        algorithm,
        architecture,
    })
}

/// The command `plot`, where there are an algorithm and a table.
fn plot<'a>(algorithm: Option<&'a str>, sensors: Option<&'a str>) -> Option<Command<'a>>
    ensures { option_map view_of result ≡ option_and_then (λ a. option_map (plot a)
        (option_map (λ t. t.now) sensors.entry)) (option_map (λ t. t.now) algorithm.entry) }
{
    let algorithm = algorithm?;
    let sensors = sensors?;
    Some(Command::Plot { algorithm, sensors })
}

/// The command `why`, where there are an algorithm, an architecture and macro-code.
fn why<'a>(values: &Values<'a>) -> Option<Command<'a>>
    ensures { option_map view_of result ≡ command_with CommandKind.Why (values_view values.now) }
{
    let algorithm = values.algorithm?;
    let architecture = values.architecture?;
    let code = values.macros?;
    Some(Command::Why {
        algorithm,
        architecture,
        code,
    })
}

/// The command that writes this of a schedule, where all is there that it takes.
fn schedule<'a>(subject: Subject, values: &Values<'a>) -> Option<Command<'a>>
    ensures { option_map view_of result ≡ schedule_given (subject_view subject) (values_view values.now) }
{
    let algorithm = values.algorithm?;
    let architecture = values.architecture?;
    let effort = effort_of(values)?;
    Some(Command::Schedule {
        subject,
        algorithm,
        architecture,
        effort,
    })
}

/// What a text of a schedule is.
fn subject_of(text: ScheduleText) -> Subject
    ensures { subject_view result ≡ subject_of text }
{
    match text {
        ScheduleText::Chart => Subject::Chart,
        ScheduleText::Flat => Subject::Flat,
        ScheduleText::Code => Subject::Code,
    }
}

/// The command `report`, of so many reactions as are given.
fn report<'a>(values: &Values<'a>) -> Option<Command<'a>>
    ensures { option_map view_of result ≡ command_with CommandKind.Report (values_view values.now) }
{
    let reactions = reactions_given(values.reactions)?;
    schedule(Subject::Report(reactions), values)
}

/// The trace of dates where there are actual durations, and else that of a schedule.
fn trace<'a>(values: &Values<'a>) -> Option<Command<'a>>
    ensures { option_map view_of result ≡ command_with CommandKind.Trace (values_view values.now) }
{
    match values.durations {
        Some(_) => dates(Form::Traced, values),
        None => schedule(Subject::Trace, values),
    }
}

/// Dates in this form, where there are an algorithm and an architecture and all that dates take besides.
fn dates<'a>(form: Form, values: &Values<'a>) -> Option<Command<'a>>
    ensures { option_map view_of result ≡ dates_given (form_view form) (values_view values.now) }
{
    let algorithm = values.algorithm?;
    let architecture = values.architecture?;
    dates_on(form, algorithm, architecture, values)
}

/// Dates of an algorithm on an architecture in this form, where all is there that they take.
fn dates_on<'a>(
    form: Form,
    algorithm: &'a str,
    architecture: &'a str,
    values: &Values<'a>,
) -> Option<Command<'a>>
    ensures { option_map view_of result ≡
        dates_on (form_view form) algorithm.now architecture.now (values_view values.now) }
{
    let durations = values.durations?;
    let reactions = values.reactions?;
    let reactions = number_up_to(MOST_REACTIONS, reactions.as_bytes())?;
    let effort = effort_of(values)?;
    Some(Command::Dates {
        form,
        algorithm,
        architecture,
        durations,
        reactions,
        effort,
    })
}

/// How many reactions are counted.
fn reactions_given(text: Option<&str>) -> Option<u32>
    ensures { result ≡ number_given most_reactions 50 (option_map (λ t. t.now) text.entry) }
{
    match text {
        Some(text) => number_up_to(MOST_REACTIONS, text.as_bytes()),
        None => Some(USUAL_REACTIONS),
    }
}

/// The options of a search, if they are numbers within their bounds and a goal.
fn effort_of(values: &Values) -> Option<Effort>
    ensures { option_map effort_view result ≡ effort_given (values_view values.now) }
{
    let tries = number_given(0, values.tries)?;
    let seed = number_given(1, values.seed)?;
    let goal = goal_given(values.goal)?;
    Some(Effort { tries, seed, goal })
}

/// The number of an option, or what stands for it where the option is not given.
fn number_given(usual: u32, text: Option<&str>) -> Option<u32>
    ensures { result ≡ number_given most_tries usual (option_map (λ t. t.now) text.entry) }
{
    match text {
        Some(text) => number_up_to(MOST_TRIES, text.as_bytes()),
        None => Some(usual),
    }
}

/// What is to be made small: the length, where the option is not given.
fn goal_given(text: Option<&str>) -> Option<Goal>
    ensures { option_map goal_view result ≡ goal_given (option_map (λ t. t.now) text.entry) }
{
    match text {
        Some(text) => goal_named(text),
        None => Some(Goal::Length),
    }
}

/// The goal of this name.
fn goal_named(text: &str) -> Option<Goal>
    ensures { option_map goal_view result ≡ goal_named text.now }
{
    if text == "length" {
        Some(Goal::Length)
    } else if text == "period" {
        Some(Goal::Period)
    } else {
        None
    }
}
