//! The commands of the program, and which one the words of a command line are. The program calls `command_of`
//! first; the table of commands stands in `table`, and what their words mean in `specs/Command`.
#![tactic(auto)]

ghost use Rattle.std.specs.Prelude.{◌≡◌, IfOk, Some, map, option_map};
ghost use Rattle.std.specs.String.{string_bytes};
ghost use Rattle.command_words.specs.Command.{
  plain,
  check,
  sim,
  algorithm_text,
  schedule_text,
  one,
  two,
  one_or_two,
  four,
  loaded,
  dated,
  number_up_to,
  command_of,
};
ghost use Rattle.command_words.specs.Plain.{command_with, exec_given, exec_with, run_given, run_with};
ghost use Rattle.command_words.specs.Answer.{command_given};
ghost use Rattle.command_words.specs.View.{view_of};

mod commands;
mod given;
mod number;
mod table;

pub use commands::{Command, JobCommand, PlainCommand};
use given::{Given, given_words};
pub use number::number_up_to;
use std::alloc::Global;
use syn_base::OutOfMemory;
use table::{COMMANDS, CommandKind};
pub use table::{AlgorithmText, Row, ScheduleText, kind_named};

/// The most workers.
const MOST_WORKERS: u32 = 80;

/// The most of a load.
const MOST_LOAD: u32 = 1000;

/// The most reactions that are dated.
const MOST_REACTIONS: u32 = 1000;

/// The command of these words, if the table has them. The first word is the program's name.
/// `OutOfMemory` comes where an allocation fails.
pub fn command_of<'a>(
    alloc: Global,
    words: &'a [String],
) -> Result<Option<Command<'a>>, OutOfMemory>
    ensures { IfOk result (λ c. option_map view_of c ≡ command_of (map string_bytes words.now)) }
{
    match given_words(alloc, words)? {
        Some(given) => Ok(command_with(&given)),
        None => Ok(None),
    }
}

/// The command of what was given, if the table has it.
fn command_with<'a>(given: &Given<'a>) -> Option<Command<'a>>
    ensures { option_map view_of result ≡ command_given given.now }
{
    let kind = kind_named(&COMMANDS, given.name)?;
    let first = given.first;
    let workers = given.workers;
    match (given.second, given.third, given.fourth) {
        (None, _, _) => command_of_kind(kind, &[first], workers),
        (Some(second), None, _) => command_of_kind(kind, &[first, second], workers),
        (Some(second), Some(third), None) => command_of_kind(
            kind,
            &[first, second, third],
            workers,
        ),
        (Some(second), Some(third), Some(fourth)) => {
            command_of_kind(kind, &[first, second, third, fourth], workers)
        }
    }
}

/// The command of this kind with these words, if it takes as many. Only `run` and `exec` take workers.
fn command_of_kind<'a>(
    kind: CommandKind,
    words: &[&'a str],
    workers: Option<&str>,
) -> Option<Command<'a>>
    ensures { option_map view_of result ≡ command_with kind (map (λ w. w.now) words.now)
        (option_map (λ w. w.now) workers.entry) }
{
    match kind {
        CommandKind::Check => check(words),
        CommandKind::Sim => sim(words),
        CommandKind::Algorithm(text) => of_algorithm(text, words),
        CommandKind::Schedule(text) => of_schedule(text, words),
        CommandKind::Run => run(words, workers),
        CommandKind::Load => load(words),
        CommandKind::Exec => exec(words, workers),
        CommandKind::Dates => dates(words),
    }
}

/// The command `check` of one or two words.
fn check<'a>(words: &[&'a str]) -> Option<Command<'a>>
    ensures { option_map view_of result ≡ one_or_two (λ a h. Some (plain (check a h))) (map (λ w. w.now) words.now) }
{
    match words {
        [algorithm] => Some(Command::Plain(PlainCommand::Check {
            algorithm,
            architecture: None,
        })),
        [algorithm, architecture] => Some(Command::Plain(PlainCommand::Check {
            algorithm,
            architecture: Some(architecture),
        })),
        _ => None,
    }
}

/// The command `sim` of two words.
fn sim<'a>(words: &[&'a str]) -> Option<Command<'a>>
    ensures { option_map view_of result ≡ two (λ a s. Some (plain (sim a s))) (map (λ w. w.now) words.now) }
{
    match words {
        [algorithm, sensors] => Some(Command::Plain(PlainCommand::Sim { algorithm, sensors })),
        _ => None,
    }
}

/// The command of one word that writes this of the algorithm.
fn of_algorithm<'a>(text: AlgorithmText, words: &[&'a str]) -> Option<Command<'a>>
    ensures { option_map view_of result ≡ one (λ a. Some (plain (algorithm_text text a))) (map (λ w. w.now) words.now) }
{
    match words {
        [algorithm] => Some(Command::Plain(PlainCommand::Algorithm { text, algorithm })),
        _ => None,
    }
}

/// The command of two words that writes this of the algorithm on the architecture.
fn of_schedule<'a>(text: ScheduleText, words: &[&'a str]) -> Option<Command<'a>>
    ensures { option_map view_of result ≡ two (λ a h. Some (plain (schedule_text text a h)))
        (map (λ w. w.now) words.now) }
{
    match words {
        [algorithm, architecture] => Some(Command::Plain(PlainCommand::Schedule {
            text,
            algorithm,
            architecture,
        })),
        _ => None,
    }
}

/// The command `load` of one word, which is a number from 1 to 1,000.
fn load<'a>(words: &[&'a str]) -> Option<Command<'a>>
    ensures { option_map view_of result ≡ one (λ n. loaded (number_up_to 1000 n)) (map (λ w. w.now) words.now) }
{
    match words {
        [number] => {
            let layers = number_up_to(MOST_LOAD, number.as_bytes())?;
            Some(Command::Job(JobCommand::Load(layers)))
        }
        _ => None,
    }
}

/// The command `dates` of four words, of which the last is a number from 1 to 1,000.
fn dates<'a>(words: &[&'a str]) -> Option<Command<'a>>
    ensures { option_map view_of result ≡ four (λ a h g n. dated a h g (number_up_to 1000 n))
        (map (λ w. w.now) words.now) }
{
    match words {
        [algorithm, architecture, durations, count] => {
            let reactions = number_up_to(MOST_REACTIONS, count.as_bytes())?;
            Some(Command::Plain(PlainCommand::Dates {
                algorithm,
                architecture,
                durations,
                reactions,
            }))
        }
        _ => None,
    }
}

/// The command `run` of three words, and workers where they are given.
fn run<'a>(words: &[&'a str], workers: Option<&str>) -> Option<Command<'a>>
    ensures { option_map view_of result ≡ run_given (map (λ w. w.now) words.now)
        (option_map (λ w. w.now) workers.entry) }
{
    match words {
        [algorithm, architecture, sensors] => run_with(algorithm, architecture, sensors, workers),
        _ => None,
    }
}

/// The command `run` with these names of files and this text of workers, if that is a number from 1 to 80.
fn run_with<'a>(
    algorithm: &'a str,
    architecture: &'a str,
    sensors: &'a str,
    workers: Option<&str>,
) -> Option<Command<'a>>
    ensures { option_map view_of result ≡ run_with algorithm.now architecture.now sensors.now
        (option_map (λ w. w.now) workers.entry) }
{
    let workers = match workers {
        Some(text) => Some(number_up_to(MOST_WORKERS, text.as_bytes())?),
        None => None,
    };
    Some(Command::Job(JobCommand::Run {
        algorithm,
        architecture,
        sensors,
        workers,
    }))
}

/// The command `exec` of four words, and workers where they are given.
fn exec<'a>(words: &[&'a str], workers: Option<&str>) -> Option<Command<'a>>
    ensures { option_map view_of result ≡ exec_given (map (λ w. w.now) words.now)
        (option_map (λ w. w.now) workers.entry) }
{
    match words {
        [algorithm, architecture, code, sensors] => {
            exec_with(algorithm, architecture, code, sensors, workers)
        }
        _ => None,
    }
}

/// The command `exec` with these names of files and this text of workers, if that is a number from 1 to 80.
fn exec_with<'a>(
    algorithm: &'a str,
    architecture: &'a str,
    code: &'a str,
    sensors: &'a str,
    workers: Option<&str>,
) -> Option<Command<'a>>
    ensures { option_map view_of result ≡ exec_with algorithm.now architecture.now code.now
        sensors.now (option_map (λ w. w.now) workers.entry) }
{
    let workers = match workers {
        Some(count) => Some(number_up_to(MOST_WORKERS, count.as_bytes())?),
        None => None,
    };
    Some(Command::Job(JobCommand::Exec {
        algorithm,
        architecture,
        code,
        sensors,
        workers,
    }))
}
