//! What the words of the command line give, read with `clap`: a name, its arguments and workers. `command_of` asks
//! for it first.
ghost use Rattle.std.specs.Prelude.{◌≡◌, IfOk, IsSomeAnd, Some, List, map, Option, false, true};
ghost use Rattle.std.specs.String.{string_bytes};
ghost use Rattle.clap.specs.Simple.{app_of, subcommand_rows_of, with_rule, with_subcommand};
ghost use Rattle.clap.specs.Values.{kind_of};
ghost use Rattle.clap.specs.Walk.{Row};
ghost use Rattle.clap.specs.declared.builder.command.Command.TheViews.{out-Command as fields_of};
ghost use Rattle.syn_base.specs.Bytes.{Bytes};
ghost use Rattle.command_words.specs.App.{
  argument,
  workers_rule,
  one_app,
  two_app,
  four_app,
  working_app,
  form_app,
  form_of,
  row_app,
  bare_app,
  with_commands,
  the_app,
};
ghost use Rattle.command_words.specs.Answer.{wants_memory, Tells, Gives, Is};

use crate::table::{COMMANDS, CommandKind, Row};
use clap::error::ErrorKind;
use clap::{Arg, ArgMatches, Command, Error};
use std::alloc::{AllocError, Global};
use syn_base::OutOfMemory;

/// The name of a command with its one to four plain arguments, and the text that is given as workers.
#[derive(Clone, Copy, Drop)]
pub struct Given<'a> {
    pub name: &'a str,
    pub first: &'a str,
    pub second: Option<&'a str>,
    pub third: Option<&'a str>,
    pub fourth: Option<&'a str>,
    pub workers: Option<&'a str>,
}

/// The plain arguments that a command takes, and workers beside four of them at `Working`. The last argument
/// may be left out where it is not `needed`.
#[derive(Clone, Copy, Drop)]
enum Form {
    One,
    Two { needed: bool },
    Four { needed: bool },
    Working { needed: bool },
}

/// A command that takes one plain argument more, which may be left out where it is not `needed`.
fn with_argument<'a>(
    alloc: Global,
    command: Command<'a>,
    id: &'a str,
    needed: bool,
) -> Result<Command<'a>, AllocError>
    requires { (fields_of command).has_globals ≡ false }
    ensures app { IfOk result (λ c. app_of c ≡ with_rule (app_of command.entry) (argument id.entry.now needed)) }
    ensures local { IfOk result (λ c. (fields_of c).has_globals ≡ false) }
{
    command.arg(Arg::new(alloc, id).required(needed))
}

/// A command that takes the option `--workers` too.
fn with_workers<'a>(alloc: Global, command: Command<'a>) -> Result<Command<'a>, AllocError>
    requires { (fields_of command).has_globals ≡ false }
    ensures app { IfOk result (λ c. app_of c ≡ with_rule (app_of command.entry) workers_rule) }
    ensures local { IfOk result (λ c. (fields_of c).has_globals ≡ false) }
{
    command.arg(Arg::new(alloc, "workers").long("workers"))
}

/// A command with one plain argument.
fn one<'a>(alloc: Global, name: &'a str) -> Result<Command<'a>, AllocError>
    ensures app { IfOk result (λ c. app_of c ≡ one_app name.entry.now) }
    ensures local { IfOk result (λ c. (fields_of c).has_globals ≡ false) }
{
    with_argument(alloc, Command::new(alloc, name), "first", true)
}

/// A command with two plain arguments, of which the last may be left out where it is not `needed`.
fn two<'a>(alloc: Global, name: &'a str, needed: bool) -> Result<Command<'a>, AllocError>
    ensures app { IfOk result (λ c. app_of c ≡ two_app needed name.entry.now) }
    ensures local { IfOk result (λ c. (fields_of c).has_globals ≡ false) }
{
    let command = one(alloc, name)?;
    with_argument(alloc, command, "second", needed)
}

/// A command with four plain arguments, of which the last may be left out where it is not `needed`.
fn four<'a>(alloc: Global, name: &'a str, needed: bool) -> Result<Command<'a>, AllocError>
    ensures app { IfOk result (λ c. app_of c ≡ four_app needed name.entry.now) }
    ensures local { IfOk result (λ c. (fields_of c).has_globals ≡ false) }
{
    let command = two(alloc, name, true)?;
    let command = with_argument(alloc, command, "third", true)?;
    with_argument(alloc, command, "fourth", needed)
}

/// A command with four plain arguments and the option `--workers`.
fn working<'a>(alloc: Global, name: &'a str, needed: bool) -> Result<Command<'a>, AllocError>
    ensures app { IfOk result (λ c. app_of c ≡ working_app needed name.entry.now) }
    ensures local { IfOk result (λ c. (fields_of c).has_globals ≡ false) }
{
    let command = four(alloc, name, needed)?;
    with_workers(alloc, command)
}

/// The command of this name that takes what its form says.
fn of_form<'a>(alloc: Global, name: &'a str, form: Form) -> Result<Command<'a>, AllocError>
    ensures app { IfOk result (λ c. app_of c ≡ form_app form name.entry.now) }
    ensures local { IfOk result (λ c. (fields_of c).has_globals ≡ false) }
{
    match form {
        Form::One => one(alloc, name),
        Form::Two { needed } => two(alloc, name, needed),
        Form::Four { needed } => four(alloc, name, needed),
        Form::Working { needed } => working(alloc, name, needed),
    }
}

/// The program without its commands. It has no help of its own, and words without a command are refused.
fn bare<'a>(alloc: Global) -> Command<'a>
    ensures { app_of result ≡ bare_app }
{
    Command::new(alloc, "syndex")
        .disable_help_flag(true)
        .disable_help_subcommand(true)
        .subcommand_required(true)
}

/// Which words a command of this kind takes. A fourth argument is taken of `run` too, and refused with its words.
fn form_of(kind: CommandKind) -> Form
    ensures { result ≡ form_of kind }
{
    match kind {
        CommandKind::Check => Form::Two { needed: false },
        CommandKind::Sim | CommandKind::Schedule(_) => Form::Two { needed: true },
        CommandKind::Algorithm(_) | CommandKind::Load => Form::One,
        CommandKind::Run => Form::Working { needed: false },
        CommandKind::Exec => Form::Working { needed: true },
        CommandKind::Dates => Form::Four { needed: true },
    }
}

/// The program with the command of this name and kind besides.
fn add<'a>(
    alloc: Global,
    app: Command<'a>,
    name: &'a str,
    kind: CommandKind,
) -> Result<Command<'a>, AllocError>
    ensures { IfOk result (λ c. app_of c ≡ with_subcommand (app_of app.entry) (row_app (name.entry.now, kind)).top) }
{
    let command = of_form(alloc, name, form_of(kind))?;
    app.subcommand(command)
}

/// The program with the commands of these rows.
fn with_commands<'a>(
    alloc: Global,
    rows: &[Row<'a, CommandKind>],
) -> Result<Command<'a>, AllocError>
    ensures { IfOk result (λ c. app_of c ≡ with_commands bare_app (map (λ r. (r.0.now, r.1)) rows.now)) }
{
    let mut app = bare(alloc);
    for row in rows {
        app = add(alloc, app, row.0, row.1)?;
    }
    Ok(app)
}

/// The program with all its commands.
fn command<'a>(alloc: Global) -> Result<Command<'a>, AllocError>
    ensures { IfOk result (λ c. app_of c ≡ the_app) }
{
    with_commands(alloc, &COMMANDS)
}

/// What is given in the words that were matched, or `None` where they have no command with an argument.
fn given_in<'a>(matches: &ArgMatches<'a>) -> Option<Given<'a>>
    ensures { (name a : Bytes) (b c d w : Option Bytes) (rs : List Row) →
        subcommand_rows_of matches.now ≡ Some (name, rs) → Tells rs a b c d w →
        IsSomeAnd result (Is name a b c d w) }
{
    let (name, inner) = matches.subcommand()?;
    let first = inner.get_str("first")?;
    let second = inner.get_str("second");
    let third = inner.get_str("third");
    let fourth = inner.get_str("fourth");
    let workers = inner.get_str("workers");
    Some(Given {
        name,
        first,
        second,
        third,
        fourth,
        workers,
    })
}

/// Whether an error of `clap` says that an allocation failed.
fn is_memory(error: &Error) -> bool
    ensures { result ≡ wants_memory (kind_of error.now) }
{
    match error.kind() {
        ErrorKind::OutOfMemory => true,
        _ => false,
    }
}

/// What is given in these words, of which the first is the program's name. `None` where they are
/// no command; `OutOfMemory` comes where an allocation fails.
pub fn given_words<'a>(alloc: Global, words: &'a [String]) -> Result<Option<Given<'a>>, OutOfMemory>
    ensures { IfOk result (Gives (map string_bytes words.entry.now)) }
{
    let command = command(alloc)?;
    match command.try_get_matches_from(words) {
        Ok(matches) => Ok(given_in(&matches)),
        Err(error) => {
            if is_memory(&error) {
                Err(OutOfMemory)
            } else {
                Ok(None)
            }
        }
    }
}
