//! The commands as `clap` is told of them. `given` matches words against them.
ghost use Rattle.std.specs.Prelude.{◌≡◌, IfOk, map, false};
ghost use Rattle.clap.specs.Simple.{app_of, with_rule, with_subcommand};
ghost use Rattle.clap.specs.declared.builder.command.Command.TheViews.{out-Command as fields_of};
ghost use Rattle.lab_words.specs.App.{
  algorithm_app,
  architecture_app,
  bare_app,
  dates_app,
  kind_app,
  lint_app,
  needed,
  option,
  optional,
  plot_app,
  report_app,
  schedule_app,
  searching,
  the_app,
  trace_app,
  why_app,
  with_commands,
};

use crate::table::{COMMANDS, CommandKind};
use clap::{Arg, Command};
use command_words::Row;
use std::alloc::{AllocError, Global};

/// A command that takes one plain argument more.
fn with_needed<'a>(
    alloc: Global,
    command: Command<'a>,
    id: &'a str,
) -> Result<Command<'a>, AllocError>
    requires { (fields_of command).has_globals ≡ false }
    ensures app { IfOk result (λ c. app_of c ≡
        with_rule (app_of command.entry) (needed id.entry.now)) }
    ensures local { IfOk result (λ c. (fields_of c).has_globals ≡ false) }
{
    command.arg(Arg::new(alloc, id).required(true))
}

/// A command that takes one plain argument more, which need not be there.
fn with_optional<'a>(
    alloc: Global,
    command: Command<'a>,
    id: &'a str,
) -> Result<Command<'a>, AllocError>
    requires { (fields_of command).has_globals ≡ false }
    ensures app { IfOk result (λ c. app_of c ≡
        with_rule (app_of command.entry) (optional id.entry.now)) }
    ensures local { IfOk result (λ c. (fields_of c).has_globals ≡ false) }
{
    command.arg(Arg::new(alloc, id))
}

/// A command that takes one option more, which is named as its value is.
fn with_option<'a>(
    alloc: Global,
    command: Command<'a>,
    id: &'a str,
) -> Result<Command<'a>, AllocError>
    requires { (fields_of command).has_globals ≡ false }
    ensures app { IfOk result (λ c. app_of c ≡
        with_rule (app_of command.entry) (option id.entry.now)) }
    ensures local { IfOk result (λ c. (fields_of c).has_globals ≡ false) }
{
    command.arg(Arg::new(alloc, id).long(id))
}

/// A command that takes the options of a search too.
fn searching<'a>(alloc: Global, command: Command<'a>) -> Result<Command<'a>, AllocError>
    requires { (fields_of command).has_globals ≡ false }
    ensures app { IfOk result (λ c. app_of c ≡ searching (app_of command.entry)) }
    ensures local { IfOk result (λ c. (fields_of c).has_globals ≡ false) }
{
    let command = with_option(alloc, command, "tries")?;
    let command = with_option(alloc, command, "seed")?;
    with_option(alloc, command, "for")
}

/// A command that takes the algorithm.
fn algorithm<'a>(alloc: Global, name: &'a str) -> Result<Command<'a>, AllocError>
    ensures app { IfOk result (λ c. app_of c ≡ algorithm_app name.entry.now) }
    ensures local { IfOk result (λ c. (fields_of c).has_globals ≡ false) }
{
    with_needed(alloc, Command::new(alloc, name), "algorithm")
}

/// A command that takes the algorithm and the architecture.
fn architecture<'a>(alloc: Global, name: &'a str) -> Result<Command<'a>, AllocError>
    ensures app { IfOk result (λ c. app_of c ≡ architecture_app name.entry.now) }
    ensures local { IfOk result (λ c. (fields_of c).has_globals ≡ false) }
{
    let command = algorithm(alloc, name)?;
    with_needed(alloc, command, "architecture")
}

/// A command that takes the algorithm, and the architecture if it is there.
fn lint<'a>(alloc: Global, name: &'a str) -> Result<Command<'a>, AllocError>
    ensures app { IfOk result (λ c. app_of c ≡ lint_app name.entry.now) }
    ensures local { IfOk result (λ c. (fields_of c).has_globals ≡ false) }
{
    let command = algorithm(alloc, name)?;
    with_optional(alloc, command, "architecture")
}

/// A command that takes the algorithm, the architecture and the macro-code.
fn why<'a>(alloc: Global, name: &'a str) -> Result<Command<'a>, AllocError>
    ensures app { IfOk result (λ c. app_of c ≡ why_app name.entry.now) }
    ensures local { IfOk result (λ c. (fields_of c).has_globals ≡ false) }
{
    let command = architecture(alloc, name)?;
    with_needed(alloc, command, "code")
}

/// A command that takes the algorithm and the sensor table.
fn plot<'a>(alloc: Global, name: &'a str) -> Result<Command<'a>, AllocError>
    ensures app { IfOk result (λ c. app_of c ≡ plot_app name.entry.now) }
    ensures local { IfOk result (λ c. (fields_of c).has_globals ≡ false) }
{
    let command = algorithm(alloc, name)?;
    with_needed(alloc, command, "sensors")
}

/// A command that takes the algorithm and the architecture, and options of the search.
fn schedule<'a>(alloc: Global, name: &'a str) -> Result<Command<'a>, AllocError>
    ensures app { IfOk result (λ c. app_of c ≡ schedule_app name.entry.now) }
    ensures local { IfOk result (λ c. (fields_of c).has_globals ≡ false) }
{
    let command = architecture(alloc, name)?;
    searching(alloc, command)
}

/// A command that takes the same, and the number of reactions if it is there.
fn report<'a>(alloc: Global, name: &'a str) -> Result<Command<'a>, AllocError>
    ensures app { IfOk result (λ c. app_of c ≡ report_app name.entry.now) }
    ensures local { IfOk result (λ c. (fields_of c).has_globals ≡ false) }
{
    let command = architecture(alloc, name)?;
    let command = with_optional(alloc, command, "reactions")?;
    searching(alloc, command)
}

/// A command that takes the arguments of dates, of which the last two need not be there, and options of the search.
fn trace<'a>(alloc: Global, name: &'a str) -> Result<Command<'a>, AllocError>
    ensures app { IfOk result (λ c. app_of c ≡ trace_app name.entry.now) }
    ensures local { IfOk result (λ c. (fields_of c).has_globals ≡ false) }
{
    let command = architecture(alloc, name)?;
    let command = with_optional(alloc, command, "durations")?;
    let command = with_optional(alloc, command, "reactions")?;
    searching(alloc, command)
}

/// A command that takes the four arguments of dates, and options of the search.
fn dates<'a>(alloc: Global, name: &'a str) -> Result<Command<'a>, AllocError>
    ensures app { IfOk result (λ c. app_of c ≡ dates_app name.entry.now) }
    ensures local { IfOk result (λ c. (fields_of c).has_globals ≡ false) }
{
    let command = architecture(alloc, name)?;
    let command = with_needed(alloc, command, "durations")?;
    let command = with_needed(alloc, command, "reactions")?;
    searching(alloc, command)
}

/// The command of this name and kind.
fn of_kind<'a>(alloc: Global, name: &'a str, kind: CommandKind) -> Result<Command<'a>, AllocError>
    ensures app { IfOk result (λ c. app_of c ≡ kind_app kind name.entry.now) }
    ensures local { IfOk result (λ c. (fields_of c).has_globals ≡ false) }
{
    match kind {
        CommandKind::Help => Ok(Command::new(alloc, name)),
        CommandKind::Algorithm(_) => algorithm(alloc, name),
        CommandKind::Lint => lint(alloc, name),
        CommandKind::Plot => plot(alloc, name),
        CommandKind::Why => why(alloc, name),
        CommandKind::Schedule(_) => schedule(alloc, name),
        CommandKind::Report => report(alloc, name),
        CommandKind::Trace => trace(alloc, name),
        CommandKind::Dates => dates(alloc, name),
    }
}

/// The program without its commands. Its help is a command like any other, and words without a command are refused.
fn bare<'a>(alloc: Global) -> Command<'a>
    ensures { app_of result ≡ bare_app }
{
    Command::new(alloc, "syndex_lab")
        .disable_help_flag(true)
        .disable_help_subcommand(true)
        .subcommand_required(true)
}

/// The program with the command of this name and kind besides.
fn add<'a>(
    alloc: Global,
    app: Command<'a>,
    name: &'a str,
    kind: CommandKind,
) -> Result<Command<'a>, AllocError>
    ensures { IfOk result (λ c. app_of c ≡
        with_subcommand (app_of app.entry) (kind_app kind name.entry.now).top) }
{
    let command = of_kind(alloc, name, kind)?;
    app.subcommand(command)
}

/// The program with the commands of these rows.
fn with_commands<'a>(
    alloc: Global,
    rows: &[Row<'a, CommandKind>],
) -> Result<Command<'a>, AllocError>
    ensures { IfOk result (λ c. app_of c ≡
        with_commands bare_app (map (λ r. (r.0.now, r.1)) rows.now)) }
{
    let mut app = bare(alloc);
    for row in rows {
        app = add(alloc, app, row.0, row.1)?;
    }
    Ok(app)
}

/// The program with all its commands.
pub fn command<'a>(alloc: Global) -> Result<Command<'a>, AllocError>
    ensures { IfOk result (λ c. app_of c ≡ the_app) }
{
    with_commands(alloc, &COMMANDS)
}
