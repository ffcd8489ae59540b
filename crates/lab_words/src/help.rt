//! The list of the commands for a reader.
ghost use Rattle.std.specs.Prelude.{[], ◌≡◌, ◌∷◌, ◌++◌, IfOk, OnOk, map};
ghost use Rattle.lab_words.specs.Help.{command_text, commands_text, help_text, lines_text, with_words};

use crate::table::{COMMANDS, CommandKind};
use command_words::Row;
use std::alloc::Global;
use syn_base::OutOfMemory;

/// The list of the commands, with what each of them takes and writes.
pub fn help_text(alloc: Global) -> Result<Vec<u8>, OutOfMemory>
    ensures { IfOk result (λ text. text.items ≡ help_text) }
{
    let mut text = Vec::new(alloc);
    append_lines(
        &mut text,
        &[
            "syndex_lab shows what syndex compiles, in forms that other tools show.",
            "",
        ],
    )?;
    append_commands(&mut text, &COMMANDS)?;
    append_lines(
        &mut text,
        &[
            "",
            "OPTIONS are --tries N, which searches a schedule by N tries, --seed S, which fixes its chances,",
            "and --for length or --for period, which says what the search makes small.",
            "The manual is docs/MANUAL.md.",
        ],
    )?;
    Ok(text)
}

/// Appends what a reader is told of these commands.
fn append_commands(text: &mut Vec<u8>, rows: &[Row<CommandKind>]) -> Result<(), OutOfMemory>
    ensures { OnOk result (text.new.items ≡ text.old.items ++
        commands_text (map (λ r. (r.0.now, r.2.now, r.3.now)) rows.now)) }
{
    for row in rows {
        append_command(text, row.0, row.2, row.3)?;
    }
    Ok(())
}

/// Appends how a command is called, and in a second line what it writes.
fn append_command(
    text: &mut Vec<u8>,
    name: &str,
    words: &str,
    line: &str,
) -> Result<(), OutOfMemory>
    ensures { OnOk result (text.new.items ≡ text.old.items ++ command_text (name.now, words.now, line.now)) }
{
    append(text, "  ")?;
    append_called(text, name, words)?;
    append(text, "\n      ")?;
    append_line(text, line)
}

/// Appends a name with the words after it, if there are any.
fn append_called(text: &mut Vec<u8>, name: &str, words: &str) -> Result<(), OutOfMemory>
    ensures { OnOk result (text.new.items ≡ text.old.items ++ with_words name.now words.now) }
{
    append(text, name)?;
    if !words.is_empty() {
        append(text, " ")?;
        append(text, words)?;
    }
    Ok(())
}

/// Appends words as they stand.
fn append(text: &mut Vec<u8>, words: &str) -> Result<(), OutOfMemory>
    ensures { OnOk result (text.new.items ≡ text.old.items ++ words.now) }
{
    text.extend_from_slice(words.as_bytes())?;
    Ok(())
}

/// Appends lines, each with its end.
fn append_lines(text: &mut Vec<u8>, lines: &[&str]) -> Result<(), OutOfMemory>
    ensures { OnOk result (text.new.items ≡ text.old.items ++
        lines_text (map (λ l. l.now) lines.now)) }
{
    for line in lines {
        append_line(text, line)?;
    }
    Ok(())
}

/// Appends a line with its end.
fn append_line(text: &mut Vec<u8>, line: &str) -> Result<(), OutOfMemory>
    ensures { OnOk result (text.new.items ≡ text.old.items ++ lines_text (line.now ∷ [])) }
{
    append(text, line)?;
    text.push(b'\n')?;
    Ok(())
}
