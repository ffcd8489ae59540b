//! The commands of `syndex_lab` from bytes to bytes, and the top call: `syndex_lab` carries out the command of the words.
//! No thread is started.
#![tactic(auto)]

ghost use Rattle.std.specs.Prelude.{◌≡◌, map};
ghost use Rattle.std.specs.String.{string_bytes};
ghost use Rattle.top_plans.specs.Lines.{line_of, Said};
ghost use Rattle.top_plans.specs.Status.{ending_of};
ghost use Rattle.top_plans.specs.Shelf.{Stays};
ghost use Rattle.lab_words.specs.Command.{command_of};
ghost use Rattle.lab_plans.specs.Replies.{LeavesUnread, Replies};

use crate::commands::carry_out;
use lab_plans::commands_reply;
use lab_words::command_of;
use std::alloc::Global;
use top_plans::{Shelf, Sink, report};

mod commands;
mod found;

pub use top_plans::Status;

/// The top call: the command of the words, from the files of the shelf to the output, with its line on `err`; what
/// happens there changes no status. Nothing is read for words that are no command. It always returns.
pub fn syndex_lab<S: Shelf, K: Sink, E: Sink>(
    alloc: Global,
    words: &[String],
    shelf: &mut S,
    out: &mut K,
    err: &mut E,
) -> Status
    ensures replies { Replies (command_of (map string_bytes words.now)) (S.held shelf.old)
        (S.held shelf.new) (K.sunk out.old) (K.sunk out.new) (ending_of result) }
    ensures line { Said (line_of result) (E.sunk err.old) (E.sunk err.new) }
    ensures stays { Stays (S.held shelf.old) (S.held shelf.new) }
    ensures unread { LeavesUnread (command_of (map string_bytes words.now)) (S.held shelf.old) (S.held shelf.new) }
{
    let status = ending(alloc, words, shelf, out);
    report(err, status)
}

/// How the command of the words ended.
fn ending<S: Shelf, K: Sink>(alloc: Global, words: &[String], shelf: &mut S, out: &mut K) -> Status
    ensures replies { Replies (command_of (map string_bytes words.now)) (S.held shelf.old)
        (S.held shelf.new) (K.sunk out.old) (K.sunk out.new) (ending_of result) }
    ensures stays { Stays (S.held shelf.old) (S.held shelf.new) }
    ensures unread { LeavesUnread (command_of (map string_bytes words.now)) (S.held shelf.old) (S.held shelf.new) }
{
    commands_reply();
    match command_of(alloc, words) {
        Ok(Some(command)) => carry_out(alloc, &command, shelf, out),
        Ok(None) => Status::Usage,
        Err(_) => Status::OutOfMemory,
    }
}
