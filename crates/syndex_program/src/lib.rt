//! Carries out the commands, from the bytes of the files to the bytes of the output. `syndex` is
//! the top call and carries out every command; `plain_command` carries out those that run no job,
//! without a thread.
#![tactic(auto)]

ghost use Rattle.std.specs.Prelude.{◌≡◌, map, IfSome, Some};
ghost use Rattle.std.specs.String.{string_bytes};
ghost use Rattle.command_words.specs.Command.{command_of};
ghost use Rattle.top_plans.specs.Lines.{line_of, Said};
ghost use Rattle.top_plans.specs.Status.{ending_of};
ghost use Rattle.top_plans.specs.Shelf.{Stays};
ghost use Rattle.top_plans.specs.Replies.{PlainReplies, Replies};
ghost use Rattle.top_plans.specs.Values.{WritesValues};
ghost use Rattle.syndex_program.specs.Plainly.{RepliesOrLeaves, ending_in};
ghost use Rattle.syndex_program.specs.Unread.{LeavesUnread};

use crate::commands::{carry_out, carry_out_plain};
use command_words::command_of;
use job_windows::Drive;
use std::alloc::Global;
use std::sync::Wait;
use std::thread::Threads;
use top_plans::{
    Gate, Shelf, Sink, commands_reply, plain_commands_reply, report, values_are_written,
};
use word_table::Driven;

mod commands;
mod execution;
mod lines;
mod windows;

pub use top_plans::Status;

/// Every command that starts no thread. It answers how the command of the words ended, and writes
/// its line to `err`; what happens there changes no status. It answers None exactly for a command that
/// runs jobs, `run`, `load` and `exec`, and nothing was read or written then. Nothing is read or written for
/// words that are no command. Done of `sim` means that the lines of the output are exactly what the actuators
/// of the algorithm take. It always returns.
pub fn plain_command<S: Shelf, K: Sink, E: Sink>(
    alloc: Global,
    words: &[String],
    shelf: &mut S,
    out: &mut K,
    err: &mut E,
) -> Option<Status>
    ensures replies { PlainReplies (command_of (map string_bytes words.now)) (S.held shelf.old)
        (S.held shelf.new) (K.sunk out.old) (K.sunk out.new) (E.sunk err.old) (E.sunk err.new)
        (ending_in result) }
    ensures values { result ≡ Some Status.Done → WritesValues (S.held shelf.old).told (K.sunk out.old).told
        (K.sunk out.new).told (map string_bytes words.now) }
    ensures line { IfSome result (λ status. Said (line_of status) (E.sunk err.old) (E.sunk err.new)) }
    ensures stays { Stays (S.held shelf.old) (S.held shelf.new) }
    ensures unread { LeavesUnread (command_of (map string_bytes words.now)) (S.held shelf.old) (S.held shelf.new) }
{
    values_are_written();
    match plain_ending(alloc, words, shelf, out) {
        Some(status) => Some(report(err, status)),
        None => None,
    }
}

/// The top call: the command of the words, from the files of the shelf to the output, with its line
/// on `err`. For `run`, `load` and `exec` threads are started and waited for by `rt`, and the gate is asked before
/// each step; `driven` keeps what was driven. Done of `sim`, `run` and `exec` means that the last lines of the output
/// are exactly what the actuators of the algorithm take.
pub fn syndex<R: Threads + Wait + Sync, S: Shelf, K: Sink, E: Sink, G: Gate>(
    rt: &R,
    alloc: Global,
    words: &[String],
    shelf: &mut S,
    out: &mut K,
    err: &mut E,
    gate: &G,
    driven: &mut Driven,
) -> Status
    ensures replies { Replies (command_of (map string_bytes words.now)) (S.held shelf.old)
        (S.held shelf.new) (K.sunk out.old) (K.sunk out.new) driven.old driven.new
        (ending_of result) }
    ensures values { result ≡ Status.Done → WritesValues (S.held shelf.old).told (K.sunk out.old).told
        (K.sunk out.new).told (map string_bytes words.now) }
    ensures line { Said (line_of result) (E.sunk err.old) (E.sunk err.new) }
    ensures stays { Stays (S.held shelf.old) (S.held shelf.new) }
    ensures unread { LeavesUnread (command_of (map string_bytes words.now)) (S.held shelf.old) (S.held shelf.new) }
{
    values_are_written();
    let drive = Drive { rt, gate };
    let status = ending(alloc, words, shelf, out, &drive, driven);
    report(err, status)
}

/// How the command of the words ended; None for one that runs jobs.
fn plain_ending<S: Shelf, K: Sink>(
    alloc: Global,
    words: &[String],
    shelf: &mut S,
    out: &mut K,
) -> Option<Status>
    ensures replies { RepliesOrLeaves (command_of (map string_bytes words.now)) (S.held shelf.old)
        (S.held shelf.new) (K.sunk out.old) (K.sunk out.new) result }
    ensures stays { Stays (S.held shelf.old) (S.held shelf.new) }
    ensures unread { LeavesUnread (command_of (map string_bytes words.now)) (S.held shelf.old) (S.held shelf.new) }
{
    plain_commands_reply();
    match command_of(alloc, words) {
        Ok(Some(command)) => carry_out_plain(alloc, &command, shelf, out),
        Ok(None) => Some(Status::Usage),
        Err(_) => Some(Status::OutOfMemory),
    }
}

/// How the command of the words ended, whichever it is.
fn ending<R: Threads + Wait + Sync, S: Shelf, K: Sink, G: Gate>(
    alloc: Global,
    words: &[String],
    shelf: &mut S,
    out: &mut K,
    drive: &Drive<R, G>,
    driven: &mut Driven,
) -> Status
    ensures replies { Replies (command_of (map string_bytes words.now)) (S.held shelf.old)
        (S.held shelf.new) (K.sunk out.old) (K.sunk out.new) driven.old driven.new
        (ending_of result) }
    ensures stays { Stays (S.held shelf.old) (S.held shelf.new) }
    ensures unread { LeavesUnread (command_of (map string_bytes words.now)) (S.held shelf.old) (S.held shelf.new) }
{
    commands_reply();
    match command_of(alloc, words) {
        Ok(Some(command)) => carry_out(alloc, &command, shelf, out, drive, driven),
        Ok(None) => Status::Usage,
        Err(_) => Status::OutOfMemory,
    }
}
