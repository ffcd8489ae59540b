//! The lines of refused macro-code, by its text and by the check of its program; `say` writes them.
ghost use Rattle.std.specs.Prelude.{◌≡◌, is_ok};
ghost use Rattle.command_plan.specs.Sink.{Wrote};
ghost use Rattle.command_status.specs.Lines.{
  check_detail,
  check_head,
  check_line,
  check_word,
  code_detail,
  code_line,
  code_word,
  stop_text,
  stops_line,
};

use crate::line::{write_head, write_word};
use check_cause::{CheckCause, Stop};
use command_plan::{Failed, Sink, write_pieces, write_whole};
use itoa::Buffer;
use macro_code::{CodeCause, CodeFault};

/// Writes where a text of macro-code is refused, for which cause, and what stands after it.
pub fn write_code<E: Sink>(err: &mut E, fault: &CodeFault) -> Result<(), Failed>
    ensures { Wrote (E.sunk err.old) (E.sunk err.new) (code_line fault.now) (is_ok result) }
{
    let word = code_word(&fault.cause);
    write_head(err, b"code line ", u64::from(fault.line), word)?;
    write_code_detail(err, &fault.cause)
}

/// The number and the name of the cause for which a text of macro-code is refused.
fn code_word(cause: &CodeCause) -> &'static [u8]
    ensures { result.now ≡ code_word cause.now }
{
    match cause {
        CodeCause::BadLine => b"C1 BadLine",
        CodeCause::UnknownMacro(_) => b"C2 UnknownMacro",
        CodeCause::BadArgument => b"C3 BadArgument",
        CodeCause::UnknownName(_) => b"C4 UnknownName",
    }
}

/// Writes what stands after the cause's word.
fn write_code_detail<E: Sink>(err: &mut E, cause: &CodeCause) -> Result<(), Failed>
    ensures { Wrote (E.sunk err.old) (E.sunk err.new) (code_detail cause.now) (is_ok result) }
{
    match cause {
        CodeCause::BadLine | CodeCause::BadArgument => write_whole(err, b"\n"),
        CodeCause::UnknownMacro(word) | CodeCause::UnknownName(word) => {
            write_word(err, word.as_slice())
        }
    }
}

/// Writes for which cause a program fails its check, and what stands after it.
pub fn write_check<E: Sink>(err: &mut E, cause: &CheckCause) -> Result<(), Failed>
    ensures { Wrote (E.sunk err.old) (E.sunk err.new) (check_line cause.now) (is_ok result) }
{
    let word = check_word(cause);
    write_check_head(err, word)?;
    write_check_detail(err, cause)
}

/// Writes the head of a failed check with the word of its cause.
fn write_check_head<E: Sink>(err: &mut E, word: &[u8]) -> Result<(), Failed>
    ensures { Wrote (E.sunk err.old) (E.sunk err.new) (check_head word.now) (is_ok result) }
{
    write_pieces(err, &[b"code check: ", word])
}

/// The number and the name of the cause for which a program fails its check.
fn check_word(cause: &CheckCause) -> &'static [u8]
    ensures { result.now ≡ check_word cause.now }
{
    match cause {
        CheckCause::Sequences => b"K1 Sequences",
        CheckCause::Calls => b"K2 Calls",
        CheckCause::Transfers => b"K3 Transfers",
        CheckCause::Buffers => b"K4 Buffers",
        CheckCause::Pairs => b"K5 Pairs",
        CheckCause::Prologue => b"K6 Prologue",
        CheckCause::Stuck(_) => b"K7 Stuck",
    }
}

/// Writes the places at which the run of a program stops where there are any, and the end of the line.
fn write_check_detail<E: Sink>(err: &mut E, cause: &CheckCause) -> Result<(), Failed>
    ensures { Wrote (E.sunk err.old) (E.sunk err.new) (check_detail cause.now) (is_ok result) }
{
    match cause {
        CheckCause::Stuck(stops) => write_stops(err, stops.as_slice()),
        CheckCause::Sequences
        | CheckCause::Calls
        | CheckCause::Transfers
        | CheckCause::Buffers
        | CheckCause::Pairs
        | CheckCause::Prologue => write_whole(err, b"\n"),
    }
}

/// Writes the places at which sequences stop, and the end of the line.
fn write_stops<E: Sink>(err: &mut E, stops: &[Stop]) -> Result<(), Failed>
    ensures { Wrote (E.sunk err.old) (E.sunk err.new) (stops_line stops.now) (is_ok result) }
{
    for stop in stops {
        write_stop(err, stop)?;
    }
    write_whole(err, b"\n")
}

/// Writes the place at which one sequence stops.
fn write_stop<E: Sink>(err: &mut E, stop: &Stop) -> Result<(), Failed>
    ensures { Wrote (E.sunk err.old) (E.sunk err.new) (stop_text stop.now) (is_ok result) }
{
    let mut first = Buffer::new();
    let mut second = Buffer::new();
    let sequence = first.format(stop.sequence).as_bytes();
    let at = second.format(stop.at).as_bytes();
    write_pieces(err, &[b" ", sequence, b".", at])
}
